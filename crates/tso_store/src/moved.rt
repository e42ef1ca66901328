//! Moves of kept states.

ghost use Rattle.std.specs.Prelude.{◌≡◌, ◌+◌, ◌<◌, ◌≤◌, ◌^◌, Err, IfOk, Some, length, map};
ghost use Rattle.std.specs.Option.{option_map};
ghost use Rattle.tso_flow.specs.Calls.{kind_of};
ghost use Rattle.tso_keys.specs.Keys.{Grows, IsKept, part_count, state_at};
ghost use Rattle.tso_keys.specs.Running.{AreRunning};
ghost use Rattle.tso_machine.specs.Activations.{activation};
ghost use Rattle.tso_machine.specs.Instructions.{next_action};
ghost use Rattle.tso_machine.specs.Kinds.{kind_of_action};
ghost use Rattle.tso_machine.specs.Machines.{entry_view};
ghost use Rattle.tso_move.specs.Parts.{begun_in, opened_in, own_buffer};
ghost use Rattle.tso_parts.specs.declared.refused.Refused.TheVariants as reasons;
ghost use Rattle.tso_prog.specs.Views.{call_view};
ghost use Rattle.tso_state.specs.Actors.{thread_of};
ghost use Rattle.tso_store.specs.Arriving.{AreOpened, IsBehind, IsMoveKey};
ghost use Rattle.tso_store.specs.Remembered.{AreKnown};
ghost use Rattle.tso_store.specs.declared.moved.Behind.TheVariants as behinds;

use crate::begun::begin_key;
use crate::known::Known;
use crate::stepped::step_key;
use std::alloc::{AllocError, Global};
use tso_compact::kind_with_buffer;
use tso_flow::{Checked, ProcedureKind};
use tso_foot::ArrayTable;
use tso_indep::buffer_in;
use tso_keys::{Key, Parts, Running, View};
use tso_line::CallKind;
use tso_list::Seq;
use tso_machine::{ActionKind, Entry, Frame, next_kind};
use tso_move::{begun_call, opened_frame};
use tso_parts::Refused;
use tso_prog::Client;
use tso_state::Actor;

/// How a move goes on behind the opening of a call.
#[derive(Clone, Copy, PartialEq, Eq)]
pub enum Behind {
    /// Not at all: the call is cut.
    Cut,
    /// There is no move: a fence or a locked instruction waits for the buffer.
    Waits,
    /// By a step.
    Steps,
}

// How a move goes on behind an opening that has led to this frame, with this buffer.
fn behind_of(client: &Client, kind: CallKind, frame: &Frame, buffer: &[Entry]) -> Behind
    ensures { IsBehind (map entry_view buffer.now) (kind_of_action (next_action client.now (activation (kind_of kind) frame.now))) result }
{
    match next_kind(client, ProcedureKind::from(kind), frame) {
        ActionKind::Cut => Behind::Cut,
        next => match kind_with_buffer(next, buffer) {
            Some(_) => Behind::Steps,
            None => Behind::Waits,
        },
    }
}

// The call that the actor's move begins in a kept state, if it begins one.
fn begun_at(
    checked: &Checked,
    parts: &Parts,
    running: &Seq<Running>,
    key: &Key,
    actor: Actor,
) -> Option<CallKind>
    requires kept { IsKept checked.now.client parts.now key.now }
    requires small { length parts.now.threads < 2 ^ 32 }
    requires running { AreRunning parts.now.histories running.now }
    ensures { option_map call_view result ≡ begun_in checked.now.client (state_at parts.now key.now) actor }
{
    match View::of_key(&checked.client, parts, running, key) {
        Some(view) => begun_call(checked, &view, actor),
        None => unreachable!(),
    }
}

// Where the opening of a call leads which a thread of a kept state begins, and how the move goes on there.
fn opened_at(
    alloc: Global,
    checked: &Checked,
    own: &ArrayTable,
    parts: &Parts,
    running: &Seq<Running>,
    key: &Key,
    thread: usize,
    call: CallKind,
) -> Result<(Frame, Behind), AllocError>
    requires kept { IsKept checked.now.client parts.now key.now }
    requires small { length parts.now.threads < 2 ^ 32 }
    requires running { AreRunning parts.now.histories running.now }
    ensures { IfOk result (λ r. AreOpened checked.now.client own.now (state_at parts.now key.now) thread call r.0 r.1) }
{
    let Some(view) = View::of_key(&checked.client, parts, running, key) else {
        unreachable!();
    };
    let frame = opened_frame(alloc, checked, own, &view, thread, call)?;
    let behind = behind_of(&checked.client, call, &frame, buffer_in(&view, thread));
    Ok((frame, behind))
}

// The key of the state after a call has begun, its opening has led to this frame, and the actor has made its step there, if it has one.
fn step_behind(
    alloc: Global,
    checked: &Checked,
    own: &ArrayTable,
    parts: &mut Parts,
    known: &mut Seq<Known>,
    running: &Seq<Running>,
    key: &Key,
    actor: Actor,
    call: CallKind,
    frame: Frame,
) -> Result<Option<Key>, Refused>
    requires kept { IsKept checked.now.client parts.old key.now }
    requires small { length parts.old.threads < 2 ^ 32 }
    requires known { AreKnown checked.now.client parts.old.threads known.old }
    requires running { AreRunning parts.old.histories running.now }
    requires begins { begun_in checked.now.client (state_at parts.old key.now) actor ≡ Some (call_view call) }
    requires opened { AreOpened checked.now.client own.now (state_at parts.old key.now) (thread_of actor) call frame behinds.Steps }
    ensures moves { IfOk result (IsMoveKey checked.now.client own.now parts.old key.now actor parts.new) }
    ensures grows { Grows parts.old parts.new }
    ensures more { part_count parts.new ≤ part_count parts.old + 5 }
    ensures full { result ≡ Err reasons.Full → 4294967295 ≤ part_count parts.new }
    ensures known { AreKnown checked.now.client parts.new.threads known.new }
{
    let opened = begin_key(parts, key, actor.thread(), call, frame)?;
    step_key(
        alloc,
        &checked.client,
        parts,
        known,
        running,
        &opened,
        actor,
    )
}

// The key of the state after the move of an idle thread that begins this call, if it has one.
fn begin_move(
    alloc: Global,
    checked: &Checked,
    own: &ArrayTable,
    parts: &mut Parts,
    known: &mut Seq<Known>,
    running: &Seq<Running>,
    key: &Key,
    actor: Actor,
    call: CallKind,
) -> Result<Option<Key>, Refused>
    requires kept { IsKept checked.now.client parts.old key.now }
    requires small { length parts.old.threads < 2 ^ 32 }
    requires known { AreKnown checked.now.client parts.old.threads known.old }
    requires running { AreRunning parts.old.histories running.now }
    requires begins { begun_in checked.now.client (state_at parts.old key.now) actor ≡ Some (call_view call) }
    ensures moves { IfOk result (IsMoveKey checked.now.client own.now parts.old key.now actor parts.new) }
    ensures grows { Grows parts.old parts.new }
    ensures more { part_count parts.new ≤ part_count parts.old + 5 }
    ensures full { result ≡ Err reasons.Full → 4294967295 ≤ part_count parts.new }
    ensures known { AreKnown checked.now.client parts.new.threads known.new }
{
    let thread = actor.thread();
    let (frame, behind) = opened_at(alloc, checked, own, parts, running, key, thread, call)?;
    match behind {
        Behind::Waits => {
            drop(frame);
            Ok(None)
        }
        Behind::Cut => {
            let opened = begin_key(parts, key, thread, call, frame)?;
            Ok(Some(opened))
        }
        Behind::Steps => step_behind(
            alloc, checked, own, parts, known, running, key, actor, call, frame,
        ),
    }
}

/// The key of the state after the actor's move, if it has one, by the least table of arrays.
pub fn move_key(
    alloc: Global,
    checked: &Checked,
    own: &ArrayTable,
    parts: &mut Parts,
    known: &mut Seq<Known>,
    running: &Seq<Running>,
    key: &Key,
    actor: Actor,
) -> Result<Option<Key>, Refused>
    requires kept { IsKept checked.now.client parts.old key.now }
    requires small { length parts.old.threads < 2 ^ 32 }
    requires known { AreKnown checked.now.client parts.old.threads known.old }
    requires running { AreRunning parts.old.histories running.now }
    ensures moves { IfOk result (IsMoveKey checked.now.client own.now parts.old key.now actor parts.new) }
    ensures grows { Grows parts.old parts.new }
    ensures more { part_count parts.new ≤ part_count parts.old + 5 }
    ensures full { result ≡ Err reasons.Full → 4294967295 ≤ part_count parts.new }
    ensures known { AreKnown checked.now.client parts.new.threads known.new }
{
    match begun_at(checked, parts, running, key, actor) {
        None => step_key(alloc, &checked.client, parts, known, running, key, actor),
        Some(call) => begin_move(alloc, checked, own, parts, known, running, key, actor, call),
    }
}
