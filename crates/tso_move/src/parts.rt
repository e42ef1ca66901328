//! What a move has to do with memory and with calls. No move is made for that, but the opening of a call that begins.

ghost use Rattle.std.specs.Prelude.{◌≡◌, IfOk, IfSome, Some, map};
ghost use Rattle.std.specs.Option.{option_map};
ghost use Rattle.tso_compact.specs.Plans.{thread_in};
ghost use Rattle.tso_flow.specs.Calls.{kind_of};
ghost use Rattle.tso_indep.specs.Reasons.{kind_in};
ghost use Rattle.tso_machine.specs.Activations.{activation};
ghost use Rattle.tso_machine.specs.Instructions.{next_action};
ghost use Rattle.tso_machine.specs.Kinds.{kind_of_action};
ghost use Rattle.tso_machine.specs.Machines.{entry_view};
ghost use Rattle.tso_move.specs.Own.{written_beside};
ghost use Rattle.tso_move.specs.Parts.{begun_in, begun_kinds, one_kind, opened_in, opened_kinds, part_kinds, parts_of};
ghost use Rattle.tso_prog.specs.Views.{call_view};

use crate::openings::{Sight, opening};
use crate::own::Own;
use std::alloc::{AllocError, Global};
use tso_compact::{StepKind, kind, kind_with_buffer, next_call};
use tso_flow::{Checked, ProcedureKind};
use tso_foot::ArrayTable;
use tso_indep::buffer_in;
use tso_line::CallKind;
use tso_machine::{ActionKind, Entry, Frame, next_kind};
use tso_prog::Client;
use tso_state::{Actor, Core, Viewed};

/// What a move has to do with memory and with calls.
#[derive(Clone, Copy, Debug, PartialEq, Eq)]
pub enum MoveKind {
    /// A step of this kind.
    Step(StepKind),
    /// A call begins and goes through its opening. Then it is cut, or makes a step of this kind.
    Begin(Option<StepKind>),
}

/// The call that the actor's move begins, if it begins one. It takes no memory.
pub fn begun_call<S: Viewed>(checked: &Checked, state: &S, actor: Actor) -> Option<CallKind>
    ensures { option_map call_view result ≡ begun_in checked.now.client (S.state state.now) actor }
{
    let Actor::Exec(number) = actor else {
        return None;
    };
    match &state.thread(number)?.core {
        Core::Idle => next_call(&checked.client, state, number),
        Core::Running(_) | Core::Stopped => None,
    }
}

// What an opening of a thread of the state sees.
fn sight_of<'a, S: Viewed>(
    checked: &'a Checked,
    own: &ArrayTable,
    state: &'a S,
    thread: usize,
) -> Sight<'a>
    ensures own { result.own.arrays.now ≡ checked.now.client.arrays }
    ensures written { result.own.written ≡ written_beside checked.now.client own.now thread }
    ensures buffer { result.buffer.now ≡ (thread_in (S.state state.now) thread).buffer }
    ensures memory { result.memory.now ≡ (S.state state.now).memory }
{
    Sight {
        own: Own::of_thread(checked, own, thread),
        buffer: buffer_in(state, thread),
        memory: state.memory(),
    }
}

/// Where the opening of this call leads, if a thread of the state begins it: the frame at the instruction that the opening stops before.
///
/// Errors: out of memory.
pub fn opened_frame<S: Viewed>(
    alloc: Global,
    checked: &Checked,
    own: &ArrayTable,
    state: &S,
    thread: usize,
    call: CallKind,
) -> Result<Frame, AllocError>
    ensures { IfOk result (λ f. activation (kind_of call) f ≡ opened_in checked.now.client own.now (S.state state.now) thread (call_view call)) }
{
    let sight = sight_of(checked, own, state, thread);
    opening(alloc, checked, &sight, call)
}

// What the move of a call has to do with them whose opening has led to this frame, with this buffer, if the thread can move.
fn opened_kind(
    client: &Client,
    procedure: ProcedureKind,
    frame: &Frame,
    buffer: &[Entry],
) -> Option<MoveKind>
    ensures { option_map parts_of result ≡ opened_kinds (map entry_view buffer.now) (kind_of_action (next_action client.now (activation procedure frame.now))) }
{
    match next_kind(client, procedure, frame) {
        ActionKind::Cut => Some(MoveKind::Begin(None)),
        next => {
            let step = kind_with_buffer(next, buffer)?;
            Some(MoveKind::Begin(Some(step)))
        }
    }
}

// What the actor's step has to do with them, if it has one.
fn stepped_kind<S: Viewed>(checked: &Checked, state: &S, actor: Actor) -> Option<MoveKind>
    ensures { option_map parts_of result ≡ option_map one_kind (kind_in checked.now.client (S.state state.now) actor) }
{
    Some(MoveKind::Step(kind(checked, state, actor)?))
}

// What the move of an idle thread that begins this call has to do with them, if the thread can move.
fn begun_kind<S: Viewed>(
    alloc: Global,
    checked: &Checked,
    own: &ArrayTable,
    state: &S,
    thread: usize,
    call: CallKind,
) -> Result<Option<MoveKind>, AllocError>
    ensures { IfOk result (λ found. option_map parts_of found ≡ begun_kinds checked.now.client own.now (S.state state.now) thread (call_view call)) }
{
    let frame = opened_frame(alloc, checked, own, state, thread, call)?;
    let procedure = ProcedureKind::from(call);
    let buffer = buffer_in(state, thread);
    let found = opened_kind(&checked.client, procedure, &frame, buffer);
    drop(frame);
    Ok(found)
}

/// What the actor's move has to do with memory and with calls, if it has one, by the least table of arrays.
///
/// Errors: out of memory, while it follows an opening.
pub fn move_kind<S: Viewed>(
    alloc: Global,
    checked: &Checked,
    own: &ArrayTable,
    state: &S,
    actor: Actor,
) -> Result<Option<MoveKind>, AllocError>
    ensures { IfOk result (λ found. option_map parts_of found ≡ part_kinds checked.now.client own.now (S.state state.now) actor) }
{
    match begun_call(checked, state, actor) {
        None => Ok(stepped_kind(checked, state, actor)),
        Some(call) => begun_kind(alloc, checked, own, state, actor.thread(), call),
    }
}
