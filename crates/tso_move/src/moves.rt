//! Moves of whole states.

ghost use Rattle.std.specs.Prelude.{◌≡◌, ◌<◌, [], Err, IfOk, MatchBool, Some, length, slice_index_or, slice_set};
ghost use Rattle.tso_compact.specs.Plans.{HasHistories};
ghost use Rattle.tso_compact.specs.declared.fault.StepError.TheVariants as errors;
ghost use Rattle.tso_crossing.specs.Moves.{opening};
ghost use Rattle.tso_flow.specs.Calls.{kind_of};
ghost use Rattle.tso_hist.specs.Views.{history_view};
ghost use Rattle.tso_machine.specs.Activations.{activation};
ghost use Rattle.tso_machine.specs.Instructions.{next_action};
ghost use Rattle.tso_model.specs.Programs.{Cut};
ghost use Rattle.tso_model.specs.States.{Began, logged};
ghost use Rattle.tso_model.specs.Steps.{perform};
ghost use Rattle.tso_move.specs.Parts.{begun_in, own_buffer};
ghost use Rattle.tso_move.specs.Runs.{HasMove, IsMove};
ghost use Rattle.tso_prog.specs.Views.{call_view};
ghost use Rattle.tso_state.specs.Views.{state_of};
ghost use Rattle.tso_state.specs.declared.state.Core.TheVariants as cores;

use crate::parts::{begun_call, opened_frame};
use std::alloc::{AllocError, Global};
use tso_compact::{StepError, memory_with, step};
use tso_flow::{Checked, ProcedureKind};
use tso_foot::ArrayTable;
use tso_hist::History;
use tso_line::CallKind;
use tso_list::Seq;
use tso_machine::{ActionKind, Frame, next_kind};
use tso_prog::Client;
use tso_state::{Actor, Core, State, Thread};

// Whether a call of this kind is cut in this frame.
fn is_cut(client: &Client, kind: CallKind, frame: &Frame) -> bool
    ensures { MatchBool result (next_action client.now (activation (kind_of kind) frame.now) ≡ Cut) (next_action client.now (activation (kind_of kind) frame.now) ≡ Cut → ⊥) }
{
    next_kind(client, ProcedureKind::from(kind), frame) == ActionKind::Cut
}

// The threads, one of which runs a call in this frame.
fn with_frame(threads: &Seq<Thread>, number: usize, frame: Frame) -> Result<Seq<Thread>, AllocError>
    requires { number < length threads.now }
    ensures { IfOk result (λ ts. ts ≡ slice_set threads.now number (record { core = cores.Running frame; buffer = (slice_index_or threads.now number (record { core = cores.Idle; buffer = [] })).buffer })) }
{
    let mut copy = threads.clone()?;
    copy.at_mut(number).core = Core::Running(frame);
    Ok(copy)
}

// The history with a call that begins.
fn with_call(history: &History, number: usize, kind: CallKind) -> Result<History, AllocError>
    ensures { IfOk result (λ h. history_view h ≡ logged (history_view history.now) number (Began (call_view kind))) }
{
    let mut copy = history.clone()?;
    copy.on_call(number, kind)?;
    Ok(copy)
}

// The state in which a thread's call has begun, and its opening has led to this frame.
fn begun(state: &State, number: usize, kind: CallKind, frame: Frame) -> Result<State, AllocError>
    requires there { number < length state.now.threads }
    requires lists { HasHistories state.now }
    ensures lists { IfOk result HasHistories }
    ensures is { IfOk result (λ s. state_of s ≡ perform (state_of state.now) number (opening (own_buffer state.now number) (call_view kind) (activation (kind_of kind) frame))) }
{
    let threads = with_frame(&state.threads, number, frame)?;
    let history = with_call(&state.history, number, kind)?;
    let memory = memory_with(&state.memory, None)?;
    Ok(State {
        memory,
        threads,
        history,
    })
}

// The state after the move of an idle thread that begins this call.
fn begin(
    alloc: Global,
    checked: &Checked,
    own: &ArrayTable,
    state: &State,
    actor: Actor,
    kind: CallKind,
) -> Result<State, StepError>
    requires lists { HasHistories state.now }
    requires begins { begun_in checked.now.client state.now actor ≡ Some (call_view kind) }
    ensures ok { IfOk result (IsMove checked.now.client own.now state.now actor) }
    ensures disabled { result ≡ Err errors.Disabled → HasMove checked.now.client own.now state.now actor → ⊥ }
{
    let frame = opened_frame(alloc, checked, own, state, actor.thread(), kind)?;
    let is_cut = is_cut(&checked.client, kind, &frame);
    let opened = begun(state, actor.thread(), kind, frame)?;
    if is_cut {
        Ok(opened)
    } else {
        step(alloc, checked, &opened, actor)
    }
}

/// The state after the actor's move, by the least table of arrays. There must be a list of calls for each thread, as in every
/// well-formed state.
///
/// Errors: `Disabled` only where the actor has no move; `Memory` where an allocation failed.
pub fn late_move(
    alloc: Global,
    checked: &Checked,
    own: &ArrayTable,
    state: &State,
    actor: Actor,
) -> Result<State, StepError>
    requires { HasHistories state.now }
    ensures ok { IfOk result (IsMove checked.now.client own.now state.now actor) }
    ensures disabled { result ≡ Err errors.Disabled → HasMove checked.now.client own.now state.now actor → ⊥ }
{
    match begun_call(checked, state, actor) {
        None => step(alloc, checked, state, actor),
        Some(kind) => begin(alloc, checked, own, state, actor, kind),
    }
}
