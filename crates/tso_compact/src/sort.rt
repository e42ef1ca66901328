//! What kind of step an actor has. No step is made for that.

ghost use Rattle.std.specs.Prelude.{◌≡◌, is_some, map};
ghost use Rattle.std.specs.Option.{option_map};
ghost use Rattle.tso_compact.specs.Clauses.{core_kind_in, drain_move_of};
ghost use Rattle.tso_compact.specs.Plans.{kind_of_call, kind_of_move, kind_with_buffer};
ghost use Rattle.tso_flow.specs.declared.location.ProcedureKind.{ProcedureKind as AProcedure};
ghost use Rattle.tso_machine.specs.Machines.{entry_view};
ghost use Rattle.tso_machine.specs.Programs.{program_of};
ghost use Rattle.tso_model.specs.Prologue.{next_call};
ghost use Rattle.tso_model.specs.Steps.{move, step, when_empty};
ghost use Rattle.tso_state.specs.Actors.{actor_of};
ghost use Rattle.tso_state.specs.Views.{state_of};

use crate::plan::next_call;
use tso_flow::Checked;
use tso_machine::{ActionKind, Entry, next_kind};
use tso_prog::Client;
use tso_state::{Actor, Core, Thread, Viewed};

/// What a step has to do with memory and with calls. A place is the position of a word in memory.
#[derive(Clone, Copy, Debug, PartialEq, Eq)]
pub enum StepKind {
    /// Neither: registers, jumps, assertions, faults, fences, and stores, which go into the own buffer.
    Local,
    /// A load of this place, also one that the own buffer serves.
    Load(usize),
    /// The oldest entry of a buffer goes to this place.
    Drain(usize),
    /// A locked instruction reads and writes this place.
    Locked(usize),
    /// A call begins.
    Call,
    /// A call returns.
    Return,
}

// The kind of a step, if nothing is buffered.
fn if_empty(buffer: &[Entry], kind: StepKind) -> Option<StepKind>
    ensures { result ≡ when_empty (map entry_view buffer.now) kind }
{
    match buffer {
        [] => Some(kind),
        _ => None,
    }
}

/// The kind of the step of a running call with this buffer, whose next instruction is of this kind; none of a fence or a locked
/// instruction that waits for the buffer, and of a call that is cut.
pub fn kind_with_buffer(kind: ActionKind, buffer: &[Entry]) -> Option<StepKind>
    ensures { result ≡ kind_with_buffer (map entry_view buffer.now) kind }
{
    match kind {
        ActionKind::Local => Some(StepKind::Local),
        ActionKind::Load(place) => Some(StepKind::Load(place)),
        ActionKind::Barrier => if_empty(buffer, StepKind::Local),
        ActionKind::Locked(place) => if_empty(buffer, StepKind::Locked(place)),
        ActionKind::Return => Some(StepKind::Return),
        ActionKind::Cut => None,
    }
}

// The kind of the step of an idle thread's core, if the thread may begin a call.
fn call_kind<S: Viewed>(client: &Client, state: &S, number: usize) -> Option<StepKind>
    ensures { result ≡ kind_of_call (next_call (program_of client.now) (state_of (S.state state.now)) number) }
{
    match next_call(client, state, number) {
        Some(_) => Some(StepKind::Call),
        None => None,
    }
}

// The kind of the step of a core, that of thread `number`.
fn core_kind<S: Viewed>(
    client: &Client,
    state: &S,
    number: usize,
    thread: &Thread,
) -> Option<StepKind>
    ensures { result ≡ core_kind_in client.now (S.state state.now) number thread.now }
{
    match &thread.core {
        Core::Idle => call_kind(client, state, number),
        Core::Running(frame) => {
            let procedure = state.procedure(number);
            kind_with_buffer(
                next_kind(client, procedure, frame),
                thread.buffer.as_slice(),
            )
        }
        Core::Stopped => None,
    }
}

// The kind of the step of a buffer.
fn drain_kind(thread: &Thread) -> Option<StepKind>
    ensures { (name : AProcedure) → result ≡ option_map kind_of_move (drain_move_of name thread.now) }
{
    match thread.buffer.as_slice() {
        [] => None,
        [entry, ..] => Some(StepKind::Drain(entry.place)),
    }
}

/// The kind of the actor's step, if it has one. It takes no memory.
pub fn kind<S: Viewed>(checked: &Checked, state: &S, actor: Actor) -> Option<StepKind>
    ensures { result ≡ option_map kind_of_move (move (program_of checked.now.client) (state_of (S.state state.now)) (actor_of actor)) }
{
    let number = actor.thread();
    let thread = state.thread(number)?;
    match actor {
        Actor::Exec(_) => core_kind(&checked.client, state, number, thread),
        Actor::Drain(_) => drain_kind(thread),
    }
}

/// Whether the actor has a step. It takes no memory.
pub fn enabled<S: Viewed>(checked: &Checked, state: &S, actor: Actor) -> bool
    ensures { result ≡ is_some (step (program_of checked.now.client) (state_of (S.state state.now)) (actor_of actor)) }
{
    kind(checked, state, actor).is_some()
}
