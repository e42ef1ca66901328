//! What an actor does next in a state.

ghost use Rattle.std.specs.Prelude.{◌≡◌, ◌<◌, ℕ, List, length, map, slice_get, slice_index_or, Some, [], IfSome};
ghost use Rattle.std.specs.Option.{option_map};
ghost use Rattle.tso_compact.specs.Clauses.{is_over_in, may_begin_in, move_in, HasLabelsIn};
ghost use Rattle.tso_compact.specs.Motions.{Fits};
ghost use Rattle.tso_compact.specs.Plans.{motion_view, thread_in};
ghost use Rattle.tso_flow.specs.declared.location.ProcedureKind.{ProcedureKind as AProcedure};
ghost use Rattle.tso_machine.specs.Programs.{program_of};
ghost use Rattle.tso_model.specs.Prologue.{is_thread_over, may_begin, is_resting, next_call};
ghost use Rattle.tso_model.specs.StepLabels.{labels_of};
ghost use Rattle.tso_model.specs.States.{begun_by};
ghost use Rattle.tso_model.specs.Steps.{move, step};
ghost use Rattle.tso_prog.specs.Views.{call_view};
ghost use Rattle.tso_state.specs.Actors.{actor_of, thread_of};
ghost use Rattle.tso_state.specs.Views.{core_view, state_of, thread_view};

use crate::motion::{Motion, core_motion, drain_motion};
use tso_machine::call_at;
use tso_prog::{CallKind, Client};
use tso_state::{Actor, Core, Thread, Viewed};

fn is_idle(core: &Core) -> bool
    ensures { (name : AProcedure) → result ≡ is_resting (core_view name core.now) }
{
    matches!(core, Core::Idle)
}

// Whether a thread is idle, with no call left and nothing buffered.
fn is_over<S: Viewed>(client: &Client, state: &S, number: usize, thread: &Thread) -> bool
    ensures { (name : AProcedure) → result ≡ is_over_in client.now (S.state state.now) number name thread.now }
{
    is_idle(&thread.core)
        && call_at(client, number, state.begun(number)).is_none()
        && thread.buffer.is_empty()
}

// Whether a thread's calls need not wait for the prologue's.
fn may_begin<S: Viewed>(client: &Client, state: &S, thread: usize) -> bool
    ensures { result ≡ may_begin_in client.now (S.state state.now) thread }
{
    let prologue = client.threads.len();
    if client.prologue.is_empty() || thread == prologue {
        return true;
    }
    match state.thread(prologue) {
        Some(first) => is_over(client, state, prologue, first),
        None => true,
    }
}

/// The call that a thread may begin next, were it idle.
pub fn next_call<S: Viewed>(client: &Client, state: &S, thread: usize) -> Option<CallKind>
    ensures { option_map call_view result ≡ next_call (program_of client.now) (state_of (S.state state.now)) thread }
{
    if may_begin(client, state, thread) {
        call_at(client, thread, state.begun(thread))
    } else {
        None
    }
}

/// What the actor does next: exactly the model's move, if it has one.
pub fn planned<S: Viewed>(client: &Client, state: &S, actor: Actor) -> Option<Motion>
    ensures is { option_map (motion_view (S.state state.now) (thread_of actor)) result ≡ move_in client.now (S.state state.now) actor }
    ensures there { IfSome result (λ m. thread_of actor < length (S.state state.now).threads) }
    ensures fits { IfSome result (Fits (thread_in (S.state state.now) (thread_of actor))) }
    ensures labels { HasLabelsIn client.now (S.state state.now) actor result }
{
    let number = actor.thread();
    let thread = state.thread(number)?;
    match actor {
        Actor::Exec(_) => {
            let procedure = state.procedure(number);
            core_motion(client, procedure, next_call(client, state, number), thread)
        }
        Actor::Drain(_) => drain_motion(thread),
    }
}
