//! Steps of whole states.

ghost use Rattle.std.specs.Prelude.{◌≡◌, ◌<◌, ◌↔◌, IfOk, Err, length, slice_set};
ghost use Rattle.tso_compact.specs.Motions.{log_of, memory_with, Fits};
ghost use Rattle.tso_compact.specs.Plans.{motion_view, thread_in, HasHistories, HasStep, IsStep};
ghost use Rattle.tso_compact.specs.declared.fault.StepError.TheVariants as errors;
ghost use Rattle.tso_hist.specs.Views.{history_view};
ghost use Rattle.tso_model.specs.States.{logged};
ghost use Rattle.tso_model.specs.Steps.{perform};
ghost use Rattle.tso_state.specs.Views.{state_of};

use crate::effect::{thread_after, word_read, written};
use crate::fault::StepError;
use crate::motion::Motion;
use crate::plan::planned;
use std::alloc::{AllocError, Global};
use tso_flow::Checked;
use tso_hist::History;
use tso_list::Seq;
use tso_machine::Entry;
use tso_state::{Actor, State, Thread};

/// A copy of a memory with an entry written, if there is one. Where there is no such place, the copy is the memory.
#[tactic(auto, using(std::proofs::lemmas::List::set_past))]
pub fn memory_with(memory: &Seq<u64>, entry: Option<Entry>) -> Result<Seq<u64>, AllocError>
    ensures { IfOk result (λ m. m ≡ memory_with memory.now entry) }
{
    let mut copy = memory.clone()?;
    if let Some(entry) = entry {
        if entry.place < copy.len() {
            *copy.at_mut(entry.place) = entry.word;
        }
    }
    Ok(copy)
}

// The threads, one of them replaced.
fn with_thread(
    threads: &Seq<Thread>,
    number: usize,
    thread: Thread,
) -> Result<Seq<Thread>, AllocError>
    requires { number < length threads.now }
    ensures { IfOk result (λ ts. ts ≡ slice_set threads.now number thread) }
{
    let mut copy = threads.clone()?;
    *copy.at_mut(number) = thread;
    Ok(copy)
}

/// A copy of a history with what the step of a thread writes into it.
pub fn history_after(
    history: &History,
    thread: usize,
    motion: Motion,
) -> Result<History, AllocError>
    ensures { IfOk result (λ h. history_view h ≡ logged (history_view history.now) thread (log_of motion)) }
{
    let mut copy = history.clone()?;
    match motion {
        Motion::Begin { kind, .. } => copy.on_call(thread, kind)?,
        Motion::Return(answer) => copy.on_return(thread, answer),
        _ => {}
    }
    Ok(copy)
}

// The state after the step of a thread.
fn performed(
    alloc: Global,
    state: &State,
    number: usize,
    motion: Motion,
) -> Result<State, AllocError>
    requires there { number < length state.now.threads }
    requires lists { HasHistories state.now }
    requires fits { Fits (thread_in state.now number) motion }
    ensures { IfOk result (λ s. state_of s ≡ perform (state_of state.now) number (motion_view state.now number motion)) }
{
    let thread = &state.threads.as_slice()[number];
    let word = word_read(state.memory.as_slice(), motion);
    let after = thread_after(alloc, thread, motion, word)?;
    let memory = memory_with(&state.memory, written(thread, motion, word))?;
    let threads = with_thread(&state.threads, number, after)?;
    let history = history_after(&state.history, number, motion)?;
    Ok(State {
        memory,
        threads,
        history,
    })
}

/// The state after the actor's step. There must be a list of calls for each thread, as in every well-formed state.
///
/// Errors: `Disabled` exactly where the actor has no step; `Memory` where it has one and a growth was refused.
pub fn step(
    alloc: Global,
    checked: &Checked,
    state: &State,
    actor: Actor,
) -> Result<State, StepError>
    requires { HasHistories state.now }
    ensures ok { IfOk result (λ s. IsStep checked.now.client state.now actor s) }
    ensures disabled { (result ≡ Err errors.Disabled) ↔ (HasStep checked.now.client state.now actor → ⊥) }
    ensures memory { result ≡ Err errors.Memory → HasStep checked.now.client state.now actor }
{
    match planned(&checked.client, state, actor) {
        Some(motion) => Ok(performed(alloc, state, actor.thread(), motion)?),
        None => Err(StepError::Disabled),
    }
}
