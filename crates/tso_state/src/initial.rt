//! The state before any step.
ghost use Rattle.std.specs.Prelude.{◌≡◌, replicate, IfOk};
ghost use Rattle.tso_machine.specs.Places.{first_memory};
ghost use Rattle.tso_machine.specs.Programs.{program_of};
ghost use Rattle.tso_model.specs.States.{first_state};
ghost use Rattle.tso_state.specs.Initial.{idle_thread};
ghost use Rattle.tso_state.specs.Views.{state_of};
ghost use Rattle.tso_state.specs.WellFormed.{IsWellFormed};

use crate::state::{Core, State, Thread};
use std::alloc::{AllocError, Global};
use tso_flow::Checked;
use tso_hist::History;
use tso_list::Seq;
use tso_machine::{first_memory, thread_count};

// So many threads that have begun no call.
fn idle_threads(alloc: Global, count: usize) -> Result<Seq<Thread>, AllocError>
    ensures { IfOk result (λ threads. threads ≡ replicate count idle_thread) }
{
    let mut threads = Seq::new(alloc);
    for _i in 0..count {
        threads.push(Thread {
            core: Core::Idle,
            buffer: Seq::new(alloc),
        })?;
    }
    Ok(threads)
}

/// The state before any step: memory holds what the arrays hold at first, all threads are idle, and no call has begun.
///
/// Errors: where a growth was refused.
pub fn initial_state(alloc: Global, checked: &Checked) -> Result<State, AllocError>
    ensures first { IfOk result (λ s. state_of s ≡ first_state (program_of checked.now.client) (first_memory checked.now.client.arrays)) }
    ensures well_formed { IfOk result (λ s. IsWellFormed checked.now.client s) }
{
    let client = &checked.client;
    let count = thread_count(client);
    let memory = first_memory(alloc, client.arrays.as_slice())?;
    let threads = idle_threads(alloc, count)?;
    let history = History::new(alloc, count)?;
    Ok(State {
        memory,
        threads,
        history,
    })
}
