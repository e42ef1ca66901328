//! The machine before any step.

ghost use Rattle.std.specs.Prelude.{◌≡◌, ◌+◌, ◌<◌, length, map, replicate, IfOk};
ghost use Rattle.tso_machine.specs.Initial.{idle_thread, thread_count};
ghost use Rattle.tso_machine.specs.Machines.{machine_of, thread_view};
ghost use Rattle.tso_machine.specs.Places.{first_memory};
ghost use Rattle.tso_machine.specs.Programs.{calls_of, program_of};
ghost use Rattle.tso_model.specs.Labels.{first_machine};

use crate::buffer::Buffer;
use crate::machine::{Core, Machine, Thread};
use std::alloc::{AllocError, Global};
use tso_flow::Checked;
use tso_list::Seq;
use tso_prog::{Array, Client};

/// The words of all arrays, one array after another, as they are at first.
///
/// Errors: where a growth was refused.
pub fn first_memory(alloc: Global, arrays: &[Array]) -> Result<Seq<u64>, AllocError>
    ensures { IfOk result (λ m. m ≡ first_memory arrays.now) }
{
    let mut words = Vec::new(alloc);
    for array in arrays {
        words.extend_from_slice(array.words.as_slice())?;
    }
    Ok(Seq::from_vec(words))
}

/// How many threads the machine has, the prologue's too where there is one.
pub fn thread_count(client: &Client) -> usize
    ensures is { result ≡ thread_count client.now.threads client.now.prologue }
    ensures calls { result ≡ length (calls_of client.now) }
{
    if client.prologue.is_empty() {
        client.threads.len()
    } else {
        client.threads.len() + 1
    }
}

// So many threads that have not begun a call.
fn idle_threads(alloc: Global, count: usize) -> Result<Seq<Thread>, AllocError>
    ensures { IfOk result (λ threads. map thread_view threads ≡ replicate count idle_thread) }
{
    let mut threads = Seq::new(alloc);
    for _i in 0..count {
        threads.push(Thread {
            begun: 0,
            core: Core::Idle,
            buffer: Buffer::new(alloc),
        })?;
    }
    Ok(threads)
}

/// The machine before any step: memory holds what the arrays hold at first, and all threads are idle.
///
/// Errors: where a growth was refused.
pub fn initial(alloc: Global, checked: &Checked) -> Result<Machine, AllocError>
    ensures { IfOk result (λ m. machine_of m ≡ first_machine (program_of checked.now.client) (first_memory checked.now.client.arrays)) }
{
    let client = &checked.client;
    Ok(Machine {
        memory: first_memory(alloc, client.arrays.as_slice())?,
        lock: None,
        threads: idle_threads(alloc, thread_count(client))?,
    })
}
