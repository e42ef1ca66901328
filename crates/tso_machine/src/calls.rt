//! Which call a thread may begin.

ghost use Rattle.std.specs.Prelude.{◌≡◌, ◌+◌, ◌<◌, ◌^◌, length, map, slice_get, slice_index_or, Some, [], IfSome};
ghost use Rattle.std.specs.Option.{option_map};
ghost use Rattle.tso_prog.specs.Views.{call_view};
ghost use Rattle.tso_machine.specs.Machines.{core_view, machine_of, thread_view};
ghost use Rattle.tso_machine.specs.Offers.{may_begin_now};
ghost use Rattle.tso_machine.specs.Programs.{calls_in, calls_of, program_of};
ghost use Rattle.tso_model.specs.Labels.{next_call_in, is_over_in, is_idle};

use crate::machine::{Core, Machine, Thread};
use tso_prog::{CallKind, Client};

/// The calls of a thread, the prologue's thread being the one after the client's own.
pub fn calls_of(client: &Client, thread: usize) -> &[CallKind]
    ensures { result.now ≡ calls_in client.now.threads client.now.prologue thread }
{
    if let Some(calls) = client.threads.get(thread) {
        calls.as_slice()
    } else if thread == client.threads.len() {
        client.prologue.as_slice()
    } else {
        &[]
    }
}

fn call_in(client: &Client, thread: usize, number: usize) -> Option<CallKind>
    ensures call { result ≡ slice_get (calls_in client.now.threads client.now.prologue thread) number }
    ensures small { IfSome result (λ k. number + 1 < 2 ^ 64) }
{
    let calls = calls_of(client, thread);
    if number < calls.len() {
        Some(calls[number])
    } else {
        None
    }
}

/// The call of this number, if the thread has so many.
pub fn call_at(client: &Client, thread: usize, number: usize) -> Option<CallKind>
    ensures call { option_map call_view result ≡ slice_get (slice_index_or (calls_of client.now) thread []) number }
    ensures small { IfSome result (λ k. number + 1 < 2 ^ 64) }
{
    call_in(client, thread, number)
}

// Whether a thread is idle with no call left and nothing buffered.
fn is_over(client: &Client, number: usize, thread: &Thread) -> bool
    ensures { result ≡ is_over_in (program_of client.now) number (Some (thread_view thread.now)) }
{
    is_idle(&thread.core)
        && call_at(client, number, thread.begun).is_none()
        && thread.buffer.live().is_empty()
}

fn is_idle(core: &Core) -> bool
    ensures { result ≡ is_idle (core_view core.now) }
{
    matches!(core, Core::Idle)
}

// Whether a thread's calls need not wait for the prologue's.
fn may_begin(client: &Client, machine: &Machine, thread: usize) -> bool
    ensures { result ≡ may_begin_now client.now machine.now thread }
{
    let prologue = client.threads.len();
    if client.prologue.is_empty() || thread == prologue {
        return true;
    }
    match machine.threads.get(prologue) {
        Some(first) => is_over(client, prologue, first),
        None => true,
    }
}

/// The call that a thread may begin next, were it idle, if so many of its calls have begun.
pub fn next_call(
    client: &Client,
    machine: &Machine,
    thread: usize,
    begun: usize,
) -> Option<CallKind>
    ensures call { option_map call_view result ≡ next_call_in (program_of client.now) (machine_of machine.now) thread begun }
    ensures small { IfSome result (λ k. begun + 1 < 2 ^ 64) }
{
    if may_begin(client, machine, thread) {
        call_at(client, thread, begun)
    } else {
        None
    }
}
