//! Calls that begin in kept states.

ghost use Rattle.std.specs.Prelude.{◌≡◌, ◌+◌, ◌<◌, ◌≤◌, ◌^◌, Err, IfOk, length};
ghost use Rattle.tso_keys.specs.Keys.{Grows, IsKept, part_count, state_at};
ghost use Rattle.tso_parts.specs.Numbers.{Extends};
ghost use Rattle.tso_parts.specs.declared.refused.Refused.TheVariants as reasons;
ghost use Rattle.tso_prog.specs.declared.client.Client.{Client as ClientValue};
ghost use Rattle.tso_state.specs.declared.state.Core.TheVariants as cores;
ghost use Rattle.tso_store.specs.Arriving.{IsBegunOf, IsOpenedThread};

use crate::stepped::{next_history, with_thread};
use std::alloc::AllocError;
use tso_compact::Motion;
use tso_keys::{Key, Parts, number_at};
use tso_line::CallKind;
use tso_machine::Frame;
use tso_parts::{Catalog, Refused};
use tso_state::{Core, Thread};

// A thread with the buffer of another, which runs a call in this frame.
fn with_frame(thread: &Thread, frame: Frame) -> Result<Thread, AllocError>
    ensures { IfOk result (λ t. t ≡ record { core = cores.Running frame; buffer = thread.now.buffer }) }
{
    let buffer = thread.buffer.clone()?;
    Ok(Thread {
        core: Core::Running(frame),
        buffer,
    })
}

// The number of the thread that has the buffer of a kept one, and runs a call in this frame.
fn opened_thread(threads: &mut Catalog<Thread>, number: u32, frame: Frame) -> Result<u32, Refused>
    ensures number { IfOk result (IsOpenedThread threads.old threads.new number frame) }
    ensures extends { Extends threads.old threads.new }
    ensures small { length threads.old < 2 ^ 32 → length threads.new < 2 ^ 32 }
    ensures more { length threads.new ≤ length threads.old + 1 }
    ensures full { result ≡ Err reasons.Full → 4294967295 ≤ length threads.new }
{
    let Some(thread) = threads.get(number) else {
        return Ok(number);
    };
    let opened = with_frame(thread, frame)?;
    let (next, _) = threads.add(opened)?;
    Ok(next)
}

/// The key of the state in which a thread has begun this call, and the opening of the call has led to this frame.
pub fn begin_key(
    parts: &mut Parts,
    key: &Key,
    thread: usize,
    kind: CallKind,
    frame: Frame,
) -> Result<Key, Refused>
    requires kept { (c : ClientValue) × IsKept c parts.old key.now }
    requires there { thread < length (state_at parts.old key.now).threads }
    ensures begun { IfOk result (IsBegunOf parts.old key.now thread kind frame parts.new) }
    ensures grows { Grows parts.old parts.new }
    ensures more { part_count parts.new ≤ part_count parts.old + 2 }
    ensures full { result ≡ Err reasons.Full → 4294967295 ≤ part_count parts.new }
{
    let place = number_at(&key.threads, thread);
    let number = opened_thread(&mut parts.threads, place, frame)?;
    let motion = Motion::Begin { kind, jumps: 0 };
    let history = next_history(&mut parts.histories, key.history, thread, motion)?;
    let next = with_thread(key, thread, number);
    let threads = next.threads;
    Ok(Key {
        memory: key.memory,
        history,
        threads,
    })
}
