//! The printed replay of a trace.

ghost use Rattle.std.specs.Prelude.{◌≡◌, ◌+◌, ◌≤◌, length, IfOk, OnOk};

use crate::report::Wrong;
use std::alloc::{AllocError, Global};
use tso_flow::ProcedureKind;
use tso_front::{Failure, Session};
use tso_list::Seq;
use tso_machine::{Core, Machine, Running, Stage, Thread};
use tso_prog::Array;
use tso_trace::{Cursor, Trace, cell_name};

// Prints a text and a newline.
fn put_line<S: Session>(session: &mut S, text: &str) -> Result<(), Failure> {
    session.print(text)?;
    session.print("\n")
}

// The labels up to this number, one a line behind its number.
fn put_labels<S: Session>(session: &mut S, trace: &Trace, to: usize) -> Result<(), Failure> {
    for number in 1..=to.min(trace.labels.len()) {
        let line = trace.line(number)?;
        let text = format!(in session.alloc(); "{number:>6} {line}")?;
        put_line(session, text.as_str())?;
    }
    Ok(())
}

// A cell and its word.
fn put_cell<S: Session>(
    session: &mut S,
    arrays: &[Array],
    before: &str,
    place: usize,
    word: u64,
) -> Result<(), Failure> {
    let cell = cell_name(session.alloc(), arrays, place)?;
    let text = format!(in session.alloc(); "{before}{cell} = {word}")?;
    put_line(session, text.as_str())
}

// Each word of memory.
fn put_memory<S: Session>(
    session: &mut S,
    arrays: &[Array],
    memory: &Seq<u64>,
) -> Result<(), Failure> {
    for (place, word) in memory.as_slice().iter().enumerate() {
        put_cell(session, arrays, "", place, *word)?;
    }
    Ok(())
}

// A running call by its procedure and its next instruction.
fn push_running(text: &mut String, running: &Running) -> Result<(), AllocError> {
    let pc = running.frame.pc;
    match running.procedure {
        ProcedureKind::Push => write!(text, "at push {pc}")?,
        ProcedureKind::Pop => write!(text, "at pop {pc}")?,
    }
    if !matches!(running.stage, Stage::Outside) {
        text.push_str(" locked")?;
    }
    Ok(())
}

// What a thread is at.
fn core_text(alloc: Global, number: usize, core: &Core) -> Result<String, AllocError> {
    let mut text = format!(in alloc; "thread {number} ")?;
    match core {
        Core::Idle => text.push_str("idle")?,
        Core::Running(running) => push_running(&mut text, running)?,
        Core::Stopped => text.push_str("stopped")?,
    }
    Ok(text)
}

// A thread's line, and a line for each entry of its buffer.
fn put_thread<S: Session>(
    session: &mut S,
    arrays: &[Array],
    number: usize,
    thread: &Thread,
) -> Result<(), Failure> {
    let text = core_text(session.alloc(), number, &thread.core)?;
    put_line(session, text.as_str())?;
    for entry in thread.buffer.live() {
        put_cell(session, arrays, "  buffer ", entry.place, entry.word)?;
    }
    Ok(())
}

/// Prints after which label the state is, each word of memory, and each thread with its store buffer.
pub fn put_state_after<S: Session>(
    session: &mut S,
    arrays: &[Array],
    machine: &Machine,
    to: usize,
) -> Result<(), Failure> {
    let text = format!(in session.alloc(); "state after {to}")?;
    put_line(session, text.as_str())?;
    put_memory(session, arrays, &machine.memory)?;
    for (number, thread) in machine.threads.as_slice().iter().enumerate() {
        put_thread(session, arrays, number, thread)?;
    }
    Ok(())
}

// Takes so many labels.
fn go_forward(cursor: &mut Cursor, count: usize) -> Result<(), Failure>
    requires { cursor.old.position + count ≤ length cursor.old.labels }
    ensures at { OnOk result (cursor.new.position ≡ cursor.old.position + count) }
    ensures same { (cursor.new.client ≡ cursor.old.client) × (cursor.new.labels ≡ cursor.old.labels) }
{
    for _ in 0..count {
        let _moved = cursor.forward()?;
    }
    Ok(())
}

// Takes so many labels back.
fn go_back(cursor: &mut Cursor, count: usize)
    requires { count ≤ cursor.old.position }
    ensures at { cursor.new.position + count ≡ cursor.old.position }
    ensures same { (cursor.new.client ≡ cursor.old.client) × (cursor.new.labels ≡ cursor.old.labels) }
{
    for _ in 0..count {
        let _moved = cursor.back();
    }
}

// The cursor behind the last label, and then back to this one.
fn walked<'a>(alloc: Global, trace: &'a Trace, to: usize) -> Result<Cursor<'a>, Failure>
    requires { to ≤ length trace.now.labels }
    ensures at { IfOk result (λ c. c.position ≡ to) }
    ensures same { IfOk result (λ c. (c.client ≡ trace.entry.now.checked.client) × (c.labels ≡ trace.entry.now.labels)) }
{
    let mut cursor = Cursor::new(alloc, trace)?;
    let len = trace.labels.len();
    go_forward(&mut cursor, len)?;
    go_back(&mut cursor, len - to);
    Ok(cursor)
}

// Prints the labels of a trace up to label `to`, the state after them, which the cursor is at, and at the end what is wrong.
fn put_replay<S: Session>(
    session: &mut S,
    trace: &Trace,
    cursor: &Cursor<'_>,
    to: usize,
) -> Result<(), Failure> {
    put_labels(session, trace, to)?;
    put_state_after(
        session,
        trace.checked.client.arrays.as_slice(),
        cursor.machine(),
        to,
    )?;
    if to == trace.labels.len() {
        let wrong = Wrong(trace.violation()).to_string(session.alloc())?;
        session.print(wrong.as_str())?;
        session.print("\n")?;
    }
    Ok(())
}

/// Prints the labels of a trace up to label `to`, or all, the state after them, and at the end what is wrong with the run.
pub fn print_replay<S: Session>(
    session: &mut S,
    trace: &Trace,
    to: Option<u64>,
) -> Result<(), Failure> {
    let len = trace.labels.len();
    let to = match to {
        Some(to) => (to as usize).min(len),
        None => len,
    };
    let cursor = walked(session.alloc(), trace, to)?;
    let done = put_replay(session, trace, &cursor, to);
    drop(cursor);
    done
}
