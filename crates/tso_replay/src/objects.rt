//! A replay as objects of JSON.

use crate::asked::Replay;
use crate::show::show_failure;
use serde_json::{Map, Value, json};
use std::alloc::{AllocError, Global};
use tso_flow::{Checked, ProcedureKind};
use tso_front::{Failure, Members, Session, misused, number_or_null, violation_words};
use tso_machine::{Core, Entry, Machine, Running, Stage, Thread};
use tso_prog::Array;
use tso_show::{Replayed, ShowError, Walk};
use tso_trace::{Violation, cell_name, line_of};

const PLAIN: &str =
    "--json says labels, the state and what is wrong, and goes without --brief, --source, --registers, --buffers and --history
";

// A label with its number, its thread, and what it does as a trace says it.
fn label_object(
    alloc: Global,
    number: usize,
    thread: usize,
    line: &str,
) -> Result<Value, AllocError> {
    let step = match line.split_once(' ') {
        Some((_, step)) => step,
        None => line,
    };
    let (number, thread) = (number as u64, thread as u64);
    json!(in alloc; {"label": number, "thread": thread, "step": step})
}

// The words of memory by their cells.
fn memory_object(alloc: Global, arrays: &[Array], words: &[u64]) -> Result<Value, AllocError> {
    let mut cells = Map::new(alloc);
    for (place, word) in words.iter().enumerate() {
        let cell = cell_name(alloc, arrays, place)?;
        let _earlier = cells.insert(cell, Value::from(*word))?;
    }
    Ok(Value::Object(cells))
}

// The entries of a store buffer, the oldest first.
fn buffer_list(alloc: Global, arrays: &[Array], entries: &[Entry]) -> Result<Value, AllocError> {
    let mut list = Vec::new(alloc);
    for entry in entries {
        let cell = cell_name(alloc, arrays, entry.place)?;
        let word = entry.word;
        list.push(json!(in alloc; {"cell": cell, "word": word})?)?;
    }
    Ok(Value::Array(list))
}

// That a thread makes no call, or is stopped, and what is in its store buffer.
fn still_object(alloc: Global, how: &str, buffer: Value) -> Result<Value, AllocError> {
    json!(in alloc; {"is": how, "buffer": buffer})
}

// Where a running call is.
fn running_members(
    alloc: Global,
    procedure: &str,
    instruction: u64,
    locked: bool,
) -> Result<Members, AllocError> {
    Members::new(alloc)
        .text("is", "running")?
        .text("procedure", procedure)?
        .number("instruction", instruction)?
        .with("locked", Value::Bool(locked))
}

// Where the running call of a thread is, and what is in its store buffer.
fn running_object(alloc: Global, running: &Running, buffer: Value) -> Result<Value, AllocError> {
    let procedure = match running.procedure {
        ProcedureKind::Push => "push",
        ProcedureKind::Pop => "pop",
    };
    let locked = !matches!(running.stage, Stage::Outside);
    match running_members(alloc, procedure, running.frame.pc as u64, locked) {
        Ok(members) => Ok(members.with("buffer", buffer)?.object()),
        Err(reason) => {
            drop(buffer);
            Err(reason)
        }
    }
}

// Where a thread is, and what is in its store buffer.
fn thread_object(alloc: Global, arrays: &[Array], thread: &Thread) -> Result<Value, AllocError> {
    let buffer = buffer_list(alloc, arrays, thread.buffer.live())?;
    match &thread.core {
        Core::Idle => still_object(alloc, "idle", buffer),
        Core::Stopped => still_object(alloc, "stopped", buffer),
        Core::Running(running) => running_object(alloc, running, buffer),
    }
}

// The state after a label.
fn state_object(
    alloc: Global,
    arrays: &[Array],
    machine: &Machine,
    number: usize,
) -> Result<Value, AllocError> {
    let mut threads = Vec::new(alloc);
    for thread in machine.threads.as_slice() {
        threads.push(thread_object(alloc, arrays, thread)?)?;
    }
    let memory = memory_object(alloc, arrays, machine.memory.as_slice())?;
    let (number, threads) = (number as u64, Value::Array(threads));
    json!(in alloc; {"state": number, "memory": memory, "threads": threads})
}

// Prints the labels up to this number.
fn print_labels<S: Session>(
    session: &mut S,
    checked: &Checked,
    run: &Replayed,
    to: usize,
) -> Result<(), Failure> {
    let arrays = checked.client.arrays.as_slice();
    for (at, label) in run.labels().iter().take(to).enumerate() {
        let line = line_of(session.alloc(), arrays, *label)?;
        let number = at.saturating_add(1);
        let object = label_object(session.alloc(), number, label.thread, line.as_str())?;
        session.print_object(&object)?;
    }
    Ok(())
}

// Prints the state after so many labels.
fn print_state<S: Session>(
    session: &mut S,
    checked: &Checked,
    run: &Replayed,
    to: usize,
) -> Result<(), Failure> {
    let alloc = session.alloc();
    let labels = run.labels();
    let walk = match Walk::to_end(alloc, checked, &labels[..to.min(labels.len())]) {
        Ok(walk) => walk,
        Err(error) => return Err(show_failure(&ShowError::from(error))),
    };
    let arrays = checked.client.arrays.as_slice();
    session.print_object(&state_object(alloc, arrays, walk.machine(), to)?)
}

// What is wrong with a run, if something is.
fn wrong_object(alloc: Global, violation: Option<Violation>) -> Result<Value, AllocError> {
    match violation {
        Some(violation) => {
            let (what, thread) = violation_words(violation);
            let thread = number_or_null(thread);
            json!(in alloc; {"violation": what, "thread": thread})
        }
        None => json!(in alloc; {"violation": null}),
    }
}

/// Prints the labels of a run up to label `to`, or all, the state after them, and at the end what is wrong, if something is.
///
/// Errors: `Usage` where more is asked for; `CannotPrint`; `Memory`; `Trace`.
pub fn print_objects<S: Session>(
    session: &mut S,
    checked: &Checked,
    run: &Replayed,
    asked: &Replay<'_>,
) -> Result<(), Failure> {
    if !asked.is_plain() {
        return Err(misused(session.alloc(), PLAIN));
    }
    let count = run.labels().len();
    let to = match asked.to {
        Some(to) => (to as usize).min(count),
        None => count,
    };
    print_labels(session, checked, run, to)?;
    print_state(session, checked, run, to)?;
    if to < count {
        return Ok(());
    }
    let object = wrong_object(session.alloc(), run.violation())?;
    session.print_object(&object)
}
