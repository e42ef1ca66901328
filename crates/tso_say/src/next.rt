//! What each thread has next, where a label of a trace is no step.

use crate::ahead::{Next, buffer_next, core_next};
use crate::page::Page;
use std::alloc::{AllocError, Global};
use tso_flow::Checked;
use tso_machine::{ApplyError, Label, LabelKind, Machine, apply, initial};
use tso_trace::line_of;

// The machine after these labels, or after those of them that are steps.
fn machine_after(
    alloc: Global,
    checked: &Checked,
    labels: &[Label],
) -> Result<Machine, AllocError> {
    let mut machine = initial(alloc, checked)?;
    for label in labels {
        match apply(alloc, checked, &mut machine, *label) {
            Ok(_undo) => {}
            Err(ApplyError::NotAStep) => break,
            Err(ApplyError::Memory) => return Err(AllocError),
        }
    }
    Ok(machine)
}

// What a label that is no step yet waits for.
fn awaited(kind: LabelKind) -> &'static str {
    match kind {
        LabelKind::Fence => ", once the thread's store buffer is empty",
        LabelKind::Lock => {
            ", once the thread's store buffer is empty and no other thread holds the lock"
        }
        _ => ", once no other thread holds the lock",
    }
}

// The line of a label.
fn put_label(
    alloc: Global,
    page: &mut Page,
    checked: &Checked,
    label: Label,
    more: &str,
) -> Result<(), AllocError> {
    let line = line_of(alloc, checked.client.arrays.as_slice(), label)?;
    page.say("  ")?;
    page.say(line.as_str())?;
    page.say(more)?;
    page.say("\n")
}

// What a thread has next that is no label.
fn put_state(alloc: Global, page: &mut Page, thread: usize, state: &str) -> Result<(), AllocError> {
    page.say_made(format!(in alloc; "  thread {thread} {state}\n"))
}

// What a core or a buffer has next.
fn put_next(
    alloc: Global,
    page: &mut Page,
    checked: &Checked,
    thread: usize,
    next: Next,
) -> Result<(), AllocError> {
    match next {
        Next::Step(kind) => put_label(alloc, page, checked, Label { thread, kind }, ""),
        Next::Later(kind) => {
            put_label(alloc, page, checked, Label { thread, kind }, awaited(kind))
        }
        Next::Cut => put_state(
            alloc,
            page,
            thread,
            "is cut at its bound: it would take a jump back once more than it may",
        ),
        Next::Stopped => put_state(alloc, page, thread, "is stopped by a fault"),
        Next::Waiting => put_state(
            alloc,
            page,
            thread,
            "waits until the calls of .before have returned and are in memory",
        ),
        Next::Over => put_state(alloc, page, thread, "has no call left"),
    }
}

/// Says what each thread has next after these labels: the label of its core, and the drain of its store buffer.
///
/// Errors: where a growth was refused.
pub fn put_nexts(
    alloc: Global,
    page: &mut Page,
    checked: &Checked,
    labels: &[Label],
) -> Result<(), AllocError> {
    let mut machine = machine_after(alloc, checked, labels)?;
    for thread in 0..machine.threads.len() {
        if let Some(next) = core_next(alloc, checked, &mut machine, thread)? {
            put_next(alloc, page, checked, thread, next)?;
        }
        if let Some(next) = buffer_next(alloc, checked, &mut machine, thread)? {
            put_next(alloc, page, checked, thread, next)?;
        }
    }
    Ok(())
}
