//! A replay that shows more than labels, the state and what is wrong.

use crate::asked::Replay;
use crate::length::trace_within;
use crate::replay::{print_replay, put_state_after};
use crate::report::Wrong;
use std::alloc::Global;
use tso_flow::Checked;
use tso_front::{Failure, Out, Session};
use tso_prog::Array;
use tso_show::{
    Replayed, ShowError, Walk, print_brief, print_calls, print_labels, print_order, read_run,
};
use tso_trace::{TraceFault, Violation};

/// Why a run is not shown to its end.
pub fn show_failure(error: &ShowError) -> Failure {
    match error {
        ShowError::NotAStep { label } => Failure::Trace(TraceFault::NotAStep { label: *label }),
        ShowError::Write => Failure::CannotPrint,
        ShowError::Memory => Failure::Memory,
    }
}

/// The run of a text that has at most so many bytes: one in which something is wrong, or, where it is asked for too, one
/// that is good.
///
/// Errors: those of `trace_within`, but not that a run is good where that is asked for.
pub fn run_of(
    alloc: Global,
    checked: &Checked,
    text: &[u8],
    limit: usize,
    partial: bool,
) -> Result<Replayed, TraceFault> {
    match trace_within(alloc, checked, text, limit) {
        Ok(trace) => Ok(Replayed::Erring(trace)),
        Err(TraceFault::NoError) if partial => read_run(alloc, checked, text),
        Err(fault) => Err(fault),
    }
}

// Prints what is wrong, or that nothing is.
fn put_wrong<S: Session>(session: &mut S, violation: Option<Violation>) -> Result<(), Failure> {
    match violation {
        Some(violation) => {
            let wrong = Wrong(violation).to_string(session.alloc())?;
            session.print(wrong.as_str())?;
        }
        None => session.print("no violation")?,
    }
    session.print("\n")
}

// Prints the labels of a run up to a label, with what is shown of each.
fn put_labels<S: Session>(
    session: &mut S,
    walk: &mut Walk<'_>,
    source: &[u8],
    asked: &Replay<'_>,
    to: usize,
) -> Result<(), Failure> {
    let Replay { show, brief, .. } = *asked;
    let alloc = session.alloc();
    let mut out = Out { session };
    let printed = if brief {
        print_brief(alloc, &mut out, walk, source, show, to)
    } else {
        print_labels(alloc, &mut out, walk, source, show, to)
    };
    printed.map_err(|error| show_failure(&error))
}

// Prints the calls of a run that was walked, and how far they have an order.
fn put_calls<S: Session>(session: &mut S, walk: &Walk<'_>) -> Result<(), Failure> {
    let alloc = session.alloc();
    let mut out = Out { session };
    if let Err(error) = print_calls(alloc, &mut out, walk.taken()) {
        return Err(show_failure(&error));
    }
    print_order(alloc, &mut out, walk).map_err(|error| show_failure(&error))
}

// Prints the labels of a run up to label `to` with what is shown of each, and the state after them; at the end what is wrong; and its
// calls, where they are asked for.
fn put_shown<S: Session>(
    session: &mut S,
    walk: &mut Walk<'_>,
    arrays: &[Array],
    source: &[u8],
    run: &Replayed,
    asked: &Replay<'_>,
    to: usize,
) -> Result<(), Failure> {
    put_labels(session, walk, source, asked, to)?;
    put_state_after(session, arrays, walk.machine(), to)?;
    if to == run.labels().len() {
        put_wrong(session, run.violation())?;
    }
    if asked.history {
        put_calls(session, walk)?;
    }
    Ok(())
}

// The same, up to the label that is asked for, or of all.
fn print_shown<S: Session>(
    session: &mut S,
    checked: &Checked,
    source: &[u8],
    run: &Replayed,
    asked: &Replay<'_>,
) -> Result<(), Failure> {
    let labels = run.labels();
    let to = match asked.to {
        Some(to) => (to as usize).min(labels.len()),
        None => labels.len(),
    };
    let mut walk = Walk::new(session.alloc(), checked, labels)?;
    let arrays = checked.client.arrays.as_slice();
    let done = put_shown(session, &mut walk, arrays, source, run, asked, to);
    drop(walk);
    done
}

/// Prints a run with all that is asked for. Where nothing is asked for, and something is wrong, it is `print_replay`.
pub fn print_run<S: Session>(
    session: &mut S,
    checked: &Checked,
    source: &[u8],
    run: &Replayed,
    asked: &Replay<'_>,
) -> Result<(), Failure> {
    match run {
        Replayed::Erring(trace) if asked.is_plain() => print_replay(session, trace, asked.to),
        _ => print_shown(session, checked, source, run, asked),
    }
}
