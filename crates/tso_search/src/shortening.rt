//! Traces with labels left out.

ghost use Rattle.std.specs.Prelude.{IfOk};
ghost use Rattle.tso_search.specs.Shortening.{IsShorter, IsTraceOf};

use crate::leaving::{beginning, call_count, own_count, without, without_call};
use crate::lessening::lessen;
use crate::shortest::Shortest;
use std::alloc::{AllocError, Global};
use tso_flow::Checked;
use tso_trace::Trace;

/// So many rounds are made at the most.
const ROUNDS: usize = 65_536;

/// How many labels of a thread are left out at once.
const WINDOW: usize = 16;

// Leaves some labels of a thread out, if what is left is a run that is not good.
fn leave_out(
    alloc: Global,
    checked: &Checked,
    shortest: &mut Shortest,
    thread: usize,
    from: usize,
    count: usize,
) -> Result<bool, AllocError>
    requires { IsTraceOf checked.now.client shortest.old.trace }
    ensures { IsShorter checked.now.client shortest.old.trace shortest.new.trace }
{
    let labels = without(alloc, shortest.trace.labels.as_slice(), thread, from, count)?;
    shortest.take(alloc, checked, labels)
}

// Leaves out what comes after the label with which the run is no longer good: of a run that is not good no longer one is.
fn cut_end(alloc: Global, checked: &Checked, shortest: &mut Shortest) -> Result<(), AllocError>
    requires { IsTraceOf checked.now.client shortest.old.trace }
    ensures { IsShorter checked.now.client shortest.old.trace shortest.new.trace }
{
    let mut good: usize = 0;
    let mut bad = shortest.trace.labels.len();
    while good < bad {
        let half = good + (bad - good) / 2;
        let begun = beginning(alloc, shortest.trace.labels.as_slice(), half)?;
        if shortest.take(alloc, checked, begun)? {
            bad = half;
        } else {
            good = half + 1;
        }
    }
    Ok(())
}

// Leaves out a thread's last labels, as many as can be.
fn cut_thread(
    alloc: Global,
    checked: &Checked,
    shortest: &mut Shortest,
    thread: usize,
) -> Result<bool, AllocError>
    requires { IsTraceOf checked.now.client shortest.old.trace }
    ensures { IsShorter checked.now.client shortest.old.trace shortest.new.trace }
{
    let count = own_count(shortest.trace.labels.as_slice(), thread);
    for from in 0..count {
        if leave_out(alloc, checked, shortest, thread, from, count - from)? {
            return Ok(true);
        }
    }
    Ok(false)
}

// Leaves out single calls of a thread, the last first, each with the drains of its stores.
fn cut_calls(
    alloc: Global,
    checked: &Checked,
    shortest: &mut Shortest,
    thread: usize,
) -> Result<bool, AllocError>
    requires { IsTraceOf checked.now.client shortest.old.trace }
    ensures { IsShorter checked.now.client shortest.old.trace shortest.new.trace }
{
    let mut shorter = false;
    let count = call_count(shortest.trace.labels.as_slice(), thread);
    for behind in 0..count {
        let labels = shortest.trace.labels.as_slice();
        let rest = without_call(alloc, labels, thread, count - behind)?;
        if shortest.take(alloc, checked, rest)? {
            shorter = true;
        }
    }
    Ok(shorter)
}

// Leaves out windows of so many labels of a thread.
fn cut_windows(
    alloc: Global,
    checked: &Checked,
    shortest: &mut Shortest,
    thread: usize,
    width: usize,
) -> Result<bool, AllocError>
    requires { IsTraceOf checked.now.client shortest.old.trace }
    ensures { IsShorter checked.now.client shortest.old.trace shortest.new.trace }
{
    let mut shorter = false;
    let count = own_count(shortest.trace.labels.as_slice(), thread);
    for from in 0..count {
        if leave_out(alloc, checked, shortest, thread, from, width)? {
            shorter = true;
        }
    }
    Ok(shorter)
}

// Leaves out the last labels of each thread, and then single calls.
fn cut_threads(
    alloc: Global,
    checked: &Checked,
    shortest: &mut Shortest,
    threads: usize,
) -> Result<bool, AllocError>
    requires { IsTraceOf checked.now.client shortest.old.trace }
    ensures { IsShorter checked.now.client shortest.old.trace shortest.new.trace }
{
    let mut shorter = false;
    for thread in 0..threads {
        shorter |= cut_thread(alloc, checked, shortest, thread)?;
        shorter |= cut_calls(alloc, checked, shortest, thread)?;
    }
    Ok(shorter)
}

// Leaves out windows of so many labels of each thread.
fn cut_width(
    alloc: Global,
    checked: &Checked,
    shortest: &mut Shortest,
    threads: usize,
    width: usize,
) -> Result<bool, AllocError>
    requires { IsTraceOf checked.now.client shortest.old.trace }
    ensures { IsShorter checked.now.client shortest.old.trace shortest.new.trace }
{
    let mut shorter = false;
    for thread in 0..threads {
        shorter |= cut_windows(alloc, checked, shortest, thread, width)?;
    }
    Ok(shorter)
}

// One round: last labels and windows of each thread.
fn cut_round(
    alloc: Global,
    checked: &Checked,
    shortest: &mut Shortest,
    threads: usize,
) -> Result<bool, AllocError>
    requires { IsTraceOf checked.now.client shortest.old.trace }
    ensures { IsShorter checked.now.client shortest.old.trace shortest.new.trace }
{
    let mut shorter = cut_threads(alloc, checked, shortest, threads)?;
    for narrower in 0..WINDOW {
        shorter |= cut_width(alloc, checked, shortest, threads, WINDOW - narrower)?;
    }
    Ok(shorter)
}

// Leaves labels out in all ways, again until nothing goes.
fn shorten(
    alloc: Global,
    checked: &Checked,
    shortest: &mut Shortest,
    threads: usize,
) -> Result<(), AllocError>
    requires { IsTraceOf checked.now.client shortest.old.trace }
    ensures { IsShorter checked.now.client shortest.old.trace shortest.new.trace }
{
    lessen(alloc, checked, shortest, threads)?;
    cut_end(alloc, checked, shortest)?;
    for _ in 0..ROUNDS {
        if !cut_round(alloc, checked, shortest, threads)? {
            break;
        }
    }
    Ok(())
}

/// A shorter trace of the same client, or this one. First a run with few calls is looked for (`lessen`). Then labels are left out: those
/// behind the label with which the run is no longer good, each thread's last labels, single calls, and windows of up to 16 labels of
/// one thread, the longest first, again until nothing goes.
///
/// So the trace is minimal: if one thread's last labels, one of its calls or a window of up to 16 of its labels is left out, the rest
/// is no run, or a good one. A call's labels are those from its beginning up to the next call, without the drains of earlier stores and
/// with all drains of its own. Of a call that is not its thread's last the rest is a run only if the next call is the same; the later
/// calls go first. The trace may be longer if 200,000 labels of tries were not enough.
///
/// Errors: out of memory.
pub fn shortened(
    alloc: Global,
    checked: &Checked,
    trace: Trace,
    threads: usize,
) -> Result<Trace, AllocError>
    requires { IsTraceOf checked.now.client trace }
    ensures { IfOk result (IsShorter checked.now.client trace) }
{
    let mut shortest = Shortest::new(trace);
    let done = shorten(alloc, checked, &mut shortest, threads);
    let Shortest { trace, left: _left } = shortest;
    match done {
        Ok(()) => Ok(trace),
        Err(reason) => {
            drop(trace);
            Err(reason)
        }
    }
}
