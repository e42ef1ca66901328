//! All runs of a small client, label by label: every label is tried at every state of the label machine, with the history that
//! led there. Nothing of it knows compact steps, reasons or choices.

use std::alloc::Global;
use std::sync::Wait;
use std::thread::Threads;
use tso_calls::{Failure, Met, all_runs, ensure};
use tso_cert::{NoWatch, Workers};
use tso_explore::{Outcome, explore};
use tso_flow::Checked;
use tso_rec::Grain;

// Whether a search has found a violation, and not a certificate.
fn is_trace(outcome: &Outcome) -> Result<bool, Failure> {
    match outcome {
        Outcome::Certificate(..) => Ok(false),
        Outcome::Trace(_) => Ok(true),
        Outcome::LimitReached => Err(Failure::Difference),
        Outcome::NoMemory => Err(Failure::Memory),
    }
}

// Whether a search finds a violation, and not a certificate.
fn is_violated<R: Threads + Wait + Sync>(
    rt: &R,
    alloc: Global,
    checked: &Checked,
) -> Result<bool, Failure> {
    let Some(workers) = Workers::new(1) else {
        return Err(Failure::Memory);
    };
    let outcome = explore(
        rt,
        alloc,
        checked,
        Grain::Steps,
        workers,
        4_194_304,
        &NoWatch,
    );
    let told = is_trace(&outcome);
    drop(outcome);
    told
}

/// Writes how many states the runs of a client lead to, and whether one is not good. A search has to agree.
pub fn put_runs<R: Threads + Wait + Sync>(
    rt: &R,
    alloc: Global,
    checked: &Checked,
    out: &mut String,
) -> Result<(), Failure> {
    let Met { states, is_bad } = all_runs(alloc, checked)?;
    ensure(is_bad == is_violated(rt, alloc, checked)?)?;
    let verdict = if is_bad {
        "a run is not good"
    } else {
        "all runs are good"
    };
    write!(out, "{states} states, {verdict}")?;
    Ok(())
}
