//! Clients that several workers search, each client by one of them.

ghost use Rattle.std.specs.Prelude.{◌≤◌};
ghost use Rattle.std.specs.Thread.{IsSync};
ghost use Rattle.tso_cert.specs.Trees.{record_count, tree_of};
ghost use Rattle.tso_client.specs.Headline.{DenotesChecked, EachRunIsGood};

use crate::verify::grain_of_form;
use std::alloc::Global;
use std::sync::Wait;
use std::sync::atomic::{AtomicUsize, Ordering};
use std::thread;
use std::thread::Threads;
use tso_cert::{Cert, NoWatch, Workers, build_intervals, encode};
use tso_client::checked_of;
use tso_explore::{Outcome, explore};
use tso_flow::Checked;
use tso_foot::Table;
use tso_front::Failure;
use tso_rec::Grain;
use tso_request::{Form, StateLimit};
use tso_search::Ground;
use tso_survey::{Accepted, Decided, Finding, Shown};
use tso_trace::Trace;
use tso_verdict::Facts;

/// The texts of clients that are searched, each by one worker, and which is searched next.
#[derive(Drop)]
pub struct Round<'a> {
    pub texts: &'a [Vec<u8>],
    /// Those that are searched, by their numbers.
    pub numbers: &'a [usize],
    /// How many of these were taken.
    pub next: &'a AtomicUsize,
    pub alloc: Global,
    pub limit: StateLimit,
    /// Whether the bytes of what is found are asked for.
    pub writes: bool,
    /// Whether it is counted what the records of certificates show.
    pub counts: bool,
    pub form: Form,
}

/// What is made of what is found of a client.
#[derive(Clone, Copy)]
pub struct Wanted {
    pub limit: StateLimit,
    /// Whether its bytes are asked for.
    pub writes: bool,
    /// Whether it is counted what the records of a certificate show.
    pub counts: bool,
    /// Which kind of certificate is searched for.
    pub form: Form,
}

/// What is found of the client with this number.
#[derive(Drop)]
pub struct Done {
    pub number: usize,
    pub finding: Finding,
}

// A certificate with a table of intervals that hold all registers of its records.
fn with_intervals(alloc: Global, checked: &Checked, cert: &Cert) -> Result<Vec<u8>, Failure> {
    let table = Table::Intervals(build_intervals(alloc, checked, cert)?);
    let bytes = encode(alloc, Grain::Steps, &table, cert);
    drop(table);
    Ok(bytes?)
}

// The bytes of a certificate, if they are to be written.
fn spelled(
    alloc: Global,
    checked: &Checked,
    ground: &Ground,
    cert: &Cert,
    wanted: Wanted,
) -> Result<Option<Vec<u8>>, Failure> {
    if !wanted.writes {
        return Ok(None);
    }
    let bytes = match wanted.form {
        Form::Intervals => with_intervals(alloc, checked, cert)?,
        Form::Arrays | Form::Crossings => encode(alloc, ground.grain(), ground.table(), cert)?,
    };
    Ok(Some(bytes))
}

// What the records of a certificate show, if that is counted.
fn shown(
    alloc: Global,
    checked: &Checked,
    ground: &Ground,
    cert: &Cert,
    counts: bool,
) -> Result<Option<Shown>, Failure> {
    if !counts {
        return Ok(None);
    }
    let facts = Facts::counted(alloc, checked, ground.grain(), ground.table(), cert)?;
    let shown = facts.shown(alloc)?;
    Ok(Some(shown))
}

// The bytes of a certificate, and what its records show, as far as they are wanted.
fn made_of(
    alloc: Global,
    checked: &Checked,
    ground: &Ground,
    cert: &Cert,
    wanted: Wanted,
) -> Result<(Option<Vec<u8>>, Option<Shown>), Failure> {
    let shown = shown(alloc, checked, ground, cert, wanted.counts)?;
    match spelled(alloc, checked, ground, cert, wanted) {
        Ok(bytes) => Ok((bytes, shown)),
        Err(failure) => {
            drop(shown);
            Err(failure)
        }
    }
}

// That all runs of a text's client are good.
fn certified(
    alloc: Global,
    text: &[u8],
    checked: Checked,
    ground: &Ground,
    cert: &Cert,
    wanted: Wanted,
) -> Result<Finding, Failure>
    requires denoted { DenotesChecked text.now checked.client }
    requires good { EachRunIsGood checked.client }
    requires few { record_count (tree_of cert.now) ≤ 4194304 }
{
    let (bytes, shown) = match made_of(alloc, &checked, ground, cert, wanted) {
        Ok(made) => made,
        Err(failure) => {
            drop(checked);
            return Err(failure);
        }
    };
    match Vec::from_slice(alloc, text) {
        Ok(text) => {
            let decided = Decided::Accepted {
                client: Accepted::certified(text, checked),
                records: Some(cert.len()),
            };
            Ok(Finding {
                decided,
                bytes,
                shown,
            })
        }
        Err(_) => {
            drop(bytes);
            drop(shown);
            drop(checked);
            Err(Failure::Memory)
        }
    }
}

// A trace as text.
fn text_of(alloc: Global, trace: &Trace) -> Result<Vec<u8>, Failure> {
    let mut text = Vec::new(alloc);
    match trace.print(&mut text) {
        Ok(()) => Ok(text),
        Err(_) => Err(Failure::Memory),
    }
}

// That one is not.
fn violated(alloc: Global, trace: &Trace, writes: bool) -> Result<Finding, Failure> {
    let bytes = if writes {
        Some(text_of(alloc, trace)?)
    } else {
        None
    };
    let decided = Decided::Violated {
        violation: trace.violation(),
        labels: trace.labels.len(),
    };
    Ok(Finding {
        decided,
        bytes,
        shown: None,
    })
}

// One worker.
fn alone() -> Workers {
    match Workers::new(1) {
        Some(workers) => workers,
        None => unreachable!(),
    }
}

/// What one worker finds of the client of a text.
///
/// Errors: `Program` with the first fault of the text; `Memory`.
pub fn found_of<R: Threads + Wait + Sync>(
    rt: &R,
    alloc: Global,
    text: &[u8],
    wanted: Wanted,
) -> Result<Finding, Failure> {
    let checked = checked_of(alloc, text)?;
    match explore(
        rt,
        alloc,
        &checked,
        grain_of_form(wanted.form),
        alone(),
        wanted.limit.count(),
        &NoWatch,
    ) {
        Outcome::Certificate(ground, cert) => {
            let found = certified(alloc, text, checked, &ground, &cert, wanted);
            drop(cert);
            drop(ground);
            found
        }
        Outcome::Trace(trace) => {
            let found = violated(alloc, &trace, wanted.writes);
            drop(trace);
            drop(checked);
            found
        }
        Outcome::LimitReached => {
            drop(checked);
            Ok(Finding::plain(Decided::Limit))
        }
        Outcome::NoMemory => {
            drop(checked);
            Err(Failure::Memory)
        }
    }
}

// Searches one client after another, until none is left.
fn work<R: Threads + Wait + Sync>(rt: &R, round: &Round<'_>) -> Result<Vec<Done>, Failure> {
    let wanted = Wanted {
        limit: round.limit,
        writes: round.writes,
        counts: round.counts,
        form: round.form,
    };
    let mut done = Vec::new(round.alloc);
    for _ in 0..round.numbers.len() {
        let taken = round.next.fetch_add(1, Ordering::SeqCst);
        let Some(number) = round.numbers.get(taken).copied() else {
            break;
        };
        let Some(text) = round.texts.get(number) else {
            break;
        };
        let finding = found_of(rt, round.alloc, text, wanted)?;
        done.push(Done { number, finding })?;
    }
    Ok(done)
}

// Puts the second list behind the first.
fn joined(first: Vec<Done>, second: Vec<Done>) -> Result<Vec<Done>, Failure> {
    let mut all = first;
    for done in second {
        all.push(done)?;
    }
    Ok(all)
}

/// What so many workers find of the clients of a round, in no order.
///
/// Errors: those of `found_of`.
pub fn work_by<R: Threads + Wait + Sync>(
    rt: &R,
    round: &Round<'_>,
    workers: u64,
) -> Result<Vec<Done>, Failure> {
    if workers < 2 {
        return work(rt, round);
    }
    let fewer = workers / 2;
    let more = workers - fewer;
    let (first, second) = thread::join(
        rt,
        || -> Result<Vec<Done>, Failure>
            requires { IsSync R.row }
        { work_by(rt, round, more) },
        || -> Result<Vec<Done>, Failure>
            requires { IsSync R.row }
        { work_by(rt, round, fewer) },
    );
    joined(first?, second?)
}
