//! Several workers who check one certificate or search one client together, of whom one is held until another has come.

ghost use Rattle.std.specs.Prelude.{◌≤◌};

use crate::meeting::Meeting;
use std::alloc::Global;
use std::sync::Wait;
use std::thread::Threads;
use tso_calls::{Failure, client_of, ensure};
use tso_cert::{NoWatch, Watch, Workers};
use tso_check::{CheckError, Verdict, check, check_client, check_with};
use tso_explore::{Outcome, explore};
use tso_flow::Checked;
use tso_foot::{Table as Footprints, build};
use tso_pool::{Ending, search};
use tso_rec::Grain;
use tso_table::Table;

/// The worker that comes first to a record waits there until another has come to a record of the other leaf, of two records each.
#[derive(Drop)]
struct AtRecords {
    meeting: Meeting,
}

impl Watch for AtRecords {
    fn at<R: Wait>(&self, _rt: &R, number: u64) {
        let leaf = number / 2;
        match self.meeting.come(leaf) {
            None => self.meeting.wait(),
            Some(first) => {
                if first != leaf {
                    self.meeting.meet();
                }
            }
        }
    }
}

/// The worker that comes first waits at its second ticket until another has come to its first.
#[derive(Drop)]
struct AtTickets {
    meeting: Meeting,
}

impl Watch for AtTickets {
    fn at<R: Wait>(&self, _rt: &R, worker: u64) {
        match self.meeting.come(worker) {
            None => {}
            Some(first) => {
                if first == worker {
                    self.meeting.wait();
                } else {
                    self.meeting.meet();
                }
            }
        }
    }
}

// So many workers.
pub fn workers_of(count: u64) -> Result<Workers, Failure> {
    match Workers::new(count) {
        Some(workers) => Ok(workers),
        None => Err(Failure::Unreadable),
    }
}

/// Writes what a check has answered.
pub fn put_answer(answer: Result<Verdict, CheckError>, out: &mut String) -> Result<(), Failure> {
    match answer {
        Ok(verdict) => write!(out, "{verdict}")?,
        Err(CheckError::Program(_)) => out.push_str("no program")?,
        Err(CheckError::Memory) => return Err(Failure::Memory),
    }
    Ok(())
}

/// One thread checks a certificate for a program.
pub fn put_check(
    alloc: Global,
    program: &[u8],
    cert: &[u8],
    out: &mut String,
) -> Result<(), Failure> {
    put_answer(check(alloc, program, cert), out)
}

/// The same for the client of a program.
pub fn put_check_client(
    alloc: Global,
    program: &[u8],
    cert: &[u8],
    out: &mut String,
) -> Result<(), Failure> {
    let checked = client_of(alloc, program)?;
    let verdict = check_client(alloc, &checked, cert);
    drop(checked);
    let verdict = verdict?;
    Ok(write!(out, "{verdict}")?)
}

/// Two workers check a fork of two leaves of two records, and meet.
pub fn put_two_check<R: Threads + Wait + Sync>(
    rt: &R,
    alloc: Global,
    program: &[u8],
    cert: &[u8],
    out: &mut String,
) -> Result<(), Failure> {
    let watch = AtRecords {
        meeting: Meeting::new(),
    };
    match check_with(rt, alloc, program, cert, workers_of(2)?, &watch) {
        Ok(Verdict::Accepted) => out.push_str("accepted")?,
        Ok(_) => out.push_str("rejected")?,
        Err(CheckError::Memory) => return Err(Failure::Memory),
        Err(_) => return Err(Failure::Unreadable),
    }
    ensure(watch.meeting.is_held())
}

// The name of an outcome.
fn name_of(outcome: &Outcome) -> Result<&'static str, Failure> {
    match outcome {
        Outcome::Certificate(..) => Ok("a certificate"),
        Outcome::Trace(_) => Ok("a trace"),
        Outcome::LimitReached => Ok("the limit"),
        Outcome::NoMemory => Err(Failure::Memory),
    }
}

/// Two workers search a client, and meet.
pub fn put_two_search<R: Threads + Wait + Sync>(
    rt: &R,
    alloc: Global,
    checked: &Checked,
    out: &mut String,
) -> Result<(), Failure> {
    let watch = AtTickets {
        meeting: Meeting::new(),
    };
    let outcome = explore(
        rt,
        alloc,
        checked,
        Grain::Steps,
        workers_of(2)?,
        4_194_304,
        &watch,
    );
    let name = name_of(&outcome);
    drop(outcome);
    out.push_str(name?)?;
    ensure(watch.meeting.is_held())
}

/// So many workers search a client, for at most so many states.
pub fn put_search<R: Threads + Wait + Sync>(
    rt: &R,
    alloc: Global,
    checked: &Checked,
    workers: u64,
    limit: u64,
    out: &mut String,
) -> Result<(), Failure> {
    if limit > 4_194_304 {
        return Err(Failure::Unreadable);
    }
    let workers = workers_of(workers)?;
    let outcome = explore(
        rt,
        alloc,
        checked,
        Grain::Steps,
        workers,
        limit as u32,
        &NoWatch,
    );
    let name = name_of(&outcome);
    drop(outcome);
    out.push_str(name?)?;
    Ok(())
}

// How many states, how many of them not done, and how many calls.
fn sums_of(tables: &[Table<'_>]) -> (u64, u64, u64) {
    let (mut states, mut open, mut calls) = (0u64, 0u64, 0u64);
    for table in tables {
        states = states.saturating_add(table.len() as u64);
        open = open.saturating_add(table.outstanding() as u64);
        calls = calls.saturating_add(table.log_len());
    }
    (states, open, calls)
}

// Why they end.
fn why_of(ending: &Ending) -> Result<&'static str, Failure> {
    match ending {
        Ending::Quiet => Ok("quiet"),
        Ending::Astray => Ok("astray"),
        Ending::Full(_) => Ok("full"),
        Ending::Violation(_) => Ok("a violation"),
        Ending::Memory => Err(Failure::Memory),
    }
}

// Lets so many workers search, from 1 to 64 of them, and writes how that ends.
fn put_together<R: Threads + Wait + Sync>(
    rt: &R,
    alloc: Global,
    checked: &Checked,
    footprints: &Footprints,
    workers: u64,
    limit: u32,
    out: &mut String,
) -> Result<(), Failure>
    requires { (1 ≤ workers) × (workers ≤ 64) }
{
    let (tables, ending) = search(rt, alloc, checked, footprints, workers, limit, &NoWatch)?;
    let (states, open, calls) = sums_of(&tables);
    drop(tables);
    let why = why_of(&ending);
    drop(ending);
    let why = why?;
    write!(
        out,
        "{states} states, {open} not done, {calls} calls, {why}"
    )?;
    Ok(())
}

/// So many workers with so many units: how many states were met, how many of them are not done, how many calls were made, and why
/// they end.
pub fn put_pool<R: Threads + Wait + Sync>(
    rt: &R,
    alloc: Global,
    checked: &Checked,
    workers: u64,
    units: u64,
    out: &mut String,
) -> Result<(), Failure> {
    if workers == 0 || workers > 64 {
        return Err(Failure::Unreadable);
    }
    let footprints = build(alloc, checked)?;
    let limit = units.min(4_194_304) as u32;
    let put = put_together(rt, alloc, checked, &footprints, workers, limit, out);
    drop(footprints);
    put
}

/// Whether there may be so many workers.
pub fn put_workers(count: u64, out: &mut String) -> Result<(), Failure> {
    match Workers::new(count) {
        Some(workers) => {
            let count = workers.count();
            write!(out, "{count}")?;
        }
        None => out.push_str("none")?,
    }
    Ok(())
}
