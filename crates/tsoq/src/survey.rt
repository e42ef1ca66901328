//! The survey of a queue by searches.

use crate::people::{tell_undecided, tell_variant};
use crate::round::{Done, Round, work_by};
use std::alloc::Global;
use std::sync::Wait;
use std::sync::atomic::AtomicUsize;
use std::thread::Threads;
use tso_cert::Workers;
use tso_front::{Failure, Session};
use tso_request::{Form, StateLimit, Survey};
use tso_survey::{Calls, Conclusion, Finder, Finding, listed, survey};
use tso_verdict::Collector;

/// How many clients are searched for each of several workers before their lines are printed.
const ROUND: usize = 16;

/// Decides clients by searches, but those that the folder has whole.
#[derive(Clone, Copy)]
pub struct Searcher<'a> {
    pub workers: Workers,
    pub limit: StateLimit,
    /// The folder where what is found is written, and what it has whole is taken from, if there is one.
    pub folder: Option<&'a str>,
    /// Whether it is counted what the records of certificates show.
    pub counts: bool,
    pub form: Form,
}

// Puts what is found of the clients of these numbers, of which each that has nothing yet has one, where it belongs.
fn fill(findings: &mut Vec<Option<Finding>>, done: Vec<Done>) {
    for done in done {
        if let Some(place) = findings.get_mut(done.number) {
            *place = Some(done.finding);
        }
    }
}

// All of them.
fn filled(alloc: Global, findings: Vec<Option<Finding>>) -> Result<Vec<Finding>, Failure> {
    let mut all = Vec::new(alloc);
    for finding in findings {
        if let Some(finding) = finding {
            all.push(finding)?;
        }
    }
    Ok(all)
}

// The numbers of those that have nothing yet.
fn open(alloc: Global, findings: &[Option<Finding>]) -> Result<Vec<usize>, Failure> {
    let mut numbers = Vec::new(alloc);
    for (number, finding) in findings.iter().enumerate() {
        if finding.is_none() {
            numbers.push(number)?;
        }
    }
    Ok(numbers)
}

impl<'a> Searcher<'a> {
    // What the folder has whole of the clients.
    fn kept<R: Threads + Wait + Sync, S: Session>(
        &self,
        rt: &R,
        session: &mut S,
        calls: &[Calls],
        texts: &[Vec<u8>],
    ) -> Result<Vec<Option<Finding>>, Failure> {
        let mut kept = Vec::new(session.alloc());
        for (number, calls) in calls.iter().enumerate() {
            let Some(text) = texts.get(number) else {
                break;
            };
            kept.push(match self.folder {
                Some(folder) => {
                    let collector = Collector {
                        folder,
                        workers: self.workers,
                        counts: self.counts,
                    };
                    collector.kept(rt, session, calls, text)?
                }
                None => None,
            })?;
        }
        Ok(kept)
    }

    // What several workers find of the clients of these numbers.
    fn searched<R: Threads + Wait + Sync>(
        &self,
        rt: &R,
        alloc: Global,
        texts: &[Vec<u8>],
        numbers: &[usize],
    ) -> Result<Vec<Done>, Failure> {
        let next = AtomicUsize::new(0);
        let round = Round {
            texts,
            numbers,
            next: &next,
            alloc,
            limit: self.limit,
            writes: self.folder.is_some(),
            counts: self.counts,
            form: self.form,
        };
        work_by(rt, &round, self.workers.count())
    }
}

impl<'a> Finder for Searcher<'a> {
    fn width(&self) -> usize {
        match self.workers.count() {
            1 => 1,
            workers => ROUND.saturating_mul(workers as usize),
        }
    }

    fn find<R: Threads + Wait + Sync, S: Session>(
        &self,
        rt: &R,
        session: &mut S,
        calls: &[Calls],
        texts: &[Vec<u8>],
    ) -> Result<Vec<Finding>, Failure> {
        let alloc = session.alloc();
        let mut findings = self.kept(rt, session, calls, texts)?;
        let numbers = open(alloc, &findings)?;
        fill(&mut findings, self.searched(rt, alloc, texts, &numbers)?);
        filled(alloc, findings)
    }
}

// Surveys the clients of a program text: by what lies in a folder, where that is asked for, and else by searches.
fn surveyed<R: Threads + Wait + Sync, S: Session>(
    rt: &R,
    session: &mut S,
    base: &[u8],
    asked: &Survey<'_>,
) -> Result<Conclusion, Failure> {
    match asked.asking.collect {
        Some(folder) => {
            let collector = Collector {
                folder,
                workers: asked.workers,
                counts: asked.asking.counts,
            };
            survey(rt, &collector, session, base, &asked.asking)
        }
        None => {
            let searcher = Searcher {
                workers: asked.workers,
                limit: asked.limit,
                folder: asked.asking.out,
                counts: asked.asking.counts,
                form: asked.form,
            };
            survey(rt, &searcher, session, base, &asked.asking)
        }
    }
}

// Says in words what a survey has come to: why a run of the smallest client that was found to have such a run is not good, and of which
// clients nothing follows.
fn tell_conclusion<R: Threads + Wait + Sync, S: Session>(
    rt: &R,
    session: &mut S,
    base: &[u8],
    asked: &Survey<'_>,
    conclusion: &Conclusion,
) {
    if let Some(violated) = &conclusion.violated {
        let (program, mode) = (asked.asking.program, asked.asking.mode);
        let variant = violated.calls.variant(mode);
        tell_variant(rt, session, base, asked.limit, program, variant);
    }
    tell_undecided(session, &conclusion.undecided, asked.limit, asked.form);
}

/// Surveys the clients of a program text: by what lies in a folder, where that is asked for, and else by searches. Where it is to
/// be said in words, it says why a run of the smallest client that was found to have such a run is not good, and of which clients
/// nothing follows. It gives the status.
///
/// Errors: those of `tso_survey::survey`.
pub fn run_survey<R: Threads + Wait + Sync, S: Session>(
    rt: &R,
    session: &mut S,
    base: &[u8],
    asked: &Survey<'_>,
    verbose: bool,
) -> Result<u8, Failure> {
    if asked.asking.lists {
        let lines = listed(session.alloc(), base, &asked.asking)?;
        session.print(lines.as_str())?;
        return Ok(0);
    }
    let conclusion = surveyed(rt, session, base, asked)?;
    if verbose {
        tell_conclusion(rt, session, base, asked, &conclusion);
    }
    Ok(conclusion.status)
}
