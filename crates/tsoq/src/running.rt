//! The program over its words, files and streams.

use crate::covering::{check_told, cover};
use crate::fences::run_fences;
use crate::guard::guard;
use crate::parse::parse;
use crate::people::{tell, tell_hidden, tell_limit, tell_outside, tell_verdict};
use crate::survey::run_survey;
use crate::upgrade::{Upgraded, upgrade_to};
use crate::verify::{Found, verify};
use std::alloc::{Alloc, Global};
use std::env::Env;
use std::io::Write;
use std::sync::Wait;
use std::thread::Threads;
use std::time::Duration;
use tso_front::{Failure, Files, STREAM, Session, Streams, json_line, reported, started};
use tso_load::{Source, read_certificate};
use tso_replay::{Listener, Progress, Sizes, Texts, limit_object, run_replay, tell_cause};
use tso_request::{
    Asked, Covering, FenceSearch, Parsing, Request, Search, Survey, Upgrading, request_of,
};
use tso_say::{Topic, explanation};
use tso_verdict::{Check, check_bytes, put_verdict, verdict_status};

fn check<R: Threads + Wait + Source + Sync, S: Session>(
    rt: &R,
    session: &mut S,
    texts: &mut Texts,
    asked: &Check<'_>,
    verbose: bool,
) -> Result<u8, Failure> {
    texts.program = session.read_variant(asked.program, &asked.variant)?;
    if !verbose {
        let verdict = check_bytes(rt, session, &texts.program, asked)?;
        return Ok(verdict_status(verdict));
    }
    let verdict = check_told(rt, session, &texts.program, asked)?;
    tell_verdict(session, verdict);
    Ok(verdict_status(verdict))
}

// Says that a certificate was upgraded: on standard error where the new one is on standard output.
fn put_upgraded<S: Session>(session: &mut S, records: u64, out: &str) -> Result<(), Failure> {
    let text = format!(in session.alloc(); "upgraded: {records} records\n")?;
    if out == STREAM {
        session.note(text.as_bytes());
        return Ok(());
    }
    session.print(text.as_str())
}

fn upgrade_file<S: Session + Files>(
    session: &mut S,
    texts: &mut Texts,
    asked: &Upgrading<'_>,
    verbose: bool,
) -> Result<u8, Failure> {
    texts.program = session.read_variant(asked.program, &asked.variant)?;
    let cert = read_certificate(session, asked.cert)?;
    match upgrade_to(session.alloc(), session, &texts.program, &cert, asked.out)? {
        Upgraded::Written { records, .. } => {
            put_upgraded(session, records, asked.out)?;
            Ok(0)
        }
        Upgraded::Refused(verdict) => {
            put_verdict(session, verdict, false)?;
            if verbose {
                tell_outside(session, verdict, &cert);
                tell_verdict(session, verdict);
            }
            Ok(verdict_status(verdict))
        }
    }
}

fn cover_program<R: Threads + Wait + Sync, S: Session>(
    rt: &R,
    session: &mut S,
    texts: &mut Texts,
    asked: &Covering<'_>,
    verbose: bool,
) -> Result<u8, Failure> {
    texts.program = session.read_variant(asked.check.program, &asked.check.variant)?;
    let verdict = cover(rt, session, &texts.program, asked)?;
    if verbose {
        session.flush()?;
        tell_verdict(session, verdict);
    }
    Ok(verdict_status(verdict))
}

fn survey_queue<R: Threads + Wait + Sync, S: Session>(
    rt: &R,
    session: &mut S,
    texts: &mut Texts,
    asked: &Survey<'_>,
    verbose: bool,
) -> Result<u8, Failure> {
    texts.program = session.read_program(asked.asking.program)?;
    run_survey(rt, session, &texts.program, asked, verbose)
}

fn ask_fences<R: Threads + Wait + Sync, S: Session>(
    rt: &R,
    session: &mut S,
    texts: &mut Texts,
    asked: &FenceSearch<'_>,
    verbose: bool,
) -> Result<u8, Failure> {
    texts.program = session.read_variant(asked.fences.program, &asked.fences.variant)?;
    run_fences(rt, session, &texts.program, asked, verbose)
}

fn parse_file<S: Session>(
    session: &mut S,
    texts: &mut Texts,
    asked: &Parsing<'_>,
) -> Result<u8, Failure> {
    texts.program = session.read_variant(asked.program, &asked.variant)?;
    let text = parse(session.alloc(), &texts.program, asked.print)?;
    session.print(text.as_str())?;
    Ok(0)
}

fn explain<S: Session>(session: &mut S, topic: Topic) -> Result<u8, Failure> {
    let page = explanation(session.alloc(), topic)?;
    session.print_bytes(&page.bytes)?;
    Ok(0)
}

// Says how much was met and written, and in what time.
fn put_stats<S: Session, L: Listener>(
    session: &mut S,
    watch: &Progress<'_, L>,
    sizes: Sizes,
    begun: Option<Duration>,
) -> Result<(), Failure> {
    let times = watch.times(begun);
    session.flush()?;
    let text = sizes.to_string(session.alloc())?;
    session.note(text.as_bytes());
    if let Some(times) = times {
        let text = times.to_string(session.alloc())?;
        session.note(text.as_bytes());
    }
    Ok(())
}

// Prints what a search found: to standard error where what it wrote is on standard output.
fn put_found<S: Session, L: Listener>(
    session: &mut S,
    watch: &Progress<'_, L>,
    asked: &Search<'_>,
    found: &Found,
    begun: Option<Duration>,
) -> Result<(), Failure> {
    let text = if asked.json {
        let times = watch.times(begun);
        let object = found.report.object(session.alloc(), watch.states(), times)?;
        json_line(session.alloc(), &object)?
    } else {
        found.report.to_string(session.alloc())?
    };
    if asked.is_piped() {
        session.note(text.as_bytes());
        return Ok(());
    }
    session.print(text.as_str())
}

// Says what a search found and wrote, and gives the status.
fn end<S: Session, L: Listener>(
    session: &mut S,
    watch: &Progress<'_, L>,
    asked: &Search<'_>,
    found: &Found,
    begun: Option<Duration>,
    verbose: bool,
) -> Result<u8, Failure> {
    if let Some(failure) = &found.unwritten {
        session.report(failure);
    }
    put_found(session, watch, asked, found, begun)?;
    if asked.stats {
        let sizes = found.report.sizes(watch.states());
        put_stats(session, watch, sizes, begun)?;
    }
    if let (true, Some(trace)) = (verbose, &found.trace) {
        session.flush()?;
        tell_cause(session, trace);
    }
    if let Some(said) = &found.said {
        session.flush()?;
        session.note(said.as_bytes());
    }
    Ok(found.status())
}

// Says that a search met as many states as it may, and gives the status.
fn end_at_limit<S: Session, L: Listener>(
    session: &mut S,
    watch: &Progress<'_, L>,
    asked: &Search<'_>,
    begun: Option<Duration>,
    verbose: bool,
) -> Result<u8, Failure> {
    let states = u64::from(asked.limit.count());
    let status = if asked.json {
        session.print_object(&limit_object(session.alloc(), states)?)?;
        Failure::Limit.status()
    } else {
        session.report(&Failure::Limit)
    };
    if asked.stats {
        put_stats(session, watch, Sizes::met(states), begun)?;
    }
    if verbose {
        tell_limit(session, asked.limit, asked.form);
    }
    Ok(status)
}

fn search<R: Threads + Wait + Sync, S: Session + Files, L: Listener + Sync>(
    rt: &R,
    session: &mut S,
    texts: &mut Texts,
    listener: &L,
    asked: &Search<'_>,
    verbose: bool,
) -> Result<u8, Failure> {
    let begun = listener.elapsed();
    texts.program = session.read_variant(asked.program, &asked.variant)?;
    let watch = Progress::new(listener, asked.progress);
    match verify(
        rt,
        session.alloc(),
        session,
        &texts.program,
        asked,
        &watch,
        verbose,
    ) {
        Ok(found) => {
            let status = end(session, &watch, asked, &found, begun, verbose);
            drop(found);
            status
        }
        Err(Failure::Limit) => end_at_limit(session, &watch, asked, begun, verbose),
        Err(failure) => Err(failure),
    }
}

// Does what the words ask for, and gives the status.
fn perform<R: Threads + Wait + Source + Sync, S: Session + Files, L: Listener + Sync>(
    rt: &R,
    session: &mut S,
    texts: &mut Texts,
    listener: &L,
    request: &Request<'_>,
) -> Result<u8, Failure> {
    match &request.asked {
        Asked::Help(text) => {
            session.print(text.0.as_str())?;
            Ok(0)
        }
        Asked::Verify(asked) => search(rt, session, texts, listener, asked, request.verbose),
        Asked::Check(asked) => check(rt, session, texts, asked, request.verbose),
        Asked::Upgrade(asked) => upgrade_file(session, texts, asked, request.verbose),
        Asked::Coverage(asked) => cover_program(rt, session, texts, asked, request.verbose),
        Asked::Replay(asked) => run_replay(session, texts, asked, request.verbose),
        Asked::Survey(asked) => survey_queue(rt, session, texts, asked, request.verbose),
        Asked::Fences(asked) => ask_fences(rt, session, texts, asked, request.verbose),
        Asked::Parse(asked) => parse_file(session, texts, asked),
        Asked::Explain(topic) => explain(session, *topic),
    }
}

// The same, with all that was printed written out.
fn perform_all<R: Threads + Wait + Source + Sync, S: Session + Files, L: Listener + Sync>(
    rt: &R,
    session: &mut S,
    texts: &mut Texts,
    listener: &L,
    request: &Request<'_>,
) -> Result<u8, Failure> {
    guard(session, &request.asked)?;
    let status = perform(rt, session, texts, listener, request)?;
    session.flush()?;
    Ok(status)
}

// Does what the words ask for, and where it does not succeed says why.
fn answer<R: Threads + Wait + Source + Sync, S: Session + Files, L: Listener + Sync>(
    rt: &R,
    session: &mut S,
    listener: &L,
    request: &Request<'_>,
) -> u8 {
    let mut texts = Texts {
        program: Vec::new(session.alloc()),
        trace: Vec::new(session.alloc()),
    };
    let status = match perform_all(rt, session, &mut texts, listener, request) {
        Ok(status) => status,
        Err(failure) => {
            let status = session.report(&failure);
            if request.verbose {
                tell(session, &request.asked, &texts, &failure);
            }
            status
        }
    };
    if request.verbose {
        tell_hidden(session, &request.asked, &texts.program);
    }
    status
}

/// Runs the program: its words, with its own name first; what opens its files; what hears of a search; its standard output and
/// error. It answers the status with which the process is to end.
pub fn run<R: Threads + Wait + Source + Sync, F: Files, L: Listener + Sync, O: Write, E: Write>(
    rt: &R,
    alloc: Global,
    words: &[String],
    files: &mut F,
    listener: &L,
    out: &mut O,
    err: &mut E,
) -> u8 {
    let mut session = Streams {
        alloc,
        files,
        out,
        err,
    };
    match request_of(alloc, words) {
        Ok(request) => answer(rt, &mut session, listener, &request),
        Err(failure) => session.report(&failure),
    }
}

/// Runs the program with the words of the command line, and answers the status with which the process is to end: also where
/// a word is not UTF-8, and where memory for the words is wanting.
pub fn run_process<
    R: Threads + Wait + Source + Sync,
    S: Env + Alloc<A = Global>,
    F: Files,
    L: Listener + Sync,
    O: Write + Drop,
    E: Write,
>(rt: &R, system: &S, files: &mut F, listener: &L, out: O, err: &mut E) -> u8 {
    let alloc = system.alloc();
    match started(system, out) {
        Ok((words, mut out)) => {
            let status = run(rt, alloc, words.as_slice(), files, listener, &mut out, err);
            // Where the run failed, nothing is written any more of what waits in the buffer.
            let _waiting = out.into_parts();
            status
        }
        Err(failure) => reported(alloc, err, &failure),
    }
}
