//! The program that decides certificates and does nothing else.

use crate::checking::{
    ABOUT, Check, check_bytes, check_of, verdict_status, with_check, workers_of,
};
use crate::collecting::Collector;
use clap::{Arg, ArgMatches, Command, Error};
use std::alloc::{Alloc, AllocError, Global};
use std::env::Env;
use std::io::Write;
use std::sync::Wait;
use std::thread::Threads;
use tso_front::{
    FILE, Failure, Files, Session, Streams, VERSION, ended_words, misused, refuse_given, reported,
    started, with_word, with_words,
};
use tso_load::Source;
use tso_survey::{COLLECTED, asking_of, survey};

const HELP: &str =
    "Reads FILE, a program text, and CERT, a certificate, and trusts neither. Writes no file. Its lines and its status
are those of `tsoq check`. With --collect DIR in the place of CERT it decides all that a survey of FILE has left in
that folder; its lines and its status are those of `tsoq survey --collect`, and --before is then how many pushes a
prologue has at most. It has nothing else of that program.

Status:
  0   every run is good            accepted
  1   a run is not good            violation: CALLS, from a folder
  2   FILE is refused              E04 line 7
  3   CERT is refused              rejected K01, or rejected K08 at record 2
  4   nothing follows              undecided: .., from a folder
  5   out of memory
  6   a file failed                cannot read PATH
  64  the words are none of these";

// The command with the word that names the certificate, which may be lacking beside a folder.
fn with_cert<'a>(alloc: Global, command: Command<'a>) -> Result<Command<'a>, AllocError> {
    let cert = Arg::new(alloc, "CERT").help("the certificate");
    match cert.required_unless_present("collect") {
        Ok(cert) => command.arg(cert),
        Err(reason) => {
            drop(command);
            Err(reason)
        }
    }
}

// All the words.
fn command<'a>(alloc: Global) -> Result<Command<'a>, AllocError> {
    let command = Command::new(alloc, "tsoq-check")
        .about(ABOUT)
        .version(VERSION)
        .after_help(HELP);
    let command = with_word(alloc, command, FILE)?;
    let command = with_cert(alloc, command)?;
    let command = with_check(alloc, command)?;
    with_words(alloc, command, &COLLECTED)
}

// Decides the certificate that the words name, and gives the status.
fn answer<R: Threads + Wait + Source + Sync, S: Session>(
    rt: &R,
    session: &mut S,
    asked: &Check<'_>,
) -> Result<u8, Failure> {
    let program = session.read_variant(asked.program, &asked.variant)?;
    let verdict = check_bytes(rt, session, &program, asked)?;
    Ok(verdict_status(verdict))
}

// The words that say which clients of a folder are decided.
const SIZES: [&str; 5] = ["clients", "threads", "calls", "producers", "consumers"];

// Refuses words of which no use is made beside a folder.
fn refuse_beside_folder(alloc: Global, matches: &ArgMatches<'_>) -> Result<(), Failure> {
    if let Some(cert) = matches.get_str("CERT") {
        let text = format!(in alloc; "{cert}: a certificate is not read beside --collect\n")?;
        return Err(misused(alloc, text.as_str()));
    }
    refuse_given(alloc, matches, &["client"], "--collect")
}

// Decides what a folder has of the clients that the words ask about, and gives the status.
fn collect<R: Threads + Wait + Sync, S: Session>(
    rt: &R,
    session: &mut S,
    matches: &ArgMatches<'_>,
    folder: &str,
) -> Result<u8, Failure> {
    let alloc = session.alloc();
    refuse_beside_folder(alloc, matches)?;
    let asking = asking_of(alloc, matches)?;
    let workers = workers_of(alloc, matches)?;
    let base = session.read_program(asking.program)?;
    let collector = Collector {
        folder,
        workers,
        counts: asking.counts,
    };
    let conclusion = survey(rt, &collector, session, &base, &asking)?;
    Ok(conclusion.status)
}

// Does what the words of a command ask for, and gives the status.
fn answer_to<R: Threads + Wait + Source + Sync, S: Session>(
    rt: &R,
    session: &mut S,
    matches: &ArgMatches<'_>,
) -> Result<u8, Failure> {
    match matches.get_str("collect") {
        Some(folder) => collect(rt, session, matches, folder),
        None => {
            refuse_given(session.alloc(), matches, &SIZES, "a certificate")?;
            let asked = check_of(session.alloc(), matches)?;
            answer(rt, session, &asked)
        }
    }
}

// Prints the help or the version that the words ask for, and gives the status.
fn print_help<S: Session>(session: &mut S, error: &Error) -> Result<u8, Failure> {
    let text = ended_words(session.alloc(), error)?;
    session.print(text.0.as_str())?;
    session.flush()?;
    Ok(0)
}

// Does what the words ask for, and gives the status.
fn perform<R: Threads + Wait + Source + Sync, S: Session>(
    rt: &R,
    session: &mut S,
    words: &[String],
) -> Result<u8, Failure> {
    let command = command(session.alloc())?;
    match command.try_get_matches_from(words) {
        Ok(matches) => {
            let status = answer_to(rt, session, &matches);
            drop(matches);
            status
        }
        Err(error) => {
            let status = print_help(session, &error);
            drop(error);
            status
        }
    }
}

/// Runs the program that decides certificates: its words, with its own name first; what opens its files; its standard output
/// and error. It answers the status with which the process is to end.
pub fn run_check<R: Threads + Wait + Source + Sync, F: Files, O: Write, E: Write>(
    rt: &R,
    alloc: Global,
    words: &[String],
    files: &mut F,
    out: &mut O,
    err: &mut E,
) -> u8 {
    let mut session = Streams {
        alloc,
        files,
        out,
        err,
    };
    match perform(rt, &mut session, words) {
        Ok(status) => status,
        Err(failure) => session.report(&failure),
    }
}

/// Runs it with the words of the command line, also where a word is not UTF-8, or memory for the words is wanting.
pub fn run_check_process<
    R: Threads + Wait + Source + Sync,
    S: Env + Alloc<A = Global>,
    F: Files,
    O: Write + Drop,
    E: Write,
>(rt: &R, system: &S, files: &mut F, out: O, err: &mut E) -> u8 {
    let alloc = system.alloc();
    match started(system, out) {
        Ok((words, mut out)) => {
            let status = run_check(rt, alloc, words.as_slice(), files, &mut out, err);
            // Where the run failed, nothing is written any more of what waits in the buffer.
            let _waiting = out.into_parts();
            status
        }
        Err(failure) => reported(alloc, err, &failure),
    }
}
