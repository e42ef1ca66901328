//! The verdict on a certificate.

ghost use Rattle.std.specs.Prelude.{◌≡◌, Ok};
ghost use Rattle.tso_client.specs.Headline.{IsVerified};
ghost use Rattle.tso_check.specs.declared.verdict.Verdict.TheVariants as verdicts;
ghost use Rattle.tso_verdict.specs.Statuses.{status_of_verdict};

use clap::{Arg, ArgMatches, Command};
use serde_json::{Value, json};
use std::alloc::{AllocError, Global};
use std::mem;
use std::sync::Wait;
use std::thread::Threads;
use tso_cert::{NoWatch, Workers};
use tso_check::{Remains, Verdict, check_parts, check_with};
use tso_front::{
    FILE, Failure, JSON, Session, VARIANT, Variant, Word, misused, number_argument, number_or_null,
    read_apart, variant_of, with_word, with_words,
};
use tso_list::Seq;
use tso_load::{Source, load};

/// Which certificate is decided, for which program, by how many workers.
#[derive(Clone, Copy)]
pub struct Check<'a> {
    pub program: &'a str,
    pub variant: Variant<'a>,
    pub cert: &'a str,
    pub workers: Workers,
    /// Whether the verdict is printed as an object of JSON.
    pub json: bool,
}

/// The option that says how many workers there are.
pub fn workers_argument<'a>(alloc: Global, help: &'a str) -> Arg<'a> {
    number_argument(alloc, "workers", "N", 1, 64)
        .default_value("1")
        .help(help)
}

/// The word that names the certificate.
pub const CERT: Word = Word::Plain {
    name: "CERT",
    help: "the certificate",
};

/// The command with the words of a check behind that which names the certificate.
///
/// Errors: where a growth was refused.
pub fn with_check<'a>(alloc: Global, command: Command<'a>) -> Result<Command<'a>, AllocError> {
    let command = command.arg(workers_argument(alloc, "how many workers check, 1 to 64"))?;
    let command = with_word(alloc, command, JSON)?;
    with_words(alloc, command, &VARIANT)
}

/// What a check is for.
pub const ABOUT: &str =
    "decides a certificate: where it is accepted, every run of the program is good";

/// The command with the words of a check.
///
/// Errors: where a growth was refused.
pub fn check_arguments<'a>(alloc: Global, command: Command<'a>) -> Result<Command<'a>, AllocError> {
    let command = with_words(alloc, command, &[FILE, CERT])?;
    with_check(alloc, command)
}

/// How many workers the words ask for.
///
/// Errors: `Usage` where there are not 1 to 64; `Memory`.
pub fn workers_of<'a>(alloc: Global, matches: &ArgMatches<'a>) -> Result<Workers, Failure> {
    let Some(workers) = Workers::new(matches.get_one::<u64>("workers").unwrap_or(0)) else {
        return Err(misused(alloc, "there are 1 to 64 workers\n"));
    };
    Ok(workers)
}

/// What the words of a check ask for.
///
/// Errors: those of `workers_of` and `read_apart`.
pub fn check_of<'a>(alloc: Global, check: &ArgMatches<'a>) -> Result<Check<'a>, Failure> {
    let program = check.get_str("FILE").unwrap_or("");
    let cert = check.get_str("CERT").unwrap_or("");
    read_apart(alloc, program, cert)?;
    Ok(Check {
        program,
        variant: variant_of(check),
        cert,
        workers: workers_of(alloc, check)?,
        json: check.get_flag("json"),
    })
}

/// The status with which a verdict ends.
pub fn verdict_status(verdict: Verdict) -> u8
    ensures { result ≡ status_of_verdict verdict }
{
    match verdict {
        Verdict::Accepted => 0,
        Verdict::Rejected { .. } => 3,
    }
}

/// A verdict on a certificate.
///
/// Errors: where a growth was refused.
pub fn verdict_object(alloc: Global, verdict: Verdict) -> Result<Value, AllocError> {
    match verdict {
        Verdict::Accepted => json!(in alloc; {"verdict": "accepted"}),
        Verdict::Rejected { code, place } => {
            let code = code.to_string(alloc)?;
            let record = number_or_null(place);
            json!(in alloc; {"verdict": "rejected", "code": code, "record": record})
        }
    }
}

/// The verdict on bytes as a certificate for a program text: where it is accepted, the text denotes a client, and each of its runs
/// is good.
///
/// Errors: `Program` with the first fault of the text; `Memory`.
pub fn verdict_on<R: Threads + Wait + Sync>(
    rt: &R,
    alloc: Global,
    program: &[u8],
    cert: &[u8],
    workers: Workers,
) -> Result<Verdict, Failure>
    ensures headline { result ≡ Ok verdicts.Accepted → IsVerified program.now }
{
    let verdict = check_with(rt, alloc, program, cert, workers, &NoWatch)?;
    Ok(verdict)
}

// Prints the object that says a verdict.
fn put_object<S: Session>(session: &mut S, verdict: Verdict) -> Result<(), Failure> {
    let object = verdict_object(session.alloc(), verdict)?;
    session.print_object(&object)
}

// Prints the line of a verdict.
fn put_line<S: Session>(session: &mut S, verdict: Verdict) -> Result<(), Failure> {
    let line = format!(in session.alloc(); "{verdict}\n")?;
    session.print(line.as_str())
}

/// Prints the line of a verdict, or the object that says the same.
///
/// Errors: `CannotPrint`; `Memory`.
pub fn put_verdict<S: Session>(
    session: &mut S,
    verdict: Verdict,
    json: bool,
) -> Result<(), Failure> {
    if json {
        put_object(session, verdict)?;
    } else {
        put_line(session, verdict)?;
    }
    session.flush()
}

// The verdict on a certificate that lies in several parts. The process ends next, so what it has read stays where it is.
fn verdict_on_parts<R: Threads + Wait + Sync>(
    rt: &R,
    alloc: Global,
    program: &[u8],
    parts: &[Seq<u8>],
    workers: Workers,
) -> Result<Verdict, Failure>
    ensures headline { result ≡ Ok verdicts.Accepted → IsVerified program.now }
{
    let remains = Remains::Left;
    let verdict = check_parts(rt, alloc, program, parts, workers, &NoWatch, remains)?;
    Ok(verdict)
}

/// Decides a certificate, whose bytes are in a file, for a program text, prints the verdict and gives it: where it is accepted,
/// the text denotes a client, and each of its runs is good. By several workers a large file is read in parts (`tso_load`). It is for a
/// program that ends next: what was read is not let go of.
///
/// Errors: `CannotRead`; `Program` with the first fault of the text; `CannotPrint`; `Memory`.
pub fn check_bytes<R: Threads + Wait + Source + Sync, S: Session>(
    rt: &R,
    session: &mut S,
    program: &[u8],
    asked: &Check<'_>,
) -> Result<Verdict, Failure>
    ensures headline { result ≡ Ok verdicts.Accepted → IsVerified program.now }
{
    let parts = load(rt, session, asked.cert, asked.workers.count())?;
    let verdict = verdict_on_parts(rt, session.alloc(), program, &parts, asked.workers)?;
    mem::forget(parts);
    put_verdict(session, verdict, asked.json)?;
    Ok(verdict)
}
