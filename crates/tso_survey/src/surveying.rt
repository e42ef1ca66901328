//! The survey of a queue: all its clients up to a size.

ghost use Rattle.std.specs.Prelude.{All, IfOk, IsTrue};
ghost use Rattle.tso_client.specs.Headline.{IsVerified};

use crate::accepted::{Accepted, are_all_accepted};
use crate::bounds::Bounds;
use crate::calls::{Calls, Numbering};
use crate::cases::{Cases, is_taken, text_of};
use crate::finding::{Finder, Finding};
use crate::method::Words;
use crate::plan::{Asked, Plan, count_of};
use crate::tally::{Tally, Violated, write_apart};
use crate::undecided::Undecided;
use crate::words::{Asking, Part};
use serde_json::{Value, json};
use std::alloc::{AllocError, Global};
use std::sync::Wait;
use std::thread::Threads;
use tso_client::checked_of;
use tso_front::{Failure, Kind, Members, Session, Variant, misused};

/// How many clients a survey asks about at the most.
const MOST_CLIENTS: usize = 100_000;

// Whether the survey is over.
fn is_over(tally: &Tally, asking: &Asking<'_>) -> bool {
    tally.violated.is_some() && !asking.all
}

// Prints the lines of these clients, one after the other, until the survey is over.
fn put_all<S: Session>(
    session: &mut S,
    tally: &mut Tally,
    asking: &Asking<'_>,
    calls: &[Calls],
    texts: &[Vec<u8>],
    findings: &mut [Finding],
) -> Result<(), Failure> {
    for (number, finding) in findings.iter_mut().enumerate() {
        if let (Some(calls), Some(text)) = (calls.get(number), texts.get(number)) {
            tally.put(session, asking, calls, text, finding)?;
        }
        if is_over(tally, asking) {
            break;
        }
    }
    Ok(())
}

// Says how far the survey has come, if that is asked for. Behind a violation smaller clients are decided one by one.
fn note_progress<S: Session>(
    session: &mut S,
    tally: &Tally,
    asking: &Asking<'_>,
    cases: &Cases,
) -> Result<(), Failure> {
    if asking.progress {
        let (count, all) = (tally.count, cases.calls.len());
        let line = if count > all {
            format!(in session.alloc(); "{count} clients\n")?
        } else {
            format!(in session.alloc(); "{count} of {all} clients\n")?
        };
        session.note(line.as_bytes());
    }
    Ok(())
}

// Decides these clients, and prints their lines.
fn decide_some<R: Threads + Wait + Sync, D: Finder, S: Session>(
    rt: &R,
    finder: &D,
    session: &mut S,
    tally: &mut Tally,
    asking: &Asking<'_>,
    calls: &[Calls],
    texts: &[Vec<u8>],
) -> Result<(), Failure> {
    let mut findings = finder.find(rt, session, calls, texts)?;
    let put = put_all(
        session,
        tally,
        asking,
        calls,
        texts,
        findings.as_mut_slice(),
    );
    drop(findings);
    put
}

// Decides the clients, some at a time, until the survey is over.
fn decide_all<R: Threads + Wait + Sync, D: Finder, S: Session>(
    rt: &R,
    finder: &D,
    session: &mut S,
    tally: &mut Tally,
    asking: &Asking<'_>,
    cases: &Cases,
) -> Result<(), Failure> {
    let width = finder.width().max(1);
    for (calls, texts) in cases.calls.chunks(width).zip(cases.texts.chunks(width)) {
        decide_some(rt, finder, session, tally, asking, calls, texts)?;
        note_progress(session, tally, asking, cases)?;
        if is_over(tally, asking) {
            break;
        }
    }
    Ok(())
}

// Decides one client.
fn decide_one<R: Threads + Wait + Sync, D: Finder, S: Session>(
    rt: &R,
    finder: &D,
    session: &mut S,
    tally: &mut Tally,
    base: &[u8],
    asking: &Asking<'_>,
    calls: Calls,
) -> Result<(), Failure> {
    let mut cases = Cases::new(session.alloc());
    cases.put(session.alloc(), base, asking, calls)?;
    decide_all(rt, finder, session, tally, asking, &cases)
}

// The clients that are smaller than this, but for the largest that were decided, the smallest first.
fn smaller_than(
    alloc: Global,
    plan: &Plan,
    decided: usize,
    size: usize,
) -> Result<Vec<&Asked>, AllocError> {
    let mut smaller = Vec::new(alloc);
    for asked in plan.smaller.iter().chain(plan.largest.iter().skip(decided)) {
        if asked.size() < size {
            smaller.push(asked)?;
        }
    }
    smaller.sort_by_key(|asked| (asked.size(), asked.threads()))?;
    Ok(smaller)
}

// Decides these clients, each with fewer calls than these, up to one that has a run that is not good.
fn decide_smaller<R: Threads + Wait + Sync, D: Finder, S: Session>(
    rt: &R,
    finder: &D,
    session: &mut S,
    tally: &mut Tally,
    base: &[u8],
    asking: &Asking<'_>,
    words: &Words,
    smaller: &[&Asked],
    size: usize,
) -> Result<(), Failure> {
    for asked in smaller {
        let calls = asked.calls(session.alloc(), words, Numbering::Taken)?;
        decide_one(rt, finder, session, tally, base, asking, calls)?;
        if tally.is_violated_below(size) {
            break;
        }
    }
    Ok(())
}

// The client of a text by one that covers it, if this one does.
fn covered_by(alloc: Global, text: &[u8], larger: &Accepted) -> Result<Option<Accepted>, Failure> {
    let copy = Vec::from_slice(alloc, text)?;
    let checked = checked_of(alloc, text)?;
    Ok(larger.covered(copy, checked))
}

// The text of a smaller client, and the client by this one, if that covers it.
fn served_by(
    alloc: Global,
    base: &[u8],
    asking: &Asking<'_>,
    plan: &Plan,
    larger: &Accepted,
    smaller: &Asked,
) -> Result<Option<(Vec<u8>, Accepted)>, Failure> {
    let calls = smaller.calls(alloc, &plan.words, Numbering::Larger)?;
    let text = text_of(alloc, base, asking, &calls)?;
    match covered_by(alloc, &text, larger)? {
        Some(accepted) => Ok(Some((text, accepted))),
        None => Ok(None),
    }
}

// A smaller client by one that covers it, if that was accepted.
fn served(
    alloc: Global,
    base: &[u8],
    asking: &Asking<'_>,
    plan: &Plan,
    accepted: &[Accepted],
    smaller: &Asked,
) -> Result<Option<(Vec<u8>, Accepted)>, Failure> {
    let Some(number) = plan.larger(alloc, smaller)? else {
        return Ok(None);
    };
    match accepted.get(number) {
        Some(larger) => served_by(alloc, base, asking, plan, larger, smaller),
        None => Ok(None),
    }
}

// Whether the clients that were accepted answer for all that the survey asks about, of which the texts of the smaller ones are put
// behind those of the largest. It is true only where each run of each of these texts is good.
fn answers_for_all(
    alloc: Global,
    base: &[u8],
    asking: &Asking<'_>,
    plan: &Plan,
    texts: &mut Vec<Vec<u8>>,
    accepted: &mut Vec<Accepted>,
) -> Result<bool, Failure>
    ensures { IfOk result (λ all. IsTrue all → All (λ text. ∥ IsVerified text.items ∥₁) texts.new.items) }
{
    for smaller in plan.smaller.iter() {
        match served(alloc, base, asking, plan, accepted, smaller)? {
            Some((text, client)) => {
                texts.push(text)?;
                accepted.push(client)?;
            }
            None => return Ok(false),
        }
    }
    Ok(are_all_accepted(accepted, texts))
}

// How a survey ends: its last line, the object of JSON that says the same, and the status.
#[derive(Drop)]
struct Last {
    line: String,
    object: Value,
    status: u8,
}

// Of how many clients nothing follows, as a line.
fn undecided_line(alloc: Global, tally: &Tally) -> Result<String, AllocError> {
    let count = tally.count;
    let (limits, missing, refused) = (tally.limits, tally.missing, tally.refused);
    format!(in alloc;
        "undecided: of {count} clients {limits} at the limit, {missing} missing, {refused} refused\n"
    )
}

// The same as an object of JSON.
fn undecided_object(alloc: Global, tally: &Tally) -> Result<Value, AllocError> {
    let object = Members::new(alloc)
        .text("verdict", "undecided")?
        .number("clients", tally.count as u64)?
        .number("limits", tally.limits as u64)?
        .number("missing", tally.missing as u64)?
        .number("refused", tally.refused as u64)?;
    Ok(object.object())
}

// That of so many clients nothing follows.
fn undecided(alloc: Global, tally: &Tally) -> Result<Last, AllocError> {
    Ok(Last {
        line: undecided_line(alloc, tally)?,
        object: undecided_object(alloc, tally)?,
        status: if tally.refused > 0 { 3 } else { 4 },
    })
}

// That the client with these calls has a run that is not good, as an object of JSON: the smallest that has one, where all that are smaller
// are decided, and else one beside so many that are not.
fn violated_object(alloc: Global, calls: &str, undecided: usize) -> Result<Value, AllocError> {
    if undecided == 0 {
        return json!(in alloc; {"verdict": "violation", "smallest": calls});
    }
    let undecided = undecided as u64;
    json!(in alloc; {"verdict": "violation", "client": calls, "smaller_undecided": undecided})
}

// The same as a line.
fn violated_line(alloc: Global, calls: &str, undecided: usize) -> Result<String, AllocError> {
    match undecided {
        0 => format!(in alloc; "violation: {calls}\n"),
        1 => format!(in alloc; "violation: {calls}, 1 smaller client is undecided\n"),
        more => format!(in alloc; "violation: {calls}, {more} smaller clients are undecided\n"),
    }
}

// That the client with these calls has a run that is not good, and so many smaller ones are not decided.
fn violated(alloc: Global, calls: &str, undecided: usize) -> Result<Last, AllocError> {
    Ok(Last {
        line: violated_line(alloc, calls, undecided)?,
        object: violated_object(alloc, calls, undecided)?,
        status: 1,
    })
}

// That each client of a list or of a part was accepted, as a line.
fn accepted_line(alloc: Global, count: usize, of: usize) -> Result<String, AllocError> {
    let s = if count == 1 { "" } else { "s" };
    if count == of {
        format!(in alloc; "accepted: {count} client{s}\n")
    } else {
        format!(in alloc; "accepted: {count} of the {of} clients that are searched\n")
    }
}

// The same as an object of JSON.
fn accepted_object(alloc: Global, count: usize, of: usize) -> Result<Value, AllocError> {
    let (count, of) = (count as u64, of as u64);
    json!(in alloc; {"verdict": "accepted", "searched": count, "of": of})
}

// That each client of a list or of a part was accepted.
fn accepted(alloc: Global, count: usize, of: usize) -> Result<Last, AllocError> {
    Ok(Last {
        line: accepted_line(alloc, count, of)?,
        object: accepted_object(alloc, count, of)?,
        status: 0,
    })
}

// How many of these clients have fewer calls than this.
fn count_smaller(calls: &[Calls], size: usize) -> usize {
    calls.iter().filter(|calls| calls.count() < size).count()
}

// How many clients of a list or a part with fewer calls than these are undecided: those of which nothing follows, and those that were not
// looked at.
fn smaller_left(tally: &Tally, cases: &Cases, size: usize) -> usize {
    let left = cases.calls.get(tally.count..).unwrap_or(&[]);
    tally
        .undecided_below(size)
        .saturating_add(count_smaller(left, size))
}

// Ends a survey of some clients: those of a list, or a part of those that are searched, of which there are so many.
fn end_some(alloc: Global, tally: &Tally, cases: &Cases, of: usize) -> Result<Last, AllocError> {
    if let Some(found) = &tally.violated {
        let calls = found.calls.to_string(alloc)?;
        return violated(
            alloc,
            calls.as_str(),
            smaller_left(tally, cases, found.size()),
        );
    }
    if are_all_accepted(&tally.accepted, &cases.texts) {
        accepted(alloc, tally.count, of)
    } else {
        undecided(alloc, tally)
    }
}

// That the smallest client that was found has a run that is not good: each that is smaller was looked at.
fn end_smallest(alloc: Global, tally: &Tally) -> Result<Last, AllocError> {
    match &tally.violated {
        Some(found) => {
            let calls = found.calls.to_string(alloc)?;
            violated(alloc, calls.as_str(), tally.undecided_below(found.size()))
        }
        None => undecided(alloc, tally),
    }
}

// Ends a survey of all clients within the bounds in which one with so many calls has a run that is not good: the smaller clients
// are decided too.
fn end_violated<R: Threads + Wait + Sync, D: Finder, S: Session>(
    rt: &R,
    finder: &D,
    session: &mut S,
    tally: &mut Tally,
    base: &[u8],
    asking: &Asking<'_>,
    plan: &Plan,
    size: usize,
) -> Result<Last, Failure> {
    let smaller = smaller_than(session.alloc(), plan, tally.count, size)?;
    decide_smaller(
        rt,
        finder,
        session,
        tally,
        base,
        asking,
        &plan.words,
        &smaller,
        size,
    )?;
    Ok(end_smallest(session.alloc(), tally)?)
}

// That each client within the bounds was accepted, where so many were searched, as a line.
fn every_line(alloc: Global, bounds: &Bounds, count: usize) -> Result<String, AllocError> {
    format!(in alloc; "accepted: every client of {bounds}, {count} searched\n")
}

// That each client within the bounds was accepted.
fn every(alloc: Global, bounds: &Bounds, count: usize) -> Result<Last, AllocError> {
    Ok(Last {
        line: every_line(alloc, bounds, count)?,
        object: bounds.object(alloc, count)?,
        status: 0,
    })
}

// Ends a survey of all clients within the bounds, of which these are the texts of the largest.
fn end_whole<R: Threads + Wait + Sync, D: Finder, S: Session>(
    rt: &R,
    finder: &D,
    session: &mut S,
    tally: &mut Tally,
    base: &[u8],
    asking: &Asking<'_>,
    plan: &Plan,
    texts: &mut Vec<Vec<u8>>,
) -> Result<Last, Failure> {
    let alloc = session.alloc();
    if let Some(size) = tally.violated_size() {
        return end_violated(rt, finder, session, tally, base, asking, plan, size);
    }
    if !tally.is_clean() {
        return Ok(undecided(alloc, tally)?);
    }
    let accepted = &mut tally.accepted;
    let last = if answers_for_all(alloc, base, asking, plan, texts, accepted)? {
        every(alloc, &asking.bounds, tally.count)?
    } else {
        undecided(alloc, tally)?
    };
    Ok(last)
}

// Writes the lines of a survey into its folder, if it has one. Of lists of clients there may be many surveys at once that write into one
// folder, so those write none.
fn write_index<S: Session>(
    session: &mut S,
    tally: &Tally,
    asking: &Asking<'_>,
) -> Result<(), Failure> {
    let alloc = session.alloc();
    let Some(folder) = asking.out else {
        return Ok(());
    };
    let path = match (asking.part, asking.clients) {
        (Some(part), _) => format!(in alloc; "{folder}/index-{part}")?,
        (None, None) => format!(in alloc; "{folder}/index")?,
        (None, Some(_)) => return Ok(()),
    };
    write_apart(session, asking, path.as_str(), &tally.lines)
}

// Some clients: those of a list, or a part of those that are searched, of which there are so many.
fn survey_some<R: Threads + Wait + Sync, D: Finder, S: Session>(
    rt: &R,
    finder: &D,
    session: &mut S,
    tally: &mut Tally,
    asking: &Asking<'_>,
    cases: &Cases,
    of: usize,
) -> Result<Last, Failure> {
    decide_all(rt, finder, session, tally, asking, cases)?;
    Ok(end_some(session.alloc(), tally, cases, of)?)
}

// The clients of the lines of a list.
fn survey_lines<R: Threads + Wait + Sync, D: Finder, S: Session>(
    rt: &R,
    finder: &D,
    session: &mut S,
    tally: &mut Tally,
    base: &[u8],
    asking: &Asking<'_>,
    list: &str,
) -> Result<Last, Failure> {
    let cases = Cases::listed(session.alloc(), base, asking, list)?;
    let count = cases.texts.len();
    if count == 0 {
        return Err(no_clients(session.alloc(), asking));
    }
    survey_some(rt, finder, session, tally, asking, &cases, count)
}

// The clients of a list.
fn survey_list<R: Threads + Wait + Sync, D: Finder, S: Session>(
    rt: &R,
    finder: &D,
    session: &mut S,
    tally: &mut Tally,
    base: &[u8],
    asking: &Asking<'_>,
    list: &str,
) -> Result<Last, Failure> {
    let bytes = session.read(list, usize::MAX)?;
    match std::str::from_utf8(&bytes) {
        Ok(list) => survey_lines(rt, finder, session, tally, base, asking, list),
        Err(_) => {
            let text = format!(in session.alloc(); "{list}: the list of clients is not UTF-8\n")?;
            Err(misused(session.alloc(), text.as_str()))
        }
    }
}

// The clients within the bounds, of which these are searched.
fn survey_cases<R: Threads + Wait + Sync, D: Finder, S: Session>(
    rt: &R,
    finder: &D,
    session: &mut S,
    tally: &mut Tally,
    base: &[u8],
    asking: &Asking<'_>,
    plan: &Plan,
    cases: &mut Cases,
) -> Result<Last, Failure> {
    if asking.part.is_some() {
        let count = plan.largest.len();
        return survey_some(rt, finder, session, tally, asking, cases, count);
    }
    decide_all(rt, finder, session, tally, asking, cases)?;
    let texts = &mut cases.texts;
    end_whole(rt, finder, session, tally, base, asking, plan, texts)
}

// The clients of a plan.
fn survey_plan<R: Threads + Wait + Sync, D: Finder, S: Session>(
    rt: &R,
    finder: &D,
    session: &mut S,
    tally: &mut Tally,
    base: &[u8],
    asking: &Asking<'_>,
    plan: &Plan,
) -> Result<Last, Failure> {
    let mut cases = Cases::planned(session.alloc(), base, asking, plan)?;
    survey_cases(rt, finder, session, tally, base, asking, plan, &mut cases)
}

// The clients within the bounds.
fn survey_bounds<R: Threads + Wait + Sync, D: Finder, S: Session>(
    rt: &R,
    finder: &D,
    session: &mut S,
    tally: &mut Tally,
    base: &[u8],
    asking: &Asking<'_>,
) -> Result<Last, Failure> {
    let plan = plan_of(session.alloc(), asking)?;
    survey_plan(rt, finder, session, tally, base, asking, &plan)
}

// That there is no client to be asked about.
fn no_clients(alloc: Global, asking: &Asking<'_>) -> Failure {
    let bounds = asking.bounds;
    let text = match asking.clients {
        Some(list) => format!(in alloc; "{list} has no client\n"),
        None => format!(in alloc; "there is no client of {bounds}\n"),
    };
    match text {
        Ok(text) => Failure::Usage(text),
        Err(_) => Failure::Memory,
    }
}

// The clients within the bounds, if there are any, and not too many.
fn plan_of(alloc: Global, asking: &Asking<'_>) -> Result<Plan, Failure> {
    let bounds = asking.bounds;
    let count = count_of(alloc, &bounds)?;
    if count == 0 {
        return Err(no_clients(alloc, asking));
    }
    if count > MOST_CLIENTS {
        let text = format!(in alloc;
            "there are {count} clients of {bounds}, and a survey asks about {MOST_CLIENTS} at most\n"
        )?;
        return Err(misused(alloc, text.as_str()));
    }
    Ok(Plan::new(alloc, &bounds)?)
}

// Puts the clients that are searched at the end, a line each: those of the part.
fn put_largest(
    alloc: Global,
    plan: &Plan,
    part: Option<Part>,
    lines: &mut String,
) -> Result<(), AllocError> {
    for (number, asked) in plan.largest.iter().enumerate() {
        if is_taken(part, number) {
            let calls = asked.calls(alloc, &plan.words, Numbering::Larger)?;
            let put = writeln!(lines, "{calls}");
            drop(calls);
            put?;
        }
    }
    Ok(())
}

/// The clients that a survey of a program text would search, a line each, and of these the ones of a part.
///
/// Errors: `Program` with the first fault of the text; `Usage` where there are too many clients, or none; `Memory`.
pub fn listed(alloc: Global, base: &[u8], asking: &Asking<'_>) -> Result<String, Failure> {
    check_program(alloc, base, asking)?;
    lines_of(alloc, asking)
}

/// The clients that a survey would search, a line each, and of these the ones of a part, whichever the queue is.
///
/// Errors: `Usage` where there are too many, or none; `Memory`.
pub fn lines_of(alloc: Global, asking: &Asking<'_>) -> Result<String, Failure> {
    let plan = plan_of(alloc, asking)?;
    let mut lines = String::new(alloc);
    let put = put_largest(alloc, &plan, asking.part, &mut lines);
    drop(plan);
    match put {
        Ok(()) => Ok(lines),
        Err(reason) => {
            drop(lines);
            Err(Failure::from(reason))
        }
    }
}

// Prints what the certificates show together, where that was counted, and then the last line.
fn say_last<S: Session>(session: &mut S, tally: &mut Tally, last: &Last) -> Result<(), Failure> {
    if let Some(shown) = tally.shown.take() {
        let (text, object) = (shown.text(session.alloc())?, shown.object(session.alloc())?);
        drop(shown);
        tally.say(session, text.as_str(), &object)?;
    }
    tally.say(session, last.line.as_str(), &last.object)
}

// Surveys the clients of a program text, and gives the status.
fn survey_into<R: Threads + Wait + Sync, D: Finder, S: Session>(
    rt: &R,
    finder: &D,
    session: &mut S,
    tally: &mut Tally,
    base: &[u8],
    asking: &Asking<'_>,
) -> Result<u8, Failure> {
    let last = match asking.clients {
        Some(list) => survey_list(rt, finder, session, tally, base, asking, list)?,
        None => survey_bounds(rt, finder, session, tally, base, asking)?,
    };
    say_last(session, tally, &last)?;
    session.flush()?;
    write_index(session, tally, asking)?;
    Ok(last.status)
}

// Refuses a text that is no program, and a mode that is none.
fn check_program(alloc: Global, base: &[u8], asking: &Asking<'_>) -> Result<(), Failure> {
    let checked = checked_of(alloc, base)?;
    drop(checked);
    let mode = Variant {
        mode: asking.mode,
        ..Variant::PLAIN
    };
    let text = mode.applied(alloc, Vec::from_slice(alloc, base)?)?;
    drop(text);
    Ok(())
}

// Refuses a folder that is to be collected and is none.
fn check_folder<S: Session>(session: &mut S, asking: &Asking<'_>) -> Result<(), Failure> {
    match asking.collect {
        Some(folder) if session.look_at(folder) != Kind::Folder => {
            let text = format!(in session.alloc(); "--collect: {folder} is no folder\n")?;
            Err(misused(session.alloc(), text.as_str()))
        }
        _ => Ok(()),
    }
}

/// What a survey has come to.
#[derive(Drop)]
pub struct Conclusion {
    /// The status with which the process is to end.
    pub status: u8,
    /// The smallest client that was found to have a run that is not good, if one has.
    pub violated: Option<Violated>,
    /// The clients of which nothing follows.
    pub undecided: Vec<Undecided>,
}

/// Surveys the clients of a program text, prints a line for each that is decided and a last one that says what follows, and writes
/// what is asked for.
///
/// Errors: `Program` with the first fault of the text; `Usage` where there are too many clients, or none, a line of a list is none, the
/// mode is none, the folder that is to be collected is none, or a file that is read would be written over; `CannotRead`;
/// `CannotWrite`; `CannotPrint`; `Memory`.
pub fn survey<R: Threads + Wait + Sync, D: Finder, S: Session>(
    rt: &R,
    finder: &D,
    session: &mut S,
    base: &[u8],
    asking: &Asking<'_>,
) -> Result<Conclusion, Failure> {
    check_program(session.alloc(), base, asking)?;
    check_folder(session, asking)?;
    if let Some(folder) = asking.out {
        session.make_folder(folder);
    }
    let mut tally = Tally::new(session.alloc(), asking.json);
    match survey_into(rt, finder, session, &mut tally, base, asking) {
        Ok(status) => {
            let (violated, undecided) = tally.parts();
            Ok(Conclusion {
                status,
                violated,
                undecided,
            })
        }
        Err(failure) => Err(failure),
    }
}
