//! What is said in words behind the lines that are promised, where `--verbose` asks for it. Where memory or a file fails on the
//! way, nothing is said.

use crate::outside::outside_at;
use std::alloc::{AllocError, Global};
use std::sync::Wait;
use std::thread::Threads;
use tso_cert::{NoWatch, Workers};
use tso_check::Verdict;
use tso_client::checked_of;
use tso_explore::{Outcome, explore};
use tso_flow::Checked;
use tso_front::{Failure, STREAM, Session, Variant, fault_of};
use tso_judge::Code;
use tso_machine::{Label, LabelKind, calls_of};
use tso_prog::{Client, Fault};
use tso_rec::Grain;
use tso_replay::{Texts, tell_cause};
use tso_request::{Asked, Form, MOST_STATES, StateLimit};
use tso_say::{Page, put_hidden, put_meaning, put_program, put_trace};
use tso_survey::{Undecided, Why};
use tso_trace::{TraceFault, labels_of};

// What may be wrong where a certificate or a trace does not fit the client.
const OTHER_CLIENT: &str =
    "Was it made with `--client`, `--before` or `--mode`? Then it is of that client, and not of the text's own: give the same words here.\n";

// What may help where states are not crossings.
const CROSSINGS: &str =
    "`--form 3` meets far fewer states of the same client: those at which no actor may go alone.\n";

// The files of a command: the program, and the other one.
#[derive(Clone, Copy)]
struct Paths<'a> {
    program: &'a str,
    other: &'a str,
}

// The files of a command that reads two.
fn paths_of<'a>(asked: &Asked<'a>) -> Option<Paths<'a>> {
    match asked {
        Asked::Check(check) => Some(Paths {
            program: check.program,
            other: check.cert,
        }),
        Asked::Upgrade(upgrading) => Some(Paths {
            program: upgrading.program,
            other: upgrading.cert,
        }),
        Asked::Coverage(covering) => Some(Paths {
            program: covering.check.program,
            other: covering.check.cert,
        }),
        Asked::Replay(replay) => Some(Paths {
            program: replay.program,
            other: replay.trace,
        }),
        Asked::Verify(_)
        | Asked::Survey(_)
        | Asked::Fences(_)
        | Asked::Parse(_)
        | Asked::Help(_)
        | Asked::Explain(_) => None,
    }
}

// That the program stands in the place of the other file, where that is so.
fn put_swapped<S: Session>(
    session: &mut S,
    page: &mut Page,
    paths: Paths<'_>,
) -> Result<(), AllocError> {
    let Ok(text) = session.read_program(paths.other) else {
        return Ok(());
    };
    let Ok(None) = fault_of(session.alloc(), &text) else {
        return Ok(());
    };
    let (program, other) = (paths.program, paths.other);
    page.say(format!(in session.alloc();
        "{other} is a program text, and {program} is none: are the two words swapped?\n"
    )?.as_str())
}

// Why the program of a command is refused.
fn put_refused<S: Session>(
    session: &mut S,
    page: &mut Page,
    asked: &Asked<'_>,
    texts: &Texts,
    fault: Fault,
) -> Result<(), AllocError> {
    put_program(session.alloc(), page, &texts.program, fault)?;
    match paths_of(asked) {
        Some(paths) => put_swapped(session, page, paths),
        None => Ok(()),
    }
}

// Whether the last of these labels begins a call more than its thread has.
fn has_call_more(client: &Client, labels: &[Label]) -> bool {
    let Some(last) = labels.last() else {
        return false;
    };
    let begun = labels
        .iter()
        .filter(|label| label.thread == last.thread && matches!(label.kind, LabelKind::Call(_)))
        .count();
    matches!(last.kind, LabelKind::Call(_)) && begun > calls_of(client, last.thread).len()
}

// The same of the labels of a text up to this one.
fn has_call_more_at(alloc: Global, client: &Client, text: &[u8], label: usize) -> bool {
    match labels_of(alloc, client, text) {
        Ok(labels) => has_call_more(client, labels.as_slice().get(..label).unwrap_or(&[])),
        Err(_) => false,
    }
}

// Whether a trace that is refused may be of another client: its first label is no step, or it begins a call that its thread does
// not have, or all its labels are steps, and nothing is wrong in them.
fn may_be_of_another(alloc: Global, client: &Client, text: &[u8], fault: &TraceFault) -> bool {
    match fault {
        TraceFault::NotAStep { label } => {
            *label == 1 || has_call_more_at(alloc, client, text, *label)
        }
        TraceFault::NoError => true,
        TraceFault::Grammar { .. } | TraceFault::Memory => false,
    }
}

// Why a trace of a client is refused.
fn put_refused_trace(
    alloc: Global,
    page: &mut Page,
    checked: &Checked,
    text: &[u8],
    fault: &TraceFault,
) -> Result<(), AllocError> {
    put_trace(alloc, page, checked, text, fault)?;
    if may_be_of_another(alloc, &checked.client, text, fault) {
        page.say(OTHER_CLIENT)?;
    }
    Ok(())
}

// Why a trace is refused.
fn put_replayed(
    alloc: Global,
    page: &mut Page,
    texts: &Texts,
    fault: &TraceFault,
) -> Result<(), AllocError> {
    match checked_of(alloc, &texts.program) {
        Ok(checked) => put_refused_trace(alloc, page, &checked, &texts.trace, fault),
        Err(_) => Ok(()),
    }
}

// Why a file gives no bytes.
fn put_unreadable<S: Session>(
    session: &mut S,
    page: &mut Page,
    path: &str,
) -> Result<(), AllocError> {
    let alloc = session.alloc();
    match session.unreadable(path) {
        Some(error) => page.say(format!(in alloc; "{error}\n")?.as_str()),
        None => Ok(()),
    }
}

// Why a command does not succeed.
fn put_reason<S: Session>(
    session: &mut S,
    page: &mut Page,
    asked: &Asked<'_>,
    texts: &Texts,
    failure: &Failure,
) -> Result<(), AllocError> {
    match failure {
        Failure::Program(fault) => put_refused(session, page, asked, texts, *fault),
        Failure::Trace(fault) => put_replayed(session.alloc(), page, texts, fault),
        Failure::CannotRead(path) => put_unreadable(session, page, path.as_str()),
        Failure::CannotWrite(_) => {
            page.say("Is its folder there, may it be written to, and is there room?\n")
        }
        Failure::Usage(_)
        | Failure::NotText
        | Failure::Limit
        | Failure::CannotPrint
        | Failure::Memory => Ok(()),
    }
}

/// Says in words why a command does not succeed.
pub fn tell<S: Session>(session: &mut S, asked: &Asked<'_>, texts: &Texts, failure: &Failure) {
    let mut page = Page::new(session.alloc());
    if put_reason(session, &mut page, asked, texts, failure).is_ok() {
        session.note(&page.bytes);
    }
}

// That crossings are fewer, where the search of this form met each state.
fn put_form(page: &mut Page, form: Form) -> Result<(), AllocError> {
    match form {
        Form::Arrays | Form::Intervals => page.say(CROSSINGS),
        Form::Crossings => Ok(()),
    }
}

// That so many states were met, and what may help.
fn put_limit(
    alloc: Global,
    page: &mut Page,
    limit: StateLimit,
    form: Form,
) -> Result<(), AllocError> {
    let states = limit.count();
    page.say(format!(in alloc;
        "{states} states were met and more can be reached. In those that were met nothing wrong was found.\n"
    )?.as_str())?;
    put_form(page, form)?;
    page.say(
        "Fewer calls or threads have fewer states, and so have a shorter ring, smaller bounds, and calls in a prologue.\n",
    )?;
    if u64::from(states) < MOST_STATES {
        page.say(format!(in alloc;
            "`--states N` allows more, {MOST_STATES} at most, of some 300 bytes of memory each.\n"
        )?.as_str())?;
    }
    Ok(())
}

/// Says in words that a search of this form met as many states as it may, and what may help.
pub fn tell_limit<S: Session>(session: &mut S, limit: StateLimit, form: Form) {
    let mut page = Page::new(session.alloc());
    if put_limit(session.alloc(), &mut page, limit, form).is_ok() {
        session.note(&page.bytes);
    }
}

// Says why a run is not good, if one was found.
fn tell_outcome<S: Session>(session: &mut S, outcome: &Outcome) {
    if let Outcome::Trace(trace) = outcome {
        tell_cause(session, trace);
    }
}

// Searches a client by one worker, and says why a run of it is not good, if one is found.
fn tell_searched<R: Threads + Wait + Sync, S: Session>(
    rt: &R,
    session: &mut S,
    checked: &Checked,
    limit: StateLimit,
) {
    let Some(one) = Workers::new(1) else {
        return;
    };
    let outcome = explore(
        rt,
        session.alloc(),
        checked,
        Grain::Steps,
        one,
        limit.count(),
        &NoWatch,
    );
    tell_outcome(session, &outcome);
    drop(outcome);
}

// Whether a shell takes a character as it stands.
fn is_plain(c: char) -> bool {
    c.is_ascii_alphanumeric()
        || matches!(c, '/' | '.' | '_' | '-' | '+' | ',' | ':' | '=' | '@' | '%')
}

// A word as a shell takes it: between quotes where it has something else than plain characters, or nothing.
fn quoted(alloc: Global, word: &str) -> Result<String, AllocError> {
    if !word.is_empty() && word.chars().all(is_plain) {
        return String::from_str(alloc, word);
    }
    let mut text = String::from_str(alloc, "'")?;
    for c in word.chars() {
        if c == '\'' {
            text.push_str("'\\''")?;
        } else {
            text.push(c)?;
        }
    }
    text.push('\'')?;
    Ok(text)
}

// The name of a file as a shell takes it. One that begins with a dash would be an option.
fn quoted_path(alloc: Global, path: &str) -> Result<String, AllocError> {
    if path.starts_with('-') {
        let below = format!(in alloc; "./{path}")?;
        return quoted(alloc, below.as_str());
    }
    quoted(alloc, path)
}

// Puts an option with its value at the end, if it has one.
fn put_option(
    alloc: Global,
    words: &mut String,
    name: &str,
    value: Option<&str>,
) -> Result<(), AllocError> {
    match value {
        Some(value) => {
            let value = quoted(alloc, value)?;
            let option = format!(in alloc; " --{name} {value}")?;
            words.push_str(option.as_str())
        }
        None => Ok(()),
    }
}

// The words that put other calls, another prologue or mode in place of a text's.
fn variant_words(alloc: Global, variant: &Variant<'_>) -> Result<String, AllocError> {
    let mut words = String::new(alloc);
    put_option(alloc, &mut words, "client", variant.client)?;
    put_option(alloc, &mut words, "before", variant.before)?;
    put_option(alloc, &mut words, "mode", variant.mode)?;
    Ok(words)
}

// With which words the run of a client of a program can be seen.
fn run_words(alloc: Global, program: &str, variant: &Variant<'_>) -> Result<String, AllocError> {
    let words = variant_words(alloc, variant)?;
    let (saved, program) = if program == STREAM {
        (
            "To see this run, with standard input saved as FILE first:",
            String::from_str(alloc, "FILE")?,
        )
    } else {
        ("To see this run:", quoted_path(alloc, program)?)
    };
    format!(in alloc;
        "{saved}\n  tsoq verify {program}{words} --trace TRACE\n  tsoq replay {program} TRACE{words} --verbose\n"
    )
}

// Why nothing follows of a client, as a line.
fn undecided_line(alloc: Global, client: &Undecided) -> Result<String, AllocError> {
    let calls = &client.calls;
    match &client.why {
        Why::Limit => format!(in alloc; "undecided: {calls}: limit reached\n"),
        Why::Missing => format!(in alloc; "undecided: {calls}: missing\n"),
        Why::Refused(why) => format!(in alloc; "undecided: {calls}: {why}\n"),
    }
}

// What may help where more states can be reached than a search of this form may meet.
fn put_more_states(
    alloc: Global,
    page: &mut Page,
    limit: StateLimit,
    form: Form,
) -> Result<(), AllocError> {
    put_form(page, form)?;
    if u64::from(limit.count()) < MOST_STATES {
        return page.say(format!(in alloc;
            "`--states N` allows more states, {MOST_STATES} at most, of some 300 bytes of memory each.\n"
        )?.as_str());
    }
    page.say(
        "Fewer calls or threads have fewer states, and so have a shorter ring and smaller bounds.\n",
    )
}

// What may help with clients of which nothing follows.
fn put_help(
    alloc: Global,
    page: &mut Page,
    undecided: &[Undecided],
    limit: StateLimit,
    form: Form,
) -> Result<(), AllocError> {
    if undecided
        .iter()
        .any(|client| matches!(client.why, Why::Limit))
    {
        put_more_states(alloc, page, limit, form)?;
    }
    if undecided
        .iter()
        .any(|client| matches!(client.why, Why::Missing))
    {
        page.say(
            "What is missing is searched by `tsoq survey FILE --clients LIST --out DIR`, with its line in LIST.\n",
        )?;
    }
    if undecided
        .iter()
        .any(|client| matches!(client.why, Why::Refused(_)))
    {
        page.say("What is refused is searched again where its file is taken away first.\n")?;
    }
    Ok(())
}

// Of which clients nothing follows, and what may help.
fn put_undecided(
    alloc: Global,
    page: &mut Page,
    undecided: &[Undecided],
    limit: StateLimit,
    form: Form,
) -> Result<(), AllocError> {
    for client in undecided {
        page.say(undecided_line(alloc, client)?.as_str())?;
    }
    put_help(alloc, page, undecided, limit, form)
}

/// Says in words of which clients of a survey nothing follows, and what may help.
pub fn tell_undecided<S: Session>(
    session: &mut S,
    undecided: &[Undecided],
    limit: StateLimit,
    form: Form,
) {
    let mut page = Page::new(session.alloc());
    if put_undecided(session.alloc(), &mut page, undecided, limit, form).is_ok() {
        session.note(&page.bytes);
    }
}

/// Says in words why a run of a client is not good, which is searched once more for that, and with which words it can be seen: of
/// the program of this name with what stands in place of its calls.
pub fn tell_violated<R: Threads + Wait + Sync, S: Session>(
    rt: &R,
    session: &mut S,
    text: &[u8],
    limit: StateLimit,
    program: &str,
    variant: &Variant<'_>,
) {
    if let Ok(checked) = checked_of(session.alloc(), text) {
        tell_searched(rt, session, &checked, limit);
    }
    if let Ok(words) = run_words(session.alloc(), program, variant) {
        session.note(words.as_bytes());
    }
}

// Whether a text may have a prologue.
fn may_have_prologue(alloc: Global, base: &[u8]) -> bool {
    match checked_of(alloc, base) {
        Ok(checked) => !checked.client.prologue.is_empty(),
        Err(_) => true,
    }
}

// What stands in place of a text's calls; nothing in place of its prologue where neither has one.
fn least_variant<'a>(alloc: Global, base: &[u8], variant: Variant<'a>) -> Variant<'a> {
    if matches!(variant.before, Some("")) && !may_have_prologue(alloc, base) {
        Variant {
            before: None,
            ..variant
        }
    } else {
        variant
    }
}

/// The same of the client of a text with what stands in place of its calls.
pub fn tell_variant<R: Threads + Wait + Sync, S: Session>(
    rt: &R,
    session: &mut S,
    base: &[u8],
    limit: StateLimit,
    program: &str,
    variant: Variant<'_>,
) {
    let alloc = session.alloc();
    let Ok(copy) = Vec::from_slice(alloc, base) else {
        return;
    };
    if let Ok(text) = variant.applied(alloc, copy) {
        let least = least_variant(alloc, base, variant);
        tell_violated(rt, session, &text, limit, program, &least);
    }
}

// What is said of a verdict.
fn put_verdict(alloc: Global, page: &mut Page, verdict: Verdict) -> Result<(), AllocError> {
    let Verdict::Rejected { code, place } = verdict else {
        return Ok(());
    };
    if place.is_some() {
        page.say("Records count from 0.\n")?;
    }
    put_meaning(alloc, page, format!(in alloc; "{code}")?.as_str())?;
    // What K01 to K03 say of a certificate holds whatever its client is.
    if code > Code::K03 {
        page.say(OTHER_CLIENT)?;
    }
    Ok(())
}

// Which register of a record's state lies outside of its interval.
fn put_outside(alloc: Global, page: &mut Page, cert: &[u8], number: u64) -> Result<(), AllocError> {
    match outside_at(alloc, cert, number)? {
        Some(outside) => page.say(outside.to_string(alloc)?.as_str()),
        None => Ok(()),
    }
}

/// Says in words which register of a record's state lies outside of its interval, where these bytes are refused for that.
pub fn tell_outside<S: Session>(session: &mut S, verdict: Verdict, cert: &[u8]) {
    let Verdict::Rejected {
        code: Code::K12,
        place: Some(number),
    } = verdict
    else {
        return;
    };
    let mut page = Page::new(session.alloc());
    if put_outside(session.alloc(), &mut page, cert, number).is_ok() {
        session.note(&page.bytes);
    }
}

/// Says in words why a certificate is refused.
pub fn tell_verdict<S: Session>(session: &mut S, verdict: Verdict) {
    let mut page = Page::new(session.alloc());
    if put_verdict(session.alloc(), &mut page, verdict).is_ok() {
        session.note(&page.bytes);
    }
}

// Whether a command makes the calls that its program says.
fn makes_calls(asked: &Asked<'_>) -> bool {
    match asked {
        Asked::Verify(_)
        | Asked::Check(_)
        | Asked::Upgrade(_)
        | Asked::Coverage(_)
        | Asked::Replay(_)
        | Asked::Fences(_)
        | Asked::Parse(_) => true,
        Asked::Survey(_) | Asked::Help(_) | Asked::Explain(_) => false,
    }
}

/// Says which lines of a program that is asked about have calls in a comment.
pub fn tell_hidden<S: Session>(session: &mut S, asked: &Asked<'_>, program: &[u8]) {
    let mut page = Page::new(session.alloc());
    if makes_calls(asked) && put_hidden(session.alloc(), &mut page, program).is_ok() {
        session.note(&page.bytes);
    }
}
