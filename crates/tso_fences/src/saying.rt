//! The lines of the answer, and the objects that say the same.

use crate::changes::{Change, Reason};
use crate::ruling::{Ruling, Standing};
use serde_json::{Value, json};
use std::alloc::{AllocError, Global};
use tso_front::{Failure, Session};

/// Prints a line, or the object that says the same.
///
/// Errors: `CannotPrint`; `Memory`.
pub fn say<S: Session>(
    session: &mut S,
    json: bool,
    line: &str,
    object: &Value,
) -> Result<(), Failure> {
    if json {
        session.print_object(object)?;
    } else {
        session.print(line)?;
    }
    session.flush()
}

/// Numbers as a list of JSON.
///
/// Errors: where a growth was refused.
pub fn numbers(alloc: Global, lines: &[usize]) -> Result<Value, AllocError> {
    let mut list = Vec::new(alloc);
    for line in lines {
        list.push(Value::from(*line as u64))?;
    }
    Ok(Value::Array(list))
}

// An object with one member more.
fn with_member(
    alloc: Global,
    object: Value,
    name: &str,
    member: Value,
) -> Result<Value, AllocError> {
    match object {
        Value::Object(mut members) => {
            let name = String::from_str(alloc, name)?;
            let _earlier = members.insert(name, member)?;
            Ok(Value::Object(members))
        }
        other => Ok(other),
    }
}

// A text as a member of an object.
fn word(alloc: Global, text: &str) -> Result<Value, AllocError> {
    Ok(Value::String(String::from_str(alloc, text)?))
}

// An object that says of which change and of which lines it is, and what it answers.
fn of_change(
    alloc: Global,
    object: Value,
    change: &str,
    lines: Value,
    answer: &str,
) -> Result<Value, AllocError> {
    let object = with_member(alloc, object, "change", word(alloc, change)?)?;
    let object = with_member(alloc, object, "lines", lines)?;
    with_member(alloc, object, "answer", word(alloc, answer)?)
}

// What is changed, in a word, and on which lines.
fn told(alloc: Global, change: &Change) -> Result<(String, Value), AllocError> {
    match change {
        Change::Back { line, form } => Ok((form.to_string(alloc)?, numbers(alloc, &[*line])?)),
        Change::Behind(lines) => {
            let word = String::from_str(alloc, "mfence behind")?;
            Ok((word, numbers(alloc, lines)?))
        }
    }
}

// What a change comes to.
fn answer(change: &Change, standing: Standing) -> &'static str {
    match (change, standing) {
        (_, Standing::Open) => "undecided",
        (Change::Back { .. }, Standing::Wrong) => "needed",
        (Change::Back { .. }, Standing::Right) => "not needed",
        (Change::Behind(_), Standing::Wrong) => "wrong",
        (Change::Behind(_), Standing::Right) => "right",
    }
}

// A standing in a word.
fn standing_word(standing: Standing) -> &'static str {
    match standing {
        Standing::Right => "right",
        Standing::Wrong => "wrong",
        Standing::Open => "undecided",
    }
}

// What is found of the text as it stands, as an object of JSON.
fn unchanged_object(alloc: Global, ruling: &Ruling) -> Result<Value, AllocError> {
    let object = ruling.object(alloc)?;
    let lines = numbers(alloc, &[])?;
    of_change(
        alloc,
        object,
        "none",
        lines,
        standing_word(ruling.standing()),
    )
}

/// Says what is found of the text as it stands.
///
/// Errors: `CannotPrint`; `Memory`.
pub fn say_unchanged<S: Session>(
    session: &mut S,
    json: bool,
    ruling: &Ruling,
) -> Result<(), Failure> {
    let line = format!(in session.alloc(); "as it stands: {ruling}\n")?;
    let object = unchanged_object(session.alloc(), ruling)?;
    say(session, json, line.as_str(), &object)
}

// What a change comes to, as a line.
fn tried_line(alloc: Global, change: &Change, ruling: &Ruling) -> Result<String, AllocError> {
    let answer = answer(change, ruling.standing());
    match change {
        Change::Back { .. } => format!(in alloc; "{change}: {answer}: {ruling}\n"),
        Change::Behind(_) => format!(in alloc; "{change}: {ruling}\n"),
    }
}

// The same as an object of JSON.
fn tried_object(alloc: Global, change: &Change, ruling: &Ruling) -> Result<Value, AllocError> {
    let answer = answer(change, ruling.standing());
    let object = ruling.object(alloc)?;
    let (word, lines) = told(alloc, change)?;
    of_change(alloc, object, word.as_str(), lines, answer)
}

/// Says what a change comes to.
///
/// Errors: `CannotPrint`; `Memory`.
pub fn say_tried<S: Session>(
    session: &mut S,
    json: bool,
    change: &Change,
    ruling: &Ruling,
) -> Result<(), Failure> {
    let line = tried_line(session.alloc(), change, ruling)?;
    let object = tried_object(session.alloc(), change, ruling)?;
    say(session, json, line.as_str(), &object)
}

// Why a change is not tried, as an object of JSON.
fn untried_object(alloc: Global, change: &Change, reason: Reason) -> Result<Value, AllocError> {
    let object = reason_object(alloc, reason)?;
    let (word, lines) = told(alloc, change)?;
    of_change(alloc, object, word.as_str(), lines, "not tried")
}

// A reason as an object of JSON.
fn reason_object(alloc: Global, reason: Reason) -> Result<Value, AllocError> {
    let why = reason.to_string(alloc)?;
    json!(in alloc; {"why": why})
}

/// Says why a change is not tried.
///
/// Errors: `CannotPrint`; `Memory`.
pub fn say_untried<S: Session>(
    session: &mut S,
    json: bool,
    change: &Change,
    reason: Reason,
) -> Result<(), Failure> {
    let line = format!(in session.alloc(); "{change}: not tried: {reason}\n")?;
    let object = untried_object(session.alloc(), change, reason)?;
    say(session, json, line.as_str(), &object)
}
