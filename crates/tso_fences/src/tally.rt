//! What the changes have come to, and what follows.

use crate::changes::{Change, Lines};
use crate::clients::Clients;
use crate::ruling::Standing;
use crate::saying::{numbers, say};
use serde_json::{Value, json};
use std::alloc::{AllocError, Global};
use tso_front::{Failure, Members, Session};

/// What the changes have come to.
#[derive(Drop)]
pub struct Tally {
    /// How many instructions are needed.
    needed: usize,
    /// How many are not.
    not_needed: usize,
    /// Of how many changes nothing follows.
    undecided: usize,
    /// How many changes were not tried.
    untried: usize,
    /// The sets of lines behind which fences make the text right.
    pub right: Vec<Vec<usize>>,
}

impl Tally {
    /// Of no change.
    pub fn new(alloc: Global) -> Tally {
        Tally {
            needed: 0,
            not_needed: 0,
            undecided: 0,
            untried: 0,
            right: Vec::new(alloc),
        }
    }

    /// Counts a change that was tried.
    ///
    /// Errors: where a growth was refused.
    pub fn note(&mut self, change: &Change, standing: Standing) -> Result<(), AllocError> {
        match (change, standing) {
            (_, Standing::Open) => self.undecided = self.undecided.saturating_add(1),
            (Change::Back { .. }, Standing::Wrong) => self.needed = self.needed.saturating_add(1),
            (Change::Back { .. }, Standing::Right) => {
                self.not_needed = self.not_needed.saturating_add(1);
            }
            (Change::Behind(lines), Standing::Right) => self.right.push(lines.clone()?)?,
            (Change::Behind(_), Standing::Wrong) => {}
        }
        Ok(())
    }

    /// Counts a change that was not tried.
    pub fn note_untried(&mut self) {
        self.untried = self.untried.saturating_add(1);
    }

    // The sets of lines that make the text right, as a list of JSON.
    fn right_list(&self, alloc: Global) -> Result<Value, AllocError> {
        let mut list = Vec::new(alloc);
        for lines in self.right.iter() {
            list.push(numbers(alloc, lines)?)?;
        }
        Ok(Value::Array(list))
    }
}

// Of which clients all this is said.
fn scope(alloc: Global, clients: &Clients<'_>) -> Result<String, AllocError> {
    match clients {
        Clients::Own => String::from_str(alloc, "of this client alone"),
        Clients::Surveyed(surveyed) => {
            let (count, bounds) = (surveyed.calls.len(), surveyed.bounds);
            let s = if count == 1 { "this" } else { "these" };
            let t = if count == 1 { "" } else { "s" };
            format!(in alloc; "of {s} {count} client{t} alone, of {bounds}")
        }
    }
}

// Which instructions are needed, as a line.
fn taken_back_line(
    alloc: Global,
    clients: &Clients<'_>,
    tally: &Tally,
) -> Result<String, AllocError> {
    let scope = scope(alloc, clients)?;
    let (needed, not_needed) = (tally.needed, tally.not_needed);
    let (undecided, untried) = (tally.undecided, tally.untried);
    format!(in alloc;
        "{scope}, one at a time: {needed} needed, {not_needed} not needed, {undecided} undecided, {untried} not tried\n"
    )
}

// The same as an object of JSON.
fn taken_back_object(
    alloc: Global,
    clients: &Clients<'_>,
    tally: &Tally,
) -> Result<Value, AllocError> {
    let object = Members::new(alloc)
        .number("needed", tally.needed as u64)?
        .number("not_needed", tally.not_needed as u64)?
        .number("undecided", tally.undecided as u64)?
        .number("not_tried", tally.untried as u64)?
        .number("clients", clients.count() as u64)?;
    Ok(object.object())
}

/// Says which instructions are needed, and gives the status.
///
/// Errors: `CannotPrint`; `Memory`.
pub fn end_taken_back<S: Session>(
    session: &mut S,
    json: bool,
    clients: &Clients<'_>,
    tally: &Tally,
) -> Result<u8, Failure> {
    let line = taken_back_line(session.alloc(), clients, tally)?;
    let object = taken_back_object(session.alloc(), clients, tally)?;
    say(session, json, line.as_str(), &object)?;
    Ok(if tally.undecided > 0 { 4 } else { 0 })
}

// Which sets of at most so many fences make the text right.
fn right_text(alloc: Global, tally: &Tally, most: usize) -> Result<String, AllocError> {
    let s = if most == 1 { "" } else { "s" };
    match tally.right.as_slice() {
        [] => format!(in alloc; "no set of at most {most} fence{s} makes it right"),
        [first] => {
            let lines = Lines(first);
            format!(in alloc; "1 set of at most {most} fence{s} makes it right, behind {lines}")
        }
        [first, ..] => {
            let (count, lines) = (tally.right.len(), Lines(first));
            format!(in alloc;
                "{count} sets of at most {most} fence{s} make it right, the first behind {lines}"
            )
        }
    }
}

// What follows of all sets of at most so many fences, as a line.
fn fenced_line(
    alloc: Global,
    clients: &Clients<'_>,
    tally: &Tally,
    most: usize,
) -> Result<String, AllocError> {
    let scope = scope(alloc, clients)?;
    let right = right_text(alloc, tally, most)?;
    let (undecided, untried) = (tally.undecided, tally.untried);
    format!(in alloc; "{scope}: {right}, {undecided} undecided, {untried} not tried\n")
}

// The same as an object of JSON.
fn fenced_object(
    alloc: Global,
    clients: &Clients<'_>,
    tally: &Tally,
    most: usize,
) -> Result<Value, AllocError> {
    let list = tally.right_list(alloc)?;
    let object = match Members::new(alloc).number("add", most as u64) {
        Ok(members) => members.with("right", list)?,
        Err(reason) => {
            drop(list);
            return Err(reason);
        }
    };
    let object = object
        .number("undecided", tally.undecided as u64)?
        .number("not_tried", tally.untried as u64)?
        .number("clients", clients.count() as u64)?;
    Ok(object.object())
}

/// Says which sets of at most so many fences make the text right, and gives the status.
///
/// Errors: `CannotPrint`; `Memory`.
pub fn end_fenced<S: Session>(
    session: &mut S,
    json: bool,
    clients: &Clients<'_>,
    tally: &Tally,
    most: usize,
) -> Result<u8, Failure> {
    let line = fenced_line(session.alloc(), clients, tally, most)?;
    let object = fenced_object(session.alloc(), clients, tally, most)?;
    say(session, json, line.as_str(), &object)?;
    Ok(if !tally.right.is_empty() {
        0
    } else if tally.undecided > 0 {
        4
    } else {
        1
    })
}

// That nothing follows, as a line.
fn open_line(alloc: Global, clients: &Clients<'_>) -> Result<String, AllocError> {
    let scope = scope(alloc, clients)?;
    format!(in alloc; "{scope}: undecided\n")
}

// The same as an object of JSON.
fn open_object(alloc: Global, clients: &Clients<'_>) -> Result<Value, AllocError> {
    let count = clients.count() as u64;
    json!(in alloc; {"answer": "undecided", "clients": count})
}

/// Says that nothing follows, since nothing follows of the text as it stands, and gives the status.
///
/// Errors: `CannotPrint`; `Memory`.
pub fn end_open<S: Session>(
    session: &mut S,
    json: bool,
    clients: &Clients<'_>,
) -> Result<u8, Failure> {
    let line = open_line(session.alloc(), clients)?;
    let object = open_object(session.alloc(), clients)?;
    say(session, json, line.as_str(), &object)?;
    Ok(4)
}
