//! What a survey has come to.

use crate::accepted::Accepted;
use crate::calls::Calls;
use crate::decided::Decided;
use crate::finding::Finding;
use crate::shown::Shown;
use crate::undecided::{Undecided, Why, count_below};
use crate::words::Asking;
use serde_json::Value;
use std::alloc::{AllocError, Global};
use tso_front::{Failure, Session, written_apart};

/// A client that has a run that is not good.
#[derive(Drop)]
pub struct Violated {
    pub calls: Calls,
    /// How many calls it has.
    size: usize,
}

impl Violated {
    /// How many calls it has.
    pub fn size(&self) -> usize {
        self.size
    }
}

/// What a survey has come to.
#[derive(Drop)]
pub struct Tally {
    pub accepted: Vec<Accepted>,
    /// How many clients were decided, or tried.
    pub count: usize,
    /// Of how many more states can be reached than a search may meet.
    pub limits: usize,
    /// How many had neither a certificate nor a trace.
    pub missing: usize,
    /// Of how many the certificate or the trace was refused.
    pub refused: usize,
    /// The clients of which nothing follows, in the order in which they were tried.
    pub undecided: Vec<Undecided>,
    /// What the certificates show together, where that is asked for.
    pub shown: Option<Shown>,
    /// Of the clients that have a run that is not good the smallest, and of these the first.
    pub violated: Option<Violated>,
    /// All lines so far.
    pub lines: Vec<u8>,
    /// Whether objects of JSON are printed in place of the lines.
    json: bool,
}

impl Tally {
    /// Of no client.
    pub fn new(alloc: Global, json: bool) -> Tally {
        Tally {
            accepted: Vec::new(alloc),
            count: 0,
            limits: 0,
            missing: 0,
            refused: 0,
            undecided: Vec::new(alloc),
            shown: None,
            violated: None,
            lines: Vec::new(alloc),
            json,
        }
    }

    /// Whether each client was accepted.
    pub fn is_clean(&self) -> bool {
        self.violated.is_none() && self.limits == 0 && self.missing == 0 && self.refused == 0
    }

    /// How many calls the smallest client has of those that have a run that is not good, if one has.
    pub fn violated_size(&self) -> Option<usize> {
        match &self.violated {
            Some(violated) => Some(violated.size),
            None => None,
        }
    }

    /// How many clients with fewer calls than these were tried, of which nothing follows.
    pub fn undecided_below(&self, size: usize) -> usize {
        count_below(&self.undecided, size)
    }

    /// Whether a client with fewer calls than these has a run that is not good.
    pub fn is_violated_below(&self, size: usize) -> bool {
        match &self.violated {
            Some(violated) => violated.size < size,
            None => false,
        }
    }

    /// The smallest client that was found to have a run that is not good, and those of which nothing follows.
    pub fn parts(self) -> (Option<Violated>, Vec<Undecided>) {
        let Tally {
            accepted,
            count: _count,
            limits: _limits,
            missing: _missing,
            refused: _refused,
            undecided,
            shown,
            violated,
            lines,
            json: _json,
        } = self;
        drop(accepted);
        drop(shown);
        drop(lines);
        (violated, undecided)
    }

    // Notes that a client was accepted.
    fn note_accepted(&mut self, client: Accepted) -> Result<(), AllocError> {
        match self.accepted.push(client) {
            Ok(()) => Ok(()),
            Err(_) => Err(AllocError),
        }
    }

    // Notes that a client has a run that is not good.
    fn note_violated(&mut self, calls: &Calls) -> Result<(), AllocError> {
        let size = calls.count();
        let is_smaller = match &self.violated {
            Some(violated) => size < violated.size,
            None => true,
        };
        if is_smaller {
            let calls = calls.copied()?;
            self.violated = Some(Violated { calls, size });
        }
        Ok(())
    }

    // Notes that nothing follows of a client.
    fn note_undecided(&mut self, calls: &Calls, why: Why) -> Result<(), AllocError> {
        let size = calls.count();
        match calls.copied() {
            Ok(calls) => {
                self.undecided.push(Undecided { calls, size, why })?;
                Ok(())
            }
            Err(reason) => {
                drop(why);
                Err(reason)
            }
        }
    }

    // Counts what was found of a client.
    fn note(&mut self, calls: &Calls, decided: Decided) -> Result<(), AllocError> {
        self.count = self.count.saturating_add(1);
        match decided {
            Decided::Accepted { client, .. } => self.note_accepted(client),
            Decided::Violated { .. } => self.note_violated(calls),
            Decided::Limit => {
                self.limits = self.limits.saturating_add(1);
                self.note_undecided(calls, Why::Limit)
            }
            Decided::Missing => {
                self.missing = self.missing.saturating_add(1);
                self.note_undecided(calls, Why::Missing)
            }
            Decided::Refused(why) => {
                self.refused = self.refused.saturating_add(1);
                self.note_undecided(calls, Why::Refused(why))
            }
        }
    }

    // Takes in what a client's certificate shows, if it was counted.
    fn note_shown(&mut self, shown: Option<Shown>) -> Result<(), AllocError> {
        let Some(shown) = shown else {
            return Ok(());
        };
        match &mut self.shown {
            Some(all) => all.join(shown),
            None => {
                self.shown = Some(shown);
                Ok(())
            }
        }
    }

    /// Keeps a line, and prints it, or the object that says the same.
    ///
    /// Errors: `CannotPrint`; `Memory`.
    pub fn say<S: Session>(
        &mut self,
        session: &mut S,
        line: &str,
        object: &Value,
    ) -> Result<(), Failure> {
        self.lines.extend_from_slice(line.as_bytes())?;
        if self.json {
            session.print_object(object)
        } else {
            session.print(line)
        }
    }

    // Prints the line of a client, or the object that says the same.
    fn say_decided<S: Session>(
        &mut self,
        session: &mut S,
        calls: &Calls,
        decided: &Decided,
    ) -> Result<(), Failure> {
        let object = decided.object(session.alloc(), calls)?;
        let line = format!(in session.alloc(); "{calls}: {decided}\n")?;
        self.say(session, line.as_str(), &object)
    }

    // Writes the files of a client, if there is a folder for them, and prints its line.
    fn tell<S: Session>(
        &mut self,
        session: &mut S,
        asking: &Asking<'_>,
        calls: &Calls,
        text: &[u8],
        finding: &Finding,
    ) -> Result<(), Failure> {
        if let Some(folder) = asking.out {
            write_files(session, asking, folder, calls, text, finding)?;
        }
        self.say_decided(session, calls, &finding.decided)?;
        session.flush()
    }

    /// Prints the line of a client, writes its files, if there is a folder for them, and counts it. What was found is taken from its
    /// place.
    ///
    /// Errors: `CannotPrint`; `CannotWrite`; `Usage` where a file of the client would be one that the survey reads; `Memory`.
    pub fn put<S: Session>(
        &mut self,
        session: &mut S,
        asking: &Asking<'_>,
        calls: &Calls,
        text: &[u8],
        finding: &mut Finding,
    ) -> Result<(), Failure> {
        self.tell(session, asking, calls, text, finding)?;
        self.note_shown(finding.shown.take())?;
        let decided = std::mem::replace(&mut finding.decided, Decided::Missing);
        self.note(calls, decided)?;
        Ok(())
    }
}

/// Writes a file of a survey, if it is none that the survey reads.
///
/// Errors: `Usage` where it is one of these; `CannotWrite`; `Memory`.
pub fn write_apart<S: Session>(
    session: &mut S,
    asking: &Asking<'_>,
    path: &str,
    bytes: &[u8],
) -> Result<(), Failure> {
    written_apart(session, Some(path), asking.program)?;
    if let Some(list) = asking.clients {
        written_apart(session, Some(path), list)?;
    }
    session.write(path, bytes)
}

// Writes a file of this name into a folder.
fn write_file<S: Session>(
    session: &mut S,
    asking: &Asking<'_>,
    folder: &str,
    name: &str,
    ending: &str,
    bytes: &[u8],
) -> Result<(), Failure> {
    let path = format!(in session.alloc(); "{folder}/{name}.{ending}")?;
    write_apart(session, asking, path.as_str(), bytes)
}

// Takes a file of this name away from a folder, if it is there.
fn remove_file<S: Session>(
    session: &mut S,
    folder: &str,
    name: &str,
    ending: &str,
) -> Result<(), Failure> {
    let path = format!(in session.alloc(); "{folder}/{name}.{ending}")?;
    session.take_away(path.as_str());
    Ok(())
}

// Writes the text of a client and what was found into a folder, if it is to be written. A certificate takes the place of a trace that is
// there, and a trace that of a certificate.
fn write_files<S: Session>(
    session: &mut S,
    asking: &Asking<'_>,
    folder: &str,
    calls: &Calls,
    text: &[u8],
    finding: &Finding,
) -> Result<(), Failure> {
    let Some(bytes) = &finding.bytes else {
        return Ok(());
    };
    let (ending, other) = if finding.decided.is_violated() {
        ("trace", "cert")
    } else {
        ("cert", "trace")
    };
    let name = calls.name(session.alloc())?;
    write_file(session, asking, folder, name.as_str(), "tso", text)?;
    write_file(session, asking, folder, name.as_str(), ending, bytes)?;
    remove_file(session, folder, name.as_str(), other)
}
