//! The clients that are asked about.

use std::alloc::{AllocError, Global};
use tso_flow::ProcedureKind;
use tso_front::Failure;
use tso_line::CallKind;
use tso_prog::Client;
use tso_survey::{Asking, Bounds, Calls, lines_of};

/// Which procedures can run beside which, in two threads.
#[derive(Clone, Copy, PartialEq, Eq)]
pub struct Company {
    pushes: bool,
    pops: bool,
    both: bool,
}

// Whether a thread has a call of a kind.
fn calls(thread: &[CallKind], kind: ProcedureKind) -> bool {
    thread.iter().any(|call| ProcedureKind::from(*call) == kind)
}

// How many threads have a call of a kind.
fn callers(client: &Client, kind: ProcedureKind) -> usize {
    client
        .threads
        .as_slice()
        .iter()
        .filter(|thread| calls(thread.as_slice(), kind))
        .count()
}

impl Company {
    /// In a client.
    pub fn of(client: &Client) -> Company {
        let pushing = callers(client, ProcedureKind::Push);
        let popping = callers(client, ProcedureKind::Pop);
        Company {
            pushes: pushing > 1,
            pops: popping > 1,
            both: pushing > 0 && popping > 0 && client.threads.len() > 1,
        }
    }

    /// In one of the clients within bounds.
    pub fn within(bounds: &Bounds) -> Company {
        let are_two = bounds.threads > 1 && bounds.calls > 1;
        Company {
            pushes: are_two && bounds.producers > 1,
            pops: are_two && bounds.consumers > 1,
            both: are_two && bounds.producers > 0 && bounds.consumers > 0,
        }
    }

    /// Whether these two can run beside one another.
    pub fn has(&self, one: ProcedureKind, other: ProcedureKind) -> bool {
        match (one, other) {
            (ProcedureKind::Push, ProcedureKind::Push) => self.pushes,
            (ProcedureKind::Pop, ProcedureKind::Pop) => self.pops,
            (ProcedureKind::Push, ProcedureKind::Pop) | (ProcedureKind::Pop, ProcedureKind::Push) =>
                self.both,
        }
    }
}

/// The clients of a survey.
#[derive(Drop)]
pub struct Surveyed<'a> {
    /// Those that are searched.
    pub calls: Vec<Calls>,
    pub bounds: Bounds,
    /// In place of the mode that the text says.
    pub mode: Option<&'a str>,
}

impl<'a> Surveyed<'a> {
    /// The text with each of these calls in place of its own.
    ///
    /// Errors: `Usage` where they are no calls; `Memory`.
    pub fn texts(
        &self,
        alloc: Global,
        text: &[u8],
        calls: &[Calls],
    ) -> Result<Vec<Vec<u8>>, Failure> {
        let mut texts = Vec::new(alloc);
        for calls in calls {
            let copy = Vec::from_slice(alloc, text)?;
            texts.push(calls.variant(self.mode).applied(alloc, copy)?)?;
        }
        Ok(texts)
    }
}

/// The clients that are asked about.
#[derive(Drop)]
pub enum Clients<'a> {
    /// That of the text.
    Own,
    /// Those of a survey.
    Surveyed(Surveyed<'a>),
}

// The calls that lines say, a client each.
fn calls_of(alloc: Global, lines: &str) -> Result<Vec<Calls>, AllocError> {
    let mut calls = Vec::new(alloc);
    for line in lines.lines() {
        calls.push(Calls::of_line(alloc, line)?)?;
    }
    Ok(calls)
}

/// The clients of a survey, or that of the text.
///
/// Errors: `Usage` where a survey has too many; `Memory`.
pub fn clients_of<'a>(alloc: Global, survey: &Option<Asking<'a>>) -> Result<Clients<'a>, Failure> {
    let Some(asking) = survey else {
        return Ok(Clients::Own);
    };
    let lines = lines_of(alloc, asking)?;
    Ok(Clients::Surveyed(Surveyed {
        calls: calls_of(alloc, lines.as_str())?,
        bounds: asking.bounds,
        mode: asking.mode,
    }))
}

impl<'a> Clients<'a> {
    /// How many there are.
    pub fn count(&self) -> usize {
        match self {
            Clients::Own => 1,
            Clients::Surveyed(surveyed) => surveyed.calls.len(),
        }
    }

    /// Which procedures can run beside which in one of them.
    pub fn company(&self, own: &Client) -> Company {
        match self {
            Clients::Own => Company::of(own),
            Clients::Surveyed(surveyed) => Company::within(&surveyed.bounds),
        }
    }
}
