//! What a search found, and what was written of it.

ghost use Rattle.std.specs.Prelude.{◌≡◌, None, Some};
ghost use Rattle.tso_replay.specs.Statuses.{status_of_report};

use crate::progress::Times;
use serde_json::{Value, json};
use std::alloc::{AllocError, Global};
use std::fmt;
use tso_front::{Members, number_or_null, violation_words};
use tso_trace::Violation;

/// What is wrong with a run, as it is printed.
#[derive(Clone, Copy, PartialEq, Eq)]
pub struct Wrong(pub Violation);

impl fmt::Display for Wrong {
    fn fmt<W: fmt::Write>(&self, f: &mut fmt::Formatter<W>) -> fmt::Result {
        match self.0 {
            Violation::Fault(thread) => write!(f, "violation: fault in thread {thread}"),
            Violation::NoOrder => write!(f, "violation: no order"),
        }
    }
}

// With how many states were met, and the parts of the time in milliseconds; nulls without a clock.
fn with_effort(members: Members, states: u64, times: Option<Times>) -> Result<Members, AllocError> {
    let (searched, composed, written) = match times {
        Some(times) => {
            let (searched, composed, written) = times.milliseconds();
            (Some(searched), Some(composed), Some(written))
        }
        None => (None, None, None),
    };
    members
        .number("states", states)?
        .with("searched_ms", number_or_null(searched))?
        .with("composed_ms", number_or_null(composed))?
        .with("written_ms", number_or_null(written))
}

/// That a search met as many states as it may, as an object of JSON.
///
/// Errors: where a growth was refused.
pub fn limit_object(alloc: Global, states: u64) -> Result<Value, AllocError> {
    json!(in alloc; {"verdict": "limit reached", "states": states})
}

// That every run is good, by a certificate, as an object of JSON.
fn certified_object(
    alloc: Global,
    records: u64,
    bytes: Option<u64>,
    states: u64,
    times: Option<Times>,
) -> Result<Value, AllocError> {
    let members = Members::new(alloc)
        .text("verdict", "certificate")?
        .number("records", records)?
        .with("bytes", number_or_null(bytes))?;
    Ok(with_effort(members, states, times)?.object())
}

// That a run is not good, by a trace, as an object of JSON.
fn violated_object(
    alloc: Global,
    violation: Violation,
    labels: usize,
    bytes: Option<u64>,
    states: u64,
    times: Option<Times>,
) -> Result<Value, AllocError> {
    let (what, thread) = violation_words(violation);
    let members = Members::new(alloc)
        .text("verdict", "violation")?
        .text("violation", what)?
        .with("thread", number_or_null(thread))?
        .number("labels", labels as u64)?
        .with("bytes", number_or_null(bytes))?;
    Ok(with_effort(members, states, times)?.object())
}

/// What a search found, and what was written of it.
#[derive(Clone, Copy)]
pub enum Report {
    /// Every run is good: a certificate of so many records, in so many bytes if it was written.
    Certified {
        records: u64,
        bytes: Option<u64>,
    },
    /// A run is not good: a trace of so many labels, in so many bytes if it was written.
    Violated {
        violation: Violation,
        labels: usize,
        bytes: Option<u64>,
    },
}

impl Report {
    /// The status with which the program ends.
    pub fn status(&self) -> u8
        ensures { result ≡ status_of_report self.now }
    {
        match self {
            Report::Certified { .. } => 0,
            Report::Violated { .. } => 1,
        }
    }

    /// The same as members of an object of JSON, beside the states that were met and the parts of the time.
    ///
    /// Errors: where a growth was refused.
    pub fn object(
        &self,
        alloc: Global,
        states: u64,
        times: Option<Times>,
    ) -> Result<Value, AllocError> {
        match self {
            Report::Certified { records, bytes } => {
                certified_object(alloc, *records, *bytes, states, times)
            }
            Report::Violated {
                violation,
                labels,
                bytes,
            } => violated_object(alloc, *violation, *labels, *bytes, states, times),
        }
    }

    /// How much was met and written, of a search that met so many states.
    pub fn sizes(&self, states: u64) -> Sizes
        ensures report { result.report ≡ Some self.now }
        ensures states { result.states ≡ states }
    {
        Sizes {
            report: Some(*self),
            states,
        }
    }
}

impl fmt::Display for Report {
    fn fmt<W: fmt::Write>(&self, f: &mut fmt::Formatter<W>) -> fmt::Result {
        match self {
            Report::Certified { records, .. } => writeln!(f, "certificate: {records} records"),
            Report::Violated {
                violation,
                labels,
                ..
            } => {
                let wrong = Wrong(*violation);
                writeln!(f, "{wrong}\ntrace: {labels} labels")
            }
        }
    }
}

/// How much was met and written, as it is printed.
#[derive(Clone, Copy)]
pub struct Sizes {
    report: Option<Report>,
    states: u64,
}

impl Sizes {
    /// So many states met, and nothing written.
    pub fn met(states: u64) -> Sizes
        ensures report { result.report ≡ None }
        ensures states { result.states ≡ states }
    {
        Sizes {
            report: None,
            states,
        }
    }
}

impl fmt::Display for Sizes {
    fn fmt<W: fmt::Write>(&self, f: &mut fmt::Formatter<W>) -> fmt::Result {
        let states = self.states;
        writeln!(f, "states: {states}")?;
        let written = match self.report {
            Some(Report::Certified { records, bytes }) => {
                writeln!(f, "records: {records}")?;
                bytes
            }
            Some(Report::Violated { labels, bytes, .. }) => {
                writeln!(f, "labels: {labels}")?;
                bytes
            }
            None => None,
        };
        match written {
            Some(bytes) => writeln!(f, "bytes: {bytes}"),
            None => Ok(()),
        }
    }
}
