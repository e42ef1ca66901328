//! What is said of one client.

use crate::accepted::Accepted;
use crate::calls::Calls;
use serde_json::Value;
use std::alloc::{AllocError, Global};
use std::fmt;
use tso_front::{Members, number_or_null, violation_words};
use tso_trace::Violation;

/// What is said of one client of a survey.
#[derive(Drop)]
pub enum Decided {
    /// All its runs are good, by a certificate of so many records, if they were counted.
    Accepted {
        client: Accepted,
        records: Option<u64>,
    },
    /// One is not, by a trace of so many labels.
    Violated {
        violation: Violation,
        labels: usize,
    },
    /// More states can be reached than the search may meet.
    Limit,
    /// There is neither a certificate nor a trace of it.
    Missing,
    /// Its certificate or its trace is refused, and why.
    Refused(String),
}

// What is said of every client with these calls.
fn decided_members(alloc: Global, calls: &Calls, verdict: &str) -> Result<Members, AllocError> {
    Members::new(alloc)
        .text("client", calls.client.as_str())?
        .text("before", calls.before.as_str())?
        .text("verdict", verdict)
}

// That a client with these calls is accepted, by a certificate of so many records.
fn accepted_object(
    alloc: Global,
    calls: &Calls,
    records: Option<u64>,
) -> Result<Value, AllocError> {
    let object = decided_members(alloc, calls, "accepted")?.with(
        "records",
        number_or_null(records),
    )?;
    Ok(object.object())
}

// That a run of it is not good, by a trace of so many labels.
fn violated_object(
    alloc: Global,
    calls: &Calls,
    violation: Violation,
    labels: usize,
) -> Result<Value, AllocError> {
    let (what, thread) = violation_words(violation);
    let object = decided_members(alloc, calls, "violation")?
        .text("violation", what)?
        .with("thread", number_or_null(thread))?
        .number("labels", labels as u64)?;
    Ok(object.object())
}

// What is said of it in one word.
fn plain_object(alloc: Global, calls: &Calls, verdict: &str) -> Result<Value, AllocError> {
    Ok(decided_members(alloc, calls, verdict)?.object())
}

// That its file is refused, and why.
fn refused_object(alloc: Global, calls: &Calls, why: &str) -> Result<Value, AllocError> {
    let object = decided_members(alloc, calls, "refused")?.text("why", why)?;
    Ok(object.object())
}

impl Decided {
    /// What is said of a client with these calls, as an object of JSON.
    ///
    /// Errors: where a growth was refused.
    pub fn object(&self, alloc: Global, calls: &Calls) -> Result<Value, AllocError> {
        match self {
            Decided::Accepted { records, .. } => accepted_object(alloc, calls, *records),
            Decided::Violated { violation, labels } => {
                violated_object(alloc, calls, *violation, *labels)
            }
            Decided::Limit => plain_object(alloc, calls, "limit reached"),
            Decided::Missing => plain_object(alloc, calls, "missing"),
            Decided::Refused(why) => refused_object(alloc, calls, why.as_str()),
        }
    }

    /// Whether one of the client's runs is not good.
    pub fn is_violated(&self) -> bool {
        matches!(self, Decided::Violated { .. })
    }
}

// That all its runs are good, by a certificate of so many records, if they were counted.
fn put_accepted<W: fmt::Write>(f: &mut fmt::Formatter<W>, records: Option<u64>) -> fmt::Result {
    match records {
        Some(records) => write!(f, "certificate: {records} records"),
        None => write!(f, "accepted"),
    }
}

// That one is not, by a trace of so many labels.
fn put_violated<W: fmt::Write>(
    f: &mut fmt::Formatter<W>,
    violation: Violation,
    labels: usize,
) -> fmt::Result {
    match violation {
        Violation::Fault(thread) => {
            write!(f, "violation: fault in thread {thread}, {labels} labels")
        }
        Violation::NoOrder => write!(f, "violation: no order, {labels} labels"),
    }
}

/// As the line of a client says it, behind its calls.
impl fmt::Display for Decided {
    fn fmt<W: fmt::Write>(&self, f: &mut fmt::Formatter<W>) -> fmt::Result {
        match self {
            Decided::Accepted { records, .. } => put_accepted(f, *records),
            Decided::Violated { violation, labels } => put_violated(f, *violation, *labels),
            Decided::Limit => write!(f, "limit reached"),
            Decided::Missing => write!(f, "missing"),
            Decided::Refused(why) => write!(f, "{why}"),
        }
    }
}
