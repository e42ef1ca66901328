//! What is found of the clients that are asked about, with one text.

use serde_json::{Value, json};
use std::alloc::{AllocError, Global};
use std::fmt;
use tso_survey::{Calls, Decided};

/// What is found of the clients that are asked about.
#[derive(Drop)]
pub enum Ruling {
    /// Of the text's own client.
    Own(Decided),
    /// Of one of several clients that is not accepted.
    One { calls: Calls, decided: Decided },
    /// Each of so many clients is accepted.
    Each(usize),
}

/// What that says of a text.
#[derive(Clone, Copy, PartialEq, Eq)]
pub enum Standing {
    /// All runs of all clients are good.
    Right,
    /// A run of a client is not.
    Wrong,
    /// Nothing follows.
    Open,
}

/// What is said of a text by what was found of a client.
pub fn standing_of(decided: &Decided) -> Standing {
    match decided {
        Decided::Accepted { .. } => Standing::Right,
        Decided::Violated { .. } => Standing::Wrong,
        Decided::Limit | Decided::Missing | Decided::Refused(_) => Standing::Open,
    }
}

// The members of an object, but for those that say which client it is of.
fn without_calls(object: Value) -> Value {
    match object {
        Value::Object(mut members) => {
            let _client = members.remove("client");
            let _before = members.remove("before");
            Value::Object(members)
        }
        other => other,
    }
}

// What was found of a text's own client, as an object of JSON.
fn own_object(alloc: Global, decided: &Decided) -> Result<Value, AllocError> {
    let calls = Calls {
        before: String::new(alloc),
        client: String::new(alloc),
    };
    Ok(without_calls(decided.object(alloc, &calls)?))
}

impl Ruling {
    /// What it says of the text.
    pub fn standing(&self) -> Standing {
        match self {
            Ruling::Own(decided) => standing_of(decided),
            Ruling::One { decided, .. } => standing_of(decided),
            Ruling::Each(_) => Standing::Right,
        }
    }

    /// The same as an object of JSON.
    ///
    /// Errors: where a growth was refused.
    pub fn object(&self, alloc: Global) -> Result<Value, AllocError> {
        match self {
            Ruling::Own(decided) => own_object(alloc, decided),
            Ruling::One { calls, decided } => decided.object(alloc, calls),
            Ruling::Each(count) => {
                let count = *count as u64;
                json!(in alloc; {"verdict": "accepted", "clients": count})
            }
        }
    }
}

/// As a line ends: `violation: no order, 22 labels`; `push 1 | pop: limit reached`; `accepted: 20 clients`.
impl fmt::Display for Ruling {
    fn fmt<W: fmt::Write>(&self, f: &mut fmt::Formatter<W>) -> fmt::Result {
        match self {
            Ruling::Own(decided) => write!(f, "{decided}"),
            Ruling::One { calls, decided } => write!(f, "{calls}: {decided}"),
            Ruling::Each(count) => {
                let s = if *count == 1 { "" } else { "s" };
                write!(f, "accepted: {count} client{s}")
            }
        }
    }
}
