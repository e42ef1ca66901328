//! Answers as objects of JSON, one a line.

use serde_json::{Map, Value};
use std::alloc::{AllocError, Global};
use tso_trace::Violation;

/// An object as a line.
///
/// Errors: where a growth was refused.
pub fn json_line(alloc: Global, object: &Value) -> Result<String, AllocError> {
    let mut line = object.to_string(alloc)?;
    line.push('\n')?;
    Ok(line)
}

/// The members of an object that is made, one after another.
#[derive(Drop)]
pub struct Members {
    alloc: Global,
    members: Map<String, Value>,
}

impl Members {
    /// None yet.
    pub fn new(alloc: Global) -> Members {
        Members {
            alloc,
            members: Map::new(alloc),
        }
    }

    fn put(&mut self, name: &str, value: Value) -> Result<(), AllocError> {
        match String::from_str(self.alloc, name) {
            Ok(name) => {
                let _earlier = self.members.insert(name, value)?;
                Ok(())
            }
            Err(reason) => {
                drop(value);
                Err(reason)
            }
        }
    }

    /// These and one more.
    ///
    /// Errors: where a growth was refused.
    pub fn with(self, name: &str, value: Value) -> Result<Members, AllocError> {
        let mut members = self;
        match members.put(name, value) {
            Ok(()) => Ok(members),
            Err(reason) => {
                drop(members);
                Err(reason)
            }
        }
    }

    /// These and a number.
    ///
    /// Errors: where a growth was refused.
    pub fn number(self, name: &str, number: u64) -> Result<Members, AllocError> {
        self.with(name, Value::from(number))
    }

    /// These and a text.
    ///
    /// Errors: where a growth was refused.
    pub fn text(self, name: &str, text: &str) -> Result<Members, AllocError> {
        match String::from_str(self.alloc, text) {
            Ok(text) => self.with(name, Value::String(text)),
            Err(reason) => {
                drop(self);
                Err(reason)
            }
        }
    }

    /// The object that has them.
    pub fn object(self) -> Value {
        let Members {
            alloc: _alloc,
            members,
        } = self;
        Value::Object(members)
    }
}

/// A number, or null where there is none.
pub fn number_or_null(number: Option<u64>) -> Value {
    match number {
        Some(number) => Value::from(number),
        None => Value::Null,
    }
}

/// A violation by its words, and the thread of a fault.
pub fn violation_words(violation: Violation) -> (&'static str, Option<u64>) {
    match violation {
        Violation::Fault(thread) => ("fault", Some(thread as u64)),
        Violation::NoOrder => ("no order", None),
    }
}
