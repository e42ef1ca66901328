//! Why a trace is refused.

ghost use Rattle.std.specs.Prelude.{◌≡◌};
ghost use Rattle.tso_trace.specs.declared.fault.TraceFault.TheVariants.{Memory};

use std::alloc::{AllocError, AllocFailed};
use thiserror::Error;

/// Why a list of labels, or a text, is no trace of an error.
#[derive(Debug, PartialEq, Eq, Drop, Error)]
pub enum TraceFault {
    /// The label of this number, from 1, is no step after those before it.
    #[error("T01 label {label}")]
    NotAStep { label: usize },
    /// All labels are steps, and the run is no error.
    #[error("T02")]
    NoError,
    /// The line of this number, from 1, is not of the grammar. No other line before it is so.
    #[error("T03 line {line}")]
    Grammar { line: usize },
    /// A growth was refused.
    #[error("out of memory")]
    Memory,
}

impl From<AllocError> for TraceFault {
    ghost from_gives = { λ _ e. e ≡ Memory };

    fn from(_e: AllocError) -> TraceFault {
        TraceFault::Memory
    }
}

impl<T: Drop> From<AllocFailed<T>> for TraceFault {
    ghost from_gives = { λ _ e. e ≡ Memory };

    fn from(_e: AllocFailed<T>) -> TraceFault {
        TraceFault::Memory
    }
}
