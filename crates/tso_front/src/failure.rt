//! Why a command does not succeed, and its status.

ghost use Rattle.std.specs.Prelude.{◌≡◌, true};
ghost use Rattle.tso_front.specs.Statuses.{status_of};
ghost use Rattle.tso_front.specs.Variants.{is_misuse};
ghost use Rattle.tso_front.specs.declared.failure.Failure.TheVariants as failures;

use std::alloc::{AllocError, AllocFailed, Global};
use std::fmt;
use std::io::ErrorKind;
use tso_client::CheckError;
use tso_prog::Fault;
use tso_trace::TraceFault;

/// Why a command does not succeed.
#[derive(Drop)]
pub enum Failure {
    /// The words are none of the program's.
    Usage(String),
    /// A word is not UTF-8.
    NotText,
    /// The program text is refused.
    Program(Fault),
    /// The trace is refused.
    Trace(TraceFault),
    /// More states can be reached than the search may meet.
    Limit,
    /// A file cannot be read.
    CannotRead(String),
    /// A file cannot be written.
    CannotWrite(String),
    /// Standard output cannot be written.
    CannotPrint,
    /// A growth was refused.
    Memory,
}

impl Failure {
    /// The status with which the program ends.
    pub fn status(&self) -> u8
        ensures { result ≡ status_of self.now }
    {
        match self {
            Failure::Program(_) => 2,
            Failure::Trace(_) => 3,
            Failure::Limit => 4,
            Failure::Memory => 5,
            Failure::CannotRead(_) | Failure::CannotWrite(_) | Failure::CannotPrint => 6,
            Failure::Usage(_) | Failure::NotText => 64,
        }
    }
}

/// That the words are none of the program's, of which this is said.
pub fn misused(alloc: Global, text: &str) -> Failure
    ensures { is_misuse result ≡ true }
{
    match String::from_str(alloc, text) {
        Ok(text) => Failure::Usage(text),
        Err(_) => Failure::Memory,
    }
}

/// That a file is not read.
pub fn cannot_read(alloc: Global, path: &str) -> Failure {
    match String::from_str(alloc, path) {
        Ok(path) => Failure::CannotRead(path),
        Err(_) => Failure::Memory,
    }
}

/// Why a file is not written, where opening it or a write gave this kind of error.
pub fn cannot_write(alloc: Global, path: &str, kind: ErrorKind) -> Failure {
    if let ErrorKind::OutOfMemory = kind {
        return Failure::Memory;
    }
    match String::from_str(alloc, path) {
        Ok(path) => Failure::CannotWrite(path),
        Err(_) => Failure::Memory,
    }
}

impl fmt::Display for Failure {
    fn fmt<W: fmt::Write>(&self, f: &mut fmt::Formatter<W>) -> fmt::Result {
        match self {
            Failure::Usage(text) => write!(f, "{text}"),
            Failure::NotText => writeln!(f, "a word of the command line is not UTF-8"),
            Failure::Program(fault) => writeln!(f, "{fault}"),
            Failure::Trace(fault) => writeln!(f, "{fault}"),
            Failure::Limit => writeln!(f, "limit reached"),
            Failure::CannotRead(path) => writeln!(f, "cannot read {path}"),
            Failure::CannotWrite(path) => writeln!(f, "cannot write {path}"),
            Failure::CannotPrint => writeln!(f, "cannot write standard output"),
            Failure::Memory => writeln!(f, "out of memory"),
        }
    }
}

impl From<AllocError> for Failure {
    ghost from_gives = { λ _ failure. failure ≡ failures.Memory };

    fn from(_e: AllocError) -> Failure {
        Failure::Memory
    }
}

impl<T: Drop> From<AllocFailed<T>> for Failure {
    ghost from_gives = { λ _ failure. failure ≡ failures.Memory };

    fn from(_e: AllocFailed<T>) -> Failure {
        Failure::Memory
    }
}

impl From<CheckError> for Failure {
    fn from(e: CheckError) -> Failure {
        match e {
            CheckError::Program(fault) => Failure::Program(fault),
            CheckError::Memory => Failure::Memory,
        }
    }
}

impl From<TraceFault> for Failure {
    fn from(e: TraceFault) -> Failure {
        match e {
            TraceFault::Memory => Failure::Memory,
            fault => Failure::Trace(fault),
        }
    }
}
