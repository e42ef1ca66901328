//! Why bytes are no certificate, and why one was not written.
ghost use Rattle.std.specs.Prelude.{◌≡◌};
ghost use Rattle.tso_cert.specs.declared.fault.DecodeError.TheVariants as errors;
ghost use Rattle.tso_cert.specs.declared.fault.WriteError.TheVariants as failures;

use std::alloc::{AllocError, AllocFailed};
use std::io;

/// The first fault of bytes, read from the front.
#[derive(Clone, Copy, PartialEq, Eq)]
pub enum Fault {
    /// The bytes stop being the beginning of a certificate before a limit is passed, or end too soon, or go on after its end.
    K01,
    /// A limit is passed first: 4,194,304 records in all, 64 in a leaf, a fork inside 64 others.
    K02,
}

/// Why bytes were not decoded.
#[derive(Clone, Copy, PartialEq, Eq)]
pub enum DecodeError {
    Fault(Fault),
    /// Memory ran out before a fault was met.
    Memory,
}

/// Why a certificate was not written.
#[derive(Drop)]
pub enum WriteError {
    /// A write failed.
    Io(io::Error),
    /// Memory ran out.
    Memory,
}

impl From<AllocError> for DecodeError {
    ghost from_gives = { λ _ e. e ≡ errors.Memory };

    fn from(_e: AllocError) -> DecodeError {
        DecodeError::Memory
    }
}

impl<T: Drop> From<AllocFailed<T>> for DecodeError {
    ghost from_gives = { λ _ e. e ≡ errors.Memory };

    fn from(_e: AllocFailed<T>) -> DecodeError {
        DecodeError::Memory
    }
}

impl From<AllocError> for WriteError {
    ghost from_gives = { λ _ e. e ≡ failures.Memory };

    fn from(_e: AllocError) -> WriteError {
        WriteError::Memory
    }
}

impl<T: Drop> From<AllocFailed<T>> for WriteError {
    ghost from_gives = { λ _ e. e ≡ failures.Memory };

    fn from(_e: AllocFailed<T>) -> WriteError {
        WriteError::Memory
    }
}
