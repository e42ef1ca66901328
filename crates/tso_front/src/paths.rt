//! Files of one command that may not be one.

use crate::failure::{Failure, misused};
use crate::files::STREAM;
use crate::session::Session;
use std::alloc::Global;

/// That standard input is not read for two files.
///
/// Errors: `Usage` where it would be; `Memory`.
pub fn read_apart(alloc: Global, first: &str, second: &str) -> Result<(), Failure> {
    if first == STREAM && second == STREAM {
        return Err(misused(alloc, "standard input can be read for one file alone\n"));
    }
    Ok(())
}

// Whether a file that is written is the other one, by whichever names.
fn is_written_over<S: Session>(session: &mut S, written: &str, other: &str) -> bool {
    written != STREAM && other != STREAM && session.are_one_file(written, other)
}

// That a file of this name may not be written, for this reason.
fn refused(alloc: Global, name: &str, reason: &str) -> Failure {
    match format!(in alloc; "{name}: {reason}\n") {
        Ok(text) => Failure::Usage(text),
        Err(_) => Failure::Memory,
    }
}

/// That what is written is no file that is read, by whichever of its names.
///
/// Errors: `Usage` where it is; `Memory`.
pub fn written_apart<S: Session>(
    session: &mut S,
    written: Option<&str>,
    read: &str,
) -> Result<(), Failure> {
    match written {
        Some(written) if is_written_over(session, written, read) => Err(refused(
            session.alloc(),
            written,
            "a file that is read would be written over",
        )),
        _ => Ok(()),
    }
}

/// That two files that are written are two, by whichever of their names.
///
/// Errors: `Usage` where they are one; `Memory`.
pub fn both_apart<S: Session>(
    session: &mut S,
    first: Option<&str>,
    second: Option<&str>,
) -> Result<(), Failure> {
    match (first, second) {
        (Some(first), Some(second))
            if is_written_over(session, first, second) || first == STREAM && second == STREAM => {
            Err(refused(session.alloc(), second, "two files would be written as one"))
        }
        _ => Ok(()),
    }
}
