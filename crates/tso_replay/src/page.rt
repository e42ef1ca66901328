//! The file that shows a run as a page.

use crate::asked::Replay;
use crate::report::Wrong;
use crate::show::show_failure;
use std::alloc::Global;
use tso_flow::Checked;
use tso_front::{Failure, Session};
use tso_page::{Run, page_of};
use tso_show::{Replayed, ShowError};

// What is wrong with a run, in words, if something is.
fn wrong_words(alloc: Global, run: &Replayed) -> Result<Option<String>, Failure> {
    match run.violation() {
        Some(violation) => Ok(Some(Wrong(violation).to_string(alloc)?)),
        None => Ok(None),
    }
}

// The page of a run. Its bytes are put together in memory, so that a write of them fails for want of memory alone.
fn page_bytes(alloc: Global, run: &Run<'_>) -> Result<Vec<u8>, Failure> {
    match page_of(alloc, run) {
        Ok(bytes) => Ok(bytes),
        Err(ShowError::Write) => Err(Failure::Memory),
        Err(error) => Err(show_failure(&error)),
    }
}

// The page of a run of a program with this name, in which this is wrong.
fn shown_bytes<'x>(
    alloc: Global,
    checked: &'x Checked,
    program: &'x [u8],
    run: &'x Replayed,
    name: &'x str,
    wrong: Option<&'x str>,
) -> Result<Vec<u8>, Failure> {
    let shown = Run {
        checked,
        labels: run.labels(),
        source: program,
        name,
        wrong,
    };
    page_bytes(alloc, &shown)
}

// Writes a run as a page to a new file.
fn write_run<S: Session>(
    session: &mut S,
    checked: &Checked,
    program: &[u8],
    run: &Replayed,
    name: &str,
    path: &str,
) -> Result<(), Failure> {
    let words = wrong_words(session.alloc(), run)?;
    let bytes = shown_bytes(
        session.alloc(),
        checked,
        program,
        run,
        name,
        words.as_deref(),
    )?;
    session.write(path, &bytes)
}

/// Writes a run as a page to a new file, where that is asked for.
///
/// Errors: `CannotWrite` where the file failed; `Memory`.
pub fn write_page<S: Session>(
    session: &mut S,
    checked: &Checked,
    program: &[u8],
    run: &Replayed,
    asked: &Replay<'_>,
) -> Result<(), Failure> {
    match asked.html {
        Some(path) => write_run(session, checked, program, run, asked.program, path),
        None => Ok(()),
    }
}
