//! Files that take the place of what was there when they are whole.

ghost use Rattle.std.specs.Prelude.{◌≡◌, IfOk, Ok};

use crate::failure::{Failure, cannot_write};
use crate::files::Files;
use std::alloc::{AllocError, Global};
use std::io;
use std::io::ErrorKind;

// So many names are tried for a draft.
const TRIES: u32 = 1_000;

/// Where a new file is written until it is whole: beside its own name, under a name that nothing has had, and that is this process's
/// alone. So no link is followed, and two processes that write one file leave it whole. What is no ordinary file, as a pipe or a link,
/// is written as it stands.
#[derive(Drop)]
pub struct Draft<'p> {
    path: &'p str,
    beside: Option<String>,
}

// The folder of a path, with the stroke behind it.
fn folder_of(path: &str) -> &str {
    match path.rfind('/') {
        Some(at) => path.get(..=at).unwrap_or(""),
        None => "",
    }
}

// The name of a draft of the file at this path. It is short, so that a file may have as long a name as the system allows.
fn draft_name(alloc: Global, path: &str, process: u32, number: u32) -> Result<String, AllocError> {
    let folder = folder_of(path);
    format!(in alloc; "{folder}.tsoq-{process}-{number}.part")
}

// Makes the draft of the file at this path, and opens it.
fn new_draft<F: Files>(
    alloc: Global,
    files: &mut F,
    path: &str,
) -> Result<(String, F::Writer), Failure> {
    let process = files.process();
    for number in 0..TRIES {
        let name = draft_name(alloc, path, process, number)?;
        match files.create_new(name.as_str()) {
            Ok(file) => return Ok((name, file)),
            Err(error) if error.kind() == ErrorKind::AlreadyExists => drop(name),
            Err(error) => return Err(cannot_write(alloc, path, error.kind())),
        }
    }
    Err(cannot_write(alloc, path, ErrorKind::AlreadyExists))
}

// Opens a file that is written as it stands.
fn in_place<F: Files>(alloc: Global, files: &mut F, path: &str) -> Result<F::Writer, Failure> {
    match files.create(path) {
        Ok(file) => Ok(file),
        Err(error) => Err(cannot_write(alloc, path, error.kind())),
    }
}

/// A file that is to be written, and what it is written to.
#[derive(Drop)]
pub struct Opened<'p, W: io::Write + Drop> {
    pub draft: Draft<'p>,
    pub file: W,
}

impl<'p> Draft<'p> {
    /// The draft of a file at this path, open to be written. It has the permissions of what is there.
    ///
    /// Errors: `CannotWrite` where it can't be opened; `Memory`.
    pub fn open<F: Files>(
        alloc: Global,
        files: &mut F,
        path: &'p str,
    ) -> Result<Opened<'p, F::Writer>, Failure> {
        if files.is_special(path) {
            let file = in_place(alloc, files, path)?;
            let draft = Draft { path, beside: None };
            return Ok(Opened { draft, file });
        }
        let (beside, file) = new_draft(alloc, files, path)?;
        files.take_permissions(path, beside.as_str());
        let draft = Draft {
            path,
            beside: Some(beside),
        };
        Ok(Opened { draft, file })
    }

    /// The name that is asked for.
    pub fn name(&self) -> &str {
        self.path
    }

    /// Gives it its name where it was written, and takes it away where it was not: then the old file is as it was.
    ///
    /// Errors: why it was not written; `CannotWrite` where it does not get its name.
    pub fn settle<T: Drop, F: Files>(
        self,
        alloc: Global,
        files: &mut F,
        written: Result<T, Failure>,
    ) -> Result<T, Failure>
        ensures { IfOk result (λ made. written ≡ Ok made) }
    {
        let Draft { path, beside } = self;
        let Some(beside) = beside else {
            return written;
        };
        let named = match written {
            Ok(made) => match files.rename(beside.as_str(), path) {
                Ok(()) => Ok(made),
                Err(error) => Err(cannot_write(alloc, path, error.kind())),
            },
            Err(failure) => Err(failure),
        };
        if named.is_err() {
            let _ = files.remove(beside.as_str());
        }
        named
    }
}
