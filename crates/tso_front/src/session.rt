//! What a command runs with.

ghost use Rattle.std.specs.Prelude.{◌≡◌, ◌≤◌, vec_len, IfOk};
ghost use Rattle.tso_front.specs.Statuses.{status_of};

use crate::draft::{Draft, Opened};
use crate::failure::{Failure, cannot_read, cannot_write};
use crate::files::{Files, Kind, Probe, read_probed, read_up_to};
use crate::json::json_line;
use crate::variant::Variant;
use serde_json::Value;
use std::alloc::Global;
use std::io;
use std::io::{ErrorKind, Read, Write};

// A program text has at most 65,536 bytes, so one more shows that it is too long.
const PROGRAM_BYTES: usize = 65_537;

/// What a command runs with: where its memory comes from, its files, standard output and standard error.
pub trait Session {
    /// Where memory comes from.
    fn alloc(&self) -> Global;

    /// The first `limit` bytes of a file, all of it where it has fewer.
    ///
    /// Errors: `CannotRead`; `Memory`.
    fn read(&mut self, path: &str, limit: usize) -> Result<Vec<u8>, Failure>
        ensures short { IfOk result (λ bytes. vec_len bytes ≤ limit) };

    /// The bytes of a file, as long as more of them are wanted.
    ///
    /// Errors: `CannotRead`; `Memory`.
    fn read_while(&mut self, path: &str, probe: &mut dyn Probe) -> Result<Vec<u8>, Failure>;

    /// The bytes of a program text, and one more where it is too long.
    ///
    /// Errors: `CannotRead`; `Memory`.
    fn read_program(&mut self, path: &str) -> Result<Vec<u8>, Failure>
        ensures short { IfOk result (λ bytes. vec_len bytes ≤ 65537) };

    /// The bytes of a program text, with other calls in place of its own.
    ///
    /// Errors: `CannotRead`; `Usage` where the words for the calls are none; `Memory`.
    fn read_variant(&mut self, path: &str, variant: &Variant<'_>) -> Result<Vec<u8>, Failure>;

    /// Why a file gives no byte, if it can't be opened or read.
    fn unreadable(&mut self, path: &str) -> Option<io::Error>;

    /// Writes a new file. It has its name when it is whole; where it fails, what had that name is as it was.
    ///
    /// Errors: `CannotWrite` where the file failed; `Memory`.
    fn write(&mut self, path: &str, bytes: &[u8]) -> Result<(), Failure>;

    /// Makes a folder, and those around it. One that is there serves, and where there is none the first file in it says so.
    fn make_folder(&mut self, path: &str);

    /// What is at a path, behind links.
    fn look_at(&mut self, path: &str) -> Kind;

    /// Whether two paths lead to one ordinary file, or would where neither has one yet.
    fn are_one_file(&mut self, first: &str, second: &str) -> bool;

    /// Takes a file away, if there is one. What fails is not told.
    fn take_away(&mut self, path: &str);

    /// Writes bytes to standard output.
    ///
    /// Errors: `CannotPrint`.
    fn print_bytes(&mut self, bytes: &[u8]) -> Result<(), Failure>;

    /// Writes a text to standard output.
    ///
    /// Errors: `CannotPrint`.
    fn print(&mut self, text: &str) -> Result<(), Failure>;

    /// Writes an object of JSON to standard output, as a line.
    ///
    /// Errors: `CannotPrint`; `Memory`.
    fn print_object(&mut self, object: &Value) -> Result<(), Failure>;

    /// Has all that was written to standard output written out.
    ///
    /// Errors: `CannotPrint`.
    fn flush(&mut self) -> Result<(), Failure>;

    /// Writes bytes to standard error. What fails there is not told.
    fn note(&mut self, bytes: &[u8]);

    /// Says on standard error what failed, and gives the status.
    fn report(&mut self, failure: &Failure) -> u8
        ensures { result ≡ status_of failure.now };
}

/// A session over what opens files, standard output and standard error.
#[derive(Drop)]
pub struct Streams<'f, 'o, 'e, F: Files, O: Write, E: Write> {
    pub alloc: Global,
    pub files: &'f mut F,
    pub out: &'o mut O,
    pub err: &'e mut E,
}

// Writes all bytes to a file.
fn write_all<W: Write>(file: &mut W, bytes: &[u8]) -> io::Result<()> {
    file.write_all(bytes)?;
    file.flush()
}

// Writes a new file, which has its name when it is whole.
fn write_whole<F: Files>(
    alloc: Global,
    files: &mut F,
    path: &str,
    bytes: &[u8],
) -> Result<(), Failure> {
    let Opened { draft, mut file } = Draft::open(alloc, files, path)?;
    let written = match write_all(&mut file, bytes) {
        Ok(()) => Ok(()),
        Err(error) => Err(cannot_write(alloc, path, error.kind())),
    };
    drop(file);
    draft.settle(alloc, files, written)
}

// Writes bytes to standard output.
fn printed<O: Write>(out: &mut O, bytes: &[u8]) -> Result<(), Failure> {
    match out.write_all(bytes) {
        Ok(()) => Ok(()),
        Err(_) => Err(Failure::CannotPrint),
    }
}

impl<F: Files, O: Write, E: Write> Session for Streams<'_, '_, '_, F, O, E> {
    fn alloc(&self) -> Global {
        self.alloc
    }

    fn read(&mut self, path: &str, limit: usize) -> Result<Vec<u8>, Failure> {
        read_up_to(self.alloc, self.files, path, limit)
    }

    fn read_while(&mut self, path: &str, probe: &mut dyn Probe) -> Result<Vec<u8>, Failure> {
        match self.files.open(path) {
            Ok(mut reader) => read_probed(self.alloc, &mut reader, path, probe),
            Err(_) => Err(cannot_read(self.alloc, path)),
        }
    }

    fn read_program(&mut self, path: &str) -> Result<Vec<u8>, Failure> {
        read_up_to(self.alloc, self.files, path, PROGRAM_BYTES)
    }

    fn read_variant(&mut self, path: &str, variant: &Variant<'_>) -> Result<Vec<u8>, Failure> {
        let text = read_up_to(self.alloc, self.files, path, PROGRAM_BYTES)?;
        variant.applied(self.alloc, text)
    }

    fn unreadable(&mut self, path: &str) -> Option<io::Error> {
        match self.files.open(path) {
            Err(error) => Some(error),
            Ok(mut reader) => reader.read(&mut [0u8; 1]).err(),
        }
    }

    fn write(&mut self, path: &str, bytes: &[u8]) -> Result<(), Failure> {
        write_whole(self.alloc, self.files, path, bytes)
    }

    fn make_folder(&mut self, path: &str) {
        let _made = self.files.create_folder(path);
    }

    fn look_at(&mut self, path: &str) -> Kind {
        self.files.kind(path)
    }

    fn are_one_file(&mut self, first: &str, second: &str) -> bool {
        self.files.is_same_file(first, second)
    }

    fn take_away(&mut self, path: &str) {
        let _removed = self.files.remove(path);
    }

    fn print_bytes(&mut self, bytes: &[u8]) -> Result<(), Failure> {
        printed(self.out, bytes)
    }

    fn print(&mut self, text: &str) -> Result<(), Failure> {
        printed(self.out, text.as_bytes())
    }

    fn print_object(&mut self, object: &Value) -> Result<(), Failure> {
        let line = json_line(self.alloc, object)?;
        printed(self.out, line.as_bytes())
    }

    fn flush(&mut self) -> Result<(), Failure> {
        match self.out.flush() {
            Ok(()) => Ok(()),
            Err(_) => Err(Failure::CannotPrint),
        }
    }

    fn note(&mut self, bytes: &[u8]) {
        let _ = self.err.write_all(bytes);
        let _ = self.err.flush();
    }

    fn report(&mut self, failure: &Failure) -> u8 {
        reported(self.alloc, self.err, failure)
    }
}

impl<F: Files, O: Write, E: Write> Files for Streams<'_, '_, '_, F, O, E> {
    type Reader = F::Reader;

    type Writer = F::Writer;

    fn open(&mut self, path: &str) -> io::Result<F::Reader> {
        self.files.open(path)
    }

    fn create(&mut self, path: &str) -> io::Result<F::Writer> {
        self.files.create(path)
    }

    fn create_new(&mut self, path: &str) -> io::Result<F::Writer> {
        self.files.create_new(path)
    }

    fn process(&mut self) -> u32 {
        self.files.process()
    }

    fn take_permissions(&mut self, from: &str, to: &str) {
        self.files.take_permissions(from, to);
    }

    fn kind(&mut self, path: &str) -> Kind {
        self.files.kind(path)
    }

    fn is_same_file(&mut self, first: &str, second: &str) -> bool {
        self.files.is_same_file(first, second)
    }

    fn is_special(&mut self, path: &str) -> bool {
        self.files.is_special(path)
    }

    fn rename(&mut self, from: &str, to: &str) -> io::Result<()> {
        self.files.rename(from, to)
    }

    fn remove(&mut self, path: &str) -> io::Result<()> {
        self.files.remove(path)
    }

    fn create_folder(&mut self, path: &str) -> io::Result<()> {
        self.files.create_folder(path)
    }
}

/// The standard output of a session, to be written to.
#[derive(Drop)]
pub struct Out<'s, S: Session> {
    pub session: &'s mut S,
}

impl<S: Session> Write for Out<'_, S> {
    fn write(&mut self, buf: &[u8]) -> io::Result<usize> {
        match self.session.print_bytes(buf) {
            Ok(()) => Ok(buf.len()),
            Err(_) => Err(io::Error::from(ErrorKind::Other)),
        }
    }

    fn flush(&mut self) -> io::Result<()> {
        match self.session.flush() {
            Ok(()) => Ok(()),
            Err(_) => Err(io::Error::from(ErrorKind::Other)),
        }
    }
}

/// Says on standard error what failed, and gives the status.
pub fn reported<E: Write>(alloc: Global, err: &mut E, failure: &Failure) -> u8
    ensures { result ≡ status_of failure.now }
{
    if let Ok(text) = failure.to_string(alloc) {
        let _ = err.write_all(text.as_bytes());
        let _ = err.flush();
    }
    failure.status()
}
