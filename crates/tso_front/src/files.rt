//! Files by their paths.

ghost use Rattle.std.specs.Prelude.{◌≤◌, vec_len, IfOk};

use crate::failure::{Failure, cannot_read};
use std::alloc::Global;
use std::io;
use std::io::{ErrorKind, Read, Write};

/// The name that stands for standard input where a file is read, and for standard output where one is written.
pub const STREAM: &str = "-";

// So many bytes are read at once.
const BLOCK: usize = 65_536;

/// What is at a path.
#[derive(Clone, Copy, PartialEq, Eq)]
pub enum Kind {
    /// Nothing, or nothing that can be looked at.
    Absent,
    /// An ordinary file.
    File,
    /// A folder.
    Folder,
    /// A device, a pipe or a socket.
    Special,
}

/// Opens files.
pub trait Files {
    type Reader: Read + Drop;

    type Writer: Write + Drop;

    /// Opens a file to be read from its start.
    fn open(&mut self, path: &str) -> io::Result<Self::Reader>;

    /// Opens a file to be written anew, where it stands.
    fn create(&mut self, path: &str) -> io::Result<Self::Writer>;

    /// Makes a file that was not there, and opens it. Where anything has its name, a link among others, it is refused with
    /// `ErrorKind::AlreadyExists`.
    fn create_new(&mut self, path: &str) -> io::Result<Self::Writer>;

    /// The number of this process, which no other process of the machine has at the same time.
    fn process(&mut self) -> u32;

    /// Gives a file the permissions of another, if that is there.
    fn take_permissions(&mut self, from: &str, to: &str);

    /// What is at a path, behind links.
    fn kind(&mut self, path: &str) -> Kind;

    /// Whether two paths lead to one ordinary file, or would where neither has one yet: by device and inode, and not by spelling.
    fn is_same_file(&mut self, first: &str, second: &str) -> bool;

    /// Whether something is at the path that is no ordinary file: a device, a pipe, a link, or standard output.
    fn is_special(&mut self, path: &str) -> bool;

    /// Gives a file another name. What had that name is gone.
    fn rename(&mut self, from: &str, to: &str) -> io::Result<()>;

    /// Takes a file away.
    fn remove(&mut self, path: &str) -> io::Result<()>;

    /// Makes a folder, and those around it that are not there.
    fn create_folder(&mut self, path: &str) -> io::Result<()>;
}

/// Says, while a file is read, whether more of it is wanted.
pub trait Probe {
    /// Whether more bytes are wanted behind these, which the file begins with.
    fn wants_more(&mut self, bytes: &[u8]) -> bool;
}

/// The bytes that a reader of the file at a path gives, as long as more are wanted: that is asked whenever twice as many are there as the
/// last time.
///
/// Errors: `CannotRead` where a read failed; `Memory`.
pub fn read_probed<R: Read>(
    alloc: Global,
    reader: &mut R,
    path: &str,
    probe: &mut dyn Probe,
) -> Result<Vec<u8>, Failure> {
    let mut bytes = Vec::new(alloc);
    let mut buffer = vec![in alloc; 0u8; BLOCK]?;
    let mut next = BLOCK;
    for _ in 0..u64::MAX {
        if bytes.len() >= next {
            if !probe.wants_more(&bytes) {
                break;
            }
            next = bytes.len().saturating_mul(2);
        }
        let count = match reader.read(&mut buffer) {
            Ok(count) => count,
            Err(error) if error.kind() == ErrorKind::Interrupted => continue,
            Err(_) => return Err(cannot_read(alloc, path)),
        };
        if count == 0 {
            break;
        }
        bytes.extend_from_slice(&buffer[..count])?;
    }
    Ok(bytes)
}

/// The first `limit` bytes that a reader of the file at a path gives, all of them where it has fewer. A read that is interrupted is
/// tried again. Room for so many as are expected is asked for at once: that saves moving them as they grow, and changes no answer.
///
/// Errors: `CannotRead` where a read failed; `Memory`.
pub fn read_bytes<R: Read>(
    alloc: Global,
    reader: &mut R,
    path: &str,
    limit: usize,
    expected: usize,
) -> Result<Vec<u8>, Failure>
    ensures short { IfOk result (λ bytes. vec_len bytes ≤ limit) }
{
    let mut bytes = Vec::with_capacity(alloc, expected)?;
    let mut buffer = vec![in alloc; 0u8; BLOCK]?;
    for _ in 0..u64::MAX {
        let left = limit.saturating_sub(bytes.len());
        let room = left.min(buffer.len());
        if room == 0 {
            break;
        }
        let count = match reader.read(&mut buffer[..room]) {
            Ok(count) => count,
            Err(error) if error.kind() == ErrorKind::Interrupted => continue,
            Err(_) => return Err(cannot_read(alloc, path)),
        };
        if count == 0 {
            break;
        }
        bytes.extend_from_slice(&buffer[..count])?;
    }
    Ok(bytes)
}

/// The first `limit` bytes of a file, all of it where it has fewer.
///
/// Errors: `CannotRead` where it could not be opened or a read of it failed; `Memory`.
pub fn read_up_to<F: Files>(
    alloc: Global,
    files: &mut F,
    path: &str,
    limit: usize,
) -> Result<Vec<u8>, Failure>
    ensures short { IfOk result (λ bytes. vec_len bytes ≤ limit) }
{
    match files.open(path) {
        Ok(mut reader) => read_bytes(alloc, &mut reader, path, limit, 0),
        Err(_) => Err(cannot_read(alloc, path)),
    }
}
