//! Files that grow no further than the system allows. A write beyond that would end the process by a signal, so it is refused here.

ghost use Rattle.std.specs.Prelude.{◌≡◌, IfOk, IfSome, length};

use std::io::{ErrorKind, Read, Write};
use std::rt::Files;
use std::{fs, io};

// Where the system says how far a file of this process may grow.
const LIMITS: &str = "/proc/self/limits";

const LIMIT: &str = "Max file size";

// More than what stands there.
const LIMITS_BYTES: usize = 4_096;

/// A file that is written from its start, and takes so many bytes more, if they are limited.
#[derive(Drop)]
pub struct Limited<F: Write> {
    pub file: F,
    pub left: Option<u64>,
}

// The number that a line of limits has first.
fn number_in(line: &str) -> Option<u64> {
    let rest = line.strip_prefix(LIMIT)?;
    let word = rest.split_ascii_whitespace().next()?;
    word.parse::<u64>().ok()
}

// How far a file may grow, as a text of limits says it.
fn limit_in(limits: &str) -> Option<u64> {
    for line in limits.lines() {
        if let Some(limit) = number_in(line) {
            return Some(limit);
        }
    }
    None
}

// What the system says of limits, and how many bytes that has.
fn read_limits<R: Files>(rt: &R, buffer: &mut [u8]) -> io::Result<usize> {
    let mut file = fs::open(rt, LIMITS)?;
    file.read(buffer)
}

/// How many bytes a file of this process may have, where that is limited.
pub fn file_limit<R: Files>(rt: &R) -> Option<u64> {
    let mut buffer = [0u8; LIMITS_BYTES];
    match read_limits(rt, &mut buffer) {
        Ok(count) => {
            let text = std::str::from_utf8(buffer.get(..count).unwrap_or(&[])).ok()?;
            limit_in(text)
        }
        Err(_) => None,
    }
}

// How many bytes of a buffer still go into a file.
fn room(left: Option<u64>, length: usize) -> usize {
    match left {
        Some(left) => length.min(usize::try_from(left).unwrap_or(usize::MAX)),
        None => length,
    }
}

impl<F: Write> Write for Limited<F> {
    fn write(&mut self, buf: &[u8]) -> io::Result<usize> {
        let room = room(self.left, buf.len());
        if room == 0 && !buf.is_empty() {
            return Err(io::Error::from(ErrorKind::FileTooLarge));
        }
        let count = self.file.write(buf.get(..room).unwrap_or(buf))?;
        self.left = self.left.map(|left| left.saturating_sub(count as u64));
        Ok(count)
    }

    fn flush(&mut self) -> io::Result<()> {
        self.file.flush()
    }
}
