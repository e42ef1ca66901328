//! Files that several threads read at one time.

use std::alloc::Global;
use std::fs::File;
use std::io::Read;
use std::os::unix::fs::FileExt;
use std::rt::Files;
use std::{fs, io};
use tso_front::{Failure, STREAM, cannot_read, read_bytes};

/// What opens files of which parts are read. It has no associated type, so that threads may share it.
pub trait Source {
    /// An ordinary file, open to be read, if it is one.
    fn opened(&self, path: &str) -> Option<Opened>;
}

/// A file that is open to be read, by several threads at one time.
#[derive(Drop)]
pub struct Opened {
    file: File,
    /// How many bytes it had when it was opened.
    pub length: u64,
}

/// The bytes of a file from a place on.
#[derive(Drop)]
struct Behind<'f> {
    file: &'f File,
    start: u64,
}

impl Read for Behind<'_> {
    fn read(&mut self, buf: &mut [u8]) -> io::Result<usize> {
        let count = self.file.read_at(buf, self.start)?;
        self.start = self.start.saturating_add(count as u64);
        Ok(count)
    }
}

impl Opened {
    /// So many bytes from a place on, or fewer where the file ends before.
    ///
    /// Errors: `CannotRead` of this path where a read failed; `Memory`.
    pub fn read(
        &self,
        alloc: Global,
        path: &str,
        start: u64,
        most: usize,
    ) -> Result<Vec<u8>, Failure> {
        let left = self.length.saturating_sub(start);
        let expected = most.min(left as usize);
        let mut behind = Behind {
            file: &self.file,
            start,
        };
        read_bytes(alloc, &mut behind, path, most, expected)
    }
}

impl<R: Files<File = File>> Source for R {
    fn opened(&self, path: &str) -> Option<Opened> {
        if path == STREAM {
            return None;
        }
        match fs::metadata(self, path) {
            Ok(found) if found.is_file() => {
                let file = fs::open(self, path).ok()?;
                Some(Opened {
                    file,
                    length: found.len(),
                })
            }
            _ => None,
        }
    }
}
