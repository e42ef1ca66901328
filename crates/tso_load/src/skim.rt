//! When to stop reading a file: where its bytes are certain to be no certificate, whatever follows. Nothing is decided so: the bytes that
//! were read are decided as any others, and the answer is the same as that of the whole file.

use std::alloc::Global;
use tso_front::{Failure, Probe, Session};
use tso_skim::{Skimmed, skim};

// A file of fewer bytes is read whole.
const LEAST: usize = 64 * 1024 * 1024;

/// Asks of the bytes of a file that are there whether it may still be a certificate.
#[derive(Clone, Copy)]
struct Skimmer {
    alloc: Global,
}

impl Probe for Skimmer {
    fn wants_more(&mut self, bytes: &[u8]) -> bool {
        if bytes.len() < LEAST {
            return true;
        }
        match skim(self.alloc, bytes) {
            Ok(Skimmed::Whole | Skimmed::Cut) | Err(_) => true,
            Ok(Skimmed::Broken | Skimmed::Beyond) => false,
        }
    }
}

/// The bytes of a certificate in a file. A large file is read no further than it may be one: bytes behind which nothing makes a
/// certificate of it are the last.
///
/// Errors: `CannotRead` where it could not be opened or a read of it failed; `Memory`.
pub fn read_certificate<S: Session>(session: &mut S, path: &str) -> Result<Vec<u8>, Failure> {
    let mut skimmer = Skimmer {
        alloc: session.alloc(),
    };
    session.read_while(path, &mut skimmer)
}
