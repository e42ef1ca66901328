//! Whole certificates, passed over.

ghost use Rattle.std.specs.Prelude.{◌≡◌, IfOk, Some};
ghost use Rattle.tso_cert.specs.Certificates.{certificate_at, tree_at};
ghost use Rattle.tso_skim.specs.Skips.{fault_in, fault_in_tree, fault_of, fault_told, without_tree};

use crate::tree::{Halt, skip_tree};
use std::alloc::{AllocError, Global};
use tso_cert::{DecodeError, Fault, read_front};
use tso_rec::Grain;

/// What bytes are.
#[derive(Clone, Copy, PartialEq, Eq)]
pub enum Skimmed {
    /// A certificate.
    Whole,
    /// None, but they might go on as one.
    Cut,
    /// None, whatever follows.
    Broken,
    /// They go beyond a limit before they stop being the beginning of one.
    Beyond,
}

// As many forks may be inside one another, and as many records may come.
const FORKS: u8 = 64;

const RECORDS: u32 = 4_194_304;

fn skimmed_of(halt: Halt) -> Skimmed
    ensures { fault_told result ≡ Some (fault_of halt) }
{
    match halt {
        Halt::Cut => Skimmed::Cut,
        Halt::Broken => Skimmed::Broken,
        Halt::Beyond => Skimmed::Beyond,
    }
}

// What the bytes behind a table are, to their end.
fn skim_tree(grain: Grain, bytes: &[u8]) -> Skimmed
    ensures { fault_told result ≡ fault_in_tree (without_tree (tree_at grain 64 4194304 bytes.now)) }
{
    match skip_tree(grain, FORKS, RECORDS, bytes) {
        Ok((_, rest)) => {
            if rest.is_empty() {
                Skimmed::Whole
            } else {
                Skimmed::Broken
            }
        }
        Err(halt) => skimmed_of(halt),
    }
}

/// What bytes are: a certificate, or why they are none. Of the table alone it keeps something in memory.
///
/// Errors: where an allocation failed.
pub fn skim(alloc: Global, bytes: &[u8]) -> Result<Skimmed, AllocError>
    ensures { IfOk result (λ skimmed. fault_told skimmed ≡ fault_in (certificate_at bytes.now)) }
{
    match read_front(alloc, bytes) {
        Ok((basis, rest)) => {
            let grain = basis.grain;
            drop(basis);
            Ok(skim_tree(grain, rest))
        }
        Err(DecodeError::Fault(Fault::K01)) => Ok(Skimmed::Broken),
        Err(DecodeError::Fault(Fault::K02)) => Ok(Skimmed::Beyond),
        Err(DecodeError::Memory) => Err(AllocError),
    }
}
