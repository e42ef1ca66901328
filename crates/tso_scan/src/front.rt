//! What stands before the tree of a certificate that can be read into a store.
ghost use Rattle.std.specs.Prelude.{◌≡◌, IfOk, IfSome, Ok};
ghost use Rattle.tso_cert.specs.Certificates.{front_at};
ghost use Rattle.tso_rec.specs.Bases.{by_steps};

use std::alloc::{AllocError, Global};
use tso_cert::{DecodeError, read_front};
use tso_foot::Table;
use tso_rec::{Basis, Grain};

// The table, if its certificate is one of steps.
fn table_of_steps(basis: Basis) -> Option<Table>
    ensures { IfSome result (λ t. basis ≡ by_steps t) }
{
    let Basis { grain, table } = basis;
    match grain {
        Grain::Steps => Some(table),
        Grain::Crossings => None,
    }
}

/// The table of a certificate of steps, and the bytes after it, which are those of the tree. `None` where the bytes begin otherwise: a
/// certificate of crossings is decided by its tree.
///
/// Errors: where a growth was refused.
pub fn read_steps(alloc: Global, bytes: &[u8]) -> Result<Option<(Table, &[u8])>, AllocError>
    ensures { IfOk result (λ o. IfSome o (λ x. front_at bytes.now ≡ Ok (by_steps x.0, x.1.now))) }
{
    match read_front(alloc, bytes) {
        Ok((basis, rest)) => match table_of_steps(basis) {
            Some(table) => Ok(Some((table, rest))),
            None => Ok(None),
        },
        Err(DecodeError::Fault(_)) => Ok(None),
        Err(DecodeError::Memory) => Err(AllocError),
    }
}
