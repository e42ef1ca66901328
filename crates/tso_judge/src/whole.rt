//! A tree of records for a client, with what they are judged by.

ghost use Rattle.std.specs.Prelude.{IfOk};
ghost use Rattle.tso_rec.specs.Conditions.{IsLeast};

use std::alloc::{AllocError, Global};
use tso_cert::Cert;
use tso_flow::Checked;
use tso_foot::{ArrayTable, Table, build};
use tso_rec::Basis;

/// A tree of records for a client, with what they are judged by.
#[derive(Clone, Copy)]
pub struct Whole<'a> {
    pub alloc: Global,
    pub checked: &'a Checked,
    pub basis: &'a Basis,
    /// The least closed table of arrays, which tells what is a thread's own; certificates of steps don't ask for it.
    pub own: &'a ArrayTable,
    pub tree: &'a Cert,
}

/// The least closed table of arrays of a client.
///
/// Errors: where a growth was refused.
pub fn least_table(alloc: Global, checked: &Checked) -> Result<ArrayTable, AllocError>
    ensures { IfOk result (IsLeast checked.now.client) }
{
    match build(alloc, checked)? {
        Table::Arrays(own) => Ok(own),
        Table::Intervals(table) => {
            drop(table);
            Err(AllocError)
        }
    }
}
