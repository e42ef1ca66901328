//! Certificates that are written anew with a table of intervals.

ghost use Rattle.std.specs.Prelude.{IfOk};
ghost use Rattle.tsoq.specs.Upgraded.{IsRefusal, IsUpgrade, IsWritten};

use crate::counted::Taken;
use crate::filing::file_bytes;
use std::alloc::Global;
use tso_check::{Renewed, UpgradeError, Verdict, upgrade_counted};
use tso_front::{Failure, Files};

/// What came of an upgrade.
#[derive(Drop)]
pub enum Upgraded {
    /// A certificate of so many records was written, and this is what its file has taken.
    Written { records: u64, taken: Taken },
    /// The certificate is not accepted, and this is the verdict on it.
    Refused(Verdict),
}

// Writes an upgraded certificate to this path.
fn write_upgraded<F: Files>(
    alloc: Global,
    files: &mut F,
    path: &str,
    renewed: &Renewed,
) -> Result<Upgraded, Failure>
    ensures { IfOk result (IsWritten renewed.now.bytes.items renewed.now.records) }
{
    let taken = file_bytes(alloc, files, path, renewed.bytes.as_slice())?;
    let records = renewed.records;
    Ok(Upgraded::Written { records, taken })
}

// Why a certificate is not upgraded: the verdict on it, if there is one.
fn refusal_of(error: UpgradeError) -> Result<Upgraded, Failure>
    ensures { IfOk result (IsRefusal error) }
{
    match error {
        UpgradeError::NotAccepted(Ok(verdict)) => Ok(Upgraded::Refused(verdict)),
        UpgradeError::NotAccepted(Err(error)) => Err(Failure::from(error)),
        UpgradeError::Memory => Err(Failure::Memory),
    }
}

/// Writes a certificate with a table of intervals to this path, where the one for a program text is accepted: the tree's bytes are
/// the same, and the new one is accepted too. One that has such a table already is written as it is. Else nothing is written, and it
/// gives the verdict.
///
/// Errors: `Program` with the first fault of the text; `CannotWrite`, and then what was there is as it was; `Memory`.
pub fn upgrade_to<F: Files>(
    alloc: Global,
    files: &mut F,
    program: &[u8],
    cert: &[u8],
    path: &str,
) -> Result<Upgraded, Failure>
    ensures { IfOk result (IsUpgrade program.now cert.now) }
{
    match upgrade_counted(alloc, program, cert) {
        Ok(renewed) => write_upgraded(alloc, files, path, &renewed),
        Err(error) => refusal_of(error),
    }
}
