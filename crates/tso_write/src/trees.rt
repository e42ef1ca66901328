//! The tree of worked states' records.

ghost use Rattle.std.specs.Prelude.{IfOk};
ghost use Rattle.tso_cert.specs.Trees.{tree_of};
ghost use Rattle.tso_write.specs.Worked.{AreWorkedOut, IsTreeOf};

use crate::cutting::cut_by;
use crate::ordering::rising_by;
use crate::worked::Worked;
use std::alloc::{AllocError, Global};
use std::thread::Threads;
use tso_cert::{Cert, Workers};
use tso_flow::Checked;
use tso_judge::certificates_fit;

/// The records of worked states as a tree, cut by so many workers.
///
/// Errors: where a growth was refused.
pub fn tree_for<R: Threads + Sync>(
    rt: &R,
    alloc: Global,
    checked: &Checked,
    worked: &Worked<'_>,
    workers: Workers,
) -> Result<Cert, AllocError>
    requires worked { AreWorkedOut checked.now.client worked.now }
    ensures { IfOk result (λ cert. IsTreeOf checked.now.client worked.now (tree_of cert)) }
{
    worked.store.states_differ();
    certificates_fit(checked);
    let numbers = rising_by(rt, alloc, &worked.store, workers.count())?;
    let cert = cut_by(
        rt,
        alloc,
        checked,
        &worked.ground,
        &worked.store,
        numbers.as_slice(),
        workers.count(),
    )?;
    Ok(cert)
}
