//! Runs of labels.

ghost use Rattle.std.specs.Prelude.{◌≡◌, ◌≢◌, [], OnOk, IfErr};
ghost use Rattle.tso_trace.specs.Runs.{first_fault, has_fault, is_fault, IsRun, IsTraceFault};

use crate::fault::TraceFault;
use std::alloc::Global;
use tso_flow::Checked;
use tso_machine::{ApplyError, Label, LabelKind, apply, initial};

/// Takes the labels' steps one after the other from the first machine on.
///
/// Errors: `NotAStep` with the first label that is no step; `Memory`.
pub fn take_steps(alloc: Global, checked: &Checked, labels: &[Label]) -> Result<(), TraceFault>
    requires { labels.now ≢ [] }
    ensures run { OnOk result (IsRun checked.now.client labels.now) }
    ensures refused { IfErr result (IsTraceFault checked.now.client labels.now) }
{
    let mut machine = initial(alloc, checked)?;
    for (position, label) in labels.iter().enumerate() {
        match apply(alloc, checked, &mut machine, *label) {
            Ok(_undo) => {}
            Err(ApplyError::NotAStep) => {
                return Err(TraceFault::NotAStep {
                    label: position + 1,
                });
            }
            Err(ApplyError::Memory) => return Err(TraceFault::Memory),
        }
    }
    Ok(())
}

fn is_fault(kind: LabelKind) -> bool
    ensures { result ≡ is_fault kind }
{
    matches!(kind, LabelKind::Fault(_))
}

/// Whether a fault stands among the labels.
pub fn has_fault(labels: &[Label]) -> bool
    ensures { result ≡ has_fault labels.now }
{
    labels.iter().any(|label| is_fault(label.kind))
}

/// The thread that the first fault among the labels stops.
pub fn first_fault(labels: &[Label]) -> Option<usize>
    ensures { result ≡ first_fault labels.now }
{
    let label = labels.iter().find(|label| is_fault(label.kind))?;
    Some(label.thread)
}
