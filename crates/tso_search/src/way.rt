//! The way back to the initial state, as the trace of an error.

ghost use Rattle.std.specs.Prelude.{◌≡◌, ◌≤◌, IfOk, length};
ghost use Rattle.tso_search.specs.Ways.{ComeEarlier, IsBadEnd, LeadBack};
ghost use Rattle.tso_trace.specs.Runs.{IsErrorTrace};

use crate::ground::Ground;
use crate::origin::Origin;
use crate::trail::{first_trail, go_on};
use std::alloc::{AllocError, Global};
use tso_flow::Checked;
use tso_machine::Label;
use tso_trace::{Trace, TraceFault};

// The origins on the way from the state with which a search began to state `number`, the last first.
fn way_to(alloc: Global, origins: &[Origin], number: u32) -> Result<Vec<Origin>, AllocError>
    requires earlier { ComeEarlier origins.now }
    requires there { number ≤ length origins.now }
    ensures { IfOk result (λ way. LeadBack origins.now number way.items 0) }
{
    let mut way = Vec::new(alloc);
    let mut at = number;
    while at > 0 {
        let origin = origins[at as usize - 1];
        way.push(origin)?;
        at = origin.from;
    }
    Ok(way)
}

// The labels of the run to state `number`, in which a fault has stopped a thread or whose calls no order explains.
fn labels_to(
    alloc: Global,
    checked: &Checked,
    ground: &Ground,
    origins: &[Origin],
    number: u32,
) -> Result<Vec<Label>, AllocError>
    requires { IsBadEnd checked.now.client ground.now origins.now number }
    ensures { IfOk result (λ labels. IsErrorTrace checked.now.client labels.items) }
{
    let mut way = way_to(alloc, origins, number)?;
    let mut trail = first_trail(alloc, checked, ground)?;
    while let Some(origin) = way.pop() {
        go_on(alloc, checked, ground, &mut trail, origin.actor)?;
    }
    Ok(trail.labels)
}

/// The trace of the run to state `number`, in which a fault has stopped a thread or whose calls no order explains.
///
/// Errors: out of memory.
pub fn trace_to(
    alloc: Global,
    checked: &Checked,
    ground: &Ground,
    origins: &[Origin],
    number: u32,
) -> Result<Trace, AllocError>
    requires { IsBadEnd checked.now.client ground.now origins.now number }
    ensures { IfOk result (λ t. (t.checked.client ≡ checked.now.client) × ∥ IsErrorTrace checked.now.client t.labels ∥₁) }
{
    let labels = labels_to(alloc, checked, ground, origins, number)?;
    match Trace::from_labels(alloc, checked, labels) {
        Ok(trace) => Ok(trace),
        Err(fault) => match fault {
            TraceFault::Memory => Err(AllocError),
            _ => unreachable!(),
        },
    }
}
