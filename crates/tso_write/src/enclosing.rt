//! Tables of intervals for worked states.

ghost use Rattle.std.specs.Prelude.{◌≡◌, ◌≤◌, IfOk, length, Some, slice_get};
ghost use Rattle.tso_cells.specs.Inductive.{IsInductive};
ghost use Rattle.tso_cert.specs.Seen.{AreSeen, AreWithin, Keeps, StateIsSeen};
ghost use Rattle.tso_foot.specs.Narrower.{IsNarrowerThanClosed};
ghost use Rattle.tso_foot.specs.declared.table.Table.TheVariants.{Intervals};
ghost use Rattle.tso_state.specs.declared.state.State.{State as AState};

use crate::worked::Worked;
use std::alloc::{AllocError, Global};
use tso_cells::{Hull, IntervalTable};
use tso_cert::{intervals_of, take_state};
use tso_flow::Checked;
use tso_store::Store;

// The registers of a state in a store are seen, if it has so many.
fn take_number(hull: &mut Hull, store: &Store<'_>, number: u32)
    ensures keeps { Keeps hull.old hull.new }
    ensures seen { (s : AState) → slice_get store.now.states number ≡ Some s → StateIsSeen hull.new s }
{
    if let Some(state) = store.view(number) {
        take_state(hull, &state);
    }
}

// Those of all states of a store.
fn take_all(hull: &mut Hull, store: &Store<'_>)
    requires few { length store.now.states ≤ 4194304 }
    ensures keeps { Keeps hull.old hull.new }
    ensures seen { AreSeen hull.new store.now.states }
{
    for number in 0..store.len() {
        take_number(hull, store, number as u32);
    }
}

/// An inductive table of intervals for worked states, as `tso_cert::intervals_of` makes it of a hull of them all. It takes memory
/// for the table alone.
///
/// Errors: where a growth was refused.
pub fn intervals_for(
    alloc: Global,
    checked: &Checked,
    worked: &Worked<'_>,
) -> Result<IntervalTable, AllocError>
    requires few { length worked.now.store.states ≤ 4194304 }
    ensures inductive { IfOk result (IsInductive checked.now.client) }
    ensures held { IfOk result (λ t. AreWithin (Intervals t) worked.now.store.states) }
    ensures narrow { IfOk result (IsNarrowerThanClosed checked.now.client) }
{
    let mut hull = Hull::empty(alloc, checked)?;
    take_all(&mut hull, &worked.store);
    intervals_of(alloc, checked, &hull)
}
