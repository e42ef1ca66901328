//! Tables of intervals that hold what states have in their registers.

ghost use Rattle.std.specs.Prelude.{◌≡◌, IfOk, IsTrue, List, OnOk, Some, length, slice_get};
ghost use Rattle.tso_cells.specs.Inductive.{IsInductive};
ghost use Rattle.tso_cert.specs.Lookup.{tree_states};
ghost use Rattle.tso_cert.specs.Seen.{AreSeen, AreWithin, CoreIsSeen, Keeps, StateIsSeen, ThreadIsSeen};
ghost use Rattle.tso_cert.specs.Trees.{tree_of};
ghost use Rattle.tso_foot.specs.Narrower.{IsNarrowerThanClosed};
ghost use Rattle.tso_foot.specs.declared.table.Table.TheVariants.{Intervals};
ghost use Rattle.tso_cells.specs.Intervals.{lie_in};
ghost use Rattle.tso_cells.specs.declared.interval.Interval.{Interval as AnInterval};
ghost use Rattle.tso_rec.specs.Records.{states_of};
ghost use Rattle.tso_state.specs.declared.state.State.{State as AState};
ghost use Rattle.tso_cells.specs.Hulls.{empty_hull, rows_of};

use crate::cert::Cert;
use std::alloc::{AllocError, Global};
use tso_cells::{Hull, IntervalTable, widened};
use tso_flow::{Checked, ProcedureKind};
use tso_rec::Packed;
use tso_state::{Core, Viewed};

// Fifteen registers at a position of a procedure.
fn take_registers(hull: &mut Hull, procedure: ProcedureKind, position: usize, registers: &[u64; 15])
    ensures keeps { Keeps hull.old hull.new }
    ensures count { length registers.now ≡ 15 }
    ensures lie { (row : List AnInterval) → slice_get (rows_of hull.new procedure) position ≡ Some row → IsTrue (lie_in row registers.now) }
{
    hull.take_in(procedure, position, registers);
}

// The registers of a core that runs this procedure, if it runs one.
fn take_core(hull: &mut Hull, procedure: ProcedureKind, core: &Core)
    ensures keeps { Keeps hull.old hull.new }
    ensures seen { CoreIsSeen hull.new procedure core.now }
{
    if let Core::Running(frame) = core {
        take_registers(hull, procedure, frame.pc, &frame.registers);
    }
}

fn take_thread<S: Viewed>(hull: &mut Hull, state: &S, number: usize)
    ensures keeps { Keeps hull.old hull.new }
    ensures seen { ThreadIsSeen hull.new (S.state state.now) number }
{
    if let Some(thread) = state.thread(number) {
        take_core(hull, state.procedure(number), &thread.core);
    }
}

/// The registers of each thread of a state that runs are seen, each at the position of its thread.
pub fn take_state<S: Viewed>(hull: &mut Hull, state: &S)
    ensures keeps { Keeps hull.old hull.new }
    ensures seen { StateIsSeen hull.new (S.state state.now) }
{
    for number in 0..state.thread_count() {
        take_thread(hull, state, number);
    }
}

fn take_leaf(hull: &mut Hull, records: &Packed) -> Result<(), AllocError>
    ensures keeps { OnOk result (Keeps hull.old hull.new) }
    ensures seen { OnOk result (AreSeen hull.new (states_of records.now)) }
{
    for k in 0..records.len() {
        let state = records.state(k)?;
        take_state(hull, &state);
    }
    Ok(())
}

fn take_tree(hull: &mut Hull, cert: &Cert) -> Result<(), AllocError>
    ensures keeps { OnOk result (Keeps hull.old hull.new) }
    ensures seen { OnOk result (AreSeen hull.new (tree_states (tree_of cert.now))) }
{
    match cert {
        Cert::Leaf(records) => take_leaf(hull, records),
        Cert::Fork(left, _, right) => {
            take_tree(hull, left)?;
            take_tree(hull, right)
        }
    }
}

/// An inductive table of intervals that holds what was seen: the running registers of each state that was taken into the hull lie
/// in their intervals at its position, and the lists name only arrays that every closed table of arrays has there. It need not be
/// the least such table: an interval that still grows after some rounds has all words, and one from the least to the greatest
/// cell stands for all cells of an array.
///
/// Errors: where a growth was refused.
pub fn intervals_of(
    alloc: Global,
    checked: &Checked,
    hull: &Hull,
) -> Result<IntervalTable, AllocError>
    requires { Keeps (empty_hull checked.now.client) hull.now }
    ensures inductive { IfOk result (IsInductive checked.now.client) }
    ensures held { (states : List AState) → AreSeen hull.now states → IfOk result (λ t. AreWithin (Intervals t) states) }
    ensures narrow { IfOk result (IsNarrowerThanClosed checked.now.client) }
{
    widened(alloc, checked, hull)
}

/// An inductive table of intervals for the states of a tree, as `intervals_of` makes it of a hull of them all. It takes memory for
/// the table, and for one state at a time.
///
/// Errors: where a growth was refused.
pub fn build_intervals(
    alloc: Global,
    checked: &Checked,
    cert: &Cert,
) -> Result<IntervalTable, AllocError>
    ensures inductive { IfOk result (IsInductive checked.now.client) }
    ensures held { IfOk result (λ t. AreWithin (Intervals t) (tree_states (tree_of cert.now))) }
    ensures narrow { IfOk result (IsNarrowerThanClosed checked.now.client) }
{
    let mut hull = Hull::empty(alloc, checked)?;
    take_tree(&mut hull, cert)?;
    intervals_of(alloc, checked, &hull)
}
