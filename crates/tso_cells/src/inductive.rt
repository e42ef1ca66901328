//! The test of an inductive table.

ghost use Rattle.std.specs.Prelude.{◌≡◌, ◌<◌, ◌↔◌, ℕ, All, IsTrue, length, slice_get, Some};
ghost use Rattle.tso_cells.specs.Inductive.{AreInside, Foresees, HandsOn, HasOwn, HasSuccessors, IsInductive, IsInterval, IsListInductive, IsProper};
ghost use Rattle.tso_cells.specs.declared.table.Item.{Item};
ghost use Rattle.tso_flow.specs.Paths.{is_at};

use crate::interval::Interval;
use crate::lists::{are_cells, holds_all};
use crate::moving::moved;
use crate::own::{own_reads, own_writes};
use crate::starts::are_starts;
use crate::table::{IntervalTable, Item};
use tso_flow::{Checked, jump_target, next_position};
use tso_prog::{Array, Step};

// Whether the least word of an interval is at most its greatest.
fn is_interval(interval: Interval) -> bool
    ensures { IsTrue result ↔ IsInterval interval }
{
    interval.lo <= interval.hi
}

fn are_intervals(intervals: &[Interval]) -> bool
    ensures { IsTrue result ↔ All IsInterval intervals.now }
{
    intervals.iter().all(|interval| is_interval(*interval))
}

// Whether each interval lies in that of its place.
fn are_inside(intervals: &[Interval], others: &[Interval]) -> bool
    requires { length intervals.now ≡ length others.now }
    ensures { IsTrue result ↔ AreInside intervals.now others.now }
{
    for n in 0..intervals.len() {
        let interval = intervals[n];
        let other = others[n];
        if !interval.is_inside(other) {
            return false;
        }
    }
    true
}

// Whether an item by itself has intervals, and lists of cells.
fn is_proper(arrays: &[Array], item: &Item) -> bool
    ensures { IsTrue result ↔ IsProper arrays.now item.now }
{
    are_intervals(&item.registers)
        && are_cells(arrays, item.reads.as_slice())
        && are_cells(arrays, item.writes.as_slice())
}

fn are_proper(arrays: &[Array], items: &[Item]) -> bool
    ensures { IsTrue result ↔ All (IsProper arrays.now) items.now }
{
    items.iter().all(|item| is_proper(arrays, item))
}

// Whether these intervals lie in those of a successor's item, and an item's lists have the cells of the successor's.
fn hands_on(after: &[Interval; 15], item: &Item, next: &Item) -> bool
    ensures { IsTrue result ↔ HandsOn after.now item.now next.now }
{
    are_inside(after, &next.registers)
        && holds_all(item.reads.as_slice(), next.reads.as_slice())
        && holds_all(item.writes.as_slice(), next.writes.as_slice())
}

// The same of the item at a position, if there is such a one.
fn hands_on_to(items: &[Item], after: &[Interval; 15], item: &Item, position: Option<usize>) -> bool
    ensures { IsTrue result ↔ ((j : ℕ) (next : Item) → IsTrue (is_at position j) → slice_get items.now j ≡ Some next → HandsOn after.now item.now next) }
{
    let Some(j) = position else {
        return true;
    };
    if j >= items.len() {
        return true;
    }
    hands_on(after, item, &items[j])
}

// Whether the lists of an item have the cells that the instruction itself accesses.
fn has_own(arrays: &[Array], step: Step, item: &Item) -> bool
    ensures { IsTrue result ↔ HasOwn arrays.now step item.now }
{
    let reads = own_reads(arrays, &item.registers, step);
    let writes = own_writes(arrays, &item.registers, step);
    holds_all(item.reads.as_slice(), reads.as_slice())
        && holds_all(item.writes.as_slice(), writes.as_slice())
}

// Whether the item of the instruction at `i` hands on what its successors ask for: the next instruction, and the target of a jump.
fn has_successors(items: &[Item], i: usize, step: Step, item: &Item) -> bool
    requires { i < usize.MAX }
    ensures { IsTrue result ↔ HasSuccessors items.now i step item.now }
{
    let after = moved(&item.registers, &step);
    hands_on_to(items, &after, item, next_position(step, i))
        && hands_on_to(items, &after, item, jump_target(step))
}

// Whether the item of the instruction at `i` foresees what the instruction itself accesses, and what may follow.
fn foresees(arrays: &[Array], items: &[Item], i: usize, step: Step, item: &Item) -> bool
    requires { i < usize.MAX }
    ensures { IsTrue result ↔ Foresees arrays.now items.now i step item.now }
{
    has_own(arrays, step, item) && has_successors(items, i, step, item)
}

// Whether these are items of all instructions of a procedure. Each list of cells is looked at by itself before any two are compared:
// then it has at most one item for each array.
fn is_list_inductive(arrays: &[Array], steps: &[Step], items: &[Item]) -> bool
    ensures { IsTrue result ↔ IsListInductive arrays.now steps.now items.now }
{
    if items.len() != steps.len() {
        return false;
    }
    if !are_proper(arrays, items) {
        return false;
    }
    for i in 0..steps.len() {
        let step = steps[i];
        if !foresees(arrays, items, i, step, &items[i]) {
            return false;
        }
    }
    true
}

/// Whether the table is inductive: for each instruction it has an item, whose intervals, once the instruction has moved them, lie in
/// those of its successors, and whose lists have the instruction's own cells and those of its successors; the first intervals
/// have what the client's calls begin with. It takes no memory, and a time in proportion to the table's size.
pub fn is_inductive(checked: &Checked, table: &IntervalTable) -> bool
    ensures { IsTrue result ↔ IsInductive checked.now.client table.now }
{
    let client = &checked.client;
    let arrays = client.arrays.as_slice();
    is_list_inductive(
        arrays,
        client.push.instructions.as_slice(),
        table.push.as_slice(),
    ) && is_list_inductive(
        arrays,
        client.pop.instructions.as_slice(),
        table.pop.as_slice(),
    ) && are_starts(client, table)
}
