//! The test of a closed table.

ghost use Rattle.std.specs.Prelude.{◌≡◌, ◌<◌, ◌≤◌, ◌^◌, ◌↔◌, ℕ, IsTrue, length, slice_get, Some};
ghost use Rattle.tso_flow.specs.Paths.{is_at};
ghost use Rattle.tso_foot.specs.Closed.{IsArrayTableClosed, IsClosed, IsItem, IsListClosed};
ghost use Rattle.tso_foot.specs.Masks.{holds, masks_at};
ghost use Rattle.tso_prog.specs.Limits.{are_arrays_below, has_array_below};

use crate::masks::{Masks, own_masks};
use crate::table::{ArrayTable, Table};
use tso_cells::is_inductive;
use tso_flow::{Checked, jump_target, next_position};
use tso_prog::Step;

// Whether an item has no array past so many.
fn is_bounded(arrays: usize, item: Masks) -> bool
    requires { arrays ≤ 16 }
    ensures { IsTrue result ↔ (item.reads < 2 ^ arrays) × (item.writes < 2 ^ arrays) }
{
    u32::from(item.reads) < 1 << arrays && u32::from(item.writes) < 1 << arrays
}

// Whether an item has what the item at a position has, if there is such a one.
fn has_successor(items: &[Masks], item: Masks, position: Option<usize>) -> bool
    ensures { IsTrue result ↔ ((j : ℕ) → IsTrue (is_at position j) → j < length items.now → IsTrue (holds item (masks_at items.now j))) }
{
    match position {
        Some(j) if j < items.len() => item.holds(items[j]),
        _ => true,
    }
}

// Whether this is an item of the instruction at `i`.
#[tactic(auto, unfolding(tso_flow::specs::Paths::goes_on))]
fn is_item(arrays: usize, items: &[Masks], i: usize, step: Step, item: Masks) -> bool
    requires few { arrays ≤ 16 }
    requires below { IsTrue (has_array_below arrays step) }
    requires small { i < usize.MAX }
    ensures { IsTrue result ↔ IsItem arrays items.now i step item }
{
    is_bounded(arrays, item)
        && item.holds(own_masks(arrays, step))
        && has_successor(items, item, next_position(step, i))
        && has_successor(items, item, jump_target(step))
}

// Whether these are items of all instructions of a procedure.
fn is_list_closed(arrays: usize, steps: &[Step], items: &[Masks]) -> bool
    requires few { arrays ≤ 16 }
    requires below { IsTrue (are_arrays_below arrays steps.now) }
    ensures { IsTrue result ↔ IsListClosed arrays steps.now items.now }
{
    if items.len() != steps.len() {
        return false;
    }
    for i in 0..steps.len() {
        let step = steps[i];
        let item = items[i];
        if !is_item(arrays, items, i, step, item) {
            return false;
        }
    }
    true
}

// Whether a table of arrays has an item for each instruction, each with no array but the client's, with what the instruction
// itself reads and writes and with the items of its successors inside the procedure.
fn is_array_table_closed(checked: &Checked, table: &ArrayTable) -> bool
    ensures { IsTrue result ↔ IsArrayTableClosed checked.now.client table.now }
{
    let client = &checked.client;
    let arrays = client.arrays.len();
    is_list_closed(
        arrays,
        client.push.instructions.as_slice(),
        table.push.as_slice(),
    ) && is_list_closed(
        arrays,
        client.pop.instructions.as_slice(),
        table.pop.as_slice(),
    )
}

/// Whether the table is closed for the client: it has an item for each instruction, with what the instruction itself reads and
/// writes and with the items of its successors inside the procedure. One of arrays has no array but the client's; one of
/// intervals is inductive, as `is_inductive` says. It takes no memory.
pub fn is_closed(checked: &Checked, table: &Table) -> bool
    ensures { IsTrue result ↔ IsClosed checked.now.client table.now }
{
    match table {
        Table::Arrays(table) => is_array_table_closed(checked, table),
        Table::Intervals(table) => is_inductive(checked, table),
    }
}
