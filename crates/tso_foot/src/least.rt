//! The least closed table.

ghost use Rattle.std.specs.Prelude.{◌≡◌, ◌<◌, ◌≤◌, ◌^◌, ℕ, List, IfOk, IsTrue, Some, false, true, length, slice_get, slice_set};
ghost use Rattle.tso_foot.specs.Closed.{IsBelowClosed, IsClosed, IsLeastClosed, IsListClosed};
ghost use Rattle.tso_foot.specs.Least.{AreJoined, IsGrowing, joined, masks_if, room};
ghost use Rattle.tso_foot.specs.Masks.{masks_at};
ghost use Rattle.tso_foot.specs.declared.masks.Masks.{Masks as AMasks};
ghost use Rattle.tso_prog.specs.Limits.{are_arrays_below, has_array_below};

use crate::masks::{Masks, own_masks};
use crate::table::{ArrayTable, Table};
use std::alloc::{AllocError, Global};
use tso_flow::{Checked, jump_target, next_position};
use tso_list::Seq;
use tso_prog::Step;

// The item at a position; none where there is no such position, or no item.
fn masks_if(items: &[Masks], position: Option<usize>) -> Masks
    ensures { result ≡ masks_if items.now position }
{
    match position {
        Some(j) if j < items.len() => items[j],
        _ => Masks::NONE,
    }
}

// The item of the instruction at `i` with its own accesses and the items of its successors.
fn joined(arrays: usize, items: &[Masks], i: usize, step: Step) -> Masks
    requires few { arrays ≤ 16 }
    requires below { IsTrue (has_array_below arrays step) }
    requires inside { i < length items.now }
    ensures is { result ≡ joined items.now i step }
    ensures small { (result.reads < 2 ^ 16) × (result.writes < 2 ^ 16) }
{
    items[i]
        .union(own_masks(arrays, step))
        .union(masks_if(items, next_position(step, i)))
        .union(masks_if(items, jump_target(step)))
}

// Joins one item, and says whether it grew.
fn grow(arrays: usize, items: &mut [Masks], i: usize, step: Step) -> bool
    requires few { arrays ≤ 16 }
    requires below { IsTrue (has_array_below arrays step) }
    requires inside { i < length items.old }
    ensures set { items.new ≡ slice_set items.old i (joined items.old i step) }
    ensures same { result ≡ false → joined items.old i step ≡ masks_at items.old i }
    ensures new { result ≡ true → room items.new < room items.old }
{
    let item = joined(arrays, items, i, step);
    let is_new = item != items[i];
    items[i] = item;
    is_new
}

// Joins each item once, and says whether one grew.
fn spread(arrays: usize, steps: &[Step], items: &mut [Masks]) -> bool
    requires few { arrays ≤ 16 }
    requires below { IsTrue (are_arrays_below arrays steps.now) }
    requires growing { IsGrowing arrays steps.now items.old }
    ensures growing { IsGrowing arrays steps.now items.new }
    ensures new { result ≡ true → room items.new < room items.old }
    ensures joined { result ≡ false → AreJoined steps.now items.new (length steps.now) }
{
    let mut is_grown = false;
    for i in 0..steps.len() {
        let step = steps[i];
        if grow(arrays, items, i, step) {
            is_grown = true;
        }
    }
    is_grown
}

// The least closed items of a procedure.
fn least_items(alloc: Global, arrays: usize, steps: &[Step]) -> Result<Seq<Masks>, AllocError>
    requires few { arrays ≤ 16 }
    requires below { IsTrue (are_arrays_below arrays steps.now) }
    ensures closed { IfOk result (IsListClosed arrays steps.now) }
    ensures least { IfOk result (IsBelowClosed arrays steps.now) }
{
    let mut items = vec![in alloc; Masks::NONE; steps.len()]?;
    'grow: loop {
        if !spread(arrays, steps, &mut items) {
            break;
        }
    }
    Ok(Seq::from_vec(items))
}

/// The least closed table of a client by arrays: each item has what its instruction itself reads and writes and the items of
/// its successors, and no closed table of arrays has less.
pub fn build(alloc: Global, checked: &Checked) -> Result<Table, AllocError>
    ensures closed { IfOk result (IsClosed checked.now.client) }
    ensures least { IfOk result (IsLeastClosed checked.now.client) }
{
    let client = &checked.client;
    let arrays = client.arrays.len();
    let push = least_items(alloc, arrays, client.push.instructions.as_slice())?;
    let pop = least_items(alloc, arrays, client.pop.instructions.as_slice())?;
    Ok(Table::Arrays(ArrayTable { push, pop }))
}
