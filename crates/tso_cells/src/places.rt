//! Places of memory among cells, and frames whose registers lie in a table's intervals.

ghost use Rattle.std.specs.Prelude.{◌≡◌, ◌+◌, ◌<◌, length, MatchOption};
ghost use Rattle.tso_cells.specs.Cells.{has_cell, is_cell};
ghost use Rattle.tso_cells.specs.Inductive.{registers_at};
ghost use Rattle.tso_cells.specs.Laws.{lies};
ghost use Rattle.tso_cells.specs.Intervals.{lie_in};
ghost use Rattle.tso_machine.specs.Activations.{activation};
ghost use Rattle.tso_machine.specs.Places.{first_place};

use crate::interval::Interval;
use crate::table::{Cells, IntervalTable, Item};
use tso_flow::ProcedureKind;
use tso_machine::Frame;
use tso_prog::Array;

// How far a place lies behind an array's first word, unless it lies before it.
fn index_in(arrays: &[Array], array: usize, place: usize) -> Option<usize>
    ensures { MatchOption result (place < first_place arrays.now array) (λ index. first_place arrays.now array + index ≡ place) }
{
    let before = &arrays[..array.min(arrays.len())];
    let mut left = place;
    for other in before {
        left = left.checked_sub(other.words.len())?;
    }
    Some(left)
}

// Whether a place of memory is one of these cells.
fn is_cell(arrays: &[Array], cells: Cells, place: usize) -> bool
    ensures { result ≡ is_cell arrays.now cells place }
{
    match index_in(arrays, cells.array, place) {
        Some(index) => cells.lo <= index && index <= cells.hi,
        None => false,
    }
}

/// Whether a place of memory is among the cells of a list.
pub fn has_cell(arrays: &[Array], cells: &[Cells], place: usize) -> bool
    ensures { result ≡ has_cell arrays.now cells.now place }
{
    cells.iter().any(|one| is_cell(arrays, *one, place))
}

// Whether each word is in the interval of its place.
fn lie_in(intervals: &[Interval], words: &[u64]) -> bool
    requires { length intervals.now ≡ length words.now }
    ensures { result ≡ lie_in intervals.now words.now }
{
    for n in 0..intervals.len() {
        let interval = intervals[n];
        if !interval.has(words[n]) {
            return false;
        }
    }
    true
}

// Whether each word is in the interval of its place at a position. Behind the last item all are.
fn lie_at(items: &[Item], position: usize, words: &[u64; 15]) -> bool
    ensures { result ≡ lie_in (registers_at items.now position) words.now }
{
    match items.get(position) {
        Some(item) => lie_in(&item.registers, words),
        None => true,
    }
}

/// Whether the registers of a frame of a procedure lie in the table's intervals at its position. Behind the last item all do.
pub fn lies(table: &IntervalTable, procedure: ProcedureKind, frame: &Frame) -> bool
    ensures { result ≡ lies table.now (activation procedure frame.now) }
{
    lie_at(table.items(procedure), frame.pc, &frame.registers)
}
