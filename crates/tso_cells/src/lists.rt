//! Lists of cells.

ghost use Rattle.std.specs.Prelude.{◌≡◌, ◌↔◌, All, IsTrue, slice_get};
ghost use Rattle.tso_cells.specs.Cells.{holds, holds_all, size_of};
ghost use Rattle.tso_cells.specs.Inductive.{AreCells, AreRising, IsInArray};

use crate::table::Cells;
use tso_prog::Array;

// How many words an array has, and 0 where there is none with this number.
pub(crate) fn array_len(arrays: &[Array], array: usize) -> usize
    ensures { result ≡ size_of (slice_get arrays.now array) }
{
    match arrays.get(array) {
        Some(array) => array.words.len(),
        None => 0,
    }
}

// Whether there are cells, and they lie inside their array.
fn is_in_array(arrays: &[Array], cells: Cells) -> bool
    ensures { IsTrue result ↔ IsInArray arrays.now cells }
{
    cells.lo <= cells.hi && cells.hi < array_len(arrays, cells.array)
}

fn are_in_arrays(arrays: &[Array], list: &[Cells]) -> bool
    ensures { IsTrue result ↔ All (IsInArray arrays.now) list.now }
{
    list.iter().all(|cells| is_in_array(arrays, *cells))
}

// Whether arrays rise strictly from one to the next.
fn are_rising(list: &[Cells]) -> bool
    ensures { IsTrue result ↔ AreRising list.now }
{
    for n in 1..list.len() {
        if list[n - 1].array >= list[n].array {
            return false;
        }
    }
    true
}

/// Whether arrays rise strictly from one to the next, and the cells of each lie inside it. Such a list is no longer than that of
/// arrays.
pub fn are_cells(arrays: &[Array], list: &[Cells]) -> bool
    ensures { IsTrue result ↔ AreCells arrays.now list.now }
{
    are_rising(list) && are_in_arrays(arrays, list)
}

/// Whether one of the list has all these cells.
pub fn holds(list: &[Cells], cells: Cells) -> bool
    ensures { result ≡ holds list.now cells }
{
    list.iter().any(|one| one.has_all_of(cells))
}

/// Whether each of the others has its cells in one of the list. It takes a time in proportion to the product of both lengths.
pub fn holds_all(list: &[Cells], others: &[Cells]) -> bool
    ensures { result ≡ holds_all list.now others.now }
{
    others.iter().all(|cells| holds(list, *cells))
}
