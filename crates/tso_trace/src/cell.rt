//! Cells of memory by array and index.

ghost use Rattle.std.specs.Prelude.{◌≡◌, ◌<◌, ◌≤◌, length, pos, sum_by, Some, IfSome, IfNone};
ghost use Rattle.tso_machine.specs.Places.{place_of};

use tso_prog::Array;

/// A word of an array.
#[derive(Clone, Copy, PartialEq, Eq)]
pub struct Cell {
    /// The number of the array in the list of arrays.
    pub array: usize,
    /// The position of the word in the array, from 0.
    pub index: usize,
}

/// The cell at a place of memory, if memory has so many words.
pub fn cell_of(arrays: &[Array], place: usize) -> Option<Cell>
    ensures array { IfSome result (λ cell. cell.array < length arrays.now) }
    ensures place { IfSome result (λ cell. place_of arrays.now cell.array (pos cell.index) ≡ Some place) }
    ensures none { IfNone result (sum_by (λ a. length a.words) arrays.now ≤ place) }
{
    let mut index = place;
    for (array, declared) in arrays.iter().enumerate() {
        let len = declared.words.len();
        if index < len {
            return Some(Cell { array, index });
        }
        index -= len;
    }
    None
}
