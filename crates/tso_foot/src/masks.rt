//! Sets of arrays as masks.

ghost use Rattle.std.specs.Prelude.{◌≡◌, ◌<◌, ◌≤◌, ◌^◌, IsTrue, IfSome, length};
ghost use Rattle.tso_foot.specs.Masks.{array_mask, array_of, has_place, has_some, holds, no_masks, own_masks, union};
ghost use Rattle.tso_prog.specs.Limits.{has_array_below};

use tso_line::Instruction;
use tso_prog::{Array, Step};

/// Arrays that may be read and arrays that may be written: bit k stands for array k.
#[derive(Clone, Copy, PartialEq, Eq, PartialOrd, Ord, Hash)]
pub struct Masks {
    pub reads: u16,
    pub writes: u16,
}

impl Masks {
    /// No array.
    pub const NONE: Masks = Masks {
        reads: 0,
        writes: 0,
    };

    /// The arrays of both.
    pub fn union(self, other: Masks) -> Masks
        ensures { result ≡ union self other }
    {
        Masks {
            reads: self.reads | other.reads,
            writes: self.writes | other.writes,
        }
    }

    /// Whether both masks have each array of the other's.
    pub fn holds(self, other: Masks) -> bool
        ensures { result ≡ holds self other }
    {
        self.union(other) == self
    }
}

/// The mask of one array.
pub fn array_mask(array: usize) -> u16
    requires { array < 16 }
    ensures { result ≡ 2 ^ array }
{
    1 << array
}

/// The arrays that an instruction itself reads and writes; a locked one does both.
pub fn own_masks(arrays: usize, step: Step) -> Masks
    requires few { arrays ≤ 16 }
    requires below { IsTrue (has_array_below arrays step) }
    ensures { result ≡ own_masks step }
{
    match step {
        Instruction::Load { from, .. } => Masks {
            reads: array_mask(from.array),
            writes: 0,
        },
        Instruction::Store { to, .. } => Masks {
            reads: 0,
            writes: array_mask(to.array),
        },
        Instruction::Locked { cell, .. } => Masks {
            reads: array_mask(cell.array),
            writes: array_mask(cell.array),
        },
        _ => Masks::NONE,
    }
}

/// The number of the array that has this place of memory, if one has.
pub fn array_of(arrays: &[Array], place: usize) -> Option<usize>
    ensures is { result ≡ array_of arrays.now place }
    ensures there { IfSome result (λ k. k < length arrays.now) }
{
    let mut left = place;
    for (number, array) in arrays.iter().enumerate() {
        if left < array.words.len() {
            return Some(number);
        }
        left -= array.words.len();
    }
    None
}

/// The mask of the array that has this place of memory; none where none has.
pub fn place_mask(arrays: &[Array], place: usize) -> u16
    requires { length arrays.now ≤ 16 }
    ensures { result ≡ array_mask (array_of arrays.now place) }
{
    match array_of(arrays, place) {
        Some(array) => array_mask(array),
        None => 0,
    }
}

// Whether a mask has this array, if there is one.
fn has_some(mask: u16, array: Option<usize>) -> bool
    ensures { result ≡ has_some mask array }
{
    match array {
        Some(k) => k < 16 && mask >> k & 1 == 1,
        None => false,
    }
}

/// Whether a mask has the array of this place of memory; a place of no array is in no mask. It takes no memory.
pub fn has_place(arrays: &[Array], mask: u16, place: usize) -> bool
    ensures { result ≡ has_place arrays.now mask place }
{
    has_some(mask, array_of(arrays, place))
}
