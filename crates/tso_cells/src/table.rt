//! Tables of intervals.

ghost use Rattle.std.specs.Prelude.{◌≡◌};
ghost use Rattle.tso_cells.specs.Cells.{has_all_of};
ghost use Rattle.tso_cells.specs.Inductive.{items_of};

use crate::interval::Interval;
use tso_flow::ProcedureKind;
use tso_list::Seq;

/// Cells of an array, from one index to another, both of them with it.
#[derive(Clone, Copy, PartialEq, Eq)]
pub struct Cells {
    /// The number of the array.
    pub array: usize,
    pub lo: usize,
    pub hi: usize,
}

impl Cells {
    /// Whether it has all cells of another: both are of one array, and the other's ends are between its own.
    pub fn has_all_of(self, other: Cells) -> bool
        ensures { result ≡ has_all_of self other }
    {
        self.array == other.array && self.lo <= other.lo && other.hi <= self.hi
    }
}

/// What is known of a call at an instruction: where its registers lie, and which cells it may still read and write.
#[derive(PartialEq, Eq, Drop)]
pub struct Item {
    /// In the order of registers.
    pub registers: [Interval; 15],
    pub reads: Seq<Cells>,
    pub writes: Seq<Cells>,
}

/// An item for each instruction of each procedure. A table may be made of any items.
#[derive(PartialEq, Eq, Drop)]
pub struct IntervalTable {
    pub push: Seq<Item>,
    pub pop: Seq<Item>,
}

impl IntervalTable {
    /// The items of a procedure, in the order of its instructions.
    pub fn items(&self, procedure: ProcedureKind) -> &[Item]
        ensures { result.now ≡ items_of self.now procedure }
    {
        match procedure {
            ProcedureKind::Push => self.push.as_slice(),
            ProcedureKind::Pop => self.pop.as_slice(),
        }
    }
}
