//! Tables of footprints.

use crate::masks::Masks;
use tso_cells::IntervalTable;
use tso_list::Seq;

/// For each instruction of each procedure, the arrays that may still be read and written from there until the call ends.
/// A table may be made of any items.
#[derive(PartialEq, Eq, Drop)]
pub struct ArrayTable {
    pub push: Seq<Masks>,
    pub pop: Seq<Masks>,
}

/// What may still be read and written from each instruction until its call ends: by arrays, as certificates of version 1 say it,
/// or by cells, with the intervals in which registers lie, as those of version 2 do.
#[derive(PartialEq, Eq, Drop)]
pub enum Table {
    Arrays(ArrayTable),
    Intervals(IntervalTable),
}
