//! The cells that an instruction itself accesses.

ghost use Rattle.std.specs.Prelude.{◌≡◌, option_to_list};
ghost use Rattle.tso_cells.specs.Columns.{own_cells};

use crate::interval::Interval;
use crate::own::{own_reads, own_writes};
use crate::table::Cells;
use tso_prog::{Array, Step};

/// A read or a write.
#[derive(Clone, Copy, PartialEq, Eq)]
pub enum Access {
    Read,
    Write,
}

/// What the instruction itself reads, or writes, where registers lie in these intervals.
pub fn own_cells(
    access: Access,
    arrays: &[Array],
    registers: &[Interval; 15],
    step: Step,
) -> Option<Cells>
    ensures { option_to_list result ≡ own_cells access arrays.now registers.now step }
{
    match access {
        Access::Read => own_reads(arrays, registers, step),
        Access::Write => own_writes(arrays, registers, step),
    }
}
