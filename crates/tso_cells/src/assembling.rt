//! Items of rows and columns.

ghost use Rattle.std.specs.Prelude.{◌≡◌, IfOk};
ghost use Rattle.tso_cells.specs.Columns.{AreAssembled, cells_from};

use crate::interval::Interval;
use crate::rows::Row;
use crate::spans::span_if;
use crate::table::{Cells, Item};
use std::alloc::{AllocError, Global};
use tso_list::Seq;

// The cells of the columns at a position, in the order of arrays.
fn cells_at(alloc: Global, columns: &[Seq<Interval>], i: usize) -> Result<Seq<Cells>, AllocError>
    ensures { IfOk result (λ cells. cells ≡ cells_from 0 columns.now i) }
{
    let mut cells = Vec::new(alloc);
    for array in 0..columns.len() {
        let span = span_if(columns[array].as_slice(), Some(i));
        if span.lo <= span.hi {
            cells.push(Cells {
                array,
                lo: span.lo as usize,
                hi: span.hi as usize,
            })?;
        }
    }
    Ok(Seq::from_vec(cells))
}

/// An item for each row, with the cells of the columns at its position.
pub fn assembled(
    alloc: Global,
    rows: &[Row],
    reads: &[Seq<Interval>],
    writes: &[Seq<Interval>],
) -> Result<Seq<Item>, AllocError>
    ensures { IfOk result (AreAssembled rows.now reads.now writes.now) }
{
    let mut items = Vec::new(alloc);
    for i in 0..rows.len() {
        let reads = cells_at(alloc, reads, i)?;
        let writes = cells_at(alloc, writes, i)?;
        items.push(Item {
            registers: rows[i],
            reads,
            writes,
        })?;
    }
    Ok(Seq::from_vec(items))
}
