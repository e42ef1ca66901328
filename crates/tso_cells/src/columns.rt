//! For each array the spans of all instructions.

ghost use Rattle.std.specs.Prelude.{◌≡◌, IfOk, length, option_to_list};
ghost use Rattle.tso_cells.specs.Columns.{AreColumns, AreOwnSpans, IsColumn, own_span, whole_of};
ghost use Rattle.tso_cells.specs.Spans.{IsSmall};

use crate::access::{Access, own_cells};
use crate::growing::EMPTY;
use crate::interval::Interval;
use crate::rows::Row;
use crate::spans::settle_spans;
use crate::table::Cells;
use std::alloc::{AllocError, Global};
use tso_list::Seq;
use tso_prog::{Array, Step};

// All cells of an array.
fn whole_of(arrays: &[Array], array: usize) -> Interval
    ensures is { result ≡ whole_of arrays.now array }
    ensures small { IsSmall result }
{
    if array < arrays.len() && !arrays[array].words.is_empty() {
        Interval {
            lo: 0,
            hi: arrays[array].words.len() as u64 - 1,
        }
    } else {
        EMPTY
    }
}

// The span of these cells, if they are of the array.
fn own_span(own: Option<Cells>, array: usize) -> Interval
    ensures { result ≡ own_span (option_to_list own) array }
{
    match own {
        Some(cells) if cells.array == array => Interval {
            lo: cells.lo as u64,
            hi: cells.hi as u64,
        },
        _ => EMPTY,
    }
}

// The spans of the instructions' own cells.
fn own_spans(
    alloc: Global,
    access: Access,
    arrays: &[Array],
    steps: &[Step],
    rows: &[Row],
    array: usize,
) -> Result<Vec<Interval>, AllocError>
    requires { length rows.now ≡ length steps.now }
    ensures { IfOk result (λ spans. AreOwnSpans access arrays.now steps.now rows.now array spans.items) }
{
    let mut spans = Vec::new(alloc);
    for i in 0..steps.len() {
        let own = own_cells(access, arrays, &rows[i], steps[i]);
        spans.push(own_span(own, array))?;
    }
    Ok(spans)
}

// The spans of an array.
fn column(
    alloc: Global,
    access: Access,
    arrays: &[Array],
    steps: &[Step],
    rows: &[Row],
    array: usize,
) -> Result<Seq<Interval>, AllocError>
    requires { length rows.now ≡ length steps.now }
    ensures { IfOk result (IsColumn access arrays.now steps.now rows.now array) }
{
    let mut spans = own_spans(alloc, access, arrays, steps, rows, array)?;
    settle_spans(whole_of(arrays, array), steps, spans.as_mut_slice());
    Ok(Seq::from_vec(spans))
}

/// The spans of each array.
pub fn columns(
    alloc: Global,
    access: Access,
    arrays: &[Array],
    steps: &[Step],
    rows: &[Row],
) -> Result<Vec<Seq<Interval>>, AllocError>
    requires { length rows.now ≡ length steps.now }
    ensures { IfOk result (λ columns. AreColumns access arrays.now steps.now rows.now columns.items) }
{
    let mut columns = Vec::new(alloc);
    for array in 0..arrays.len() {
        columns.push(column(alloc, access, arrays, steps, rows, array)?)?;
    }
    Ok(columns)
}
