//! Histories by the rows of their lists of calls.
ghost use Rattle.std.specs.Prelude.{◌≡◌, ◌≤◌, IfOk, IfSome, List};
ghost use Rattle.tso_hist.specs.declared.call.Call.{Call as CallValue};
ghost use Rattle.tso_scan.specs.Sources.{AreRows, IsHistoryFound, IsHistoryReadAs};
ghost use Rattle.tso_keys.specs.Numbers.{AreNumbersOf, values_at};

use crate::rows::{Row, read_row};
use crate::scroll::Scroll;
use std::alloc::{AllocError, Global};
use tso_hist::{Call, History};
use tso_list::Seq;
use tso_parts::{Catalog, Pool, Refused};
use tso_rec::copy_of;

// The lists with these numbers.
fn copied_lists(
    alloc: Global,
    lists: &Scroll<Seq<Call>>,
    numbers: &[u32],
) -> Result<Seq<Seq<Call>>, AllocError>
    ensures { IfOk result (λ ls. ls ≡ values_at lists.now numbers.now) }
{
    let mut copies = Seq::new(alloc);
    for number in numbers {
        match lists.get(*number) {
            Some(list) => copies.push(copy_of(list)?)?,
            None => return Ok(copies),
        }
    }
    Ok(copies)
}

// The number of the history of a row that is new, which is kept. `None` where histories and rows have come apart.
fn add_history(
    lists: &Scroll<Seq<Call>>,
    histories: &mut Catalog<History>,
    rows: &mut Pool<Row>,
    alloc: Global,
    row: Row,
) -> Result<Option<u32>, Refused>
    requires rows { AreRows lists.now histories.old rows.old }
    requires there { (h : List (List CallValue)) × AreNumbersOf lists.now row.numbers h }
    ensures { IfOk result (λ o. IfSome o (IsHistoryFound lists.now histories.old histories.new rows.new row)) }
{
    lists.is_numbered();
    let copies = copied_lists(alloc, lists, row.numbers.as_slice())?;
    let (number, _) = histories.add(History::from_threads(copies))?;
    if number as usize != rows.len() {
        return Ok(None);
    }
    rows.add(row)?;
    Ok(Some(number))
}

// The number of the history of a row, which is kept if it is new.
fn history_of(
    lists: &Scroll<Seq<Call>>,
    histories: &mut Catalog<History>,
    rows: &mut Pool<Row>,
    alloc: Global,
    row: Row,
) -> Result<Option<u32>, Refused>
    requires rows { AreRows lists.now histories.old rows.old }
    requires there { (h : List (List CallValue)) × AreNumbersOf lists.now row.numbers h }
    ensures { IfOk result (λ o. IfSome o (IsHistoryFound lists.now histories.old histories.new rows.new row)) }
{
    match rows.find(&row) {
        Some(number) => Ok(Some(number)),
        None => add_history(lists, histories, rows, alloc, row),
    }
}

/// The number of the history of so many lists at the front of the bytes, and the bytes after it; it is kept if it is new. `None`
/// where there is no such history.
///
/// Errors: where a growth was refused, or there are as many parts as numbers.
pub fn read_history<'a>(
    lists: &mut Scroll<Seq<Call>>,
    histories: &mut Catalog<History>,
    rows: &mut Pool<Row>,
    alloc: Global,
    count: usize,
    bytes: &'a [u8],
) -> Result<Option<(u32, &'a [u8])>, Refused>
    requires few { count ≤ 5 }
    requires rows { AreRows lists.old histories.old rows.old }
    ensures { IfOk result (λ o. IfSome o (λ x. IsHistoryReadAs lists.new histories.old histories.new rows.new count x.0 bytes.now x.1.now)) }
{
    let Some((row, rest)) = read_row(lists, alloc, count, bytes)? else {
        return Ok(None);
    };
    lists.is_numbered();
    match history_of(lists, histories, rows, alloc, row)? {
        Some(number) => Ok(Some((number, rest))),
        None => Ok(None),
    }
}
