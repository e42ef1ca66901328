//! Inductive tables that hold given intervals.

ghost use Rattle.std.specs.Prelude.{IfOk, IsTrue};
ghost use Rattle.tso_cells.specs.Inductive.{IsInductive};
ghost use Rattle.tso_prog.specs.Limits.{are_in_range};
ghost use Rattle.tso_cells.specs.Widened.{AreWidened, Holds, NamesOnlyNeeded};

use crate::access::Access;
use crate::arguments::{argument_interval, entry_row};
use crate::assembling::assembled;
use crate::columns::columns;
use crate::hulls::Hull;
use crate::interval::Interval;
use crate::rows::{Row, settled_rows};
use crate::table::{IntervalTable, Item};
use std::alloc::{AllocError, Global};
use tso_flow::Checked;
use tso_list::Seq;
use tso_prog::{Array, Step};

// Items of a procedure that hold given intervals, and at the first instruction another row.
fn widened_items(
    alloc: Global,
    arrays: &[Array],
    steps: &[Step],
    given: &[Row],
    entry: &Row,
) -> Result<Seq<Item>, AllocError>
    requires { IsTrue (are_in_range steps.now) }
    ensures { IfOk result (AreWidened arrays.now steps.now given.now entry.now) }
{
    let rows = settled_rows(alloc, steps, given, entry)?;
    let reads = columns(alloc, Access::Read, arrays, steps, rows.as_slice())?;
    let writes = columns(alloc, Access::Write, arrays, steps, rows.as_slice())?;
    assembled(alloc, rows.as_slice(), reads.as_slice(), writes.as_slice())
}

/// An inductive table whose intervals hold those that are given. Intervals grow to no more than what comes to them in the
/// first rounds, and to all words where more comes later; cells likewise. Where no control comes, registers may have any word.
pub fn widened(alloc: Global, checked: &Checked, hull: &Hull) -> Result<IntervalTable, AllocError>
    ensures inductive { IfOk result (IsInductive checked.now.client) }
    ensures held { IfOk result (λ t. Holds t hull.now) }
    ensures needed { IfOk result (NamesOnlyNeeded checked.now.client) }
{
    let client = &checked.client;
    let arrays = client.arrays.as_slice();
    let push_entry = entry_row(argument_interval(client));
    let pop_entry = entry_row(Interval::alone(0));
    let push = widened_items(
        alloc,
        arrays,
        client.push.instructions.as_slice(),
        hull.push.as_slice(),
        &push_entry,
    )?;
    let pop = widened_items(
        alloc,
        arrays,
        client.pop.instructions.as_slice(),
        hull.pop.as_slice(),
        &pop_entry,
    )?;
    Ok(IntervalTable { push, pop })
}
