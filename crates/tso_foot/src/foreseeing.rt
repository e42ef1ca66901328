//! What a thread of a state may still read and write.

ghost use Rattle.tso_foot.specs.Ahead.{IsFuture};
ghost use Rattle.tso_foot.specs.declared.table.Table.TheVariants.{Intervals};

use crate::ahead::{ArraysAhead, CellsAhead, Future};
use crate::footprint::{array_future, calls_left};
use crate::table::Table;
use tso_cells::IntervalTable;
use tso_flow::Checked;
use tso_state::Viewed;

// By cells.
fn cells_ahead<'a, S: Viewed>(
    checked: &'a Checked,
    table: &'a IntervalTable,
    state: &'a S,
    number: usize,
) -> Future<'a>
    ensures { IsFuture checked.now.client (Intervals table.now) (S.state state.now) number result }
{
    let client = &checked.client;
    match state.thread(number) {
        Some(thread) => Future::Cells(CellsAhead {
            arrays: client.arrays.as_slice(),
            table,
            procedure: state.procedure(number),
            calls: calls_left(client, number, state.begun(number)),
            thread,
        }),
        None => Future::Nothing,
    }
}

/// What a thread of the state may still read and write, from the position of its running call on, in its calls to come, and,
/// written, what is in its buffer; of a stopped or finished thread what is in its buffer alone. A table of arrays says it by the
/// arrays of all these, and one of intervals by cells, where registers lie in its intervals. It takes no memory.
pub fn future<'a, S: Viewed>(
    checked: &'a Checked,
    table: &'a Table,
    state: &'a S,
    number: usize,
) -> Future<'a>
    ensures { IsFuture checked.now.client table.now (S.state state.now) number result }
{
    match table {
        Table::Arrays(table) => Future::Arrays(ArraysAhead {
            arrays: checked.client.arrays.as_slice(),
            masks: array_future(checked, table, state, number),
        }),
        Table::Intervals(table) => cells_ahead(checked, table, state, number),
    }
}
