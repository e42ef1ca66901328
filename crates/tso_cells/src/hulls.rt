//! Hulls of the words that were seen.

ghost use Rattle.std.specs.Prelude.{◌≡◌, List, IfOk, IsTrue, Some, slice_get, slice_set};
ghost use Rattle.tso_cells.specs.Intervals.{lie_in};
ghost use Rattle.tso_flow.specs.declared.location.ProcedureKind.{ProcedureKind as AProcedureKind};
ghost use Rattle.tso_cells.specs.declared.interval.Interval.{Interval as AnInterval};
ghost use Rattle.tso_cells.specs.Hulls.{KeepsWords, empty_hull, empty_rows, row_at, rows_of, taken_in, with_words};

use crate::growing::{EMPTY, with_word};
use crate::interval::Interval;
use crate::rows::Row;
use std::alloc::{AllocError, Global};
use tso_flow::{Checked, ProcedureKind};
use tso_list::Seq;

/// For each position of each procedure the least intervals that have the words which were seen in its registers there. An
/// interval with its first word above its last stands for "nothing was seen". Any rows may stand in a hull.
#[derive(Drop)]
pub struct Hull {
    /// In the order of registers.
    pub push: Seq<[Interval; 15]>,
    pub pop: Seq<[Interval; 15]>,
}

// Rows of so many positions at which nothing was seen.
fn empty_rows(alloc: Global, count: usize) -> Result<Seq<Row>, AllocError>
    ensures { IfOk result (λ rows. rows ≡ empty_rows count) }
{
    let mut rows = Vec::new(alloc);
    for _position in 0..count {
        rows.push([EMPTY; 15])?;
    }
    Ok(Seq::from_vec(rows))
}

// The row with one word more for each register.
fn with_words(row: &Row, words: &[u64; 15]) -> Row
    ensures is { result ≡ with_words row.now words.now }
    ensures lie { IsTrue (lie_in result words.now) }
{
    let mut after = *row;
    for k in 0..15 {
        after[k] = with_word(after[k], words[k]);
    }
    after
}

// The same for the row at a position, if there is such a one.
fn take_words(rows: &mut Seq<Row>, position: usize, words: &[u64; 15])
    ensures is { rows.new ≡ slice_set rows.old position (with_words (row_at rows.old position) words.now) }
    ensures lie { (row : List AnInterval) → slice_get rows.new position ≡ Some row → IsTrue (lie_in row words.now) }
{
    if position < rows.len() {
        let row = with_words(&rows.as_slice()[position], words);
        *rows.at_mut(position) = row;
    }
}

impl Hull {
    /// A hull in which nothing was seen, with a row for each instruction.
    pub fn empty(alloc: Global, checked: &Checked) -> Result<Hull, AllocError>
        ensures { IfOk result (λ hull. hull ≡ empty_hull checked.now.client) }
    {
        let push = empty_rows(alloc, checked.client.push.instructions.len())?;
        let pop = empty_rows(alloc, checked.client.pop.instructions.len())?;
        Ok(Hull { push, pop })
    }

    /// The words of the registers were seen at this position: each interval there grows to have its register's. Behind the
    /// last position nothing changes.
    pub fn take_in(&mut self, procedure: ProcedureKind, position: usize, registers: &[u64; 15])
        ensures is { self.new ≡ taken_in self.old procedure position registers.now }
        ensures lie { (row : List AnInterval) → slice_get (rows_of self.new procedure) position ≡ Some row → IsTrue (lie_in row registers.now) }
        ensures keeps { (kind : AProcedureKind) → KeepsWords (rows_of self.old kind) (rows_of self.new kind) }
    {
        match procedure {
            ProcedureKind::Push => take_words(&mut self.push, position, registers),
            ProcedureKind::Pop => take_words(&mut self.pop, position, registers),
        }
    }
}
