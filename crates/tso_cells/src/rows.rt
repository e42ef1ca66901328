//! Where registers lie: from what was seen and from what calls begin with, until each instruction's row holds what comes to it.

ghost use Rattle.std.specs.Prelude.{◌≡◌, ◌<◌, ◌≤◌, ◌^◌, ℕ, List, IfOk, IsTrue, Some, false, true, length, slice_get};
ghost use Rattle.tso_cells.specs.Inductive.{AreIntervals};
ghost use Rattle.tso_flow.specs.Paths.{is_at};
ghost use Rattle.tso_cells.specs.Intervals.{IsInside, all_words};
ghost use Rattle.tso_line.specs.Proper.{is_in_range};
ghost use Rattle.tso_prog.specs.Limits.{are_in_range};
ghost use Rattle.tso_cells.specs.Growing.{AreGrown};
ghost use Rattle.tso_cells.specs.Rows.{ArePassed, AreRows, AreRowsGrown, AreRowsInside, AreSettled, HasPassed, IsRow, IsRowInside};
ghost use Rattle.tso_cells.specs.declared.growing.Growth.TheVariants.{Whole};

use crate::growing::{EMPTY, Growth, grow};
use crate::interval::{ALL_WORDS, Interval};
use crate::moving::moved;
use std::alloc::{AllocError, Global};
use tso_flow::{jump_target, next_position};
use tso_prog::Step;

/// The intervals of the registers, in their order.
pub type Row = [Interval; 15];

/// So often what comes to an instruction is only joined to what its row has; then what still has to grow becomes all words.
const ROUNDS: usize = 8;

// Lets each interval of a row hold that of another one, and says whether one grew.
fn take_up(growth: Growth, row: &mut [Interval], other: &[Interval]) -> bool
    requires { length row.old ≡ length other.now }
    ensures grown { AreGrown growth all_words row.old row.new result }
    ensures holds { IsRowInside other.now row.new }
    ensures proper { AreIntervals other.now → AreIntervals row.old → AreIntervals row.new }
{
    let mut is_grown = false;
    for k in 0..other.len() {
        let interval = other[k];
        is_grown |= grow(growth, ALL_WORDS, row, k, interval);
    }
    is_grown
}

// Lets the row at a position, if there is such a one, hold another one, and says whether it grew.
fn take_at(growth: Growth, rows: &mut [Row], position: Option<usize>, other: &Row) -> bool
    ensures grown { AreRowsGrown growth rows.old rows.new result }
    ensures holds { (j : ℕ) (ys : List Interval) → is_at position j ≡ true → slice_get rows.new j ≡ Some ys → IsRowInside other.now ys }
    ensures proper { IsRow other.now → AreRows rows.old → AreRows rows.new }
{
    match position {
        Some(j) if j < rows.len() => {
            let mut row = rows[j];
            let is_grown = take_up(growth, &mut row, other);
            rows[j] = row;
            is_grown
        }
        _ => false,
    }
}

// Whether a row has no words for some register: nothing comes there.
fn has_empty(row: &Row) -> bool {
    row.iter().any(|interval| interval.lo > interval.hi)
}

// Lets the rows of the successors of the instruction at `i` hold what it makes of its own, and says whether one grew.
fn pass_on(growth: Growth, rows: &mut [Row], i: usize, step: Step) -> bool
    requires inside { i < length rows.old }
    requires range { IsTrue (is_in_range step) }
    ensures grown { AreRowsGrown growth rows.old rows.new result }
    ensures proper { AreRows rows.old → AreRows rows.new }
    ensures passed { result ≡ false → HasPassed step i rows.new }
{
    let other = moved(&rows[i], &step);
    let mut is_grown = take_at(growth, rows, next_position(step, i), &other);
    is_grown |= take_at(growth, rows, jump_target(step), &other);
    is_grown
}

// The same for each instruction whose row has no empty interval.
fn spread_seen(steps: &[Step], rows: &mut [Row])
    requires same { length rows.old ≡ length steps.now }
    requires range { IsTrue (are_in_range steps.now) }
    ensures count { length rows.new ≡ length rows.old }
    ensures keeps { AreRowsInside rows.old rows.new }
{
    for i in 0..steps.len() {
        let step = steps[i];
        if !has_empty(&rows[i]) {
            pass_on(Growth::Least, rows, i, step);
        }
    }
}

// The same in each of the first rounds.
fn spread_rounds(steps: &[Step], rows: &mut [Row])
    requires same { length rows.old ≡ length steps.now }
    requires range { IsTrue (are_in_range steps.now) }
    ensures count { length rows.new ≡ length rows.old }
    ensures keeps { AreRowsInside rows.old rows.new }
{
    for _round in 0..ROUNDS {
        spread_seen(steps, rows);
    }
}

// The interval, or all words where it is empty.
fn filled(interval: Interval) -> Interval
    ensures keeps { IsInside interval result }
    ensures proper { (result.lo ≤ result.hi) × (result.hi < 2 ^ 64) }
{
    if interval.lo <= interval.hi {
        interval
    } else {
        ALL_WORDS
    }
}

// The row, with all words where nothing comes.
fn filled_row(row: &Row) -> Row
    ensures keeps { IsRowInside row.now result }
    ensures proper { IsRow result }
{
    let mut after = *row;
    for k in 0..15 {
        after[k] = filled(row[k]);
    }
    after
}

// The same for each row.
fn fill(rows: &mut [Row])
    ensures count { length rows.new ≡ length rows.old }
    ensures keeps { AreRowsInside rows.old rows.new }
    ensures proper { AreRows rows.new }
{
    for i in 0..rows.len() {
        let row = filled_row(&rows[i]);
        rows[i] = row;
    }
}

// Lets all rows hold what comes to them, each interval that has to grow becoming all words, and says whether one grew.
fn spread_wide(steps: &[Step], rows: &mut [Row]) -> bool
    requires same { length rows.old ≡ length steps.now }
    requires range { IsTrue (are_in_range steps.now) }
    ensures grown { AreRowsGrown Whole rows.old rows.new result }
    ensures proper { AreRows rows.old → AreRows rows.new }
    ensures passed { result ≡ false → ArePassed steps.now rows.new (length steps.now) }
{
    let mut is_grown = false;
    for i in 0..steps.len() {
        let step = steps[i];
        is_grown |= pass_on(Growth::Whole, rows, i, step);
    }
    is_grown
}

// The same until none grows.
fn close(steps: &[Step], rows: &mut [Row])
    requires same { length rows.old ≡ length steps.now }
    requires range { IsTrue (are_in_range steps.now) }
    requires proper { AreRows rows.old }
    ensures count { length rows.new ≡ length rows.old }
    ensures keeps { AreRowsInside rows.old rows.new }
    ensures proper { AreRows rows.new }
    ensures passed { ArePassed steps.now rows.new (length steps.now) }
{
    'grow: loop {
        if !spread_wide(steps, rows) {
            break;
        }
    }
}

// The row that is given for a position, if one is; else one in which nothing was seen.
fn row_if(given: &[Row], i: usize) -> Row
    ensures { (xs : List Interval) → slice_get given.now i ≡ Some xs → result ≡ xs }
{
    if i < given.len() {
        given[i]
    } else {
        [EMPTY; 15]
    }
}

// A row for each of so many positions.
fn first_rows(alloc: Global, count: usize, given: &[Row]) -> Result<Vec<Row>, AllocError>
    ensures count { IfOk result (λ rows. length rows.items ≡ count) }
    ensures held { IfOk result (λ rows. AreRowsInside given.now rows.items) }
{
    let mut rows = Vec::new(alloc);
    for i in 0..count {
        rows.push(row_if(given, i))?;
    }
    Ok(rows)
}

// Lets the first row hold another one, and all rows what comes to them.
fn settle(steps: &[Step], rows: &mut [Row], entry: &Row)
    requires same { length rows.old ≡ length steps.now }
    requires range { IsTrue (are_in_range steps.now) }
    ensures { AreSettled steps.now rows.old entry.now rows.new }
{
    take_at(Growth::Least, rows, Some(0), entry);
    spread_rounds(steps, rows);
    fill(rows);
    close(steps, rows);
}

/// Rows of the instructions that hold those that are given, that of the first instruction another one, and that of each
/// successor what the instruction makes of its own.
pub fn settled_rows(
    alloc: Global,
    steps: &[Step],
    given: &[Row],
    entry: &Row,
) -> Result<Vec<Row>, AllocError>
    requires { IsTrue (are_in_range steps.now) }
    ensures { IfOk result (λ rows. AreSettled steps.now given.now entry.now rows.items) }
{
    let mut rows = first_rows(alloc, steps.len(), given)?;
    settle(steps, rows.as_mut_slice(), entry);
    Ok(rows)
}
