//! Worked states as a tree of records.

ghost use Rattle.std.specs.Prelude.{◌≡◌, ◌<◌, ◌≤◌, IfOk, Some, length, slice_get};
ghost use Rattle.tso_cert.specs.Trees as trees;
ghost use Rattle.tso_write.specs.Cutting.{AreNumbers, AreRecordsOf, AreRising, IsCut, IsEndAt, IsEndOf, IsExplainedAtEnd, IsRecordOf};
ghost use Rattle.tso_search.specs.Searched.{AreSearched};
ghost use Rattle.tso_search.specs.Grounds.{IsGround};
ghost use Rattle.tso_rec.specs.Conditions.{IsOver};
ghost use Rattle.tso_rec.specs.Keeping as keeping;
ghost use Rattle.tso_search.specs.declared.ground.Ground.{Ground as GroundValue};
ghost use Rattle.tso_search.specs.declared.ground.Ground.TheVariants as grounds;
ghost use Rattle.tso_state.specs.WellFormed.{IsWellFormed};

use crate::ends::share_end;
use crate::lone::lone_end;
use crate::recorder::Recorder;
use std::alloc::{AllocError, Global};
use std::boxed::Box;
use std::thread::Threads;
use tso_cert::{ALONE, Cert, Task, run_by};
use tso_choose::choose;
use tso_fifo::linearize;
use tso_flow::Checked;
use tso_foot::{ArrayTable, Table};
use tso_judge::is_over;
use tso_keys::View;
use tso_list::Short;
use tso_machine::thread_count;
use tso_rec::{End, Kept, Packed, Shelf};
use tso_search::Ground;
use tso_state::{State, Viewed};
use tso_store::Store;

/// The most records of a leaf.
pub const LEAF: usize = 64;

// The order that explains the calls of a state in which no actor has a step, as its end.
fn order_of(alloc: Global, checked: &Checked, state: &View<'_>) -> Result<End, AllocError>
    requires explained { IsExplainedAtEnd checked.now.client state.now }
    requires over { IsOver checked.now.client state.now }
    ensures { IfOk result (λ e. (g : GroundValue) → IsEndOf checked.now.client g state.now e) }
{
    let client = &checked.client;
    match linearize(
        alloc,
        state.history(),
        client.mode,
        client.capacity as usize,
    )? {
        Some(order) => Ok(End::Order(order)),
        None => unreachable!(),
    }
}

// The end of a worked state by steps, found by looking at it.
fn end_of(
    alloc: Global,
    checked: &Checked,
    table: &Table,
    state: &View<'_>,
) -> Result<End, AllocError>
    requires well_formed { IsWellFormed checked.now.client state.now }
    requires explained { IsExplainedAtEnd checked.now.client state.now }
    ensures { IfOk result (IsEndOf checked.now.client (grounds.Steps table.now) state.now) }
{
    let choices = choose(alloc, checked, table, state)?;
    if !choices.is_empty() {
        return Ok(End::Choices(choices));
    }
    order_of(alloc, checked, state)
}

// The same of a kept state. Where a core's step goes first alone, the store mostly remembers it, and the state is not looked at.
fn stepped_end(
    alloc: Global,
    checked: &Checked,
    table: &Table,
    store: &Store<'_>,
    number: u32,
) -> Result<End, AllocError>
    requires client { store.now.client ≡ checked.now.client }
    requires searched { AreSearched checked.now.client (grounds.Steps table.now) store.now.states }
    requires there { number < length store.now.states }
    ensures { IfOk result (λ end. IsEndAt checked.now.client (grounds.Steps table.now) store.now.states number end) }
{
    if let Some(lone) = store.lone(number) {
        let end = lone_end(alloc, lone, thread_count(&checked.client))?;
        return Ok(end);
    }
    match store.view(number) {
        Some(view) => {
            let end = end_of(alloc, checked, table, &view)?;
            Ok(end)
        }
        None => unreachable!(),
    }
}

// The end of a worked state by crossings: its choices are not written.
fn crossed_end(
    alloc: Global,
    checked: &Checked,
    own: &ArrayTable,
    table: &Table,
    store: &Store<'_>,
    number: u32,
) -> Result<End, AllocError>
    requires client { store.now.client ≡ checked.now.client }
    requires searched { AreSearched checked.now.client (grounds.Crossings own.now table.now) store.now.states }
    requires there { number < length store.now.states }
    ensures { IfOk result (λ end. IsEndAt checked.now.client (grounds.Crossings own.now table.now) store.now.states number end) }
{
    let Some(view) = store.view(number) else {
        unreachable!()
    };
    if !is_over(checked, &view) {
        return Ok(End::Choices(Short::new(alloc)));
    }
    order_of(alloc, checked, &view)
}

/// The end of a kept state's record.
///
/// Errors: where a growth was refused.
pub fn end_at(
    alloc: Global,
    checked: &Checked,
    ground: &Ground,
    store: &Store<'_>,
    number: u32,
) -> Result<End, AllocError>
    requires client { store.now.client ≡ checked.now.client }
    requires searched { AreSearched checked.now.client ground.now store.now.states }
    requires there { number < length store.now.states }
    ensures { IfOk result (λ end. IsEndAt checked.now.client ground.now store.now.states number end) }
{
    match ground {
        Ground::Steps(table) => stepped_end(alloc, checked, table, store, number),
        Ground::Crossings(own, table) => crossed_end(alloc, checked, own, table, store, number),
    }
}

// The record of a worked state.
fn record_of(
    alloc: Global,
    checked: &Checked,
    ground: &Ground,
    store: &Store<'_>,
    recorder: &Recorder<'_>,
    ends: &mut Shelf<End>,
    number: u32,
) -> Result<Kept, AllocError>
    requires client { store.now.client ≡ checked.now.client }
    requires searched { AreSearched checked.now.client ground.now store.now.states }
    requires closed { IsGround checked.now.client ground.now }
    requires same { recorder.now ≡ store.now.states }
    requires there { number < length store.now.states }
    ensures { IfOk result (λ k. IsRecordOf checked.now.client ground.now store.now.states number (keeping.record_of k)) }
{
    let end = end_at(alloc, checked, ground, store, number)?;
    let end = share_end(alloc, ends, end)?;
    match recorder.record(alloc, number, end)? {
        Some(kept) => Ok(kept),
        None => unreachable!(),
    }
}

// The records of these states, as one leaf.
fn leaf_of(
    alloc: Global,
    checked: &Checked,
    ground: &Ground,
    store: &Store<'_>,
    recorder: &Recorder<'_>,
    ends: &mut Shelf<End>,
    numbers: &[u32],
) -> Result<Packed, AllocError>
    requires client { store.now.client ≡ checked.now.client }
    requires searched { AreSearched checked.now.client ground.now store.now.states }
    requires closed { IsGround checked.now.client ground.now }
    requires same { recorder.now ≡ store.now.states }
    requires numbers { AreNumbers store.now.states numbers.now }
    ensures { IfOk result (AreRecordsOf checked.now.client ground.now store.now.states numbers.now) }
{
    let mut records = Packed::new(alloc);
    for number in numbers {
        let added = record_of(alloc, checked, ground, store, recorder, ends, *number)?;
        records.append(added)?;
    }
    Ok(records)
}

// A kept state.
fn state_at(alloc: Global, store: &Store<'_>, number: u32) -> Result<State, AllocError>
    requires { number < length store.now.states }
    ensures { IfOk result (λ s. slice_get store.now.states number ≡ Some s) }
{
    match store.state(alloc, number)? {
        Some(state) => Ok(state),
        None => unreachable!(),
    }
}

// The records of these states: one leaf of up to 64, or a fork whose left half has half of them, rounded down, and whose state
// is the first of the right half; both halves are cut alike.
fn tree_of(
    alloc: Global,
    checked: &Checked,
    ground: &Ground,
    store: &Store<'_>,
    recorder: &Recorder<'_>,
    ends: &mut Shelf<End>,
    numbers: &[u32],
) -> Result<Cert, AllocError>
    requires client { store.now.client ≡ checked.now.client }
    requires searched { AreSearched checked.now.client ground.now store.now.states }
    requires closed { IsGround checked.now.client ground.now }
    requires same { recorder.now ≡ store.now.states }
    requires numbers { AreNumbers store.now.states numbers.now }
    requires rising { AreRising store.now.states numbers.now }
    ensures { IfOk result (λ cert. IsCut checked.now.client ground.now store.now.states numbers.now (trees.tree_of cert)) }
{
    if numbers.len() <= LEAF {
        let records = leaf_of(alloc, checked, ground, store, recorder, ends, numbers)?;
        return Ok(Cert::Leaf(records));
    }
    let (low, high) = numbers.split_at(numbers.len() / 2);
    let left = tree_of(alloc, checked, ground, store, recorder, ends, low)?;
    let left = Box::new(alloc, left)?;
    let right = tree_of(alloc, checked, ground, store, recorder, ends, high)?;
    let right = Box::new(alloc, right)?;
    let middle = state_at(alloc, store, high[0])?;
    Ok(Cert::Fork(left, middle, right))
}

/// The records of these states as a tree: one leaf of up to 64, or a fork whose left half has half of them, rounded down, and
/// whose state is the first of the right half; both halves are cut alike.
///
/// Errors: where a growth was refused.
pub fn cut(
    alloc: Global,
    checked: &Checked,
    ground: &Ground,
    store: &Store<'_>,
    numbers: &[u32],
) -> Result<Cert, AllocError>
    requires client { store.now.client ≡ checked.now.client }
    requires searched { AreSearched checked.now.client ground.now store.now.states }
    requires closed { IsGround checked.now.client ground.now }
    requires numbers { AreNumbers store.now.states numbers.now }
    requires rising { AreRising store.now.states numbers.now }
    ensures { IfOk result (λ cert. IsCut checked.now.client ground.now store.now.states numbers.now (trees.tree_of cert)) }
{
    let recorder = Recorder::new(alloc, store)?;
    let mut ends = Shelf::new(alloc);
    tree_of(alloc, checked, ground, store, &recorder, &mut ends, numbers)
}

// States whose records are to be cut. A thread that cuts some makes a recorder and shared ends of its own: no count of what they
// share is changed by two threads.
#[derive(Drop)]
struct Uncut<'a> {
    alloc: Global,
    checked: &'a Checked,
    ground: &'a Ground,
    store: &'a Store<'a>,
    numbers: &'a [u32],
}

impl<'a> Task for Uncut<'a> {
    ghost use Rattle.std.specs.Prelude.{◌≡◌};
    ghost use Rattle.tso_cert.specs.Trees as trees;
    ghost use Rattle.tso_write.specs.Tasks.{AreHalvesCut, CanBeCut, IsCutOf, uncut};

    type Output = Cert;

    ghost is_ready = { λ p. (p.store.now.client ≡ p.checked.now.client) × CanBeCut (uncut p.checked.now.client p.ground.now p.store.now.states p.numbers.now) };

    ghost is_output = { λ p cert. IsCutOf (uncut p.checked.now.client p.ground.now p.store.now.states p.numbers.now) (trees.tree_of cert) };

    ghost are_halves = { λ p left right. AreHalvesCut (uncut p.checked.now.client p.ground.now p.store.now.states p.numbers.now) (uncut left.checked.now.client left.ground.now left.store.now.states left.numbers.now) (uncut right.checked.now.client right.ground.now right.store.now.states right.numbers.now) };

    fn run(&self) -> Result<Cert, AllocError> {
        cut(
            self.alloc,
            self.checked,
            self.ground,
            self.store,
            self.numbers,
        )
    }

    fn halves(&self) -> Option<(Self, Self)> {
        let count = self.numbers.len();
        if count <= ALONE {
            return None;
        }
        let (low, high) = self.numbers.split_at(count / 2);
        let left = Uncut {
            alloc: self.alloc,
            checked: self.checked,
            ground: self.ground,
            store: self.store,
            numbers: low,
        };
        let right = Uncut {
            alloc: self.alloc,
            checked: self.checked,
            ground: self.ground,
            store: self.store,
            numbers: high,
        };
        Some((left, right))
    }

    fn joined(
        &self,
        _left: &Self,
        right: &Self,
        first: Cert,
        second: Cert,
    ) -> Result<Cert, AllocError> {
        let first = Box::new(self.alloc, first)?;
        let second = Box::new(self.alloc, second)?;
        let middle = state_at(self.alloc, self.store, right.numbers[0])?;
        Ok(Cert::Fork(first, middle, second))
    }
}

/// The same tree, cut by so many workers.
///
/// Errors: where a growth was refused.
pub fn cut_by<R: Threads + Sync>(
    rt: &R,
    alloc: Global,
    checked: &Checked,
    ground: &Ground,
    store: &Store<'_>,
    numbers: &[u32],
    workers: u64,
) -> Result<Cert, AllocError>
    requires client { store.now.client ≡ checked.now.client }
    requires searched { AreSearched checked.now.client ground.now store.now.states }
    requires closed { IsGround checked.now.client ground.now }
    requires numbers { AreNumbers store.now.states numbers.now }
    requires rising { AreRising store.now.states numbers.now }
    ensures { IfOk result (λ cert. IsCut checked.now.client ground.now store.now.states numbers.now (trees.tree_of cert)) }
{
    let uncut = Uncut {
        alloc,
        checked,
        ground,
        store,
        numbers,
    };
    run_by(rt, &uncut, workers)
}
