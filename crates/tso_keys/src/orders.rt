//! How kept states are ordered.
ghost use Rattle.std.specs.Prelude.{◌≡◌, length};
ghost use Rattle.std.specs.declared.cmp.Ordering.TheVariants.{Equal};
ghost use Rattle.tso_prog.specs.declared.client.Client.{Client};
ghost use Rattle.tso_state.specs.Order.{state_cmp};
ghost use Rattle.tso_state.specs.contracts.state.ThreadOrd.TheImpl as thread_impl;
ghost use Rattle.tso_keys.specs.Keys.{IsKept, state_at};
ghost use Rattle.tso_keys.specs.Orders.{AreOrderedBehind, IsOrderOfParts, IsOrderOfRows, history_cmp};

use crate::key::Key;
use crate::parts::Parts;
use std::cmp::Ordering;
use std::hash::Hash;
use std::marker::Model;
use tso_hist::History;
use tso_list::Exact;
use tso_parts::Catalog;
use tso_state::Thread;

// How two values of a pool are ordered. Equal numbers are equal values, which are not read.
fn compare_parts<T: Exact + Ord + Hash>(pool: &Catalog<T>, a: u32, b: u32) -> Ordering
    ensures order { IsOrderOfParts T.cmp pool.now a b result }
    ensures same { a ≡ b → result ≡ Equal }
{
    if a == b {
        return Ordering::Equal;
    }
    match pool.get(a) {
        Some(first) => match pool.get(b) {
            Some(second) => first.cmp(second),
            None => Ordering::Equal,
        },
        None => Ordering::Equal,
    }
}

// How two rows of as many threads are ordered.
fn compare_rows(pool: &Catalog<Thread>, a: &[u32], b: &[u32]) -> Ordering
    ensures { IsOrderOfRows thread_impl.cmp-value.it pool.now a.now b.now result }
{
    match a {
        [] => Ordering::Equal,
        [first, rest @ ..] => match b {
            [] => Ordering::Equal,
            [second, others @ ..] => match compare_parts(pool, *first, *second) {
                Ordering::Equal => compare_rows(pool, rest, others),
                decided => decided,
            },
        },
    }
}

// How the states of two keys are ordered by memory and by threads. Where they are alike so far, histories decide.
fn compare_fronts(parts: &Parts, a: &Key, b: &Key) -> Ordering
    requires first { (c : Client) × IsKept c parts.now a.now }
    requires second { (c : Client) × IsKept c parts.now b.now }
    requires alike { length (state_at parts.now a.now).threads ≡ length (state_at parts.now b.now).threads }
    ensures decided { (result ≡ Equal → ⊥) → result ≡ state_cmp (state_at parts.now a.now) (state_at parts.now b.now) }
    ensures left { result ≡ Equal → AreOrderedBehind parts.now a.now b.now }
{
    match compare_parts(&parts.memories, a.memory, b.memory) {
        Ordering::Equal => compare_rows(&parts.threads, a.threads.as_slice(), b.threads.as_slice()),
        decided => decided,
    }
}

/// How the states of two keys are ordered: by memory, by threads, by history. Only the first part that differs is compared.
pub fn compare_keys(parts: &Parts, a: &Key, b: &Key) -> Ordering
    requires first { (c : Client) × IsKept c parts.now a.now }
    requires second { (c : Client) × IsKept c parts.now b.now }
    requires alike { length (state_at parts.now a.now).threads ≡ length (state_at parts.now b.now).threads }
    ensures { result ≡ state_cmp (state_at parts.now a.now) (state_at parts.now b.now) }
{
    match compare_fronts(parts, a, b) {
        Ordering::Equal => compare_parts(&parts.histories, a.history, b.history),
        decided => decided,
    }
}

// So many pairs of histories are remembered at a time.
const PLACES: usize = 1024;

// Two histories by their numbers, of which the first is below the second.
#[derive(Clone, Copy, PartialEq, Eq)]
struct Pair {
    low: u32,
    high: u32,
}

/// Pairs of histories of which the first was found to be below the second: one that comes again while it is remembered is not compared
/// once more. Contracts see the histories. Of a certificate's states nine in ten differ from the one before in their history alone, and
/// the pairs are few.
#[derive(Drop)]
pub struct OrderMemo<'a> {
    histories: &'a Catalog<History>,
    pairs: [Option<Pair>; 1024],
}

impl<'a> Model for OrderMemo<'a> {
    ghost use Rattle.std.specs.Prelude.{List};
    ghost use Rattle.tso_hist.specs.declared.call.Call.{Call};
    ghost use Rattle.tso_keys.specs.Orders.{AreBelow};

    ghost Value = { List (List (List Call)) };

    ghost view = { λ s. s.histories.now };

    ghost invariant = { λ s. AreBelow s.histories.now s.pairs };
}

impl<'a> OrderMemo<'a> {
    /// Nothing is remembered of these parts yet.
    pub fn new(parts: &'a Parts) -> Self
        ensures { result ≡ parts.now.histories }
    {
        OrderMemo {
            histories: &parts.histories,
            pairs: [None; PLACES],
        }
    }

    // How two histories are ordered.
    fn compare(&mut self, a: u32, b: u32) -> Ordering
        ensures order { IsOrderOfParts history_cmp self.old a b result }
        ensures stays { self.new ≡ self.old }
    {
        let place = a as usize % PLACES;
        let pair = Some(Pair { low: a, high: b });
        if self.pairs[place] == pair {
            return Ordering::Less;
        }
        let order = compare_parts(self.histories, a, b);
        if order.is_lt() {
            self.pairs[place] = pair;
        }
        order
    }
}

/// The same as `compare_keys`, where pairs of histories are remembered.
pub fn compare_with(parts: &Parts, a: &Key, b: &Key, memo: &mut OrderMemo<'_>) -> Ordering
    requires first { (c : Client) × IsKept c parts.now a.now }
    requires second { (c : Client) × IsKept c parts.now b.now }
    requires alike { length (state_at parts.now a.now).threads ≡ length (state_at parts.now b.now).threads }
    requires histories { memo.old ≡ parts.now.histories }
    ensures order { result ≡ state_cmp (state_at parts.now a.now) (state_at parts.now b.now) }
    ensures stays { memo.new ≡ memo.old }
{
    match compare_fronts(parts, a, b) {
        Ordering::Equal => memo.compare(a.history, b.history),
        decided => decided,
    }
}
