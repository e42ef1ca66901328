//! The order of worked states, found by several workers.

ghost use Rattle.std.specs.List.{flat_map};
ghost use Rattle.std.specs.Prelude.{◌≡◌, ◌+◌, ◌<◌, ◌≤◌, ◌++◌, ℕ, List, IfOk, OnOk, length, map};
ghost use Rattle.tso_write.specs.Ordering.{AreAmong, AreGrouped, AreGroups, AreNumbered, ArePlaced, IsOrderedBehind, IsRankedAt};
ghost use Rattle.tso_keys.specs.Orders.{IsRising};
ghost use Rattle.tso_keys.specs.declared.rank_rows.Row.{Row as RowValue};

use std::alloc::{AllocError, Global};
use std::thread::Threads;
use tso_cert::{ALONE, Task, run_by};
use tso_keys::{Row, Standings};
use tso_list::Seq;
use tso_store::Store;

/// The number of a state behind its row of ranks, by which it is ordered.
#[derive(Clone, Copy, PartialEq, Eq, PartialOrd, Ord)]
pub struct Placed {
    pub row: Row,
    pub number: u32,
}

// Has groups up to the one with this number.
fn make_room(alloc: Global, groups: &mut Seq<Seq<u32>>, at: u32) -> Result<(), AllocError>
    ensures room { OnOk result (at < length groups.new) }
    ensures same { OnOk result (flat_map (λ g. g) groups.new ≡ flat_map (λ g. g) groups.old) }
    ensures each { OnOk result ((rows : List RowValue) (first : ℕ) → AreGroups rows first groups.old → AreGroups rows first groups.new) }
{
    for _count in groups.len()..at as usize + 1 {
        groups.push(Seq::new(alloc))?;
    }
    Ok(())
}

// Puts the number of a state into the group of its memory, which has this rank.
fn put(alloc: Global, groups: &mut Seq<Seq<u32>>, rank: u32, number: u32) -> Result<(), AllocError>
    ensures { OnOk result ((rows : List RowValue) → IsRankedAt rows number rank → AreGrouped rows number groups.old → AreGrouped rows (number + 1) groups.new) }
{
    make_room(alloc, groups, rank)?;
    groups.at_mut(rank as usize).push(number)?;
    Ok(())
}

// The numbers of all states, in groups by the ranks of their memories.
fn grouped(alloc: Global, standings: &Standings<'_>) -> Result<Seq<Seq<u32>>, AllocError>
    requires few { length standings.now ≤ 4194304 }
    ensures { IfOk result (AreGrouped standings.now (length standings.now)) }
{
    let mut groups = Seq::new(alloc);
    for number in 0..standings.len() as u32 {
        let Some(rank) = standings.memory(number) else {
            unreachable!()
        };
        put(alloc, &mut groups, rank, number)?;
    }
    Ok(groups)
}

// The states with these numbers, each behind its row.
fn with_rows(
    alloc: Global,
    standings: &Standings<'_>,
    numbers: &[u32],
) -> Result<Vec<Placed>, AllocError>
    requires { AreNumbered standings.now numbers.now }
    ensures { IfOk result (λ all. ArePlaced standings.now numbers.now all.items) }
{
    let mut all = Vec::with_capacity(alloc, numbers.len())?;
    for number in numbers {
        let number = *number;
        let Some(row) = standings.get(number) else {
            unreachable!()
        };
        all.push(Placed { row, number })?;
    }
    Ok(all)
}

// Puts the numbers of these states at the end.
fn put_numbers(all: &[Placed], out: &mut Vec<u32>) -> Result<(), AllocError>
    ensures { OnOk result (out.new.items ≡ out.old.items ++ map (λ p. p.number) all.now) }
{
    for it in all {
        out.push(it.number)?;
    }
    Ok(())
}

// Puts the numbers of a group at the end, in the order of the states.
fn put_ordered(
    alloc: Global,
    standings: &Standings<'_>,
    group: &[u32],
    out: &mut Vec<u32>,
) -> Result<(), AllocError>
    requires { AreNumbered standings.now group.now }
    ensures { OnOk result ((low high : ℕ) → AreAmong standings.now low high group.now → IsOrderedBehind standings.now low high group.now out.old.items out.new.items) }
{
    let mut all = with_rows(alloc, standings, group)?;
    all.sort()?;
    put_numbers(all.as_slice(), out)?;
    Ok(())
}

// How many states there are in these groups.
fn count_of(groups: &[Seq<u32>]) -> usize {
    groups
        .iter()
        .fold(0usize, |count, group| count.saturating_add(group.len()))
}

// How many groups have nearest to half of the states: at least one, and not all.
fn half_of(groups: &[Seq<u32>]) -> usize
    requires { 1 < length groups.now }
    ensures some { 0 < result }
    ensures rest { result < length groups.now }
{
    let half = count_of(groups) / 2;
    let mut before = 0usize;
    for number in 1..groups.len() {
        let count = before.saturating_add(groups[number - 1].len());
        if count >= half {
            let is_nearer = number > 1 && half.saturating_sub(before) < count - half;
            return if is_nearer { number - 1 } else { number };
        }
        before = count;
    }
    groups.len() - 1
}

// Groups whose states are to be put into their order; the first of them has this rank.
#[derive(Drop)]
struct Unordered<'a> {
    alloc: Global,
    standings: &'a Standings<'a>,
    groups: &'a [Seq<u32>],
    first: usize,
}

impl<'a> Task for Unordered<'a> {
    ghost use Rattle.std.specs.List.{flat_map};
    ghost use Rattle.std.specs.Prelude.{◌+◌, length};
    ghost use Rattle.tso_write.specs.Ordering.{AreHalvesGrouped, AreOrdered, CanBeOrdered};

    type Output = Vec<u32>;

    ghost is_ready = { λ p. CanBeOrdered p.standings.now p.first p.groups.now };

    ghost is_output = { λ p ns. AreOrdered p.standings.now p.first (p.first + length p.groups.now) (flat_map (λ g. g) p.groups.now) ns.items };

    ghost are_halves = { λ p left right. AreHalvesGrouped p.standings.now p.first p.groups.now left.standings.now left.first left.groups.now right.standings.now right.first right.groups.now };

    fn run(&self) -> Result<Vec<u32>, AllocError> {
        let mut out = Vec::new(self.alloc);
        for group in self.groups {
            put_ordered(self.alloc, self.standings, group.as_slice(), &mut out)?;
        }
        Ok(out)
    }

    fn halves(&self) -> Option<(Self, Self)> {
        if self.standings.len() <= ALONE || self.groups.len() < 2 {
            return None;
        }
        let half = half_of(self.groups);
        let (low, high) = self.groups.split_at(half);
        let left = Unordered {
            alloc: self.alloc,
            standings: self.standings,
            groups: low,
            first: self.first,
        };
        let right = Unordered {
            alloc: self.alloc,
            standings: self.standings,
            groups: high,
            first: self.first + half,
        };
        Some((left, right))
    }

    fn joined(
        &self,
        _left: &Self,
        _right: &Self,
        first: Vec<u32>,
        second: Vec<u32>,
    ) -> Result<Vec<u32>, AllocError> {
        let (mut all, mut more) = (first, second);
        all.append(&mut more)?;
        Ok(all)
    }
}

/// The numbers of all states, in the order of the states, by so many workers: in groups by their memories, each group by itself.
///
/// Errors: where a growth was refused.
pub fn rising_by<R: Threads + Sync>(
    rt: &R,
    alloc: Global,
    store: &Store<'_>,
    workers: u64,
) -> Result<Vec<u32>, AllocError>
    requires few { length store.now.states ≤ 4194304 }
    ensures { IfOk result (λ ns. IsRising store.now.states ns.items) }
{
    let standings = store.standings(alloc)?;
    let groups = grouped(alloc, &standings)?;
    let unordered = Unordered {
        alloc,
        standings: &standings,
        groups: groups.as_slice(),
        first: 0,
    };
    let numbers = run_by(rt, &unordered, workers)?;
    Ok(numbers)
}
