//! Whether states that several workers have met are all worked.

ghost use Rattle.std.specs.Prelude.{◌≡◌, ◌<◌, ◌≤◌, IfOk, IsTrue, length, true};
ghost use Rattle.tso_search.specs.BySteps.{AreFollowed, AreSearched, AreWorkedBetween, HasBegun, IsFollowed, IsWorkedAt};
ghost use Rattle.tso_search.specs.Searched.{IsGoodAt};

use std::alloc::{AllocError, Global};
use std::thread::Threads;
use tso_cert::{ALONE, Task, run_by};
use tso_choose::{actor_at, chosen, has_bit};
use tso_flow::Checked;
use tso_foot::Table;
use tso_search::is_good;
use tso_state::Actor;
use tso_store::{Found, Store};

// Whether the state after the actor's step is kept, if there is a step.
fn is_followed(store: &Store<'_>, number: u32, actor: Actor) -> bool
    ensures { result ≡ true → IsFollowed store.now.client store.now.states store.now.states number actor }
{
    match store.find_successor(number, actor) {
        Found::Disabled => true,
        Found::Absent => false,
        Found::At(_) => true,
    }
}

// Whether those after the steps of all actors of a set are.
fn are_followed(store: &Store<'_>, number: u32, set: u16) -> bool
    ensures { result ≡ true → AreFollowed store.now.client store.now.states store.now.states number set 10 }
{
    for k in 0..10 {
        if has_bit(set, k) && !is_followed(store, number, actor_at(k)) {
            return false;
        }
    }
    true
}

// Whether a state without a step is good.
fn is_good_end(
    alloc: Global,
    checked: &Checked,
    store: &Store<'_>,
    number: u32,
) -> Result<bool, AllocError>
    requires there { number < length store.now.states }
    ensures { IfOk result (λ good. good ≡ true → IsGoodAt checked.now.client store.now.states number) }
{
    let Some(state) = store.state(alloc, number)? else {
        unreachable!()
    };
    is_good(alloc, checked, &state)
}

// Whether a state is worked.
fn is_worked(
    alloc: Global,
    checked: &Checked,
    table: &Table,
    store: &Store<'_>,
    number: u32,
) -> Result<bool, AllocError>
    requires client { store.now.client ≡ checked.now.client }
    requires begun { HasBegun checked.now.client store.now.states }
    requires there { number < length store.now.states }
    ensures { IfOk result (λ worked. worked ≡ true → IsWorkedAt checked.now.client table.now store.now.states number) }
{
    let Some(view) = store.view(number) else {
        unreachable!()
    };
    let set = chosen(checked, table, &view);
    if set == 0 {
        return is_good_end(alloc, checked, store, number);
    }
    Ok(are_followed(store, number, set))
}

// Whether all states with numbers from one up to another are.
fn are_worked_between(
    alloc: Global,
    checked: &Checked,
    table: &Table,
    store: &Store<'_>,
    from: u32,
    to: u32,
) -> Result<bool, AllocError>
    requires client { store.now.client ≡ checked.now.client }
    requires begun { HasBegun checked.now.client store.now.states }
    requires there { to ≤ length store.now.states }
    ensures { IfOk result (λ worked. worked ≡ true → AreWorkedBetween checked.now.client table.now store.now.states from to) }
{
    for number in from..to {
        if !is_worked(alloc, checked, table, store, number)? {
            return Ok(false);
        }
    }
    Ok(true)
}

// States of which is asked whether they are worked.
#[derive(Drop)]
struct Asked<'a> {
    alloc: Global,
    checked: &'a Checked,
    table: &'a Table,
    store: &'a Store<'a>,
    from: u32,
    to: u32,
}

impl<'a> Task for Asked<'a> {
    ghost use Rattle.std.specs.Prelude.{◌≡◌, true};
    ghost use Rattle.tso_explore.specs.Asked.{AreHalvesAsked, AreWorkedIn, CanBeAsked, asked};

    type Output = bool;

    ghost is_ready = { λ p. CanBeAsked p.store.now.client (asked p.checked.now.client p.table.now p.store.now.states p.from p.to) };

    ghost is_output = { λ p worked. worked ≡ true → AreWorkedIn (asked p.checked.now.client p.table.now p.store.now.states p.from p.to) };

    ghost are_halves = { λ p left right. AreHalvesAsked (asked p.checked.now.client p.table.now p.store.now.states p.from p.to) (asked left.checked.now.client left.table.now left.store.now.states left.from left.to) (asked right.checked.now.client right.table.now right.store.now.states right.from right.to) };

    fn run(&self) -> Result<bool, AllocError> {
        are_worked_between(
            self.alloc,
            self.checked,
            self.table,
            self.store,
            self.from,
            self.to,
        )
    }

    fn halves(&self) -> Option<(Self, Self)> {
        let count = self.to - self.from;
        if count as usize <= ALONE {
            return None;
        }
        let middle = self.from + count / 2;
        let left = Asked {
            alloc: self.alloc,
            checked: self.checked,
            table: self.table,
            store: self.store,
            from: self.from,
            to: middle,
        };
        let right = Asked {
            alloc: self.alloc,
            checked: self.checked,
            table: self.table,
            store: self.store,
            from: middle,
            to: self.to,
        };
        Some((left, right))
    }

    fn joined(
        &self,
        _left: &Self,
        _right: &Self,
        first: bool,
        second: bool,
    ) -> Result<bool, AllocError> {
        Ok(first && second)
    }
}

/// Whether all states of the store are worked: each chosen step leads to one of them, and those without a step are good. So many
/// workers ask, each of its share of the states.
///
/// Errors: where a growth was refused.
pub fn are_worked<R: Threads + Sync>(
    rt: &R,
    alloc: Global,
    checked: &Checked,
    table: &Table,
    store: &Store<'_>,
    workers: u64,
) -> Result<bool, AllocError>
    requires client { store.now.client ≡ checked.now.client }
    requires begun { HasBegun checked.now.client store.now.states }
    requires few { length store.now.states ≤ 4194304 }
    ensures { IfOk result (λ worked. worked ≡ true → AreSearched checked.now.client table.now store.now.states) }
{
    let asked = Asked {
        alloc,
        checked,
        table,
        store,
        from: 0,
        to: store.len() as u32,
    };
    run_by(rt, &asked, workers)
}
