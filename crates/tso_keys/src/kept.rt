//! Keys of states, and states of keys.
ghost use Rattle.std.specs.Prelude.{◌≡◌, ◌↔◌, ◌+◌, ◌<◌, ◌≤◌, ◌^◌, length, Some, Err, IsTrue, IfOk, IfSome, OnErr, MatchOption, slice_get, slice_index_or};
ghost use Rattle.tso_parts.specs.Numbers.{Extends, IsNowhere};
ghost use Rattle.tso_parts.specs.declared.refused.Refused.TheVariants as reasons;
ghost use Rattle.tso_keys.specs.Keys.{FitsClient, Grows, HasNoKey, IsKeyOf, part_count};
ghost use Rattle.tso_keys.specs.Numbers.{AreNumbersOf, HasNoRow};

use crate::key::{Key, NO_KEY, NONE};
use crate::parts::Parts;
use std::hash::Hash;
use tso_list::Exact;
use tso_machine::thread_count;
use tso_parts::{Catalog, Like, Refused};
use tso_prog::Client;
use tso_state::{State, Thread};

/// Whether the state has the client's threads, and a list of calls for each.
pub fn fits_client(client: &Client, state: &State) -> bool
    ensures fits { IsTrue result ↔ FitsClient client.now state.now }
    ensures few { IsTrue result → length state.now.threads ≤ 5 }
{
    let count = thread_count(client);
    state.threads.len() == count && state.history.threads().len() == count
}

/// The number of a value, if it is kept. It is looked for at the number `near` first, which need not be that of a value.
pub fn find_near<T: Exact + Hash, L: Like<T>>(
    catalog: &Catalog<T>,
    near: u32,
    like: &L,
) -> Option<u32>
    ensures { MatchOption result (IsNowhere catalog.now (L.value like.now)) (λ n. slice_get catalog.now n ≡ Some (L.value like.now)) }
{
    if let Some(item) = catalog.get(near) {
        if like.is(item) {
            return Some(near);
        }
    }
    catalog.find(like)
}

/// The number of a value, which is kept if it is new. It is looked for at the number `near` first.
pub fn add_near<T: Exact + Hash + Clone + Drop>(
    catalog: &mut Catalog<T>,
    near: u32,
    item: &T,
) -> Result<u32, Refused>
    requires copied { (x y : T) → T.is_clone x y → y ≡ x }
    ensures number { IfOk result (λ n. slice_get catalog.new n ≡ Some item.now) }
    ensures extends { Extends catalog.old catalog.new }
    ensures small { length catalog.old < 2 ^ 32 → length catalog.new < 2 ^ 32 }
    ensures more { length catalog.new ≤ length catalog.old + 1 }
    ensures full { result ≡ Err reasons.Full → 4294967295 ≤ length catalog.new }
    ensures absent { OnErr result (IsNowhere catalog.old item.now) }
{
    if let Some(number) = find_near(catalog, near, item) {
        return Ok(number);
    }
    let copy = item.clone()?;
    let (number, _) = catalog.add(copy)?;
    Ok(number)
}

/// The number at a place of a row; that of nothing past its end.
pub fn number_at(row: &[u32; 5], place: usize) -> u32
    ensures { result ≡ slice_index_or row.now place 4294967295 }
{
    row.get(place).copied().unwrap_or(NONE)
}

/// The numbers of values, which are kept where they are new. Each is looked for at its place among `near` first.
pub fn add_row<T: Exact + Hash + Clone + Drop>(
    catalog: &mut Catalog<T>,
    near: &[u32; 5],
    all: &[T],
) -> Result<[u32; 5], Refused>
    requires few { length all.now ≤ 5 }
    requires copied { (x y : T) → T.is_clone x y → y ≡ x }
    ensures numbers { IfOk result (λ ns. AreNumbersOf catalog.new ns all.now) }
    ensures extends { Extends catalog.old catalog.new }
    ensures small { length catalog.old < 2 ^ 32 → length catalog.new < 2 ^ 32 }
    ensures wide { IfOk result (λ ns. length ns ≡ 5) }
    ensures more { length catalog.new ≤ length catalog.old + 5 }
    ensures full { result ≡ Err reasons.Full → 4294967295 ≤ length catalog.new }
    ensures absent { OnErr result (HasNoRow catalog.old all.now) }
{
    let mut numbers = [NONE; 5];
    for i in 0..all.len() {
        let number = add_near(catalog, number_at(near, i), &all[i])?;
        numbers[i] = number;
    }
    Ok(numbers)
}

/// The key of a state, whose parts are kept where they are new.
pub fn key_of(parts: &mut Parts, state: &State) -> Result<Key, Refused>
    requires { length state.now.threads ≤ 5 }
    ensures key { IfOk result (λ k. IsKeyOf parts.new k state.now) }
    ensures grows { Grows parts.old parts.new }
    ensures more { part_count parts.new ≤ part_count parts.old + 7 }
    ensures full { result ≡ Err reasons.Full → 4294967295 ≤ part_count parts.new }
    ensures absent { OnErr result (HasNoKey parts.old state.now) }
{
    let memory = add_near(&mut parts.memories, NONE, &state.memory)?;
    let history = add_near(&mut parts.histories, NONE, &state.history)?;
    let threads = add_row(
        &mut parts.threads,
        &NO_KEY.threads,
        state.threads.as_slice(),
    )?;
    Ok(Key {
        memory,
        history,
        threads,
    })
}

// The numbers of threads, if each is kept.
fn find_threads(threads: &Catalog<Thread>, all: &[Thread]) -> Option<[u32; 5]>
    requires { length all.now ≤ 5 }
    ensures found { IfSome result (λ ns. AreNumbersOf threads.now ns all.now) }
    ensures wide { IfSome result (λ ns. length ns ≡ 5) }
    ensures none { MatchOption result (HasNoRow threads.now all.now) (λ ns. Unit {0}) }
{
    let mut numbers = [NONE; 5];
    for i in 0..all.len() {
        let Some(number) = threads.find(&all[i]) else {
            return None;
        };
        numbers[i] = number;
    }
    Some(numbers)
}

/// The key of a state, if each of its parts is kept.
pub fn find_key(parts: &Parts, state: &State) -> Option<Key>
    requires { length state.now.threads ≤ 5 }
    ensures { MatchOption result (HasNoKey parts.now state.now) (λ k. IsKeyOf parts.now k state.now) }
{
    let memory = parts.memories.find(&state.memory)?;
    let history = parts.histories.find(&state.history)?;
    let threads = find_threads(&parts.threads, state.threads.as_slice())?;
    Some(Key {
        memory,
        history,
        threads,
    })
}
