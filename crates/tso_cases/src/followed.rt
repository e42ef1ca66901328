//! How many states the chosen actors lead to.

use std::alloc::Global;
use tso_calls::Failure;
use tso_choose::chosen;
use tso_flow::Checked;
use tso_foot::Table;
use tso_keys::View;
use tso_state::{Actor, initial_state, is_well_formed};
use tso_store::Store;

/// So many actors a client has at most: the cores and the buffers of five threads.
const ACTORS: u16 = 10;

// The chosen actors of a state, as a set.
fn chosen_of(checked: &Checked, table: &Table, state: &View<'_>) -> Result<u16, Failure> {
    if is_well_formed(checked, state) {
        Ok(chosen(checked, table, state))
    } else {
        Err(Failure::Difference)
    }
}

// Those of a state that is kept.
fn chosen_at(
    checked: &Checked,
    table: &Table,
    store: &Store<'_>,
    number: u32,
) -> Result<u16, Failure> {
    match store.view(number) {
        Some(state) => chosen_of(checked, table, &state),
        None => Err(Failure::Difference),
    }
}

// The actor with this number.
fn actor_with(number: u16) -> Actor {
    let thread = usize::from(number / 2);
    if number % 2 == 0 {
        Actor::Exec(thread)
    } else {
        Actor::Drain(thread)
    }
}

// Keeps the states after the steps of the chosen actors of a state.
fn follow(
    alloc: Global,
    checked: &Checked,
    table: &Table,
    store: &mut Store<'_>,
    number: u32,
) -> Result<(), Failure> {
    let set = chosen_at(checked, table, store, number)?;
    for actor in 0..ACTORS {
        if (set >> actor) & 1 == 1 {
            store.successor(alloc, number, actor_with(actor))?;
        }
    }
    Ok(())
}

// The same of each state that is kept, also of those that come meanwhile.
fn follow_all(
    alloc: Global,
    checked: &Checked,
    table: &Table,
    store: &mut Store<'_>,
) -> Result<(), Failure> {
    for number in 0..u32::MAX {
        if number as usize >= store.len() {
            break;
        }
        follow(alloc, checked, table, store, number)?;
    }
    Ok(())
}

// Keeps the first state.
fn add_first(alloc: Global, checked: &Checked, store: &mut Store<'_>) -> Result<(), Failure> {
    let first = initial_state(alloc, checked)?;
    match store.add(&first) {
        Ok(_) => Ok(()),
        Err(error) => Err(Failure::from(error)),
    }
}

// Keeps all states that the chosen actors lead to from the first one on, and answers how many there are.
fn followed_in(
    alloc: Global,
    checked: &Checked,
    table: &Table,
    store: &mut Store<'_>,
) -> Result<usize, Failure> {
    add_first(alloc, checked, store)?;
    follow_all(alloc, checked, table, store)?;
    Ok(store.len())
}

// How many states the chosen actors lead to.
fn count_followed(alloc: Global, checked: &Checked, table: &Table) -> Result<usize, Failure> {
    let mut store = Store::new(alloc, checked, 7);
    let count = followed_in(alloc, checked, table, &mut store);
    drop(store);
    count
}

/// Writes how many states the chosen actors lead to from the first one, which is counted too.
pub fn put_followed(
    alloc: Global,
    checked: &Checked,
    table: &Table,
    out: &mut String,
) -> Result<(), Failure> {
    let count = count_followed(alloc, checked, table)?;
    write!(out, "{count} states")?;
    Ok(())
}
