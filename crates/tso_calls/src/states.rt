//! States: the first one of a client, whether states are well-formed, their order, and their copies.

use crate::actors::{actor_of, put_kinds};
use crate::failure::{Failure, ensure};
use crate::input::{before, behind, word};
use crate::sketch::state_of;
use std::alloc::Global;
use std::hash::{DefaultHasher, Hash, Hasher};
use tso_flow::Checked;
use tso_state::{State, compare, compare_actors, copy_of, initial_state, is_same, is_well_formed};

// Writes the memory of the first state, how many threads it has, and whether it is well-formed.
fn put_first(alloc: Global, checked: &Checked, out: &mut String) -> Result<(), Failure> {
    let first = initial_state(alloc, checked)?;
    let (memory, threads) = (first.memory.as_slice(), first.threads.len());
    let is_fine = is_well_formed(checked, &first);
    write!(out, "{memory:?} {threads} {is_fine}")?;
    Ok(())
}

// Whether the state of a case is well-formed.
fn put_is_fine(
    alloc: Global,
    checked: &Checked,
    call: &str,
    out: &mut String,
) -> Result<(), Failure> {
    let state = state_of(alloc, behind(call, ":"))?;
    let is_fine = is_well_formed(checked, &state);
    write!(out, "{is_fine}")?;
    Ok(())
}

// The kinds of steps that actors have in the state of a case.
fn put_kinds_in(
    alloc: Global,
    checked: &Checked,
    call: &str,
    out: &mut String,
) -> Result<(), Failure> {
    let state = state_of(alloc, before(behind(call, ":"), " / "))?;
    put_kinds(checked, &state, behind(call, " / "), out)
}

/// Makes a call on a state of a client. Whether the case is one.
pub fn answer_of_client(
    alloc: Global,
    checked: &Checked,
    call: &str,
    out: &mut String,
) -> Result<bool, Failure> {
    match word(call, 0) {
        "first" => put_first(alloc, checked, out)?,
        "well_formed" => put_is_fine(alloc, checked, call, out)?,
        "kinds_in" => put_kinds_in(alloc, checked, call, out)?,
        _ => return Ok(false),
    }
    Ok(true)
}

// Writes how two states are ordered, which is asked in both directions.
fn put_order_of(a: &State, b: &State, out: &mut String) -> Result<(), Failure> {
    let order = compare(a, b);
    ensure(is_same(a, b) == order.is_eq())?;
    ensure(compare(b, a) == order.reverse())?;
    Ok(write!(out, "{order:?}")?)
}

// Writes how the states of a case are ordered.
fn put_order(alloc: Global, call: &str, out: &mut String) -> Result<(), Failure> {
    let text = behind(call, ":");
    let a = state_of(alloc, before(text, " / "))?;
    let b = state_of(alloc, behind(text, " / "))?;
    put_order_of(&a, &b, out)
}

fn hash_of(state: &State) -> u64 {
    let mut hasher = DefaultHasher::new();
    state.hash(&mut hasher);
    hasher.finish()
}

// Whether two states are the same, and hash alike.
fn put_alike(a: &State, b: &State, out: &mut String) -> Result<(), Failure> {
    let is_copy = is_same(a, b);
    let is_alike = hash_of(a) == hash_of(b);
    Ok(write!(out, "{is_copy} {is_alike}")?)
}

// Whether a copy is the same, and hashes alike.
fn put_copy(alloc: Global, call: &str, out: &mut String) -> Result<(), Failure> {
    let state = state_of(alloc, behind(call, ":"))?;
    let copy = copy_of(&state)?;
    put_alike(&state, &copy, out)
}

// How two actors are ordered.
fn put_actors(call: &str, out: &mut String) -> Result<(), Failure> {
    let order = compare_actors(actor_of(word(call, 1))?, actor_of(word(call, 2))?);
    write!(out, "{order:?}")?;
    Ok(())
}

/// Makes a call on states of no client. Whether the case is one.
pub fn answer(alloc: Global, call: &str, out: &mut String) -> Result<bool, Failure> {
    match word(call, 0) {
        "order" => put_order(alloc, call, out)?,
        "copy" => put_copy(alloc, call, out)?,
        "actors" => put_actors(call, out)?,
        _ => return Ok(false),
    }
    Ok(true)
}
