//! Steps of compact states: `e0` is the core of thread 0, and `d0` its buffer.

use crate::failure::{Failure, ensure};
use crate::input::{before, behind, word};
use std::alloc::Global;
use tso_compact::{StepKind, enabled, kind, labels, step};
use tso_flow::Checked;
use tso_state::{Actor, State, initial_state, is_well_formed};

// The number behind the first letter.
fn number_in(name: &str, letter: &str) -> Option<usize> {
    name.strip_prefix(letter)?.parse::<usize>().ok()
}

/// The actor of this name.
pub fn actor_of(name: &str) -> Result<Actor, Failure> {
    if let Some(thread) = number_in(name, "e") {
        return Ok(Actor::Exec(thread));
    }
    match number_in(name, "d") {
        Some(thread) => Ok(Actor::Drain(thread)),
        None => Err(Failure::Unreadable),
    }
}

/// The actors of these names.
pub fn actors_of(alloc: Global, names: &str) -> Result<Vec<Actor>, Failure> {
    let mut actors = Vec::new(alloc);
    for name in names.split_whitespace() {
        actors.push(actor_of(name)?)?;
    }
    Ok(actors)
}

// The state after an actor's step.
fn after(alloc: Global, checked: &Checked, state: &State, actor: Actor) -> Result<State, Failure> {
    if !is_well_formed(checked, state) {
        return Err(Failure::Difference);
    }
    Ok(step(alloc, checked, state, actor)?)
}

/// The state after the steps of these actors, from the first one on.
pub fn state_after(alloc: Global, checked: &Checked, names: &str) -> Result<State, Failure> {
    let mut state = initial_state(alloc, checked)?;
    for name in names.split_whitespace() {
        state = after(alloc, checked, &state, actor_of(name)?)?;
    }
    Ok(state)
}

// The kind of an actor's step, if it has one.
fn kind_of(checked: &Checked, state: &State, actor: Actor) -> Result<Option<StepKind>, Failure> {
    let kind = kind(checked, state, actor);
    ensure(kind.is_some() == enabled(checked, state, actor))?;
    Ok(kind)
}

/// Writes the kinds of the steps that actors of these names have.
pub fn put_kinds(
    checked: &Checked,
    state: &State,
    names: &str,
    out: &mut String,
) -> Result<(), Failure> {
    for name in names.split_whitespace() {
        let kind = kind_of(checked, state, actor_of(name)?)?;
        write!(out, "{kind:?} ")?;
    }
    Ok(())
}

// Writes the labels of an actor's step.
fn put_labels(
    alloc: Global,
    checked: &Checked,
    state: &State,
    name: &str,
    out: &mut String,
) -> Result<(), Failure> {
    for label in &labels(alloc, checked, state, actor_of(name)?)? {
        let (thread, kind) = (label.thread, label.kind);
        write!(out, "{thread} {kind:?}; ")?;
    }
    Ok(())
}

/// Makes a call on a compact state of a client. Whether the case is one.
pub fn answer(
    alloc: Global,
    checked: &Checked,
    call: &str,
    out: &mut String,
) -> Result<bool, Failure> {
    let name = word(call, 0);
    if name != "kinds" && name != "labels" {
        return Ok(false);
    }
    let text = behind(call, ":");
    let state = state_after(alloc, checked, before(text, "/"))?;
    if name == "kinds" {
        put_kinds(checked, &state, behind(text, "/"), out)?;
    } else {
        put_labels(alloc, checked, &state, word(behind(text, "/"), 0), out)?;
    }
    Ok(true)
}
