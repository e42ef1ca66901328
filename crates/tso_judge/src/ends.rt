//! Whether a record's end is such as its state asks for.

ghost use Rattle.std.specs.Prelude.{◌↔◌, ◌<◌, All, IsTrue};
ghost use Rattle.tso_choose.specs.Choices.{actors_of, IsRising};
ghost use Rattle.tso_choose.specs.Needs.{is_enabled};
ghost use Rattle.tso_choose.specs.declared.choice.Choice.{Choice as AChoice};
ghost use Rattle.tso_state.specs.Actors.{number_of};
ghost use Rattle.tso_rec.specs.Conditions.{AreMovers, HasNoStep, HasNoStopped, IsOver, IsStoppedAt};

use std::cmp::Ordering;
use tso_choose::Choice;
use tso_compact::kind;
use tso_flow::Checked;
use tso_state::{Actor, Core, Viewed, compare_actors};

// Whether the first actor's number is below the other's.
fn is_below(a: Actor, b: Actor) -> bool
    ensures { IsTrue result ↔ number_of a < number_of b }
{
    matches!(compare_actors(a, b), Ordering::Less)
}

// Whether the number of each actor is above that of the one before.
fn is_rising(choices: &[Choice]) -> bool
    ensures { IsTrue result ↔ IsRising (actors_of choices.now) }
{
    for k in 1..choices.len() {
        if !is_below(choices[k - 1].actor, choices[k].actor) {
            return false;
        }
    }
    true
}

// Whether each of them has a step.
fn are_enabled<S: Viewed>(checked: &Checked, state: &S, choices: &[Choice]) -> bool
    ensures { IsTrue result ↔ All (λ (x : AChoice). IsTrue (is_enabled checked.now.client (S.state state.now) x.actor)) choices.now }
{
    choices
        .iter()
        .all(|choice| kind(checked, state, choice.actor).is_some())
}

/// Whether there are chosen actors, in strictly rising order, and each has a step.
pub fn are_movers<S: Viewed>(checked: &Checked, state: &S, choices: &[Choice]) -> bool
    ensures { IsTrue result ↔ AreMovers checked.now.client (S.state state.now) choices.now }
{
    if choices.is_empty() {
        return false;
    }
    if !is_rising(choices) {
        return false;
    }
    are_enabled(checked, state, choices)
}

// Whether neither the core nor the buffer of a thread has a step.
fn has_no_step<S: Viewed>(checked: &Checked, state: &S, thread: usize) -> bool
    ensures { IsTrue result ↔ HasNoStep checked.now.client (S.state state.now) thread }
{
    if kind(checked, state, Actor::Exec(thread)).is_some() {
        return false;
    }
    kind(checked, state, Actor::Drain(thread)).is_none()
}

/// Whether no actor has a step.
pub fn is_over<S: Viewed>(checked: &Checked, state: &S) -> bool
    ensures { IsTrue result ↔ IsOver checked.now.client (S.state state.now) }
{
    for thread in 0..state.thread_count() {
        if !has_no_step(checked, state, thread) {
            return false;
        }
    }
    true
}

// Whether a fault has stopped the thread.
fn is_stopped<S: Viewed>(state: &S, number: usize) -> bool
    ensures { IsTrue result ↔ IsStoppedAt (S.state state.now) number }
{
    match state.thread(number) {
        Some(thread) => matches!(thread.core, Core::Stopped),
        None => false,
    }
}

/// Whether no fault has stopped a thread.
pub fn has_no_stopped<S: Viewed>(state: &S) -> bool
    ensures { IsTrue result ↔ HasNoStopped (S.state state.now) }
{
    for number in 0..state.thread_count() {
        if is_stopped(state, number) {
            return false;
        }
    }
    true
}
