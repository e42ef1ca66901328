//! Steps from the states of a region.

ghost use Rattle.std.specs.Prelude.{◌≡◌, ◌<◌, IfOk, OnErr, OnOk, length};
ghost use Rattle.tso_parts.specs.Numbers.{Extends};
ghost use Rattle.tso_regions.specs.Regions.{AreSound};
ghost use Rattle.tso_search.specs.Goodness.{AllGoodBelow};
ghost use Rattle.tso_search.specs.Reached.{AllMet};
ghost use Rattle.tso_search.specs.BySteps.{AreDone, AreFollowed, IsFollowed};
ghost use Rattle.tso_search.specs.Searched.{IsGoodAt};
ghost use Rattle.tso_store.specs.Sheets.{IsKeptSuccessor, IsSuccessorOrNone};

use crate::halt::Halt;
use std::alloc::{AllocError, Global};
use tso_choose::{actor_at, has_bit};
use tso_flow::Checked;
use tso_foot::Table;
use tso_search::{Judged, Marks, chosen_at, is_new_good};
use tso_state::Actor;
use tso_store::Store;

// The number of the state after the actor's step, and whether it is new, if there is a step.
fn successor(
    alloc: Global,
    store: &mut Store<'_>,
    number: u32,
    actor: Actor,
) -> Result<Option<(u32, bool)>, Halt>
    ensures step { IfOk result (IsSuccessorOrNone store.old.client store.old.states store.new.states number actor) }
    ensures err { OnErr result (store.new.states ≡ store.old.states) }
    ensures client { store.new.client ≡ store.old.client }
{
    match store.successor(alloc, number, actor) {
        Ok(next) => Ok(next),
        Err(reason) => Err(Halt::from(reason)),
    }
}

// Goes on where the runs to a new state are good.
fn judge(
    alloc: Global,
    checked: &Checked,
    store: &Store<'_>,
    judged: &mut Judged,
    number: u32,
    actor: Actor,
    new: u32,
) -> Result<(), Halt>
    requires next { IsKeptSuccessor checked.now.client store.now.states number actor new }
    requires earlier { number < new }
    requires below { AllGoodBelow checked.now.client store.now.states new }
    ensures { OnOk result (IsGoodAt checked.now.client store.now.states new) }
{
    if is_new_good(alloc, checked, store, judged, number, actor, new)? {
        return Ok(());
    }
    Err(Halt::Violation)
}

// Follows the step of an actor of state `number`, and judges the state after it where it is new: its number then.
fn follow(
    alloc: Global,
    checked: &Checked,
    store: &mut Store<'_>,
    judged: &mut Judged,
    number: u32,
    actor: Actor,
) -> Result<Option<u32>, Halt>
    requires client { store.old.client ≡ checked.now.client }
    requires sound { AreSound checked.now.client store.old.states }
    requires from { number < length store.old.states }
    ensures met { AllMet checked.now.client store.new.states }
    ensures stays { Extends store.old.states store.new.states }
    ensures sound { OnOk result (AreSound checked.now.client store.new.states) }
    ensures followed { OnOk result (IsFollowed checked.now.client store.old.states store.new.states number actor) }
    ensures client { store.new.client ≡ store.old.client }
{
    let Some(next) = successor(alloc, store, number, actor)? else {
        return Ok(None);
    };
    if !next.1 {
        return Ok(None);
    }
    store.states_differ();
    judge(alloc, checked, store, judged, number, actor, next.0)?;
    Ok(Some(next.0))
}

// Lists a state that was met, if there is one.
fn list(met: &mut Vec<u32>, new: Option<u32>) -> Result<(), AllocError> {
    if let Some(number) = new {
        met.push(number)?;
    }
    Ok(())
}

// Follows the steps of all actors of a set, and lists the states that are new.
fn follow_all(
    alloc: Global,
    checked: &Checked,
    store: &mut Store<'_>,
    judged: &mut Judged,
    number: u32,
    set: u16,
    met: &mut Vec<u32>,
) -> Result<(), Halt>
    requires client { store.old.client ≡ checked.now.client }
    requires sound { AreSound checked.now.client store.old.states }
    requires from { number < length store.old.states }
    ensures met { AllMet checked.now.client store.new.states }
    ensures stays { Extends store.old.states store.new.states }
    ensures sound { OnOk result (AreSound checked.now.client store.new.states) }
    ensures followed { OnOk result (AreFollowed checked.now.client store.old.states store.new.states number set 10) }
    ensures client { store.new.client ≡ store.old.client }
{
    for k in 0..10 {
        if has_bit(set, k) {
            let new = follow(alloc, checked, store, judged, number, actor_at(k))?;
            list(met, new)?;
        }
    }
    Ok(())
}

/// Works a state, which is marked then: follows the steps of its chosen actors, and lists the states that are new.
///
/// Errors: `Violation` where the runs to a new state are not good; `Memory`, and `Full`, where it cannot be kept. What was marked
/// is worked all the same.
pub fn work(
    alloc: Global,
    checked: &Checked,
    table: &Table,
    store: &mut Store<'_>,
    judged: &mut Judged,
    marks: &mut Marks,
    number: u32,
    met: &mut Vec<u32>,
) -> Result<(), Halt>
    requires client { store.old.client ≡ checked.now.client }
    requires sound { AreSound checked.now.client store.old.states }
    requires done { AreDone checked.now.client table.now store.old.states marks.old }
    requires there { number < length store.old.states }
    ensures met { AllMet checked.now.client store.new.states }
    ensures done { AreDone checked.now.client table.now store.new.states marks.new }
    ensures sound { OnOk result (AreSound checked.now.client store.new.states) }
    ensures client { store.new.client ≡ store.old.client }
{
    let set = chosen_at(checked, table, store, number);
    met.clear();
    follow_all(alloc, checked, store, judged, number, set, met)?;
    marks.mark(number)?;
    Ok(())
}
