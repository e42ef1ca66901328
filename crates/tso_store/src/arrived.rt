//! Where runs of free actors' moves stop.

ghost use Rattle.std.specs.Prelude.{◌≡◌, ◌<◌, ◌≤◌, ◌^◌, Err, IfOk, MatchOption, length};
ghost use Rattle.tso_confluence.specs.Stops.{HasOneStop};
ghost use Rattle.tso_keys.specs.Keys.{Grows, IsKept, part_count, state_at};
ghost use Rattle.tso_keys.specs.Running.{AreRunning};
ghost use Rattle.tso_move.specs.Free.{HasNoFree, IsFree};
ghost use Rattle.tso_parts.specs.declared.refused.Refused.TheVariants as reasons;
ghost use Rattle.tso_store.specs.Arriving.{IsArrivalKey, IsNextKey, IsStopOf};
ghost use Rattle.tso_store.specs.Remembered.{AreKnown};

use crate::known::Known;
use crate::moved::move_key;
use std::alloc::{AllocError, Global};
use tso_flow::Checked;
use tso_foot::{ArrayTable, Table};
use tso_keys::{Key, Parts, Running, View};
use tso_list::Seq;
use tso_move::lowest_of;
use tso_parts::Refused;
use tso_state::{Actor, Viewed};

// A free actor of a state, if one is free. The thread `first` is asked before the others: one that has just moved often moves on.
fn free_in<S: Viewed>(
    alloc: Global,
    checked: &Checked,
    own: &ArrayTable,
    table: &Table,
    state: &S,
    first: usize,
) -> Result<Option<Actor>, AllocError>
    ensures { IfOk result (λ found. MatchOption found (HasNoFree checked.now.client own.now table.now (S.state state.now)) (IsFree checked.now.client own.now table.now (S.state state.now))) }
{
    if let Some(actor) = lowest_of(alloc, checked, own, table, state, first)? {
        return Ok(Some(actor));
    }
    for thread in 0..state.thread_count() {
        if thread != first {
            if let Some(actor) = lowest_of(alloc, checked, own, table, state, thread)? {
                return Ok(Some(actor));
            }
        }
    }
    Ok(None)
}

// A free actor of a kept state, if one is free.
fn free_at(
    alloc: Global,
    checked: &Checked,
    own: &ArrayTable,
    table: &Table,
    parts: &Parts,
    running: &Seq<Running>,
    key: &Key,
    first: usize,
) -> Result<Option<Actor>, AllocError>
    requires kept { IsKept checked.now.client parts.now key.now }
    requires small { length parts.now.threads < 2 ^ 32 }
    requires running { AreRunning parts.now.histories running.now }
    ensures { IfOk result (λ found. MatchOption found (HasNoFree checked.now.client own.now table.now (state_at parts.now key.now)) (IsFree checked.now.client own.now table.now (state_at parts.now key.now))) }
{
    match View::of_key(&checked.client, parts, running, key) {
        Some(view) => free_in(alloc, checked, own, table, &view, first),
        None => unreachable!(),
    }
}

/// The key of the state after the move of a free actor, if an actor is free, and the actor's thread. The thread `first` is asked before
/// the others.
pub fn next_key(
    alloc: Global,
    checked: &Checked,
    own: &ArrayTable,
    table: &Table,
    parts: &mut Parts,
    known: &mut Seq<Known>,
    running: &Seq<Running>,
    key: &Key,
    first: usize,
) -> Result<Option<(Key, usize)>, Refused>
    requires kept { IsKept checked.now.client parts.old key.now }
    requires small { length parts.old.threads < 2 ^ 32 }
    requires known { AreKnown checked.now.client parts.old.threads known.old }
    requires running { AreRunning parts.old.histories running.now }
    ensures next { IfOk result (IsNextKey checked.now.client own.now table.now parts.old key.now parts.new) }
    ensures grows { Grows parts.old parts.new }
    ensures full { result ≡ Err reasons.Full → 4294967295 ≤ part_count parts.new }
    ensures known { AreKnown checked.now.client parts.new.threads known.new }
{
    let Some(actor) = free_at(alloc, checked, own, table, parts, running, key, first)? else {
        return Ok(None);
    };
    match move_key(alloc, checked, own, parts, known, running, key, actor)? {
        Some(next) => Ok(Some((next, actor.thread()))),
        None => unreachable!(),
    }
}

/// The key of the state in which the run from a kept state stops, whichever free actor goes first. The thread `first` is asked before
/// the others.
pub fn arrive_key(
    alloc: Global,
    checked: &Checked,
    own: &ArrayTable,
    table: &Table,
    parts: &mut Parts,
    known: &mut Seq<Known>,
    running: &Seq<Running>,
    key: &Key,
    first: usize,
) -> Result<Key, Refused>
    requires kept { IsKept checked.now.client parts.old key.now }
    requires small { length parts.old.threads < 2 ^ 32 }
    requires known { AreKnown checked.now.client parts.old.threads known.old }
    requires running { AreRunning parts.old.histories running.now }
    requires one_stop { HasOneStop checked.now.client own.now table.now (state_at parts.old key.now) }
    ensures stops { IfOk result (IsStopOf checked.now.client own.now table.now (state_at parts.old key.now) parts.new) }
    ensures grows { Grows parts.old parts.new }
    ensures full { result ≡ Err reasons.Full → 4294967295 ≤ part_count parts.new }
    ensures known { AreKnown checked.now.client parts.new.threads known.new }
{
    let mut last = *key;
    let mut thread = first;
    'run: loop {
        match next_key(
            alloc, checked, own, table, parts, known, running, &last, thread,
        )? {
            Some(next) => {
                last = next.0;
                thread = next.1;
            }
            None => return Ok(last),
        }
    }
}

/// The key of the state in which the run from the state after the actor's move stops, if the actor has a move.
pub fn arrival_key(
    alloc: Global,
    checked: &Checked,
    own: &ArrayTable,
    table: &Table,
    parts: &mut Parts,
    known: &mut Seq<Known>,
    running: &Seq<Running>,
    key: &Key,
    actor: Actor,
) -> Result<Option<Key>, Refused>
    requires kept { IsKept checked.now.client parts.old key.now }
    requires small { length parts.old.threads < 2 ^ 32 }
    requires known { AreKnown checked.now.client parts.old.threads known.old }
    requires running { AreRunning parts.old.histories running.now }
    requires one_stop { HasOneStop checked.now.client own.now table.now (state_at parts.old key.now) }
    ensures arrival { IfOk result (IsArrivalKey checked.now.client own.now table.now parts.old key.now actor parts.new) }
    ensures grows { Grows parts.old parts.new }
    ensures full { result ≡ Err reasons.Full → 4294967295 ≤ part_count parts.new }
    ensures known { AreKnown checked.now.client parts.new.threads known.new }
{
    let Some(after) = move_key(alloc, checked, own, parts, known, running, key, actor)? else {
        return Ok(None);
    };
    let stop = arrive_key(
        alloc,
        checked,
        own,
        table,
        parts,
        known,
        running,
        &after,
        actor.thread(),
    )?;
    Ok(Some(stop))
}
