//! Where the actors of one state lead that are followed.

ghost use Rattle.std.specs.Prelude.{◌≡◌, ◌+◌, ◌<◌, ◌≤◌, ◌++◌, ◌∷◌, [], IfErr, IfOk, IfSome, MatchBool, OnOk, length};
ghost use Rattle.tso_search.specs.Goodness.{AllGood, AllGoodBelow};
ghost use Rattle.tso_search.specs.Grounds.{AreOneStop, HasRoom, IsLed, IsNextOrNone};
ghost use Rattle.tso_search.specs.Reached.{IsBadAt};
ghost use Rattle.tso_search.specs.Searched.{AreFollowed, GoesOn, IsBegun, IsFollowed, IsGoodAt, IsStop, IsStopAt};
ghost use Rattle.tso_search.specs.declared.stop.Stop.TheVariants as stops;
ghost use Rattle.tso_store.specs.Arriving.{HasOneStopAt, IsArrivalOrNone};
ghost use Rattle.tso_store.specs.Sheets.{IsSuccessorOrNone};

use crate::ground::Ground;
use crate::judging::{Judged, is_new_good, is_stop_good};
use crate::origin::Origin;
use crate::stop::Stop;
use std::alloc::{AllocError, Global};
use tso_choose::{actor_at, has_bit};
use tso_flow::Checked;
use tso_foot::{ArrayTable, Table};
use tso_parts::Refused;
use tso_state::Actor;
use tso_store::Store;

// The number of the state after the actor's step, and whether it is new, if there is a step.
fn successor(
    alloc: Global,
    store: &mut Store<'_>,
    number: u32,
    actor: Actor,
) -> Result<Option<(u32, bool)>, Stop>
    requires { store.old.kept + 4 < 4294967295 }
    ensures step { IfOk result (IsSuccessorOrNone store.old.client store.old.states store.new.states number actor) }
    ensures err { IfErr result (λ stop. stop ≡ stops.Memory) }
    ensures room { store.new.kept ≤ store.old.kept + 4 }
    ensures client { store.new.client ≡ store.old.client }
{
    match store.successor(alloc, number, actor) {
        Ok(next) => Ok(next),
        Err(Refused::Memory) => Err(Stop::Memory),
        Err(Refused::Full) => unreachable!(),
    }
}

// The number of the state in which the run behind the actor's move stops, and whether it is new, if there is a move. Where parts of states
// have no numbers left, as 4,294,967,295 have, it is refused as for want of memory.
fn arrival(
    alloc: Global,
    store: &mut Store<'_>,
    own: &ArrayTable,
    table: &Table,
    number: u32,
    actor: Actor,
) -> Result<Option<(u32, bool)>, Stop>
    requires { HasOneStopAt store.old.client own.now table.now store.old.states number }
    ensures arrival { IfOk result (IsArrivalOrNone store.old.client own.now table.now store.old.states store.new.states number actor) }
    ensures err { IfErr result (λ stop. stop ≡ stops.Memory) }
    ensures client { store.new.client ≡ store.old.client }
{
    match store.arrive(alloc, own, table, number, actor) {
        Ok(stop) => Ok(stop),
        Err(Refused::Memory | Refused::Full) => Err(Stop::Memory),
    }
}

// The number of the state to which the actor leads, and whether it is new, if it leads somewhere.
fn next_of(
    alloc: Global,
    ground: &Ground,
    store: &mut Store<'_>,
    number: u32,
    actor: Actor,
) -> Result<Option<(u32, bool)>, Stop>
    requires room { HasRoom ground.now store.old.kept 4294967290 }
    requires one_stop { AreOneStop store.old.client ground.now store.old.states number }
    ensures next { IfOk result (IsNextOrNone store.old.client ground.now store.old.states store.new.states number actor) }
    ensures err { IfErr result (λ stop. stop ≡ stops.Memory) }
    ensures room { HasRoom ground.now store.new.kept (store.old.kept + 4) }
    ensures client { store.new.client ≡ store.old.client }
{
    match ground {
        Ground::Steps(_) => successor(alloc, store, number, actor),
        Ground::Crossings(own, table) => arrival(alloc, store, own, table, number, actor),
    }
}

// Puts an origin at the end.
fn keep_origin(origins: &mut Vec<Origin>, origin: Origin) -> Result<(), AllocError>
    ensures ok { OnOk result (origins.new.items ≡ origins.old.items ++ origin ∷ []) }
{
    Ok(origins.push(origin)?)
}

// Whether so many states are no more than the limit.
fn within(count: usize, limit: u32) -> Result<(), Stop>
    ensures ok { OnOk result (count ≤ limit) }
    ensures err { IfErr result (λ stop. (stop ≡ stops.Limit) × (limit < count)) }
{
    if count > limit as usize {
        return Err(Stop::Limit);
    }
    Ok(())
}

// Whether the runs to a new state are good, which an actor has led to.
fn is_good_there(
    alloc: Global,
    checked: &Checked,
    ground: &Ground,
    store: &Store<'_>,
    judged: &mut Judged,
    origin: Origin,
    new: u32,
) -> Result<bool, AllocError>
    requires led { IsLed checked.now.client ground.now store.now.states origin.from origin.actor new }
    requires earlier { origin.from < new }
    requires below { AllGoodBelow checked.now.client store.now.states new }
    ensures { IfOk result (λ good. MatchBool good (IsGoodAt checked.now.client store.now.states new) (IsBadAt checked.now.client store.now.states new)) }
{
    match ground {
        Ground::Steps(_) => is_new_good(
            alloc,
            checked,
            store,
            judged,
            origin.from,
            origin.actor,
            new,
        ),
        Ground::Crossings(_, _) => is_stop_good(alloc, checked, store, judged, new),
    }
}

// Goes on where the runs to a new state are good.
fn judge(
    alloc: Global,
    checked: &Checked,
    ground: &Ground,
    store: &Store<'_>,
    judged: &mut Judged,
    origin: Origin,
    new: u32,
) -> Result<(), Stop>
    requires led { IsLed checked.now.client ground.now store.now.states origin.from origin.actor new }
    requires earlier { origin.from < new }
    requires below { AllGoodBelow checked.now.client store.now.states new }
    ensures good { OnOk result (IsGoodAt checked.now.client store.now.states new) }
    ensures stop { IfErr result (IsStopAt checked.now.client store.now.states new) }
{
    if is_good_there(alloc, checked, ground, store, judged, origin, new)? {
        return Ok(());
    }
    Err(Stop::Violation(new))
}

/// Follows an actor of state `number`, keeps where a new state was met from, and judges it. The number of the new state, if there is
/// one.
///
/// Errors: `Limit` where the new state is one more than the limit, `Violation` where the runs to it are not good, `Memory` where a
/// growth was refused, or, by crossings, where parts of states have no numbers left.
pub fn follow(
    alloc: Global,
    checked: &Checked,
    ground: &Ground,
    store: &mut Store<'_>,
    origins: &mut Vec<Origin>,
    judged: &mut Judged,
    number: u32,
    actor: Actor,
    limit: u32,
) -> Result<Option<u32>, Stop>
    requires client { store.old.client ≡ checked.now.client }
    requires begun { IsBegun checked.now.client ground.now store.old.states origins.old.items }
    requires good { AllGood checked.now.client store.old.states }
    requires from { number < length store.old.states }
    requires few { length store.old.states ≤ limit }
    requires room { HasRoom ground.now store.old.kept 4294967290 }
    ensures on { OnOk result (GoesOn checked.now.client ground.now limit store.old.states store.new.states origins.new.items) }
    ensures good { OnOk result (AllGood checked.now.client store.new.states) }
    ensures followed { OnOk result (IsFollowed checked.now.client ground.now store.old.states store.new.states number actor) }
    ensures new { IfOk result (λ met. IfSome met (λ n. n < length store.new.states)) }
    ensures stop { IfErr result (IsStop checked.now.client ground.now limit store.new.states origins.new.items) }
    ensures room { HasRoom ground.now store.new.kept (store.old.kept + 4) }
    ensures client { store.new.client ≡ store.old.client }
{
    let Some(next) = next_of(alloc, ground, store, number, actor)? else {
        return Ok(None);
    };
    if !next.1 {
        return Ok(None);
    }
    let origin = Origin {
        from: number,
        actor,
    };
    keep_origin(origins, origin)?;
    store.states_differ();
    within(store.len(), limit)?;
    judge(alloc, checked, ground, store, judged, origin, next.0)?;
    Ok(Some(next.0))
}

// Lists a state that was met, if there is one.
fn list(met: &mut Vec<u32>, new: Option<u32>) -> Result<(), AllocError> {
    if let Some(number) = new {
        met.push(number)?;
    }
    Ok(())
}

/// Follows all actors of a set, and lists the states that are new.
pub fn follow_all(
    alloc: Global,
    checked: &Checked,
    ground: &Ground,
    store: &mut Store<'_>,
    origins: &mut Vec<Origin>,
    judged: &mut Judged,
    number: u32,
    set: u16,
    limit: u32,
    met: &mut Vec<u32>,
) -> Result<(), Stop>
    requires client { store.old.client ≡ checked.now.client }
    requires begun { IsBegun checked.now.client ground.now store.old.states origins.old.items }
    requires good { AllGood checked.now.client store.old.states }
    requires from { number < length store.old.states }
    requires few { length store.old.states ≤ limit }
    requires room { HasRoom ground.now store.old.kept 4294967254 }
    ensures on { OnOk result (GoesOn checked.now.client ground.now limit store.old.states store.new.states origins.new.items) }
    ensures good { OnOk result (AllGood checked.now.client store.new.states) }
    ensures followed { OnOk result (AreFollowed checked.now.client ground.now store.old.states store.new.states number set 10) }
    ensures stop { IfErr result (IsStop checked.now.client ground.now limit store.new.states origins.new.items) }
    ensures room { HasRoom ground.now store.new.kept (store.old.kept + 40) }
    ensures client { store.new.client ≡ store.old.client }
{
    for k in 0..10 {
        if has_bit(set, k) {
            let actor = actor_at(k);
            let new = follow(
                alloc, checked, ground, store, origins, judged, number, actor, limit,
            )?;
            list(met, new)?;
        }
    }
    Ok(())
}
