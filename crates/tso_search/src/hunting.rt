//! Hunts: a search that goes on for a while in another order than that of numbers, in which a violation may come sooner.

ghost use Rattle.std.specs.Prelude.{◌≡◌, ◌+◌, ◌<◌, ◌≤◌, IfErr, OnOk, length, slice_get};
ghost use Rattle.tso_parts.specs.Numbers.{Extends};
ghost use Rattle.tso_search.specs.Grounds.{AreToFollow, HasRoom};
ghost use Rattle.tso_search.specs.Searched.{IsHunting, IsStop};
ghost use Rattle.tso_state.specs.declared.state.State.{State as StateValue};

use crate::following::follow_all;
use crate::ground::Ground;
use crate::judging::Judged;
use crate::looking::to_follow;
use crate::marks::Marks;
use crate::origin::Origin;
use crate::stop::Stop;
use crate::track::{Next, Track, Way};
use std::alloc::Global;
use tso_flow::Checked;
use tso_store::Store;

/// How often a hunt looks for a state to go on from.
const LOOKS: u32 = 1_048_576;

// Works a state whose chosen actors are these, and marks it.
fn work_marked(
    alloc: Global,
    checked: &Checked,
    ground: &Ground,
    store: &mut Store<'_>,
    origins: &mut Vec<Origin>,
    judged: &mut Judged,
    marks: &mut Marks,
    number: u32,
    set: u16,
    limit: u32,
    met: &mut Vec<u32>,
) -> Result<(), Stop>
    requires client { store.old.client ≡ checked.now.client }
    requires hunting { IsHunting checked.now.client ground.now limit store.old.states origins.old.items marks.old }
    requires there { number < length store.old.states }
    requires chosen { (s : StateValue) → slice_get store.old.states number ≡ Some s → AreToFollow checked.now.client ground.now s set }
    requires room { HasRoom ground.now store.old.kept 4294967254 }
    ensures hunting { OnOk result (IsHunting checked.now.client ground.now limit store.new.states origins.new.items marks.new) }
    ensures stays { OnOk result (Extends store.old.states store.new.states) }
    ensures stop { IfErr result (IsStop checked.now.client ground.now limit store.new.states origins.new.items) }
    ensures room { HasRoom ground.now store.new.kept (store.old.kept + 40) }
    ensures client { store.new.client ≡ store.old.client }
{
    met.clear();
    follow_all(
        alloc, checked, ground, store, origins, judged, number, set, limit, met,
    )?;
    marks.mark(number)?;
    Ok(())
}

// Goes on from a state, if there is such a one and it is not worked: one with a choice waits for its turn, any other is worked at
// once.
fn leave(
    alloc: Global,
    checked: &Checked,
    ground: &Ground,
    store: &mut Store<'_>,
    origins: &mut Vec<Origin>,
    judged: &mut Judged,
    marks: &mut Marks,
    track: &mut Track,
    next: Next,
    limit: u32,
) -> Result<(), Stop>
    requires client { store.old.client ≡ checked.now.client }
    requires hunting { IsHunting checked.now.client ground.now limit store.old.states origins.old.items marks.old }
    requires room { HasRoom ground.now store.old.kept 4294967254 }
    ensures hunting { OnOk result (IsHunting checked.now.client ground.now limit store.new.states origins.new.items marks.new) }
    ensures stays { OnOk result (Extends store.old.states store.new.states) }
    ensures stop { IfErr result (IsStop checked.now.client ground.now limit store.new.states origins.new.items) }
    ensures room { HasRoom ground.now store.new.kept (store.old.kept + 40) }
    ensures client { store.new.client ≡ store.old.client }
{
    let Next { number, in_turn } = next;
    if marks.has(number) {
        return Ok(());
    }
    if number as usize >= store.len() {
        return Ok(());
    }
    let set = to_follow(checked, ground, store, number);
    if !in_turn && set.count_ones() > 1 {
        track.put_off(number)?;
        return Ok(());
    }
    work_marked(
        alloc,
        checked,
        ground,
        store,
        origins,
        judged,
        marks,
        number,
        set,
        limit,
        &mut track.met,
    )?;
    track.go_on(in_turn)?;
    Ok(())
}

/// Goes on from the states with number `from` and above that are not marked, by breadth or by depth, and works and marks them, until
/// so many states with a choice were gone on from, or none is left: while one actor alone is chosen it follows that one at once.
/// So a violation that lies deep may be met soon. That it meets none says nothing; what it works is worked for the search that goes
/// on behind it.
///
/// Errors: `Violation`, `Limit`, `Memory`, as a search.
pub fn hunt(
    alloc: Global,
    checked: &Checked,
    ground: &Ground,
    store: &mut Store<'_>,
    origins: &mut Vec<Origin>,
    judged: &mut Judged,
    marks: &mut Marks,
    way: Way,
    from: u32,
    limit: u32,
) -> Result<(), Stop>
    requires client { store.old.client ≡ checked.now.client }
    requires hunting { IsHunting checked.now.client ground.now limit store.old.states origins.old.items marks.old }
    requires room { HasRoom ground.now store.old.kept 4000000000 }
    ensures hunting { OnOk result (IsHunting checked.now.client ground.now limit store.new.states origins.new.items marks.new) }
    ensures stays { OnOk result (Extends store.old.states store.new.states) }
    ensures stop { IfErr result (IsStop checked.now.client ground.now limit store.new.states origins.new.items) }
    ensures room { HasRoom ground.now store.new.kept (store.old.kept + 41943040) }
    ensures client { store.new.client ≡ store.old.client }
{
    let mut track = Track::new(alloc, way, from, store.len() as u32)?;
    let mut left = LOOKS;
    'looks: while left > 0 {
        left -= 1;
        let Some(next) = track.next() else {
            break;
        };
        leave(
            alloc, checked, ground, store, origins, judged, marks, &mut track, next, limit,
        )?;
    }
    Ok(())
}
