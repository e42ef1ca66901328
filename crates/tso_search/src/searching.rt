//! The search by breadth.

ghost use Rattle.std.specs.Prelude.{◌≡◌, ◌+◌, ◌*◌, ◌<◌, ◌≤◌, ◌⊎◌, IfErr, IfOk, OnOk, length};
ghost use Rattle.tso_search.specs.Grounds.{HasRoom};
ghost use Rattle.tso_search.specs.Goodness.{AllGood};
ghost use Rattle.tso_parts.specs.Numbers.{Extends};
ghost use Rattle.tso_search.specs.Searched.{AreDone, IsSearched, IsStop};

use crate::following::follow_all;
use crate::ground::Ground;
use crate::judging::Judged;
use crate::looking::to_follow;
use crate::marks::Marks;
use crate::origin::Origin;
use crate::stop::Stop;
use std::alloc::Global;
use std::sync::Wait;
use tso_cert::Watch;
use tso_flow::Checked;
use tso_store::Store;

// Follows the chosen steps of a state that is not worked yet.
fn work(
    alloc: Global,
    checked: &Checked,
    ground: &Ground,
    store: &mut Store<'_>,
    origins: &mut Vec<Origin>,
    judged: &mut Judged,
    number: u32,
    limit: u32,
    met: &mut Vec<u32>,
) -> Result<(), Stop>
    requires client { store.old.client ≡ checked.now.client }
    requires searched { IsSearched checked.now.client ground.now store.old.states origins.old.items number }
    requires good { AllGood checked.now.client store.old.states }
    requires from { number < length store.old.states }
    requires few { length store.old.states ≤ limit }
    requires room { HasRoom ground.now store.old.kept 4294967254 }
    ensures searched { OnOk result (IsSearched checked.now.client ground.now store.new.states origins.new.items (number + 1)) }
    ensures good { OnOk result (AllGood checked.now.client store.new.states) }
    ensures few { OnOk result (length store.new.states ≤ limit) }
    ensures stays { OnOk result (Extends store.old.states store.new.states) }
    ensures stop { IfErr result (IsStop checked.now.client ground.now limit store.new.states origins.new.items) }
    ensures room { HasRoom ground.now store.new.kept (store.old.kept + 40) }
    ensures client { store.new.client ≡ store.old.client }
{
    let set = to_follow(checked, ground, store, number);
    met.clear();
    follow_all(
        alloc, checked, ground, store, origins, judged, number, set, limit, met,
    )
}

// Works a state where it is not marked: one that is marked is worked.
fn work_once(
    alloc: Global,
    checked: &Checked,
    ground: &Ground,
    store: &mut Store<'_>,
    origins: &mut Vec<Origin>,
    judged: &mut Judged,
    marks: &Marks,
    number: u32,
    limit: u32,
    met: &mut Vec<u32>,
) -> Result<(), Stop>
    requires client { store.old.client ≡ checked.now.client }
    requires searched { IsSearched checked.now.client ground.now store.old.states origins.old.items number }
    requires good { AllGood checked.now.client store.old.states }
    requires done { AreDone checked.now.client ground.now store.old.states marks.now }
    requires from { number < length store.old.states }
    requires few { length store.old.states ≤ limit }
    requires room { HasRoom ground.now store.old.kept 4294967254 }
    ensures searched { OnOk result (IsSearched checked.now.client ground.now store.new.states origins.new.items (number + 1)) }
    ensures good { OnOk result (AllGood checked.now.client store.new.states) }
    ensures done { OnOk result (AreDone checked.now.client ground.now store.new.states marks.now) }
    ensures few { OnOk result (length store.new.states ≤ limit) }
    ensures more { OnOk result (number < length store.new.states) }
    ensures stop { IfErr result (IsStop checked.now.client ground.now limit store.new.states origins.new.items) }
    ensures room { HasRoom ground.now store.new.kept (store.old.kept + 40) }
    ensures client { store.new.client ≡ store.old.client }
{
    if marks.has(number) {
        return Ok(());
    }
    work(
        alloc, checked, ground, store, origins, judged, number, limit, met,
    )
}

/// Works the states from number `from` on, in the order of their numbers and but for those that are marked, until all that were met
/// are worked, or more than `pause` were met. The number of the first state that is not worked in its turn.
pub fn search<R: Wait, W: Watch>(
    rt: &R,
    alloc: Global,
    checked: &Checked,
    ground: &Ground,
    store: &mut Store<'_>,
    origins: &mut Vec<Origin>,
    judged: &mut Judged,
    marks: &Marks,
    from: u32,
    pause: u32,
    limit: u32,
    watch: &W,
) -> Result<u32, Stop>
    requires client { store.old.client ≡ checked.now.client }
    requires searched { IsSearched checked.now.client ground.now store.old.states origins.old.items from }
    requires good { AllGood checked.now.client store.old.states }
    requires done { AreDone checked.now.client ground.now store.old.states marks.now }
    requires low { from ≤ length store.old.states }
    requires few { length store.old.states ≤ limit }
    requires limit { limit ≤ 4194304 }
    requires room { HasRoom ground.now store.old.kept 4000000000 }
    ensures searched { IfOk result (λ number. IsSearched checked.now.client ground.now store.new.states origins.new.items number) }
    ensures good { OnOk result (AllGood checked.now.client store.new.states) }
    ensures low { IfOk result (λ number. number ≤ length store.new.states) }
    ensures over { IfOk result (λ number. (length store.new.states ≤ number) ⊎ (pause < length store.new.states)) }
    ensures few { OnOk result (length store.new.states ≤ limit) }
    ensures stop { IfErr result (IsStop checked.now.client ground.now limit store.new.states origins.new.items) }
    ensures room { IfOk result (λ number. HasRoom ground.now store.new.kept (store.old.kept + 40 * number)) }
    ensures client { store.new.client ≡ store.old.client }
{
    let mut number = from;
    let mut met = Vec::new(alloc);
    'states: while (number as usize) < store.len() && store.len() <= pause as usize {
        watch.at(rt, 0);
        watch.met(store.len() as u64, store.len() as u64 - number as u64);
        work_once(
            alloc, checked, ground, store, origins, judged, marks, number, limit, &mut met,
        )?;
        number += 1;
    }
    Ok(number)
}
