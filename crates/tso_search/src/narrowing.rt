//! Searches of a part of a client's runs: those in which no thread begins more than so many calls.

ghost use Rattle.std.specs.Prelude.{◌≡◌, ◌+◌, ◌<◌, ◌≤◌, [], IfErr, IfOk, IfSome, OnOk, length};
ghost use Rattle.tso_search.specs.Grounds.{HasClosed, HasRoom};
ghost use Rattle.tso_search.specs.Reached.{AllMet};
ghost use Rattle.tso_search.specs.Searched.{IsHunting, IsStarted, IsStop};
ghost use Rattle.tso_search.specs.Shortening.{IsTraceOf};

use crate::following::follow_all;
use crate::ground::Ground;
use crate::judging::Judged;
use crate::looking::{ALL, to_follow};
use crate::origin::Origin;
use crate::starting::{is_first_good, started};
use crate::stop::Stop;
use crate::track::{Next, Track, Way};
use crate::way::trace_to;
use std::alloc::{AllocError, Global};
use tso_flow::Checked;
use tso_state::{Core, Viewed};
use tso_store::Store;
use tso_trace::Trace;

/// So often it takes a state from its list.
const LOOKS: u32 = 65_536;

/// More states than a search ever meets.
const LIMIT: u32 = 4_194_304;

// Whether a thread is between two calls and has begun as many as it may.
fn is_done<S: Viewed>(view: &S, most: &[usize], thread: usize) -> bool {
    let Some(found) = view.thread(thread) else {
        return false;
    };
    let count = most.get(thread).copied().unwrap_or(0);
    matches!(found.core, Core::Idle) && view.begun(thread) >= count
}

// The cores of the threads that may begin no further call, as a set.
fn done<S: Viewed>(view: &S, most: &[usize]) -> u16 {
    let mut set: u16 = 0;
    for thread in 0..5 {
        if is_done(view, most, thread) {
            set |= 1 << 2 * thread;
        }
    }
    set
}

// The chosen actors of a state but for the cores that may begin no further call; all others if no other actor is chosen.
fn chosen_within(
    checked: &Checked,
    ground: &Ground,
    store: &Store<'_>,
    number: u32,
    most: &[usize],
) -> u16
    requires client { store.now.client ≡ checked.now.client }
    requires met { AllMet checked.now.client store.now.states }
    requires there { number < length store.now.states }
{
    let chosen = to_follow(checked, ground, store, number);
    let Some(view) = store.view(number) else {
        unreachable!()
    };
    let done = done(&view, most);
    match chosen & !done {
        0 => ALL & !done,
        rest => rest,
    }
}

// Takes the steps of one state: of one with a choice when it has its turn.
fn go_on(
    alloc: Global,
    checked: &Checked,
    ground: &Ground,
    store: &mut Store<'_>,
    origins: &mut Vec<Origin>,
    judged: &mut Judged,
    track: &mut Track,
    next: Next,
    most: &[usize],
) -> Result<(), Stop>
    requires client { store.old.client ≡ checked.now.client }
    requires hunting { IsHunting checked.now.client ground.now 4194304 store.old.states origins.old.items [] }
    requires room { HasRoom ground.now store.old.kept 4294967254 }
    ensures hunting { OnOk result (IsHunting checked.now.client ground.now 4194304 store.new.states origins.new.items []) }
    ensures stop { IfErr result (IsStop checked.now.client ground.now 4194304 store.new.states origins.new.items) }
    ensures room { HasRoom ground.now store.new.kept (store.old.kept + 40) }
    ensures client { store.new.client ≡ store.old.client }
{
    let Next { number, in_turn } = next;
    if number as usize >= store.len() {
        return Ok(());
    }
    let set = chosen_within(checked, ground, store, number, most);
    if !in_turn && set.count_ones() > 1 {
        track.put_off(number)?;
        return Ok(());
    }
    step_on(
        alloc,
        checked,
        ground,
        store,
        origins,
        judged,
        number,
        most,
        &mut track.met,
    )?;
    track.go_on(in_turn)?;
    Ok(())
}

// Searches by depth the runs in which no thread begins more calls than it may, until more states are met than these.
fn dive(
    alloc: Global,
    checked: &Checked,
    ground: &Ground,
    store: &mut Store<'_>,
    origins: &mut Vec<Origin>,
    judged: &mut Judged,
    most: &[usize],
    states: usize,
) -> Result<(), Stop>
    requires client { store.old.client ≡ checked.now.client }
    requires hunting { IsHunting checked.now.client ground.now 4194304 store.old.states origins.old.items [] }
    requires room { HasRoom ground.now store.old.kept 8 }
    ensures stop { IfErr result (IsStop checked.now.client ground.now 4194304 store.new.states origins.new.items) }
    ensures client { store.new.client ≡ store.old.client }
{
    let mut track = Track::new(alloc, Way::Depth, 0, store.len() as u32)?;
    let mut left = LOOKS;
    'looks: while left > 0 && store.len() <= states {
        left -= 1;
        let Some(next) = track.next() else {
            break;
        };
        go_on(
            alloc, checked, ground, store, origins, judged, &mut track, next, most,
        )?;
    }
    Ok(())
}

// Takes the steps of one state.
fn step_on(
    alloc: Global,
    checked: &Checked,
    ground: &Ground,
    store: &mut Store<'_>,
    origins: &mut Vec<Origin>,
    judged: &mut Judged,
    number: u32,
    most: &[usize],
    met: &mut Vec<u32>,
) -> Result<(), Stop>
    requires client { store.old.client ≡ checked.now.client }
    requires hunting { IsHunting checked.now.client ground.now 4194304 store.old.states origins.old.items [] }
    requires there { number < length store.old.states }
    requires room { HasRoom ground.now store.old.kept 4294967254 }
    ensures hunting { OnOk result (IsHunting checked.now.client ground.now 4194304 store.new.states origins.new.items []) }
    ensures stop { IfErr result (IsStop checked.now.client ground.now 4194304 store.new.states origins.new.items) }
    ensures room { HasRoom ground.now store.new.kept (store.old.kept + 40) }
    ensures client { store.new.client ≡ store.old.client }
{
    let set = chosen_within(checked, ground, store, number, most);
    met.clear();
    follow_all(
        alloc, checked, ground, store, origins, judged, number, set, LIMIT, met,
    )
}

// Searches them by breadth.
fn spread(
    alloc: Global,
    checked: &Checked,
    ground: &Ground,
    store: &mut Store<'_>,
    origins: &mut Vec<Origin>,
    judged: &mut Judged,
    most: &[usize],
    states: usize,
) -> Result<(), Stop>
    requires client { store.old.client ≡ checked.now.client }
    requires hunting { IsHunting checked.now.client ground.now 4194304 store.old.states origins.old.items [] }
    requires room { HasRoom ground.now store.old.kept 8 }
    ensures stop { IfErr result (IsStop checked.now.client ground.now 4194304 store.new.states origins.new.items) }
    ensures client { store.new.client ≡ store.old.client }
{
    let mut number = 0;
    let mut met = Vec::new(alloc);
    'states: while (number as usize) < store.len() && number < LOOKS && store.len() <= states {
        step_on(
            alloc, checked, ground, store, origins, judged, number, most, &mut met,
        )?;
        number += 1;
    }
    Ok(())
}

// Searches them by depth or by breadth.
fn search_within(
    alloc: Global,
    checked: &Checked,
    ground: &Ground,
    store: &mut Store<'_>,
    origins: &mut Vec<Origin>,
    judged: &mut Judged,
    way: Way,
    most: &[usize],
    states: usize,
) -> Result<(), Stop>
    requires client { store.old.client ≡ checked.now.client }
    requires hunting { IsHunting checked.now.client ground.now 4194304 store.old.states origins.old.items [] }
    requires room { HasRoom ground.now store.old.kept 8 }
    ensures stop { IfErr result (IsStop checked.now.client ground.now 4194304 store.new.states origins.new.items) }
    ensures client { store.new.client ≡ store.old.client }
{
    match way {
        Way::Breadth => spread(alloc, checked, ground, store, origins, judged, most, states),
        Way::Depth | Way::Probe => dive(
            alloc, checked, ground, store, origins, judged, most, states,
        ),
    }
}

// The trace of what such a search from the store's one state on finds, if it finds something.
fn found_from(
    alloc: Global,
    checked: &Checked,
    ground: &Ground,
    store: &mut Store<'_>,
    origins: &mut Vec<Origin>,
    way: Way,
    most: &[usize],
    states: usize,
) -> Result<Option<Trace>, AllocError>
    requires client { store.old.client ≡ checked.now.client }
    requires started { IsStarted checked.now.client ground.now store.old.states }
    requires none { origins.old.items ≡ [] }
    requires room { HasRoom ground.now store.old.kept 8 }
    ensures { IfOk result (λ found. IfSome found (IsTraceOf checked.now.client)) }
{
    if !is_first_good(alloc, checked, ground, store)? {
        return Ok(None);
    }
    let mut judged = Judged::new(alloc)?;
    match search_within(
        alloc,
        checked,
        ground,
        store,
        origins,
        &mut judged,
        way,
        most,
        states,
    ) {
        Err(Stop::Violation(number)) => {
            let trace = trace_to(alloc, checked, ground, origins.as_slice(), number)?;
            Ok(Some(trace))
        }
        Err(Stop::Memory) => Err(AllocError),
        Ok(()) | Err(Stop::Limit) => Ok(None),
    }
}

/// The trace of a run that is not good in which thread i begins at most `most[i]` calls, if a search finds one that gives up when it
/// has met more than so many states. That it finds none says nothing.
///
/// Errors: out of memory.
pub fn found_within(
    alloc: Global,
    checked: &Checked,
    ground: &Ground,
    way: Way,
    most: &[usize],
    states: usize,
) -> Result<Option<Trace>, AllocError>
    requires { HasClosed checked.now.client ground.now }
    ensures { IfOk result (λ found. IfSome found (IsTraceOf checked.now.client)) }
{
    let mut store = started(alloc, checked, ground)?;
    let mut origins = Vec::new(alloc);
    let found = found_from(
        alloc,
        checked,
        ground,
        &mut store,
        &mut origins,
        way,
        most,
        states,
    );
    drop(store);
    found
}
