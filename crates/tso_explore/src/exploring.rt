//! The search of a client.

ghost use Rattle.std.specs.Prelude.{◌≡◌, ◌+◌, ◌≤◌, ◌⊎◌, [], IfErr, IfOk, IfSome, OnOk, Some, length, true};
ghost use Rattle.tso_explore.specs.Firsts.{IsBegunAlone, IsFirstAlone, IsFirstOf, IsFound, IsPaused, IsSoon};
ghost use Rattle.tso_search.specs.BySteps.{any_steps};
ghost use Rattle.tso_search.specs.Goodness.{AllGood};
ghost use Rattle.tso_search.specs.Grounds.{HasLeastTable, HasRoom, IsGround, grain_of};
ghost use Rattle.tso_rec.specs.declared.basis.Grain.{Grain as GrainValue};
ghost use Rattle.tso_rec.specs.declared.basis.Grain.TheVariants as grains;
ghost use Rattle.tso_search.specs.declared.ground.Ground.TheVariants as grounds;
ghost use Rattle.tso_explore.specs.Outcomes.{IsOutcome, IsStopped};
ghost use Rattle.tso_explore.specs.Findings.{IsEnded, IsFinding};
ghost use Rattle.tso_parts.specs.Numbers.{Extends};
ghost use Rattle.tso_regions.specs.Regions.{AreSound};
ghost use Rattle.tso_search.specs.Searched.{AreSearched, HasBegun, HasMore, IsBegun, IsHunting, IsSearched, IsStarted, IsStop};
ghost use Rattle.tso_search.specs.Shortening.{IsTraceOf};
ghost use Rattle.tso_search.specs.Ways.{IsBadEnd};
ghost use Rattle.tso_write.specs.Worked.{AreWorkedOut};

use crate::closing::are_worked;
use crate::ended::{Ended, Stopped};
use crate::finding::Finding;
use crate::first::{First, Soon};
use crate::grounds::ground_of;
use crate::merging::merged;
use crate::outcome::Outcome;
use std::alloc::{AllocError, Global};
use std::sync::Wait;
use std::thread::Threads;
use tso_cert::{NoWatch, Watch, Workers};
use tso_flow::Checked;
use tso_foot::{Table, build};
use tso_machine::thread_count;
use tso_pool::{Ending, search as search_together};
use tso_rec::Grain;
use tso_regions::by_regions;
use tso_search::{
    Ground, Judged, Marks, Origin, Stop, Way, hunt, is_first_good, search, shortened, started,
    trace_to,
};
use tso_store::Store;
use tso_trace::Trace;
use tso_write::{Worked, tree_for};

/// How many states a search meets before it pauses for hunts.
const FIRST: u32 = 4_096;

/// How many probes it goes on by then.
const PROBES: u32 = 4;

/// How many states the caller meets alone before several workers go on by regions.
const ALONE: u32 = 8_192;

/// How many it meets alone before they go on where it looks as if there are many.
const EARLY: u32 = 2_048;

/// Where there are so many states, and the caller has searched all of them alone, no worker searches them once more.
const SHARED: usize = 512;

// The trace of the runs to a state that are not good, short.
fn short_trace(
    alloc: Global,
    checked: &Checked,
    ground: &Ground,
    origins: &[Origin],
    number: u32,
) -> Result<Trace, AllocError>
    requires { IsBadEnd checked.now.client ground.now origins.now number }
    ensures { IfOk result (IsTraceOf checked.now.client) }
{
    let trace = trace_to(alloc, checked, ground, origins, number)?;
    shortened(alloc, checked, trace, thread_count(&checked.client))
}

// Why a search stopped, where it stops so.
fn stopped(
    alloc: Global,
    checked: &Checked,
    ground: &Ground,
    store: &Store<'_>,
    origins: &[Origin],
    limit: u32,
    stop: Stop,
) -> Result<Stopped, AllocError>
    requires client { store.now.client ≡ checked.now.client }
    requires stop { IsStop checked.now.client ground.now limit store.now.states origins.now stop }
    ensures { IfOk result (IsStopped checked.now.client limit) }
{
    match stop {
        Stop::Violation(number) => {
            let trace = short_trace(alloc, checked, ground, origins, number)?;
            Ok(Stopped::Trace(trace))
        }
        Stop::Limit => Ok(Stopped::LimitReached),
        Stop::Memory => Err(AllocError),
    }
}

// The same of a search or a hunt, as what the first states tell.
fn stopped_first(
    alloc: Global,
    checked: &Checked,
    ground: &Ground,
    store: &Store<'_>,
    origins: &[Origin],
    limit: u32,
    stop: Stop,
) -> Result<First, AllocError>
    requires client { store.now.client ≡ checked.now.client }
    requires stop { IsStop checked.now.client ground.now limit store.now.states origins.now stop }
    ensures { IfOk result (IsFound checked.now.client limit) }
{
    let why = stopped(alloc, checked, ground, store, origins, limit, stop)?;
    Ok(First::Stopped(why))
}

// Where a search that has come to state `number` is not over, it goes on by a hunt by depth.
fn hunted_deep(
    alloc: Global,
    checked: &Checked,
    ground: &Ground,
    store: &mut Store<'_>,
    origins: &mut Vec<Origin>,
    judged: &mut Judged,
    marks: &mut Marks,
    number: u32,
    limit: u32,
) -> Result<First, AllocError>
    requires paused { IsPaused checked.now.client limit ground.now store.old origins.old.items marks.old number }
    requires room { HasRoom ground.now store.old.kept 2000000000 }
    ensures { IfOk result (IsFirstOf checked.now.client limit ground.now store.new origins.new.items marks.new) }
{
    let way = Way::Depth;
    match hunt(
        alloc, checked, ground, store, origins, judged, marks, way, number, limit,
    ) {
        Ok(()) => Ok(First::GoesOn(number)),
        Err(stop) => {
            let slice = origins.as_slice();
            stopped_first(alloc, checked, ground, store, slice, limit, stop)
        }
    }
}

// The same by two hunts, by breadth and then by depth.
fn hunted_on(
    alloc: Global,
    checked: &Checked,
    ground: &Ground,
    store: &mut Store<'_>,
    origins: &mut Vec<Origin>,
    judged: &mut Judged,
    marks: &mut Marks,
    number: u32,
    limit: u32,
) -> Result<First, AllocError>
    requires paused { IsPaused checked.now.client limit ground.now store.old origins.old.items marks.old number }
    requires room { HasRoom ground.now store.old.kept 1000000000 }
    ensures { IfOk result (IsFirstOf checked.now.client limit ground.now store.new origins.new.items marks.new) }
{
    let way = Way::Breadth;
    match hunt(
        alloc, checked, ground, store, origins, judged, marks, way, number, limit,
    ) {
        Ok(()) => hunted_deep(
            alloc, checked, ground, store, origins, judged, marks, number, limit,
        ),
        Err(stop) => {
            let slice = origins.as_slice();
            stopped_first(alloc, checked, ground, store, slice, limit, stop)
        }
    }
}

// Goes on by some probes from the states with number `from` and above.
fn probe(
    alloc: Global,
    checked: &Checked,
    ground: &Ground,
    store: &mut Store<'_>,
    origins: &mut Vec<Origin>,
    judged: &mut Judged,
    marks: &mut Marks,
    from: u32,
    limit: u32,
) -> Result<(), Stop>
    requires client { store.old.client ≡ checked.now.client }
    requires hunting { IsHunting checked.now.client ground.now limit store.old.states origins.old.items marks.old }
    requires room { HasRoom ground.now store.old.kept 500000000 }
    ensures hunting { OnOk result (IsHunting checked.now.client ground.now limit store.new.states origins.new.items marks.new) }
    ensures stays { OnOk result (Extends store.old.states store.new.states) }
    ensures stop { IfErr result (IsStop checked.now.client ground.now limit store.new.states origins.new.items) }
    ensures room { OnOk result (HasRoom ground.now store.new.kept (store.old.kept + 167772160)) }
    ensures client { store.new.client ≡ store.old.client }
{
    let way = Way::Probe;
    for _probe in 0..PROBES {
        hunt(
            alloc, checked, ground, store, origins, judged, marks, way, from, limit,
        )?;
    }
    Ok(())
}

// Goes on by probes, and then by the long hunts.
fn probed_on(
    alloc: Global,
    checked: &Checked,
    ground: &Ground,
    store: &mut Store<'_>,
    origins: &mut Vec<Origin>,
    judged: &mut Judged,
    marks: &mut Marks,
    number: u32,
    limit: u32,
) -> Result<First, AllocError>
    requires paused { IsPaused checked.now.client limit ground.now store.old origins.old.items marks.old number }
    requires room { HasRoom ground.now store.old.kept 500000000 }
    ensures { IfOk result (IsFirstOf checked.now.client limit ground.now store.new origins.new.items marks.new) }
{
    match probe(
        alloc, checked, ground, store, origins, judged, marks, number, limit,
    ) {
        Ok(()) => hunted_on(
            alloc, checked, ground, store, origins, judged, marks, number, limit,
        ),
        Err(stop) => {
            let slice = origins.as_slice();
            stopped_first(alloc, checked, ground, store, slice, limit, stop)
        }
    }
}

// The search of the first states, and the probes and hunts if it is not over then.
fn first_found<R: Wait, W: Watch>(
    rt: &R,
    alloc: Global,
    checked: &Checked,
    ground: &Ground,
    store: &mut Store<'_>,
    origins: &mut Vec<Origin>,
    judged: &mut Judged,
    marks: &mut Marks,
    limit: u32,
    watch: &W,
) -> Result<First, AllocError>
    requires client { store.old.client ≡ checked.now.client }
    requires started { IsStarted checked.now.client ground.now store.old.states }
    requires none { origins.old.items ≡ [] }
    requires unmarked { marks.old ≡ [] }
    requires few { length store.old.states ≤ limit }
    requires limit { limit ≤ 4194304 }
    requires room { HasRoom ground.now store.old.kept 8 }
    ensures found { IfOk result (IsFirstOf checked.now.client limit ground.now store.new origins.new.items marks.new) }
{
    if !is_first_good(alloc, checked, ground, store)? {
        let trace = short_trace(alloc, checked, ground, origins.as_slice(), 0)?;
        return Ok(First::Stopped(Stopped::Trace(trace)));
    }
    match search(
        rt, alloc, checked, ground, store, origins, judged, marks, 0, FIRST, limit, watch,
    ) {
        Ok(number) => {
            if number as usize >= store.len() {
                return Ok(First::GoesOn(number));
            }
            probed_on(
                alloc, checked, ground, store, origins, judged, marks, number, limit,
            )
        }
        Err(stop) => {
            let slice = origins.as_slice();
            stopped_first(alloc, checked, ground, store, slice, limit, stop)
        }
    }
}

// How a search ends that goes on from state `number`.
fn found_behind<R: Wait, W: Watch>(
    rt: &R,
    alloc: Global,
    checked: &Checked,
    ground: &Ground,
    store: &mut Store<'_>,
    origins: &mut Vec<Origin>,
    judged: &mut Judged,
    marks: &Marks,
    number: u32,
    limit: u32,
    watch: &W,
) -> Result<Ended, AllocError>
    requires limit { limit ≤ 4194304 }
    requires paused { IsPaused checked.now.client limit ground.now store.old origins.old.items marks.now number }
    ensures { IfOk result (IsEnded checked.now.client limit ground.now store.new) }
{
    match search(
        rt,
        alloc,
        checked,
        ground,
        store,
        origins,
        judged,
        marks,
        number,
        u32::MAX,
        limit,
        watch,
    ) {
        Ok(_) => Ok(Ended::Worked),
        Err(stop) => {
            let slice = origins.as_slice();
            let why = stopped(alloc, checked, ground, store, slice, limit, stop)?;
            Ok(Ended::Early(why))
        }
    }
}

// How a search ends that begins at the initial state.
fn found_from<R: Wait, W: Watch>(
    rt: &R,
    alloc: Global,
    checked: &Checked,
    ground: &Ground,
    store: &mut Store<'_>,
    limit: u32,
    watch: &W,
) -> Result<Ended, AllocError>
    requires client { store.old.client ≡ checked.now.client }
    requires started { IsStarted checked.now.client ground.now store.old.states }
    requires few { length store.old.states ≤ limit }
    requires limit { limit ≤ 4194304 }
    requires room { HasRoom ground.now store.old.kept 8 }
    ensures { IfOk result (IsEnded checked.now.client limit ground.now store.new) }
{
    let mut origins = Vec::new(alloc);
    let mut judged = Judged::new(alloc)?;
    let mut marks = Marks::new(alloc);
    let (ways, noted, worked) = (&mut origins, &mut judged, &mut marks);
    match first_found(
        rt, alloc, checked, ground, store, ways, noted, worked, limit, watch,
    )? {
        First::Stopped(why) => Ok(Ended::Early(why)),
        First::GoesOn(number) => found_behind(
            rt, alloc, checked, ground, store, ways, noted, worked, number, limit, watch,
        ),
    }
}

// Whether it looks as if there are many more states than those that were met: where more than one in eleven of them is not worked yet.
fn are_many(met: usize, worked: u32) -> bool {
    met.saturating_sub(worked as usize) > met / 11
}

// Searches from the initial state on until several workers are to go on, or the search is over: how far it has come.
fn search_alone<R: Wait>(
    rt: &R,
    alloc: Global,
    checked: &Checked,
    ground: &Ground,
    store: &mut Store<'_>,
    origins: &mut Vec<Origin>,
    judged: &mut Judged,
    limit: u32,
) -> Result<u32, Stop>
    requires client { store.old.client ≡ checked.now.client }
    requires searched { IsSearched checked.now.client ground.now store.old.states origins.old.items 0 }
    requires good { AllGood checked.now.client store.old.states }
    requires few { length store.old.states ≤ limit }
    requires limit { limit ≤ 4194304 }
    requires room { HasRoom ground.now store.old.kept 8 }
    ensures searched { IfOk result (λ number. IsSearched checked.now.client ground.now store.new.states origins.new.items number) }
    ensures good { OnOk result (AllGood checked.now.client store.new.states) }
    ensures low { IfOk result (λ number. number ≤ length store.new.states) }
    ensures few { OnOk result (length store.new.states ≤ limit) }
    ensures stop { IfErr result (IsStop checked.now.client ground.now limit store.new.states origins.new.items) }
    ensures client { store.new.client ≡ store.old.client }
{
    let marks = Marks::new(alloc);
    let number = search(
        rt, alloc, checked, ground, store, origins, judged, &marks, 0, EARLY, limit, &NoWatch,
    )?;
    if are_many(store.len(), number) {
        return Ok(number);
    }
    search(
        rt, alloc, checked, ground, store, origins, judged, &marks, number, ALONE, limit, &NoWatch,
    )
}

// What the first states tell, from the initial state on, and where a search of them is not over how far it has come.
fn first_alone<R: Wait>(
    rt: &R,
    alloc: Global,
    checked: &Checked,
    ground: &Ground,
    store: &mut Store<'_>,
    limit: u32,
) -> Result<First, AllocError>
    requires client { store.old.client ≡ checked.now.client }
    requires started { IsStarted checked.now.client ground.now store.old.states }
    requires few { length store.old.states ≤ limit }
    requires limit { limit ≤ 4194304 }
    requires room { HasRoom ground.now store.old.kept 8 }
    ensures { IfOk result (IsFirstAlone checked.now.client limit ground.now store.new) }
{
    let mut origins = Vec::new(alloc);
    if !is_first_good(alloc, checked, ground, store)? {
        let trace = short_trace(alloc, checked, ground, origins.as_slice(), 0)?;
        return Ok(First::Stopped(Stopped::Trace(trace)));
    }
    let mut judged = Judged::new(alloc)?;
    let (ways, noted) = (&mut origins, &mut judged);
    match search_alone(rt, alloc, checked, ground, store, ways, noted, limit) {
        Ok(number) => Ok(First::GoesOn(number)),
        Err(stop) => {
            let slice = origins.as_slice();
            stopped_first(alloc, checked, ground, store, slice, limit, stop)
        }
    }
}

// By what a search of this grain goes, and the store with which it begins.
fn begun<'a>(
    alloc: Global,
    checked: &'a Checked,
    grain: Grain,
) -> Result<(Ground, Store<'a>), AllocError>
    ensures closed { IfOk result (λ b. IsGround checked.now.client b.0) }
    ensures least { IfOk result (λ b. HasLeastTable checked.now.client b.0) }
    ensures grain { IfOk result (λ b. grain_of b.0 ≡ grain) }
    ensures client { IfOk result (λ b. b.1.client ≡ checked.now.client) }
    ensures states { IfOk result (λ b. IsStarted checked.now.client b.0 b.1.states) }
    ensures room { IfOk result (λ b. HasRoom b.0 b.1.kept 8) }
{
    let ground = ground_of(alloc, checked, grain)?;
    match started(alloc, checked, &ground) {
        Ok(store) => Ok((ground, store)),
        Err(reason) => {
            drop(ground);
            Err(reason)
        }
    }
}

// What a search found that all states of this store are worked by.
fn worked_out<'c>(checked: &Checked, ground: Ground, store: Store<'c>, limit: u32) -> Finding<'c>
    requires closed { IsGround checked.now.client ground }
    requires least { HasLeastTable checked.now.client ground }
    requires client { store.client ≡ checked.now.client }
    requires searched { AreSearched checked.now.client ground store.states }
    requires few { length store.states ≤ limit }
    requires limit { limit ≤ 4194304 }
    ensures { IsFinding checked.now.client limit (grain_of ground) result }
{
    Finding::Worked(Worked { ground, store })
}

// What a search found that stopped early.
fn finding_for<'c>(checked: &'c Checked, why: Stopped, limit: u32) -> Finding<'c>
    requires { IsStopped checked.now.client limit why }
    ensures { (g : GrainValue) → IsFinding checked.now.client limit g result }
{
    match why {
        Stopped::Trace(trace) => Finding::Trace(trace),
        Stopped::LimitReached => Finding::LimitReached,
    }
}

// What a search found that ended so.
fn finding_of<'c>(
    checked: &'c Checked,
    ground: Ground,
    store: Store<'c>,
    ended: Ended,
    limit: u32,
) -> Finding<'c>
    requires closed { IsGround checked.now.client ground }
    requires least { HasLeastTable checked.now.client ground }
    requires ended { IsEnded checked.now.client limit ground store ended }
    requires limit { limit ≤ 4194304 }
    ensures { IsFinding checked.now.client limit (grain_of ground) result }
{
    match ended {
        Ended::Worked => worked_out(checked, ground, store, limit),
        Ended::Early(why) => {
            drop(store);
            drop(ground);
            finding_for(checked, why, limit)
        }
    }
}

// What is found where the caller has searched all states alone: these, unless they are so few that all workers search them.
fn found_alone<'c, W: Watch>(
    checked: &Checked,
    ground: Ground,
    store: Store<'c>,
    number: u32,
    limit: u32,
    watch: &W,
) -> Soon<'c>
    requires limit { limit ≤ 4194304 }
    requires closed { IsGround checked.now.client ground }
    requires least { HasLeastTable checked.now.client ground }
    requires begun { IsBegunAlone checked.now.client limit ground store number }
    requires all { length store.states ≤ number }
    ensures { IsSoon checked.now.client limit (grain_of ground) result }
{
    if store.len() < SHARED {
        drop(store);
        drop(ground);
        return Soon::Few;
    }
    watch.met(store.len() as u64, 0);
    Soon::Found(worked_out(checked, ground, store, limit))
}

// What several workers find by regions, from the first states on that one has searched.
fn found_behind_first<'c, R: Threads + Wait + Sync, W: Watch + Sync>(
    rt: &R,
    alloc: Global,
    checked: &'c Checked,
    table: Table,
    store: Store<'c>,
    workers: u64,
    limit: u32,
    watch: &W,
) -> Result<Soon<'c>, AllocError>
    requires workers { (1 ≤ workers) × (workers ≤ 64) }
    requires limit { limit ≤ 4194304 }
    requires closed { IsGround checked.now.client (grounds.Steps table) }
    requires least { HasLeastTable checked.now.client (grounds.Steps table) }
    requires client { store.client ≡ checked.now.client }
    requires sound { AreSound checked.now.client store.states }
    requires begun { HasBegun checked.now.client (grounds.Steps table) store.states }
    requires few { length store.states ≤ limit }
    ensures { IfOk result (IsSoon checked.now.client limit grains.Steps) }
{
    match by_regions(rt, alloc, checked, &table, store, workers, limit, watch) {
        Ok(Some(store)) => {
            let ground = Ground::Steps(table);
            Ok(Soon::Found(worked_out(checked, ground, store, limit)))
        }
        Ok(None) => {
            drop(table);
            Ok(Soon::Unknown)
        }
        Err(reason) => {
            drop(table);
            Err(reason)
        }
    }
}

// The same from the first states on that one has searched up to state `number`; by crossings one goes on.
fn found_by_regions<'c, R: Threads + Wait + Sync, W: Watch + Sync>(
    rt: &R,
    alloc: Global,
    checked: &'c Checked,
    ground: Ground,
    store: Store<'c>,
    number: u32,
    workers: u64,
    limit: u32,
    watch: &W,
) -> Result<Soon<'c>, AllocError>
    requires workers { (1 ≤ workers) × (workers ≤ 64) }
    requires limit { limit ≤ 4194304 }
    requires closed { IsGround checked.now.client ground }
    requires least { HasLeastTable checked.now.client ground }
    requires begun { IsBegunAlone checked.now.client limit ground store number }
    ensures { IfOk result (IsSoon checked.now.client limit (grain_of ground)) }
{
    if number as usize >= store.len() {
        return Ok(found_alone(checked, ground, store, number, limit, watch));
    }
    match ground {
        Ground::Steps(table) => {
            found_behind_first(rt, alloc, checked, table, store, workers, limit, watch)
        }
        Ground::Crossings(own, table) => {
            drop(own);
            drop(table);
            drop(store);
            Ok(Soon::Unknown)
        }
    }
}

// What the first states tell, and a search by regions from them on, where there is memory.
fn found_soon<'c, R: Threads + Wait + Sync, W: Watch + Sync>(
    rt: &R,
    alloc: Global,
    checked: &'c Checked,
    workers: u64,
    limit: u32,
    watch: &W,
) -> Result<Soon<'c>, AllocError>
    requires workers { (1 ≤ workers) × (workers ≤ 64) }
    requires limit { limit ≤ 4194304 }
    ensures { IfOk result (IsSoon checked.now.client limit grains.Steps) }
{
    let made = begun(alloc, checked, Grain::Steps)?;
    let (ground, mut store) = made;
    if store.len() > limit as usize {
        store.states_differ();
        drop(store);
        drop(ground);
        return Ok(Soon::Found(Finding::LimitReached));
    }
    match first_alone(rt, alloc, checked, &ground, &mut store, limit) {
        Ok(First::GoesOn(number)) => found_by_regions(
            rt, alloc, checked, ground, store, number, workers, limit, watch,
        ),
        Ok(First::Stopped(why)) => {
            drop(store);
            drop(ground);
            Ok(Soon::Found(finding_for(checked, why, limit)))
        }
        Err(reason) => {
            drop(store);
            drop(ground);
            Err(reason)
        }
    }
}

// What is found, where there is memory.
fn explored<'c, R: Wait, W: Watch>(
    rt: &R,
    alloc: Global,
    checked: &'c Checked,
    grain: Grain,
    limit: u32,
    watch: &W,
) -> Result<Finding<'c>, AllocError>
    requires { limit ≤ 4194304 }
    ensures { IfOk result (IsFinding checked.now.client limit grain) }
{
    let made = begun(alloc, checked, grain)?;
    let (ground, mut store) = made;
    if store.len() > limit as usize {
        store.states_differ();
        drop(store);
        drop(ground);
        return Ok(Finding::LimitReached);
    }
    match found_from(rt, alloc, checked, &ground, &mut store, limit, watch) {
        Ok(ended) => Ok(finding_of(checked, ground, store, ended, limit)),
        Err(reason) => {
            drop(store);
            drop(ground);
            Err(reason)
        }
    }
}

// Whether there are no more states than the limit, and all are worked.
fn are_all_worked<R: Threads + Sync>(
    rt: &R,
    alloc: Global,
    checked: &Checked,
    table: &Table,
    store: &Store<'_>,
    workers: u64,
    limit: u32,
) -> Result<bool, AllocError>
    requires client { store.now.client ≡ checked.now.client }
    requires begun { HasBegun checked.now.client any_steps store.now.states }
    requires limit { limit ≤ 4194304 }
    ensures { IfOk result (λ all. all ≡ true → AreSearched checked.now.client (grounds.Steps table.now) store.now.states × (length store.now.states ≤ limit)) }
{
    if store.len() > limit as usize {
        return Ok(false);
    }
    are_worked(rt, alloc, checked, table, store, workers)
}

// Whether a worker's ending leaves what all have met: where there was nothing more to do.
fn is_quiet(ending: Ending) -> Result<bool, AllocError> {
    match ending {
        Ending::Quiet => Ok(true),
        Ending::Astray | Ending::Violation(_) | Ending::Full(_) => Ok(false),
        Ending::Memory => Err(AllocError),
    }
}

// The states that several workers meet in shards, in one store, where all of them end quietly.
fn gathered<'a, R: Threads + Wait + Sync, W: Watch + Sync>(
    rt: &R,
    alloc: Global,
    checked: &'a Checked,
    table: &Table,
    workers: u64,
    limit: u32,
    watch: &W,
) -> Result<Option<Store<'a>>, AllocError>
    requires workers { (1 ≤ workers) × (workers ≤ 64) }
    ensures client { IfOk result (λ o. IfSome o (λ store. store.client ≡ checked.now.client)) }
    ensures begun { IfOk result (λ o. IfSome o (λ store. HasBegun checked.now.client any_steps store.states)) }
{
    let (tables, ending) = search_together(rt, alloc, checked, table, workers, limit, watch)?;
    if !is_quiet(ending)? {
        drop(tables);
        return Ok(None);
    }
    let merged = merged(alloc, checked, table, tables.as_slice());
    drop(tables);
    let store = merged?;
    Ok(Some(store))
}

// What several workers found in shards, if all states that they met are worked.
fn found_together<'c, R: Threads + Sync>(
    rt: &R,
    alloc: Global,
    checked: &'c Checked,
    table: Table,
    store: Store<'c>,
    workers: u64,
    limit: u32,
) -> Result<Option<Finding<'c>>, AllocError>
    requires closed { IsGround checked.now.client (grounds.Steps table) }
    requires least { HasLeastTable checked.now.client (grounds.Steps table) }
    requires client { store.client ≡ checked.now.client }
    requires begun { HasBegun checked.now.client any_steps store.states }
    requires limit { limit ≤ 4194304 }
    ensures { IfOk result (λ found. IfSome found (IsFinding checked.now.client limit grains.Steps)) }
{
    match are_all_worked(rt, alloc, checked, &table, &store, workers, limit) {
        Ok(true) => {
            let ground = Ground::Steps(table);
            Ok(Some(worked_out(checked, ground, store, limit)))
        }
        Ok(false) => {
            drop(store);
            drop(table);
            Ok(None)
        }
        Err(reason) => {
            drop(store);
            drop(table);
            Err(reason)
        }
    }
}

// What several workers find in shards. `None` where one has to search alone: where one of them did not end quietly, or a state is
// missing. They search clients alone that the caller has found right before, within the limit.
fn explored_together<'c, R: Threads + Wait + Sync, W: Watch + Sync>(
    rt: &R,
    alloc: Global,
    checked: &'c Checked,
    workers: u64,
    limit: u32,
    watch: &W,
) -> Result<Option<Finding<'c>>, AllocError>
    requires workers { (1 ≤ workers) × (workers ≤ 64) }
    requires limit { limit ≤ 4194304 }
    ensures { IfOk result (λ found. IfSome found (IsFinding checked.now.client limit grains.Steps)) }
{
    let table = build(alloc, checked)?;
    match gathered(rt, alloc, checked, &table, workers, limit, watch) {
        Ok(Some(store)) => found_together(rt, alloc, checked, table, store, workers, limit),
        Ok(None) => {
            drop(table);
            Ok(None)
        }
        Err(reason) => {
            drop(table);
            Err(reason)
        }
    }
}

// What is found by steps by so many workers, where there is memory.
fn explored_by_steps<'c, R: Threads + Wait + Sync, W: Watch + Sync>(
    rt: &R,
    alloc: Global,
    checked: &'c Checked,
    workers: Workers,
    limit: u32,
    watch: &W,
) -> Result<Finding<'c>, AllocError>
    requires { limit ≤ 4194304 }
    ensures { IfOk result (IsFinding checked.now.client limit grains.Steps) }
{
    let count = workers.count();
    if count < 2 || count > 64 {
        return explored(rt, alloc, checked, Grain::Steps, limit, watch);
    }
    match found_soon(rt, alloc, checked, count, limit, watch)? {
        Soon::Found(finding) => return Ok(finding),
        Soon::Unknown => return explored(rt, alloc, checked, Grain::Steps, limit, watch),
        Soon::Few => {}
    }
    match explored_together(rt, alloc, checked, count, limit, watch)? {
        Some(finding) => Ok(finding),
        None => explored(rt, alloc, checked, Grain::Steps, limit, watch),
    }
}

// What is found by a search of this grain, where there is memory.
fn explored_by<'c, R: Threads + Wait + Sync, W: Watch + Sync>(
    rt: &R,
    alloc: Global,
    checked: &'c Checked,
    grain: Grain,
    workers: Workers,
    limit: u32,
    watch: &W,
) -> Result<Finding<'c>, AllocError>
    requires { limit ≤ 4194304 }
    ensures { IfOk result (IsFinding checked.now.client limit grain) }
{
    match grain {
        Grain::Steps => explored_by_steps(rt, alloc, checked, workers, limit, watch),
        Grain::Crossings => explored(rt, alloc, checked, grain, limit, watch),
    }
}

/// Searches the client's compact states, and hands out those that it met where all runs are good: nothing of a certificate is made yet.
/// By steps it goes from the initial state, following chosen actors alone (Godefroid 1996), with the least closed table of footprints. By
/// crossings it goes from where the run from the initial state stops, following the moves of all actors and the runs of free actors' moves
/// behind them, with a table of intervals that no state has a say in; one worker goes so, however many are allowed.
///
/// One worker searches by breadth. If 4,096 states do not end that, it goes on for a while by probes, which are short depth-first
/// searches, and by two long hunts, one by breadth and one by depth, which come to states that lie deep sooner; and then by breadth
/// again. The trace of a run that is not good is made short (`shortened`).
///
/// Several workers go on by regions where the caller, alone, has met 8,192 states and has found nothing. Of fewer, but 512 or more,
/// it hands out its own search, and tells the watch how many they are. A client of fewer than 512 states is searched by all workers in
/// shards; the watch is then told of theirs. Where several end without an answer, as where a run is met that is not good, one searches
/// anew.
pub fn find<'c, R: Threads + Wait + Sync, W: Watch + Sync>(
    rt: &R,
    alloc: Global,
    checked: &'c Checked,
    grain: Grain,
    workers: Workers,
    state_limit: u32,
    watch: &W,
) -> Finding<'c>
    requires { state_limit ≤ 4194304 }
    ensures { IsFinding checked.now.client state_limit grain result }
{
    match explored_by(rt, alloc, checked, grain, workers, state_limit, watch) {
        Ok(finding) => finding,
        Err(_) => Finding::NoMemory,
    }
}

// The certificate of worked states.
fn certificate_of<R: Threads + Sync>(
    rt: &R,
    alloc: Global,
    checked: &Checked,
    worked: Worked<'_>,
    workers: Workers,
    limit: u32,
) -> Outcome
    requires worked { AreWorkedOut checked.now.client worked }
    requires few { length worked.store.states ≤ limit }
    ensures { IsOutcome checked.now.client limit result }
{
    match tree_for(rt, alloc, checked, &worked, workers) {
        Ok(cert) => {
            let Worked { ground, store } = worked;
            drop(store);
            Outcome::Certificate(ground, cert)
        }
        Err(_) => {
            drop(worked);
            Outcome::NoMemory
        }
    }
}

/// What `find` finds, with the records of worked states as a tree. Of a certificate that it hands out the spelling is a valid
/// certificate of the client.
pub fn explore<R: Threads + Wait + Sync, W: Watch + Sync>(
    rt: &R,
    alloc: Global,
    checked: &Checked,
    grain: Grain,
    workers: Workers,
    state_limit: u32,
    watch: &W,
) -> Outcome
    requires { state_limit ≤ 4194304 }
    ensures { IsOutcome checked.now.client state_limit result }
{
    match find(rt, alloc, checked, grain, workers, state_limit, watch) {
        Finding::Worked(worked) => {
            certificate_of(rt, alloc, checked, worked, workers, state_limit)
        }
        Finding::Trace(trace) => Outcome::Trace(trace),
        Finding::LimitReached => Outcome::LimitReached,
        Finding::NoMemory => Outcome::NoMemory,
    }
}
