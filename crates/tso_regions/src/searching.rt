//! The search by regions.

ghost use Rattle.std.specs.Prelude.{◌≡◌, ◌≤◌, IfOk, IfSome, Some, length, true};
ghost use Rattle.tso_parts.specs.Numbers.{IsNumbered};
ghost use Rattle.tso_regions.specs.Gathering.{AreSettledBetween, IsBegunAt};
ghost use Rattle.tso_regions.specs.Regions.{AreSound};
ghost use Rattle.tso_search.specs.BySteps.{AreSearched};

use crate::gathering::gathered_of;
use crate::owner::Owner;
use crate::parcel::Parcel;
use crate::pile::{Ended, Pile};
use crate::realm::Realm;
use crate::region::Region;
use crate::settling::Asked;
use crate::team::{Team, work_all};
use std::alloc::{AllocError, Global};
use std::marker::Brand;
use std::sync::{Condvar, Mutex, Wait};
use std::thread::Threads;
use tso_cert::{Watch, run_by};
use tso_flow::Checked;
use tso_foot::Table;
use tso_state::initial_state;
use tso_store::{Gathered, Store};

// So many regions, none of which has begun, each behind its lock.
fn regions_of<'a, U: Realm>(
    alloc: Global,
    checked: &'a Checked,
    table: &'a Table,
    count: u64,
) -> Result<Vec<Mutex<Region<'a, U>>>, AllocError>
    requires client { U.client ≡ Some checked.now.client }
    requires table { U.table ≡ Some table.now }
{
    let mut regions = Vec::new(alloc);
    for number in 0..count {
        let owner = Owner { number, count };
        let region = Region::new(alloc, checked, table, owner)?;
        regions.push(Mutex::new(region))?;
    }
    Ok(regions)
}

// The regions without their locks.
fn unlocked<'a, U: Realm>(
    alloc: Global,
    locks: Vec<Mutex<Region<'a, U>>>,
) -> Result<Vec<Region<'a, U>>, AllocError> {
    let mut regions = Vec::new(alloc);
    for lock in locks {
        regions.push(lock.into_inner())?;
    }
    Ok(regions)
}

// A parcel for each of so many regions.
fn parcels_for<'a, U: Realm>(
    alloc: Global,
    checked: &'a Checked,
    count: u64,
) -> Result<Vec<Mutex<Parcel<'a, U>>>, AllocError>
    requires { U.client ≡ Some checked.now.client }
{
    let mut parcels = Vec::new(alloc);
    for _ in 0..count {
        parcels.push(Mutex::new(Parcel::new(alloc, checked)))?;
    }
    Ok(parcels)
}

// Lets the workers work regions, from the first states on, until no state is left to work: whether it came to that.
fn go_on<'a, U: Realm + Send + Sync, R: Threads + Wait + Sync, W: Watch + Sync>(
    rt: &R,
    alloc: Global,
    checked: &'a Checked,
    first: &Parcel<'_, U>,
    regions: &[Mutex<Region<'a, U>>],
    workers: u64,
    limit: u32,
    watch: &W,
) -> Result<bool, AllocError>
    requires { U.client ≡ Some checked.now.client }
{
    let count = regions.len() as u64;
    let parcels = parcels_for(alloc, checked, count)?;
    let pile = Mutex::new(Pile::new(alloc, count, first.count() as u64)?);
    let woken = Condvar::new();
    let team = Team {
        rt,
        alloc,
        checked,
        first,
        regions,
        parcels: parcels.as_slice(),
        pile: &pile,
        woken: &woken,
        limit,
        watch,
    };
    Ok(work_all(rt, &team, workers)? == Ended::Over)
}

// Whether the first region begins with the initial state.
fn is_begun<U: Realm>(
    alloc: Global,
    checked: &Checked,
    regions: &[Region<'_, U>],
) -> Result<bool, AllocError>
    ensures { IfOk result (λ begun. begun ≡ true → IsBegunAt checked.now.client regions.now) }
{
    let initial = initial_state(alloc, checked)?;
    match regions.first() {
        Some(region) => Ok(region.begins_with(&initial)),
        None => Ok(false),
    }
}

// Whether the first region begins with the initial state, and all are settled, which all workers ask.
fn are_settled<U: Realm + Send + Sync, R: Threads + Sync>(
    rt: &R,
    alloc: Global,
    checked: &Checked,
    regions: &[Region<'_, U>],
    workers: u64,
) -> Result<bool, AllocError>
    ensures begun { IfOk result (λ settled. settled ≡ true → IsBegunAt checked.now.client regions.now) }
    ensures settled { IfOk result (λ settled. settled ≡ true → AreSettledBetween U.client U.table (length regions.now) regions.now 0 (length regions.now)) }
{
    if regions.is_empty() || !is_begun(alloc, checked, regions)? {
        return Ok(false);
    }
    let asked = Asked {
        alloc,
        regions,
        count: regions.len() as u64,
        from: 0,
        to: regions.len(),
    };
    run_by(rt, &asked, workers)
}

// The states of all regions in one store, if all are settled and there are not too many.
fn concluded<'c, U: Realm + Send + Sync, R: Threads + Sync>(
    rt: &R,
    alloc: Global,
    checked: &'c Checked,
    table: &Table,
    regions: Vec<Region<'_, U>>,
    workers: u64,
    limit: u32,
) -> Result<Option<Store<'c>>, AllocError>
    requires client { U.client ≡ Some checked.now.client }
    requires table { U.table ≡ Some table.now }
    requires limit { limit ≤ 4194304 }
    ensures client { IfOk result (λ found. IfSome found (λ store. store.client ≡ checked.now.client)) }
    ensures searched { IfOk result (λ found. IfSome found (λ store. AreSearched checked.now.client table.now store.states)) }
    ensures few { IfOk result (λ found. IfSome found (λ store. length store.states ≤ limit)) }
{
    match are_settled(rt, alloc, checked, regions.as_slice(), workers) {
        Ok(true) => {}
        Ok(false) => {
            drop(regions);
            return Ok(None);
        }
        Err(reason) => {
            drop(regions);
            return Err(reason);
        }
    }
    let count = regions.len() as u64;
    match gathered_of(alloc, checked, regions, count)? {
        Some(gathered) => finished(gathered, limit),
        None => Ok(None),
    }
}

// One store of these states, which has learnt what its look-ups remember, if there are not too many.
fn finished<'c>(gathered: Gathered<'c>, limit: u32) -> Result<Option<Store<'c>>, AllocError>
    requires differ { IsNumbered gathered.states }
    requires limit { limit ≤ 4194304 }
    ensures client { IfOk result (λ found. IfSome found (λ store. store.client ≡ gathered.entry.client)) }
    ensures states { IfOk result (λ found. IfSome found (λ store. store.states ≡ gathered.entry.states)) }
    ensures few { IfOk result (λ found. IfSome found (λ store. length store.states ≤ limit)) }
{
    if gathered.len() > limit as usize {
        drop(gathered);
        return Ok(None);
    }
    let mut store = gathered.finish();
    match store.learn() {
        Ok(()) => Ok(Some(store)),
        Err(reason) => {
            drop(store);
            Err(reason)
        }
    }
}

// The regions in which all is worked that comes of the first states, if it came to that.
fn worked_regions<'a, U: Realm + Send + Sync, R: Threads + Wait + Sync, W: Watch + Sync>(
    rt: &R,
    alloc: Global,
    checked: &'a Checked,
    table: &'a Table,
    first: &Parcel<'_, U>,
    workers: u64,
    limit: u32,
    watch: &W,
) -> Result<Option<Vec<Region<'a, U>>>, AllocError>
    requires client { U.client ≡ Some checked.now.client }
    requires table { U.table ≡ Some table.now }
{
    let locks = regions_of(alloc, checked, table, workers)?;
    let regions = locks.as_slice();
    if go_on(rt, alloc, checked, first, regions, workers, limit, watch)? {
        return Ok(Some(unlocked(alloc, locks)?));
    }
    Ok(None)
}

// What a search by regions finds, where the realm is this.
fn run_as<'c, U: Realm + Send + Sync, R: Threads + Wait + Sync, W: Watch + Sync>(
    rt: &R,
    alloc: Global,
    checked: &'c Checked,
    table: &Table,
    first: Store<'c>,
    workers: u64,
    limit: u32,
    watch: &W,
) -> Result<Option<Store<'c>>, AllocError>
    requires realm { U.client ≡ Some checked.now.client }
    requires table { U.table ≡ Some table.now }
    requires workers { (1 ≤ workers) × (workers ≤ 64) }
    requires limit { limit ≤ 4194304 }
    requires client { first.client ≡ checked.now.client }
    requires sound { AreSound checked.now.client first.states }
    ensures client { IfOk result (λ found. IfSome found (λ store. store.client ≡ checked.now.client)) }
    ensures searched { IfOk result (λ found. IfSome found (λ store. AreSearched checked.now.client table.now store.states)) }
    ensures few { IfOk result (λ found. IfSome found (λ store. length store.states ≤ limit)) }
{
    let first = Parcel::<U>::of(first);
    let worked = worked_regions(rt, alloc, checked, table, &first, workers, limit, watch);
    drop(first);
    match worked? {
        Some(regions) => concluded(rt, alloc, checked, table, regions, workers, limit),
        None => Ok(None),
    }
}

/// Lets so many workers, from 1 to 64, search on from the first states: all states that there are then, each worked, in one store that is
/// read by their numbers. Each state belongs to one of as many regions, which its history tells, and is worked there alone; a region
/// begins with those of the first states that belong to it. A worker takes a region that has something to do, works some of its states, what was met last
/// first, and hands on what belongs to others. `None` where a run is met that is not good, where there are more states than the limit, or
/// where there are too many for numbers: that tells nothing.
///
/// Errors: where a growth was refused.
pub fn by_regions<'c, R: Threads + Wait + Sync, W: Watch + Sync>(
    rt: &R,
    alloc: Global,
    checked: &'c Checked,
    table: &Table,
    first: Store<'c>,
    workers: u64,
    limit: u32,
    watch: &W,
) -> Result<Option<Store<'c>>, AllocError>
    requires workers { (1 ≤ workers) × (workers ≤ 64) }
    requires limit { limit ≤ 4194304 }
    requires client { first.client ≡ checked.now.client }
    requires sound { AreSound checked.now.client first.states }
    ensures client { IfOk result (λ found. IfSome found (λ store. store.client ≡ checked.now.client)) }
    ensures searched { IfOk result (λ found. IfSome found (λ store. AreSearched checked.now.client table.now store.states)) }
    ensures few { IfOk result (λ found. IfSome found (λ store. length store.states ≤ limit)) }
{
    run_as::<Brand, R, W>(rt, alloc, checked, table, first, workers, limit, watch)
}
