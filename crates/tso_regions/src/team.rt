//! Workers over regions.

ghost use Rattle.std.specs.Prelude.{◌≡◌, Some};
ghost use Rattle.std.specs.Thread.{IsSend, IsSync};

use crate::halt::Halt;
use crate::parcel::Parcel;
use crate::pile::{Ended, Found, Pile};
use crate::realm::Realm;
use crate::region::Region;
use std::alloc::{AllocError, Global};
use std::sync::{Condvar, Mutex, Wait};
use std::thread::Threads;
use std::{mem, thread};
use tso_cert::Watch;
use tso_flow::Checked;

/// How many states a region works before it hands on what belongs to others.
const TURNS: u32 = 4_096;

/// What the workers of one search share: the first states, the regions, for each the parcel of states that come to it, and the pile of those that have something to
/// do. Whoever holds the lock of a region takes locks of parcels and then the pile's; who holds one of these takes no other.
#[derive(Drop)]
pub struct Team<'t, 'a, U: Realm, R: Wait, W: Watch> {
    pub rt: &'t R,
    pub alloc: Global,
    pub checked: &'a Checked,
    pub first: &'t Parcel<'t, U>,
    pub regions: &'t [Mutex<Region<'a, U>>],
    pub parcels: &'t [Mutex<Parcel<'a, U>>],
    pub pile: &'t Mutex<Pile>,
    pub woken: &'t Condvar,
    pub limit: u32,
    pub watch: &'t W,
    pub ghost of_client: { U.client ≡ Some checked.now.client },
}

// Lets a region take what has come for it.
fn receive<'a, U: Realm, R: Wait, W: Watch>(
    team: &Team<'_, 'a, U, R, W>,
    number: usize,
    region: &mut Region<'a, U>,
) {
    let Some(lock) = team.parcels.get(number) else {
        return;
    };
    let empty = Parcel::new(team.alloc, team.checked);
    let mut parcel = lock.lock(team.rt);
    let come = mem::replace(&mut *parcel, empty);
    drop(parcel);
    region.receive(&come);
    drop(come);
}

// Has a region put what belongs to another into the parcel for it.
fn hand_to<'a, U: Realm, R: Wait, W: Watch>(
    team: &Team<'_, 'a, U, R, W>,
    region: &mut Region<'a, U>,
    other: u64,
) {
    if let Some(lock) = team.parcels.get(other as usize) {
        let mut parcel = lock.lock(team.rt);
        region.hand_on(other, &mut *parcel);
    }
}

// The same for each other one.
fn hand_on<'a, U: Realm, R: Wait, W: Watch>(
    team: &Team<'_, 'a, U, R, W>,
    region: &mut Region<'a, U>,
) {
    for other in 0..team.regions.len() as u64 {
        if region.has_for(other) {
            hand_to(team, region, other);
        }
    }
}

// Why a search is to end behind a turn, where it is.
fn end_of<U: Realm>(region: &Region<'_, U>, own: u64, limit: u32) -> Option<Ended> {
    match region.halt() {
        Some(Halt::Memory) => Some(Ended::Memory),
        Some(_) => Some(Ended::Stopped),
        None if own > limit as u64 => Some(Ended::Stopped),
        None => None,
    }
}

// Gives a region back to the pile, and calls those for which it had something. The watch is told under the pile's lock, so that it hears
// no count after a later one.
fn put_back<'a, U: Realm, R: Wait, W: Watch>(
    team: &Team<'_, 'a, U, R, W>,
    number: usize,
    region: &mut Region<'a, U>,
    more: u64,
) {
    let mut pile = team.pile.lock(team.rt);
    for other in 0..team.regions.len() as u64 {
        if region.has_for(other) {
            pile.call(other);
        }
    }
    region.forget_sent();
    let own = pile.put_back(number, !region.is_over(), more);
    if let Some(ended) = end_of(region, own, team.limit) {
        pile.end(ended);
    }
    team.woken.notify_all();
    team.watch.met(own, 0);
}

// Works a region for a while.
fn turn<'a, U: Realm, R: Wait, W: Watch>(team: &Team<'_, 'a, U, R, W>, number: usize) {
    let Some(lock) = team.regions.get(number) else {
        return;
    };
    let mut region = lock.lock(team.rt);
    region.begin(team.alloc, team.first);
    let before = region.own_count();
    receive(team, number, &mut *region);
    region.turn(team.alloc, TURNS);
    hand_on(team, &mut *region);
    let more = region.own_count().saturating_sub(before);
    put_back(team, number, &mut *region, more as u64);
}

// The next region for a worker, which sleeps while none waits. `None` where the search has ended.
fn next<'a, U: Realm, R: Wait, W: Watch>(team: &Team<'_, 'a, U, R, W>) -> Option<usize> {
    let mut pile = team.pile.lock(team.rt);
    for _ in team.rt.forever() {
        match pile.find() {
            Found::Region(number) => return Some(number),
            Found::Nothing => pile = team.woken.wait(team.rt, pile),
            Found::End => break,
        }
    }
    team.woken.notify_all();
    None
}

// Works regions until the search has ended.
fn work<'a, U: Realm, R: Wait, W: Watch>(team: &Team<'_, 'a, U, R, W>) {
    for _ in team.rt.forever() {
        match next(team) {
            Some(number) => turn(team, number),
            None => return,
        }
    }
}

// Lets so many workers work. The caller is one of them, and starts the others itself, one after another: threads that two start at one
// time may go to one processor, and wait for each other there.
fn work_by<U: Realm + Send + Sync, R: Threads + Wait + Sync, W: Watch + Sync>(
    rt: &R,
    team: &Team<'_, '_, U, R, W>,
    workers: u64,
) {
    if workers < 2 {
        work(team);
        return;
    }
    let fewer = workers - 1;
    thread::join(
        rt,
        ||
            requires { IsSync R.row × IsSync U.row × IsSend U.row × IsSync W.row }
        { work(team) },
        ||
            requires { IsSync R.row × IsSync U.row × IsSend U.row × IsSync W.row }
        { work_by(rt, team, fewer) },
    );
}

/// Lets so many workers work the regions until the search has ended, each in a thread of its own where one can be started: how it ended.
///
/// Errors: where a growth was refused.
pub fn work_all<U: Realm + Send + Sync, R: Threads + Wait + Sync, W: Watch + Sync>(
    rt: &R,
    team: &Team<'_, '_, U, R, W>,
    workers: u64,
) -> Result<Ended, AllocError> {
    work_by(rt, team, workers);
    let pile = team.pile.lock(rt);
    match pile.ended() {
        Some(Ended::Memory) => Err(AllocError),
        Some(ended) => Ok(ended),
        None => Ok(Ended::Stopped),
    }
}
