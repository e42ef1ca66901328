//! Workers without a ticket, which sleep until there may be one.

use std::sync::atomic::{AtomicU64, Ordering};
use std::sync::{Condvar, Mutex, Wait};

/// Nothing rests on these counts but how long a worker sleeps.
#[derive(Drop)]
struct Sleepers {
    // Who have found no ticket, and look once more before they sleep, or sleep.
    idle: u64,
    // How often one was to be woken.
    calls: u64,
    is_over: bool,
}

/// Where workers sleep that have found no ticket.
#[derive(Drop)]
pub struct Resting {
    sleepers: Mutex<Sleepers>,
    woken: Condvar,
    // How many are idle, for those who would wake one.
    idle: AtomicU64,
}

impl Resting {
    /// All are awake.
    pub fn new() -> Resting {
        Resting {
            sleepers: Mutex::new(Sleepers {
                idle: 0,
                calls: 0,
                is_over: false,
            }),
            woken: Condvar::new(),
            idle: AtomicU64::new(0),
        }
    }

    /// One has found no ticket: whoever hands out a ticket from now on will call. It looks once more before it sleeps. How
    /// often one was called so far.
    pub fn announce<R: Wait>(&self, rt: &R) -> u64 {
        let mut sleepers = self.sleepers.lock(rt);
        sleepers.idle = sleepers.idle.saturating_add(1);
        self.idle.store(sleepers.idle, Ordering::SeqCst);
        sleepers.calls
    }

    /// It has found one after all.
    pub fn withdraw<R: Wait>(&self, rt: &R) {
        let mut sleepers = self.sleepers.lock(rt);
        sleepers.idle = sleepers.idle.saturating_sub(1);
        self.idle.store(sleepers.idle, Ordering::SeqCst);
    }

    /// Sleeps, if nobody was called since, until one is. True where all are to end.
    pub fn rest<R: Wait>(&self, rt: &R, seen: u64) -> bool {
        let mut sleepers = self.sleepers.lock(rt);
        if sleepers.calls == seen && !sleepers.is_over {
            sleepers = self.woken.wait(rt, sleepers);
        }
        sleepers.idle = sleepers.idle.saturating_sub(1);
        self.idle.store(sleepers.idle, Ordering::SeqCst);
        sleepers.is_over
    }

    /// Calls a worker, if one is idle: there is a ticket more.
    pub fn call<R: Wait>(&self, rt: &R) {
        if self.idle.load(Ordering::SeqCst) > 0 {
            let mut sleepers = self.sleepers.lock(rt);
            sleepers.calls = sleepers.calls.wrapping_add(1);
            self.woken.notify_one();
        }
    }

    /// Lets all end that sleep or would sleep.
    pub fn end<R: Wait>(&self, rt: &R) {
        let mut sleepers = self.sleepers.lock(rt);
        sleepers.is_over = true;
        self.woken.notify_all();
    }
}
