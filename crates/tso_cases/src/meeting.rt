//! Two that meet: the first that comes waits until another has come.

use std::sync::atomic::{AtomicBool, AtomicU64, Ordering};
use std::thread;

/// How often one that waits lets others go on before it gives up.
const TURNS: u64 = 10_000_000;

/// Nobody's number.
const NOBODY: u64 = u64::MAX;

/// A place where two meet, each by its number.
#[derive(Drop)]
pub struct Meeting {
    first: AtomicU64,
    has_met: AtomicBool,
    has_given_up: AtomicBool,
}

impl Meeting {
    /// Nobody has come.
    pub fn new() -> Meeting {
        Meeting {
            first: AtomicU64::new(NOBODY),
            has_met: AtomicBool::new(false),
            has_given_up: AtomicBool::new(false),
        }
    }

    /// Comes with a number. The number of the one that came first, if any has come before.
    pub fn come(&self, number: u64) -> Option<u64> {
        self.first
            .compare_exchange(NOBODY, number, Ordering::SeqCst, Ordering::SeqCst)
            .err()
    }

    /// Waits until another comes.
    pub fn wait(&self) {
        for _ in 0..TURNS {
            if self.has_met.load(Ordering::SeqCst) {
                return;
            }
            thread::yield_now();
        }
        self.has_given_up.store(true, Ordering::SeqCst);
    }

    /// Lets the one go on that waits.
    pub fn meet(&self) {
        self.has_met.store(true, Ordering::SeqCst);
    }

    /// Whether two have met, and none has given up.
    pub fn is_held(&self) -> bool {
        self.has_met.load(Ordering::SeqCst) && !self.has_given_up.load(Ordering::SeqCst)
    }
}
