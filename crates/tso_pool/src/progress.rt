//! How far several workers have come.

use std::sync::atomic::{AtomicU64, Ordering};
use tso_cert::Watch;

/// How many tickets were handed out, and how many of them were worked, by all workers together. It tells them when to end, and
/// decides nothing.
#[derive(Drop)]
pub struct Progress {
    handed_out: AtomicU64,
    worked: AtomicU64,
}

impl Progress {
    /// None yet.
    pub fn new() -> Progress {
        Progress {
            handed_out: AtomicU64::new(0),
            worked: AtomicU64::new(0),
        }
    }

    /// One more is handed out.
    pub fn hand_out(&self) {
        self.handed_out.fetch_add(1, Ordering::SeqCst);
    }

    /// One more was worked, of which the watch is told.
    pub fn leave<W: Watch>(&self, watch: &W) {
        let worked = self.worked.fetch_add(1, Ordering::SeqCst).saturating_add(1);
        let found = self.handed_out.load(Ordering::SeqCst);
        watch.met(found, found.saturating_sub(worked));
    }

    /// Whether all that were handed out were worked. As none is worked before it is handed out, the second is read first.
    pub fn is_over(&self) -> bool {
        let worked = self.worked.load(Ordering::SeqCst);
        worked == self.handed_out.load(Ordering::SeqCst)
    }
}
