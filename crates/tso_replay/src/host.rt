//! The system's standard error, and its clock.

use crate::progress::{Distance, Listener};
use std::io::Eprint;
use std::sync::atomic::{AtomicU64, Ordering};
use std::time::{Clock, Duration};

/// Says on standard error how far a search has come, at most twice a second, by a clock that started when the program did.
#[derive(Drop)]
pub struct HostListener<'a, R: Clock + Eprint> {
    rt: &'a R,
    started: Duration,
    // The last half second in which something was said.
    said: AtomicU64,
}

impl<'a, R: Clock + Eprint> HostListener<'a, R> {
    /// One that has said nothing.
    pub fn new(rt: &'a R) -> HostListener<'a, R> {
        HostListener {
            rt,
            started: rt.monotonic().unwrap_or(Duration::ZERO),
            said: AtomicU64::new(0),
        }
    }
}

impl<'a, R: Clock + Eprint> Listener for HostListener<'a, R> {
    fn elapsed(&self) -> Option<Duration> {
        match self.rt.monotonic() {
            Ok(now) => Some(now.saturating_sub(self.started)),
            Err(_) => None,
        }
    }

    fn hear(&self, found: u64, left: u64) {
        let Some(since) = self.elapsed() else {
            return;
        };
        let second_half = u64::from(since.subsec_millis() >= 500);
        let half = since
            .as_secs()
            .saturating_mul(2)
            .saturating_add(second_half);
        if half > self.said.swap(half, Ordering::SeqCst) {
            let seconds = since.as_secs();
            let _ = self.rt.eprintln(Distance {
                found,
                left,
                seconds,
            });
        }
    }
}
