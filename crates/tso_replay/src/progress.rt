//! What a search says while it goes on.

use std::fmt;
use std::sync::Wait;
use std::sync::atomic::{AtomicU64, Ordering};
use std::time::Duration;
use tso_cert::Watch;

// A listener hears of a search each time that so many more states have been left.
const EVERY: u64 = 4_096;

/// Hears how far a search has come. Tests give one that hears nothing.
pub trait Listener {
    /// Told how many states were met, and how many of them the search has yet to leave.
    fn hear(&self, found: u64, left: u64);

    /// How long the program has run, where there is a clock.
    fn elapsed(&self) -> Option<Duration>;
}

/// A watch by which a listener hears of a search, where that is wanted. It notes how many
/// states the search met, and when it was last heard of.
#[derive(Drop)]
pub struct Progress<'a, L: Listener> {
    listener: &'a L,
    is_wanted: bool,
    states: AtomicU64,
    // How many it has left.
    done: AtomicU64,
    // When the search was last heard of, and when it had its answer, in milliseconds since the program started.
    last: AtomicU64,
    answered: AtomicU64,
}

impl<'a, L: Listener> Progress<'a, L> {
    /// A watch of a search that has met nothing.
    pub fn new(listener: &'a L, is_wanted: bool) -> Progress<'a, L> {
        Progress {
            listener,
            is_wanted,
            states: AtomicU64::new(0),
            done: AtomicU64::new(0),
            last: AtomicU64::new(0),
            answered: AtomicU64::new(0),
        }
    }

    /// How many states were met.
    pub fn states(&self) -> u64 {
        self.states.load(Ordering::SeqCst)
    }

    /// Notes that the search has its answer.
    pub fn answer(&self) {
        if let Some(now) = self.listener.elapsed() {
            self.answered.store(milliseconds(now), Ordering::SeqCst);
        }
    }

    /// The parts of the time of a search that began then, once all is written; none without a clock.
    pub fn times(&self, begun: Option<Duration>) -> Option<Times> {
        let (begun, now) = (begun?, self.listener.elapsed()?);
        let last = Duration::from_millis(self.last.load(Ordering::SeqCst));
        let answered = Duration::from_millis(self.answered.load(Ordering::SeqCst));
        Some(Times {
            searched: last.saturating_sub(begun),
            composed: answered.saturating_sub(last.max(begun)),
            written: now.saturating_sub(answered),
        })
    }

    fn note(&self) {
        if let Some(now) = self.listener.elapsed() {
            self.last.store(milliseconds(now), Ordering::SeqCst);
        }
    }
}

/// The parts of a search's time: until its last state was left, until its trace was composed or it was known that there is a
/// certificate, and until that was written.
#[derive(Clone, Copy)]
pub struct Times {
    searched: Duration,
    composed: Duration,
    written: Duration,
}

impl Times {
    /// The three in whole milliseconds.
    pub fn milliseconds(&self) -> (u64, u64, u64) {
        (
            milliseconds(self.searched),
            milliseconds(self.composed),
            milliseconds(self.written),
        )
    }
}

impl fmt::Display for Times {
    fn fmt<W: fmt::Write>(&self, f: &mut fmt::Formatter<W>) -> fmt::Result {
        let (searched, composed, written) = self.milliseconds();
        writeln!(
            f,
            "searched: {searched} ms\ncomposed: {composed} ms\nwritten: {written} ms"
        )
    }
}

impl<'a, L: Listener> Watch for Progress<'a, L> {
    fn at<R: Wait>(&self, _rt: &R, _n: u64) {}

    fn met(&self, found: u64, left: u64) {
        let done = found.saturating_sub(left);
        let before = self.done.swap(done, Ordering::SeqCst);
        let is_told = done % EVERY == 0 || done / EVERY != before / EVERY;
        self.states.store(found, Ordering::SeqCst);
        if is_told || left <= 1 {
            self.note();
        }
        if is_told && self.is_wanted {
            self.listener.hear(found, left);
        }
    }
}

// A time in whole milliseconds.
fn milliseconds(time: Duration) -> u64 {
    time.as_secs()
        .saturating_mul(1_000)
        .saturating_add(u64::from(time.subsec_millis()))
}

/// How far a search has come, as it is printed.
#[derive(Clone, Copy)]
pub struct Distance {
    pub found: u64,
    pub left: u64,
    pub seconds: u64,
}

impl fmt::Display for Distance {
    fn fmt<W: fmt::Write>(&self, f: &mut fmt::Formatter<W>) -> fmt::Result {
        write!(
            f,
            "{} states found, {} left, {} s",
            self.found, self.left, self.seconds
        )
    }
}
