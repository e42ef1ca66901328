//! How large the clients of a survey are.

use crate::method::{Word, Words};
use serde_json::Value;
use std::alloc::{AllocError, Global};
use std::fmt;
use tso_front::Members;

/// How many calls a client has at the most, those of its prologue among them.
pub const CLIENT_CALLS: usize = 12;

/// How large the clients of a survey are at the most.
#[derive(Clone, Copy, PartialEq, Eq)]
pub struct Bounds {
    /// How many threads, 1 to 4.
    pub threads: usize,
    /// How many calls all threads have, 1 to 12.
    pub calls: usize,
    /// How many pushes the prologue has, 0 to 4.
    pub before: usize,
    /// How many threads push.
    pub producers: usize,
    /// How many threads pop.
    pub consumers: usize,
}

impl Bounds {
    /// The bounds of clients with a prologue of so many pushes.
    pub fn behind(&self, before: usize) -> Bounds {
        Bounds {
            calls: self.calls.min(CLIENT_CALLS.saturating_sub(before)),
            ..*self
        }
    }

    /// What is said where all clients within them are accepted, and so many were searched, as an object of JSON.
    ///
    /// Errors: where a growth was refused.
    pub fn object(&self, alloc: Global, searched: usize) -> Result<Value, AllocError> {
        let object = Members::new(alloc)
            .text("verdict", "accepted")?
            .number("threads", self.threads as u64)?
            .number("calls", self.calls as u64)?
            .number("before", self.before as u64)?
            .number("producers", self.producers as u64)?
            .number("consumers", self.consumers as u64)?
            .number("searched", searched as u64)?;
        Ok(object.object())
    }

    /// Whether threads with the words of these numbers are within the bounds.
    pub fn admit(&self, words: &Words, threads: &[usize]) -> bool {
        self.have_room(Size::of(words, threads))
    }

    /// Whether a client of this size is within the bounds.
    pub fn have_room(&self, size: Size) -> bool {
        size.threads <= self.threads
            && size.calls <= self.calls
            && size.producers <= self.producers
            && size.consumers <= self.consumers
    }
}

/// How large a client is.
#[derive(Clone, Copy, PartialEq, Eq)]
pub struct Size {
    threads: usize,
    calls: usize,
    producers: usize,
    consumers: usize,
}

impl Size {
    /// Of no thread.
    pub const NOBODY: Size = Size {
        threads: 0,
        calls: 0,
        producers: 0,
        consumers: 0,
    };

    /// With one more thread.
    pub fn with(&self, word: &Word) -> Size {
        Size {
            threads: self.threads.saturating_add(1),
            calls: self.calls.saturating_add(word.methods.len()),
            producers: self.producers.saturating_add(usize::from(word.pushes())),
            consumers: self.consumers.saturating_add(usize::from(word.pops())),
        }
    }

    /// Of threads with the words of these numbers.
    pub fn of(words: &Words, threads: &[usize]) -> Size {
        let mut size = Size::NOBODY;
        for number in threads {
            if let Some(word) = words.words.get(*number) {
                size = size.with(word);
            }
        }
        size
    }
}

fn plural(count: usize) -> &'static str {
    if count == 1 { "" } else { "s" }
}

fn put_size<W: fmt::Write>(f: &mut fmt::Formatter<W>, threads: usize, calls: usize) -> fmt::Result {
    let (s, t) = (plural(threads), plural(calls));
    write!(f, "at most {threads} thread{s} and {calls} call{t}")
}

fn put_roles<W: fmt::Write>(
    f: &mut fmt::Formatter<W>,
    producers: usize,
    consumers: usize,
) -> fmt::Result {
    let (s, t) = (plural(producers), plural(consumers));
    write!(f, ", {producers} producer{s} and {consumers} consumer{t}")
}

fn put_before<W: fmt::Write>(f: &mut fmt::Formatter<W>, before: usize) -> fmt::Result {
    let s = if before == 1 { "" } else { "es" };
    write!(f, ", behind at most {before} push{s}")
}

/// As a survey says it: `at most 3 threads and 4 calls`.
impl fmt::Display for Bounds {
    fn fmt<W: fmt::Write>(&self, f: &mut fmt::Formatter<W>) -> fmt::Result {
        let Bounds {
            threads,
            calls,
            before,
            producers,
            consumers,
        } = *self;
        put_size(f, threads, calls)?;
        if producers < threads || consumers < threads {
            put_roles(f, producers, consumers)?;
        }
        if before > 0 {
            put_before(f, before)?;
        }
        Ok(())
    }
}
