//! Store buffers.

ghost use Rattle.std.specs.Prelude.{◌≡◌, ◌<◌, ◌≤◌, ◌+◌, ◌-◌, ◌++◌, ◌∷◌, [], length, take, drop, OnOk, OnErr};

use std::alloc::{AllocError, Global};
use std::marker::Model;

/// A store that is not yet in memory.
#[derive(Clone, Copy, Debug, PartialEq, Eq, PartialOrd, Ord, Hash)]
pub struct Entry {
    pub place: usize,
    pub word: u64,
}

/// A store buffer: a queue of entries, the oldest first. Entries that were drained are kept behind it, so that going back
/// takes no memory.
#[derive(Debug, Drop)]
pub struct Buffer {
    entries: Vec<Entry>,
    drained: usize,
}

impl Model for Buffer {
    ghost use Rattle.std.specs.Prelude.{◌≤◌, length, take, drop};
    ghost use Rattle.tso_machine.specs.Queue.{Queue};

    ghost Value = { Queue };

    ghost view = { λ b. record { past = take b.drained b.entries.items; live = drop b.drained b.entries.items } };

    ghost invariant = { λ b. b.drained ≤ length b.entries.items };
}

impl Buffer {
    ghost use Rattle.tso_machine.specs.Queue.{Queue, empty_queue, pushed, popped, drained, undrained};

    /// An empty buffer.
    pub fn new(alloc: Global) -> Self
        ensures { result ≡ empty_queue }
    {
        Buffer {
            entries: Vec::new(alloc),
            drained: 0,
        }
    }

    /// The entries, the oldest first.
    pub fn live(&self) -> &[Entry]
        ensures { result.now ≡ self.now.live }
    {
        &self.entries[self.drained..]
    }

    /// Adds the newest entry. Want of memory leaves the buffer as it was.
    pub fn push(&mut self, entry: Entry) -> Result<(), AllocError>
        ensures ok { OnOk result (self.new ≡ pushed self.old entry) }
        ensures err { OnErr result (self.new ≡ self.old) }
    {
        self.entries.push(entry)?;
        Ok(())
    }

    /// Takes the newest entry back.
    pub fn pop(&mut self)
        requires { 0 < length self.old.live }
        ensures { self.new ≡ popped self.old }
    {
        let _ = self.entries.pop();
    }

    /// Lets the oldest entry go.
    pub fn drain(&mut self)
        requires { 0 < length self.old.live }
        ensures { self.new ≡ drained self.old }
    {
        self.drained += 1;
    }

    /// Brings the entry back that was drained last.
    pub fn undrain(&mut self)
        requires { 0 < length self.old.past }
        ensures { self.new ≡ undrained self.old }
    {
        self.drained -= 1;
    }
}
