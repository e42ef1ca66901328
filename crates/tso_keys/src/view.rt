//! A kept state, read where it is kept.
ghost use Rattle.std.specs.Prelude.{◌≡◌, ◌↔◌, IfOk, IsTrue, slice_get};
ghost use Rattle.tso_keys.specs.Numbers.{values_at};

use crate::key::Key;
use crate::parts::Parts;
use crate::running::{Running, begun_by, procedure_by};
use std::alloc::{AllocError, Global};
use std::marker::Model;
use tso_flow::ProcedureKind;
use tso_hist::{Call, History};
use tso_list::{Seq, is_same};
use tso_machine::thread_count;
use tso_parts::Catalog;
use tso_prog::Client;
use tso_state::{State, Thread, Viewed};

/// A kept state. Contracts see the state. How many threads it has is kept beside it; which calls they are in, and how many they have
/// begun, is told without a look at its history, where that is remembered.
#[derive(Drop)]
pub struct View<'a> {
    memory: &'a Seq<u64>,
    history: &'a History,
    history_number: u32,
    running: &'a Seq<Running>,
    threads: &'a Catalog<Thread>,
    numbers: [u32; 5],
    count: usize,
}

impl<'a> Model for View<'a> {
    ghost use Rattle.std.specs.Prelude.{◌≡◌, ◌<◌, ◌^◌, length};
    ghost use Rattle.tso_state.specs.declared.state.State.{State as StateValue};
    ghost use Rattle.tso_keys.specs.Numbers.{values_at};
    ghost use Rattle.tso_keys.specs.Keys.{IsViewed};
    ghost use Rattle.tso_keys.specs.Running.{IsRemembered};

    ghost Value = { StateValue };

    ghost view = { λ v. record { memory = v.memory.now; threads = values_at v.threads.now v.numbers; history = v.history.now } };

    ghost invariant = { λ v. IsViewed v.threads.now v.numbers v.history.now v.count × IsRemembered v.history.now v.running.now v.history_number };
}

impl<'a> Viewed for View<'a> {
    ghost state = { λ s. s };

    fn memory(&self) -> &[u64] {
        self.memory.as_slice()
    }

    fn thread_count(&self) -> usize {
        self.count
    }

    fn thread(&self, number: usize) -> Option<&Thread> {
        match self.numbers.as_slice().get(number) {
            Some(number) => self.threads.get(*number),
            None => None,
        }
    }

    fn history(&self) -> &History {
        self.history
    }

    fn history_count(&self) -> usize {
        self.count
    }

    fn calls(&self, number: usize) -> Option<&[Call]> {
        let calls = self.history.threads().get(number)?;
        Some(calls.as_slice())
    }

    fn begun(&self, number: usize) -> usize {
        begun_by(self.running, self.history_number, self.history, number)
    }

    fn procedure(&self, number: usize) -> ProcedureKind {
        procedure_by(self.running, self.history_number, self.history, number)
    }
}

impl<'a> View<'a> {
    ghost use Rattle.std.specs.Prelude.{◌^◌, ◌<◌, ◌↔◌, IsTrue, Some, length};
    ghost use Rattle.tso_keys.specs.Keys.{IsKept, state_at};
    ghost use Rattle.tso_keys.specs.Running.{AreRunning};

    /// The words of its memory.
    pub fn words(&self) -> &Seq<u64>
        ensures { result.now ≡ self.now.memory }
    {
        self.memory
    }

    /// Whether two kept states, maybe of two stores, are the same. It takes no memory, and hashes nothing.
    pub fn is_same(&self, other: &View<'_>) -> bool
        ensures { IsTrue result ↔ (self.now ≡ other.now) }
    {
        if !is_same(self.words(), other.words()) {
            return false;
        }
        if !is_same(self.history(), other.history()) {
            return false;
        }
        are_same_threads(self, other)
    }

    /// The state of a key, where it is kept.
    pub fn of_key(
        client: &Client,
        parts: &'a Parts,
        running: &'a Seq<Running>,
        key: &Key,
    ) -> Option<View<'a>>
        requires kept { IsKept client.now parts.now key.now }
        requires small { length parts.now.threads < 2 ^ 32 }
        requires running { AreRunning parts.now.histories running.now }
        ensures { result ≡ Some (state_at parts.now key.now) }
    {
        let memory = parts.memories.get(key.memory)?;
        let history = parts.histories.get(key.history)?;
        Some(View {
            memory,
            history,
            history_number: key.history,
            running,
            threads: &parts.threads,
            numbers: key.threads,
            count: thread_count(client),
        })
    }
}

// Whether two kept states have the same thread at this number, or neither has one.
fn is_same_thread(a: &View<'_>, b: &View<'_>, number: usize) -> bool
    ensures { IsTrue result ↔ (slice_get a.now.threads number ≡ slice_get b.now.threads number) }
{
    match (a.thread(number), b.thread(number)) {
        (Some(first), Some(second)) => is_same(first, second),
        (None, None) => true,
        _ => false,
    }
}

// Whether two kept states have the same threads.
fn are_same_threads(a: &View<'_>, b: &View<'_>) -> bool
    ensures { IsTrue result ↔ (a.now.threads ≡ b.now.threads) }
{
    if a.thread_count() != b.thread_count() {
        return false;
    }
    for number in 0..a.thread_count() {
        if !is_same_thread(a, b, number) {
            return false;
        }
    }
    true
}

// The threads with these numbers.
fn copied_threads(
    alloc: Global,
    threads: &Catalog<Thread>,
    numbers: &[u32],
) -> Result<Seq<Thread>, AllocError>
    ensures { IfOk result (λ ts. ts ≡ values_at threads.now numbers.now) }
{
    let mut copies = Seq::new(alloc);
    for number in numbers {
        match threads.get(*number) {
            Some(thread) => copies.push(thread.clone()?)?,
            None => return Ok(copies),
        }
    }
    Ok(copies)
}

/// A copy of a kept state.
pub fn copy_of(alloc: Global, view: &View<'_>) -> Result<State, AllocError>
    ensures { IfOk result (λ s. s ≡ view.now) }
{
    let memory = view.memory.clone()?;
    let history = view.history.clone()?;
    let threads = copied_threads(alloc, view.threads, view.numbers.as_slice())?;
    Ok(State {
        memory,
        threads,
        history,
    })
}
