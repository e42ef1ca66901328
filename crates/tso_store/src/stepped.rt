//! Steps of kept states.
ghost use Rattle.std.specs.Prelude.{◌≡◌, ◌+◌, ◌<◌, ◌≤◌, ◌^◌, List, ℕ, [], length, Some, None, Err, IfOk, IfSome, OnErr, MatchOption, slice_get, slice_index_or};
ghost use Rattle.tso_compact.specs.Motions.{access_of, log_of, memory_with};
ghost use Rattle.tso_compact.specs.Plans.{HasStep};
ghost use Rattle.tso_hist.specs.Views.{history_view};
ghost use Rattle.tso_model.specs.States.{logged};
ghost use Rattle.tso_model.specs.Steps.{word_read};
ghost use Rattle.tso_parts.specs.Numbers.{Extends};
ghost use Rattle.tso_parts.specs.declared.refused.Refused.TheVariants as reasons;
ghost use Rattle.tso_state.specs.Actors.{thread_of};
ghost use Rattle.tso_state.specs.declared.actor.Actor.TheVariants as actors;
ghost use Rattle.tso_state.specs.declared.state.Thread.{Thread as ThreadValue};
ghost use Rattle.tso_keys.specs.Keys.{IsKept, Grows, part_count, state_at};
ghost use Rattle.tso_store.specs.Remembered.{AreKnown, FitsAt, IsLeft};
ghost use Rattle.tso_keys.specs.Running.{AreRunning};
ghost use Rattle.tso_store.specs.Stepping.{IsLogged, IsPlanned, IsStepKey, IsStepOf, IsWritten, with_thread};

use crate::known::{Known, drain_thread, known_motion, next_thread, run_thread};
use crate::lookup::{find_history, find_memory};
use std::alloc::Global;
use tso_compact::{Motion, history_after, memory_with, planned, word_read, written};
use tso_hist::History;
use tso_keys::{Key, NONE, Parts, Running, View, procedure_at};
use tso_list::Seq;
use tso_machine::Entry;
use tso_parts::{Catalog, Refused};
use tso_prog::Client;
use tso_state::{Actor, Thread};

// The number of the memory after an entry is written, if there is one.
fn next_memory(
    memories: &mut Catalog<Seq<u64>>,
    number: u32,
    entry: Option<Entry>,
) -> Result<u32, Refused>
    requires { slice_get memories.old number ≡ Some (slice_index_or memories.old number []) }
    ensures number { IfOk result (λ n. slice_get memories.new n ≡ Some (memory_with (slice_index_or memories.old number []) entry)) }
    ensures extends { Extends memories.old memories.new }
    ensures more { length memories.new ≤ length memories.old + 1 }
    ensures full { result ≡ Err reasons.Full → 4294967295 ≤ length memories.new }
{
    if let Some(found) = find_memory(memories, number, entry, NONE) {
        return Ok(found);
    }
    let Some(memory) = memories.get(number) else {
        return Ok(number);
    };
    let next = memory_with(memory, entry)?;
    let (next, _) = memories.add(next)?;
    Ok(next)
}

/// The number of the history with what the step of a thread writes into it.
pub fn next_history(
    histories: &mut Catalog<History>,
    number: u32,
    thread: usize,
    motion: Motion,
) -> Result<u32, Refused>
    requires { slice_get histories.old number ≡ Some (slice_index_or histories.old number []) }
    ensures number { IfOk result (IsLogged (slice_index_or histories.old number []) thread motion histories.new) }
    ensures extends { Extends histories.old histories.new }
    ensures more { length histories.new ≤ length histories.old + 1 }
    ensures full { result ≡ Err reasons.Full → 4294967295 ≤ length histories.new }
{
    if let Some(found) = find_history(histories, number, thread, motion, NONE) {
        return Ok(found);
    }
    let Some(history) = histories.get(number) else {
        return Ok(number);
    };
    let next = history_after(history, thread, motion)?;
    let (next, _) = histories.add(next)?;
    Ok(next)
}

/// The key with another thread.
#[tactic(auto, using(std::proofs::lemmas::List::set_past))]
pub fn with_thread(key: &Key, thread: usize, number: u32) -> Key
    ensures { result ≡ with_thread key.now thread number }
{
    let mut threads = key.threads;
    if thread < threads.len() {
        threads[thread] = number;
    }
    Key {
        memory: key.memory,
        history: key.history,
        threads,
    }
}

/// The number of a thread of a key.
pub fn own_number(key: &Key, thread: usize) -> Option<u32>
    ensures { result ≡ slice_get key.now.threads thread }
{
    key.threads.as_slice().get(thread).copied()
}

// What the actor does in a kept state, found from the state.
fn planned_at(
    client: &Client,
    parts: &Parts,
    running: &Seq<Running>,
    key: &Key,
    actor: Actor,
) -> Option<Motion>
    requires kept { IsKept client.now parts.now key.now }
    requires small { length parts.now.threads < 2 ^ 32 }
    requires running { AreRunning parts.now.histories running.now }
    ensures { MatchOption result (HasStep client.now (state_at parts.now key.now) actor → ⊥) (IsPlanned client.now (state_at parts.now key.now) actor) }
{
    match View::of_key(client, parts, running, key) {
        Some(view) => planned(client, &view, actor),
        None => None,
    }
}

// What the core of a thread does in a kept state, where it is known.
fn known_plan(
    client: &Client,
    parts: &Parts,
    known: &Seq<Known>,
    running: &Seq<Running>,
    key: &Key,
    thread: usize,
    own: u32,
) -> Option<Motion>
    requires kept { IsKept client.now parts.now key.now }
    requires small { length parts.now.threads < 2 ^ 32 }
    requires known { AreKnown client.now parts.now.threads known.now }
    requires running { AreRunning parts.now.histories running.now }
    requires own { slice_get key.now.threads thread ≡ Some own }
    ensures { IfSome result (IsPlanned client.now (state_at parts.now key.now) (actors.Exec thread)) }
{
    let procedure = procedure_at(&parts.histories, running, key.history, thread);
    known_motion(client, &parts.threads, known, procedure, own)
}

/// What the actor does in a kept state.
pub fn plan(
    client: &Client,
    parts: &Parts,
    known: &Seq<Known>,
    running: &Seq<Running>,
    key: &Key,
    actor: Actor,
    own: u32,
) -> Option<Motion>
    requires kept { IsKept client.now parts.now key.now }
    requires small { length parts.now.threads < 2 ^ 32 }
    requires known { AreKnown client.now parts.now.threads known.now }
    requires running { AreRunning parts.now.histories running.now }
    requires own { slice_get key.now.threads (thread_of actor) ≡ Some own }
    ensures { MatchOption result (HasStep client.now (state_at parts.now key.now) actor → ⊥) (IsPlanned client.now (state_at parts.now key.now) actor) }
{
    match actor {
        Actor::Exec(thread) => match known_plan(client, parts, known, running, key, thread, own) {
            Some(motion) => Some(motion),
            None => planned_at(client, parts, running, key, actor),
        },
        Actor::Drain(_) => planned_at(client, parts, running, key, actor),
    }
}

/// The word that a step reads in a kept memory.
pub fn word_at(memories: &Catalog<Seq<u64>>, number: u32, motion: Motion) -> u64
    requires { slice_get memories.now number ≡ Some (slice_index_or memories.now number []) }
    ensures { (t : ThreadValue) → result ≡ word_read (slice_index_or memories.now number []) (access_of t motion) }
{
    match memories.get(number) {
        Some(memory) => word_read(memory.as_slice(), motion),
        None => 0,
    }
}

/// What the step of a kept thread that has read this word writes to memory.
pub fn written_at(
    threads: &Catalog<Thread>,
    number: u32,
    motion: Motion,
    word: u64,
) -> Option<Entry>
    ensures { (t : ThreadValue) → slice_get threads.now number ≡ Some t → IsWritten t motion word result }
{
    match threads.get(number) {
        Some(thread) => written(thread, motion, word),
        None => None,
    }
}

// The number of the thread after a step, which is remembered where it is a drain.
fn moved_thread(
    alloc: Global,
    client: &Client,
    threads: &mut Catalog<Thread>,
    known: &mut Seq<Known>,
    number: u32,
    motion: Motion,
    word: u64,
) -> Result<u32, Refused>
    requires known { AreKnown client.now threads.old known.old }
    requires there { (t : ThreadValue) × (slice_get threads.old number ≡ Some t) }
    requires fits { FitsAt threads.old number motion }
    ensures number { IfOk result (IsLeft threads.old threads.new number motion word) }
    ensures extends { Extends threads.old threads.new }
    ensures small { length threads.old < 2 ^ 32 → length threads.new < 2 ^ 32 }
    ensures more { length threads.new ≤ length threads.old + 1 }
    ensures full { result ≡ Err reasons.Full → 4294967295 ≤ length threads.new }
    ensures known { AreKnown client.now threads.new known.new }
{
    match motion {
        Motion::Drain(entry) => drain_thread(alloc, client, threads, known, number, entry),
        _ => next_thread(alloc, threads, number, motion, word),
    }
}

// The key of the state after this step.
fn step_by_motion(
    alloc: Global,
    client: &Client,
    parts: &mut Parts,
    known: &mut Seq<Known>,
    key: &Key,
    actor: Actor,
    own: u32,
    motion: Motion,
) -> Result<Key, Refused>
    requires kept { IsKept client.now parts.old key.now }
    requires small { length parts.old.threads < 2 ^ 32 }
    requires known { AreKnown client.now parts.old.threads known.old }
    requires own { slice_get key.now.threads (thread_of actor) ≡ Some own }
    requires planned { IsPlanned client.now (state_at parts.old key.now) actor motion }
    ensures step { IfOk result (IsStepOf client.now parts.old key.now actor parts.new) }
    ensures grows { Grows parts.old parts.new }
    ensures more { part_count parts.new ≤ part_count parts.old + 3 }
    ensures full { result ≡ Err reasons.Full → 4294967295 ≤ part_count parts.new }
    ensures known { AreKnown client.now parts.new.threads known.new }
{
    let word = word_at(&parts.memories, key.memory, motion);
    let entry = written_at(&parts.threads, own, motion, word);
    let memory = next_memory(&mut parts.memories, key.memory, entry)?;
    let history = next_history(&mut parts.histories, key.history, actor.thread(), motion)?;
    let number = moved_thread(alloc, client, &mut parts.threads, known, own, motion, word)?;
    let next = with_thread(key, actor.thread(), number);
    let threads = next.threads;
    Ok(Key {
        memory,
        history,
        threads,
    })
}

// The key of the state after a step that changes only its thread.
fn step_by_run(
    alloc: Global,
    client: &Client,
    parts: &mut Parts,
    known: &mut Seq<Known>,
    running: &Seq<Running>,
    key: &Key,
    thread: usize,
    own: u32,
) -> Result<Option<Key>, Refused>
    requires kept { IsKept client.now parts.old key.now }
    requires small { length parts.old.threads < 2 ^ 32 }
    requires known { AreKnown client.now parts.old.threads known.old }
    requires running { AreRunning parts.old.histories running.now }
    requires own { slice_get key.now.threads thread ≡ Some own }
    ensures step { IfOk result (λ o. IfSome o (IsStepOf client.now parts.old key.now (actors.Exec thread) parts.new)) }
    ensures none { IfOk result (λ o. MatchOption o (parts.new ≡ parts.old) (λ k. Unit {0})) }
    ensures err { OnErr result (HasStep client.now (state_at parts.old key.now) (actors.Exec thread)) }
    ensures grows { Grows parts.old parts.new }
    ensures more { part_count parts.new ≤ part_count parts.old + 3 }
    ensures full { result ≡ Err reasons.Full → 4294967295 ≤ part_count parts.new }
    ensures known { AreKnown client.now parts.new.threads known.new }
{
    let procedure = procedure_at(&parts.histories, running, key.history, thread);
    match run_thread(alloc, client, &mut parts.threads, known, procedure, own)? {
        Some(number) => Ok(Some(with_thread(key, thread, number))),
        None => Ok(None),
    }
}

// The key of the state after the actor's next step, if there is one.
fn step_by_plan(
    alloc: Global,
    client: &Client,
    parts: &mut Parts,
    known: &mut Seq<Known>,
    running: &Seq<Running>,
    key: &Key,
    actor: Actor,
    own: u32,
) -> Result<Option<Key>, Refused>
    requires kept { IsKept client.now parts.old key.now }
    requires small { length parts.old.threads < 2 ^ 32 }
    requires known { AreKnown client.now parts.old.threads known.old }
    requires running { AreRunning parts.old.histories running.now }
    requires own { slice_get key.now.threads (thread_of actor) ≡ Some own }
    ensures step { IfOk result (IsStepKey client.now parts.old key.now actor parts.new) }
    ensures err { OnErr result (HasStep client.now (state_at parts.old key.now) actor) }
    ensures grows { Grows parts.old parts.new }
    ensures more { part_count parts.new ≤ part_count parts.old + 3 }
    ensures full { result ≡ Err reasons.Full → 4294967295 ≤ part_count parts.new }
    ensures known { AreKnown client.now parts.new.threads known.new }
{
    let Some(motion) = plan(client, parts, known, running, key, actor, own) else {
        return Ok(None);
    };
    let next = step_by_motion(alloc, client, parts, known, key, actor, own, motion)?;
    Ok(Some(next))
}

// The key of the state after the next step of a thread's core, if there is one.
fn step_core(
    alloc: Global,
    client: &Client,
    parts: &mut Parts,
    known: &mut Seq<Known>,
    running: &Seq<Running>,
    key: &Key,
    thread: usize,
    own: u32,
) -> Result<Option<Key>, Refused>
    requires kept { IsKept client.now parts.old key.now }
    requires small { length parts.old.threads < 2 ^ 32 }
    requires known { AreKnown client.now parts.old.threads known.old }
    requires running { AreRunning parts.old.histories running.now }
    requires own { slice_get key.now.threads thread ≡ Some own }
    ensures step { IfOk result (IsStepKey client.now parts.old key.now (actors.Exec thread) parts.new) }
    ensures err { OnErr result (HasStep client.now (state_at parts.old key.now) (actors.Exec thread)) }
    ensures grows { Grows parts.old parts.new }
    ensures more { part_count parts.new ≤ part_count parts.old + 3 }
    ensures full { result ≡ Err reasons.Full → 4294967295 ≤ part_count parts.new }
    ensures known { AreKnown client.now parts.new.threads known.new }
{
    if let Some(next) = step_by_run(alloc, client, parts, known, running, key, thread, own)? {
        return Ok(Some(next));
    }
    step_by_plan(
        alloc,
        client,
        parts,
        known,
        running,
        key,
        Actor::Exec(thread),
        own,
    )
}

/// The key of the state after a step, if there is a step.
pub fn step_key(
    alloc: Global,
    client: &Client,
    parts: &mut Parts,
    known: &mut Seq<Known>,
    running: &Seq<Running>,
    key: &Key,
    actor: Actor,
) -> Result<Option<Key>, Refused>
    requires kept { IsKept client.now parts.old key.now }
    requires small { length parts.old.threads < 2 ^ 32 }
    requires known { AreKnown client.now parts.old.threads known.old }
    requires running { AreRunning parts.old.histories running.now }
    ensures step { IfOk result (IsStepKey client.now parts.old key.now actor parts.new) }
    ensures err { OnErr result (HasStep client.now (state_at parts.old key.now) actor) }
    ensures grows { Grows parts.old parts.new }
    ensures more { part_count parts.new ≤ part_count parts.old + 3 }
    ensures full { result ≡ Err reasons.Full → 4294967295 ≤ part_count parts.new }
    ensures known { AreKnown client.now parts.new.threads known.new }
{
    let Some(own) = own_number(key, actor.thread()) else {
        return Ok(None);
    };
    match actor {
        Actor::Exec(thread) => step_core(alloc, client, parts, known, running, key, thread, own),
        Actor::Drain(_) => step_by_plan(alloc, client, parts, known, running, key, actor, own),
    }
}
