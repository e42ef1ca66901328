//! The state after a step, sought among those that are kept.
ghost use Rattle.std.specs.Prelude.{◌≡◌, ◌<◌, ◌^◌, length, Some, IfSome, slice_get};
ghost use Rattle.tso_state.specs.Actors.{thread_of};
ghost use Rattle.tso_state.specs.declared.actor.Actor.TheVariants as actors;
ghost use Rattle.tso_keys.specs.Keys.{AreKept, IsKept, state_at};
ghost use Rattle.tso_keys.specs.Running.{AreRunning};
ghost use Rattle.tso_store.specs.Remembered.{AreKnown, FitsAt};
ghost use Rattle.tso_store.specs.Seeking.{IsKeySought, IsSoughtFrom, IsStepSought, IsThreadSought};
ghost use Rattle.tso_store.specs.Stepping.{IsPlanned, IsStepOf};

use crate::known::{Known, known_drain, known_run};
use crate::lookup::{find_history, find_memory, find_thread};
use crate::stepped::{own_number, plan, with_thread, word_at, written_at};
use tso_compact::Motion;
use tso_keys::{Key, Parts, Running, key_at, number_at, procedure_at};
use tso_list::Seq;
use tso_parts::{Catalog, Pool};
use tso_prog::Client;
use tso_state::{Actor, Thread};

/// What is known of the state after a step.
#[derive(Clone, Copy, PartialEq, Eq)]
pub enum Found {
    /// The actor has no such step.
    Disabled,
    /// The state after the step is not kept.
    Absent,
    /// The state after the step has this number.
    At(u32),
}

/// What is known of the key of the state after a step.
#[derive(Clone, Copy)]
pub enum Sought {
    /// The actor has no such step.
    Disabled,
    /// One of the state's parts is not kept.
    Absent,
    /// The state has this key.
    At(Key),
}

// The number of the thread after a step that has read this word, where a drain may be known.
fn find_moved(
    client: &Client,
    threads: &Catalog<Thread>,
    known: &Seq<Known>,
    number: u32,
    motion: Motion,
    word: u64,
    near: u32,
) -> Option<u32>
    requires known { AreKnown client.now threads.now known.now }
    requires fits { FitsAt threads.now number motion }
    ensures { IsThreadSought threads.now number motion word result }
{
    if let Motion::Drain(_) = motion {
        if let Some(next) = known_drain(client, threads, known, number) {
            return Some(next);
        }
    }
    find_thread(threads, number, motion, word, near)
}

// The key of the state after this step, if its parts are kept.
fn find_by_motion(
    client: &Client,
    parts: &Parts,
    known: &Seq<Known>,
    key: &Key,
    actor: Actor,
    own: u32,
    motion: Motion,
    near: &Key,
) -> Option<Key>
    requires kept { IsKept client.now parts.now key.now }
    requires small { length parts.now.threads < 2 ^ 32 }
    requires known { AreKnown client.now parts.now.threads known.now }
    requires own { slice_get key.now.threads (thread_of actor) ≡ Some own }
    requires planned { IsPlanned client.now (state_at parts.now key.now) actor motion }
    ensures { IsKeySought client.now parts.now key.now actor result }
{
    let word = word_at(&parts.memories, key.memory, motion);
    let entry = written_at(&parts.threads, own, motion, word);
    let thread = actor.thread();
    let memory = find_memory(&parts.memories, key.memory, entry, near.memory)?;
    let history = find_history(&parts.histories, key.history, thread, motion, near.history)?;
    let place = number_at(&near.threads, thread);
    let number = find_moved(client, &parts.threads, known, own, motion, word, place)?;
    let next = with_thread(key, thread, number);
    let threads = next.threads;
    Some(Key {
        memory,
        history,
        threads,
    })
}

// The key of the state after the actor's next step, by what the actor does.
fn find_by_plan(
    client: &Client,
    parts: &Parts,
    known: &Seq<Known>,
    running: &Seq<Running>,
    key: &Key,
    actor: Actor,
    own: u32,
    near: &Key,
) -> Sought
    requires kept { IsKept client.now parts.now key.now }
    requires small { length parts.now.threads < 2 ^ 32 }
    requires known { AreKnown client.now parts.now.threads known.now }
    requires running { AreRunning parts.now.histories running.now }
    requires own { slice_get key.now.threads (thread_of actor) ≡ Some own }
    ensures { IsStepSought client.now parts.now key.now actor result }
{
    let Some(motion) = plan(client, parts, known, running, key, actor, own) else {
        return Sought::Disabled;
    };
    match find_by_motion(client, parts, known, key, actor, own, motion, near) {
        Some(next) => Sought::At(next),
        None => Sought::Absent,
    }
}

// The key of the state after a thread's next step, where the step is known.
fn find_run(
    client: &Client,
    parts: &Parts,
    known: &Seq<Known>,
    running: &Seq<Running>,
    key: &Key,
    thread: usize,
    own: u32,
) -> Option<Key>
    requires kept { IsKept client.now parts.now key.now }
    requires small { length parts.now.threads < 2 ^ 32 }
    requires known { AreKnown client.now parts.now.threads known.now }
    requires running { AreRunning parts.now.histories running.now }
    requires own { slice_get key.now.threads thread ≡ Some own }
    ensures { IfSome result (IsStepOf client.now parts.now key.now (actors.Exec thread) parts.now) }
{
    let procedure = procedure_at(&parts.histories, running, key.history, thread);
    match known_run(client, &parts.threads, known, procedure, own) {
        Some(next) => Some(with_thread(key, thread, next)),
        None => None,
    }
}

// The key of the state after the next step of a thread's core.
fn find_core(
    client: &Client,
    parts: &Parts,
    known: &Seq<Known>,
    running: &Seq<Running>,
    key: &Key,
    thread: usize,
    own: u32,
    near: &Key,
) -> Sought
    requires kept { IsKept client.now parts.now key.now }
    requires small { length parts.now.threads < 2 ^ 32 }
    requires known { AreKnown client.now parts.now.threads known.now }
    requires running { AreRunning parts.now.histories running.now }
    requires own { slice_get key.now.threads thread ≡ Some own }
    ensures { IsStepSought client.now parts.now key.now (actors.Exec thread) result }
{
    match find_run(client, parts, known, running, key, thread, own) {
        Some(next) => Sought::At(next),
        None => find_by_plan(
            client,
            parts,
            known,
            running,
            key,
            Actor::Exec(thread),
            own,
            near,
        ),
    }
}

// The key of the state after the actor's next step, if there is one and its parts are kept.
fn find_step(
    client: &Client,
    parts: &Parts,
    known: &Seq<Known>,
    running: &Seq<Running>,
    key: &Key,
    actor: Actor,
    near: &Key,
) -> Sought
    requires kept { IsKept client.now parts.now key.now }
    requires small { length parts.now.threads < 2 ^ 32 }
    requires known { AreKnown client.now parts.now.threads known.now }
    requires running { AreRunning parts.now.histories running.now }
    ensures { IsStepSought client.now parts.now key.now actor result }
{
    let Some(own) = own_number(key, actor.thread()) else {
        return Sought::Disabled;
    };
    match actor {
        Actor::Exec(thread) => find_core(client, parts, known, running, key, thread, own, near),
        Actor::Drain(_) => find_by_plan(client, parts, known, running, key, actor, own, near),
    }
}

/// The key of the state after the actor's next step from the state with this number, if there is such a step and its parts are kept.
/// Each part is looked for first at the number that `near` has for it, which need not be that of anything.
pub fn find_from(
    client: &Client,
    parts: &Parts,
    known: &Seq<Known>,
    running: &Seq<Running>,
    keys: &Pool<Key>,
    number: u32,
    actor: Actor,
    near: &Key,
) -> Sought
    requires kept { AreKept client.now parts.now keys.now }
    requires small { length parts.now.threads < 2 ^ 32 }
    requires known { AreKnown client.now parts.now.threads known.now }
    requires running { AreRunning parts.now.histories running.now }
    ensures { IsSoughtFrom client.now parts.now keys.now number actor result }
{
    match key_at(keys, number) {
        Some(key) => find_step(client, parts, known, running, &key, actor, near),
        None => Sought::Disabled,
    }
}
