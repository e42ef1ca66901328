//! Remembered steps of threads.
ghost use Rattle.std.specs.Prelude.{◌≡◌, ◌+◌, ◌<◌, ◌≤◌, ◌^◌, length, Some, Err, IsTrue, IfOk, OnErr, IfSome, MatchOption, slice_get};
ghost use Rattle.tso_compact.specs.Motions.{Fits};
ghost use Rattle.tso_compact.specs.declared.motion.Motion.TheVariants as motions;
ghost use Rattle.tso_machine.specs.declared.buffer.Entry.{Entry as EntryValue};
ghost use Rattle.tso_parts.specs.Numbers.{Extends};
ghost use Rattle.tso_parts.specs.declared.refused.Refused.TheVariants as reasons;
ghost use Rattle.tso_state.specs.declared.state.Thread.{Thread as ThreadValue};
ghost use Rattle.tso_store.specs.Remembered.{AreKnown, CanRun, FitsAt, HasNext, IsRun, IsRunKnown, IsDrained, IsNextMotion, IsOwn, IsLeft, with_run};

use crate::lookup::find_thread;
use std::alloc::{AllocError, Global};
use tso_compact::{Motion, core_motion, thread_after};
use tso_flow::ProcedureKind;
use tso_keys::NONE;
use tso_list::Seq;
use tso_machine::Entry;
use tso_parts::{Catalog, Refused};
use tso_prog::Client;
use tso_state::{Core, Thread};

/// What is known of a thread's next step in a call of a procedure.
#[derive(Clone, Copy)]
pub enum Run {
    /// Nothing.
    Unknown,
    /// It changes nothing but the thread, and leaves the thread of this number.
    Leaves(u32),
    /// It is this one, of which more than the thread is changed, or decides what is changed.
    Does(Motion),
}

/// For a thread's number what is known of its next step, in a push and in a pop, and the number of the thread that its drain
/// leaves, where it is known.
#[derive(Clone, Copy)]
pub struct Known {
    pub push: Run,
    pub pop: Run,
    pub drained: Option<u32>,
}

// Whether a step changes nothing but its thread, in a way that its thread alone decides.
fn is_own(motion: Motion) -> bool
    ensures { IsTrue result → IsOwn motion }
{
    matches!(
        motion,
        Motion::Run(_) | Motion::Pass { .. } | Motion::Store { .. } | Motion::Stop(_)
    )
}

// The next step of a call of this procedure.
fn next_motion(client: &Client, procedure: ProcedureKind, thread: &Thread) -> Option<Motion>
    ensures { IfSome result (IsNextMotion client.now procedure thread.now) }
{
    let Core::Running(_) = &thread.core else {
        return None;
    };
    core_motion(client, procedure, None, thread)
}

// Makes room for what is known of this number.
fn make_room(
    client: &Client,
    threads: &Catalog<Thread>,
    known: &mut Seq<Known>,
    number: u32,
) -> Result<(), AllocError>
    requires known { AreKnown client.now threads.now known.old }
    ensures { AreKnown client.now threads.now known.new }
{
    for _ in known.len()..number as usize + 1 {
        known.push(Known {
            push: Run::Unknown,
            pop: Run::Unknown,
            drained: None,
        })?;
    }
    Ok(())
}

// What is known where this is known too of a step of a call of this procedure.
fn with_run(old: Known, procedure: ProcedureKind, run: Run) -> Known
    ensures { result ≡ with_run old procedure run }
{
    match procedure {
        ProcedureKind::Push => Known { push: run, ..old },
        ProcedureKind::Pop => Known { pop: run, ..old },
    }
}

// Remembers a step.
fn remember_run(
    client: &Client,
    threads: &Catalog<Thread>,
    known: &mut Seq<Known>,
    procedure: ProcedureKind,
    number: u32,
    run: Run,
) -> Result<(), AllocError>
    requires known { AreKnown client.now threads.now known.old }
    requires run { IsRunKnown client.now procedure threads.now number run }
    ensures { AreKnown client.now threads.now known.new }
{
    make_room(client, threads, known, number)?;
    let place = number as usize;
    if place < known.len() {
        let old = known.as_slice()[place];
        *known.at_mut(place) = with_run(old, procedure, run);
    }
    Ok(())
}

// Remembers a drain.
fn remember_drain(
    client: &Client,
    threads: &Catalog<Thread>,
    known: &mut Seq<Known>,
    number: u32,
    next: u32,
) -> Result<(), AllocError>
    requires known { AreKnown client.now threads.now known.old }
    requires drained { IsDrained threads.now number next }
    ensures { AreKnown client.now threads.now known.new }
{
    make_room(client, threads, known, number)?;
    let place = number as usize;
    if place < known.len() {
        let old = known.as_slice()[place];
        *known.at_mut(place) = Known {
            drained: Some(next),
            ..old
        };
    }
    Ok(())
}

/// The number of the thread after a step that has read this word.
pub fn next_thread(
    alloc: Global,
    threads: &mut Catalog<Thread>,
    number: u32,
    motion: Motion,
    word: u64,
) -> Result<u32, Refused>
    requires { FitsAt threads.old number motion }
    ensures number { IfOk result (IsLeft threads.old threads.new number motion word) }
    ensures extends { Extends threads.old threads.new }
    ensures small { length threads.old < 2 ^ 32 → length threads.new < 2 ^ 32 }
    ensures more { length threads.new ≤ length threads.old + 1 }
    ensures full { result ≡ Err reasons.Full → 4294967295 ≤ length threads.new }
{
    if let Some(found) = find_thread(threads, number, motion, word, NONE) {
        return Ok(found);
    }
    let Some(thread) = threads.get(number) else {
        return Ok(NONE);
    };
    let next = thread_after(alloc, thread, motion, word)?;
    let (next, _) = threads.add(next)?;
    Ok(next)
}

/// What is known of the thread's next step in a call of this procedure.
pub fn run_of(
    client: &Client,
    threads: &Catalog<Thread>,
    known: &Seq<Known>,
    procedure: ProcedureKind,
    number: u32,
) -> Run
    requires { AreKnown client.now threads.now known.now }
    ensures { IsRunKnown client.now procedure threads.now number result }
{
    match known.get(number as usize) {
        Some(found) => match procedure {
            ProcedureKind::Push => found.push,
            ProcedureKind::Pop => found.pop,
        },
        None => Run::Unknown,
    }
}

/// The number of the thread that the thread's next step in a call of this procedure leaves, where it is known and changes only
/// the thread.
pub fn known_run(
    client: &Client,
    threads: &Catalog<Thread>,
    known: &Seq<Known>,
    procedure: ProcedureKind,
    number: u32,
) -> Option<u32>
    requires { AreKnown client.now threads.now known.now }
    ensures { IfSome result (IsRun client.now procedure threads.now number) }
{
    match run_of(client, threads, known, procedure, number) {
        Run::Leaves(next) => Some(next),
        _ => None,
    }
}

/// The thread's next step in a call of this procedure, where it is known and does not change only the thread.
pub fn known_motion(
    client: &Client,
    threads: &Catalog<Thread>,
    known: &Seq<Known>,
    procedure: ProcedureKind,
    number: u32,
) -> Option<Motion>
    requires { AreKnown client.now threads.now known.now }
    ensures { IfSome result (HasNext client.now procedure threads.now number) }
{
    match run_of(client, threads, known, procedure, number) {
        Run::Does(motion) => Some(motion),
        _ => None,
    }
}

/// What is known of the thread's drain.
pub fn known_drain(
    client: &Client,
    threads: &Catalog<Thread>,
    known: &Seq<Known>,
    number: u32,
) -> Option<u32>
    requires { AreKnown client.now threads.now known.now }
    ensures { IfSome result (IsDrained threads.now number) }
{
    known.get(number as usize)?.drained
}

// The thread's next step in a call of this procedure, if it runs one.
fn next_motion_at(
    client: &Client,
    threads: &Catalog<Thread>,
    procedure: ProcedureKind,
    number: u32,
) -> Option<Motion>
    ensures { IfSome result (HasNext client.now procedure threads.now number) }
{
    match threads.get(number) {
        Some(thread) => next_motion(client, procedure, thread),
        None => None,
    }
}

// The number of the thread that this step leaves, if it changes only the thread. What is found is remembered.
fn run_by_motion(
    alloc: Global,
    client: &Client,
    threads: &mut Catalog<Thread>,
    known: &mut Seq<Known>,
    procedure: ProcedureKind,
    number: u32,
    motion: Motion,
) -> Result<Option<u32>, Refused>
    requires known { AreKnown client.now threads.old known.old }
    requires next { HasNext client.now procedure threads.old number motion }
    ensures run { IfOk result (λ o. IfSome o (IsRun client.now procedure threads.new number)) }
    ensures none { IfOk result (λ o. MatchOption o (threads.new ≡ threads.old) (λ n. Unit {0})) }
    ensures extends { Extends threads.old threads.new }
    ensures small { length threads.old < 2 ^ 32 → length threads.new < 2 ^ 32 }
    ensures more { length threads.new ≤ length threads.old + 1 }
    ensures full { result ≡ Err reasons.Full → 4294967295 ≤ length threads.new }
    ensures known { AreKnown client.now threads.new known.new }
{
    if !is_own(motion) {
        remember_run(client, threads, known, procedure, number, Run::Does(motion))?;
        return Ok(None);
    }
    let next = next_thread(alloc, threads, number, motion, 0)?;
    remember_run(client, threads, known, procedure, number, Run::Leaves(next))?;
    Ok(Some(next))
}

/// The number of the thread that a step leaves which changes only the thread.
pub fn run_thread(
    alloc: Global,
    client: &Client,
    threads: &mut Catalog<Thread>,
    known: &mut Seq<Known>,
    procedure: ProcedureKind,
    number: u32,
) -> Result<Option<u32>, Refused>
    requires { AreKnown client.now threads.old known.old }
    ensures run { IfOk result (λ o. IfSome o (IsRun client.now procedure threads.new number)) }
    ensures none { IfOk result (λ o. MatchOption o (threads.new ≡ threads.old) (λ n. Unit {0})) }
    ensures err { OnErr result (CanRun client.now procedure threads.old number) }
    ensures extends { Extends threads.old threads.new }
    ensures small { length threads.old < 2 ^ 32 → length threads.new < 2 ^ 32 }
    ensures more { length threads.new ≤ length threads.old + 1 }
    ensures full { result ≡ Err reasons.Full → 4294967295 ≤ length threads.new }
    ensures known { AreKnown client.now threads.new known.new }
{
    match run_of(client, threads, known, procedure, number) {
        Run::Leaves(next) => return Ok(Some(next)),
        Run::Does(_) => return Ok(None),
        Run::Unknown => {}
    }
    let Some(motion) = next_motion_at(client, threads, procedure, number) else {
        return Ok(None);
    };
    run_by_motion(alloc, client, threads, known, procedure, number, motion)
}

// Remembers the thread's next step in a call of this procedure, where the thread that it leaves is kept or more than the thread
// is changed.
fn learn_run(
    client: &Client,
    threads: &Catalog<Thread>,
    known: &mut Seq<Known>,
    procedure: ProcedureKind,
    number: u32,
) -> Result<(), AllocError>
    requires known { AreKnown client.now threads.now known.old }
    ensures { AreKnown client.now threads.now known.new }
{
    let Some(motion) = next_motion_at(client, threads, procedure, number) else {
        return Ok(());
    };
    if !is_own(motion) {
        return remember_run(client, threads, known, procedure, number, Run::Does(motion));
    }
    match find_thread(threads, number, motion, 0, NONE) {
        Some(next) => remember_run(client, threads, known, procedure, number, Run::Leaves(next)),
        None => Ok(()),
    }
}

/// Remembers the next steps of all threads, in a push and in a pop, where the thread that a step leaves is kept or more than the
/// thread is changed.
pub fn learn_runs(
    client: &Client,
    threads: &Catalog<Thread>,
    known: &mut Seq<Known>,
) -> Result<(), AllocError>
    requires known { AreKnown client.now threads.now known.old }
    ensures { AreKnown client.now threads.now known.new }
{
    for number in 0..threads.len() {
        learn_run(client, threads, known, ProcedureKind::Push, number as u32)?;
        learn_run(client, threads, known, ProcedureKind::Pop, number as u32)?;
    }
    Ok(())
}

/// The number of the thread that a drain of this entry leaves.
pub fn drain_thread(
    alloc: Global,
    client: &Client,
    threads: &mut Catalog<Thread>,
    known: &mut Seq<Known>,
    number: u32,
    entry: Entry,
) -> Result<u32, Refused>
    requires known { AreKnown client.now threads.old known.old }
    requires there { (t : ThreadValue) × (slice_get threads.old number ≡ Some t) }
    ensures drained { IfOk result (IsDrained threads.new number) }
    ensures extends { Extends threads.old threads.new }
    ensures small { length threads.old < 2 ^ 32 → length threads.new < 2 ^ 32 }
    ensures more { length threads.new ≤ length threads.old + 1 }
    ensures full { result ≡ Err reasons.Full → 4294967295 ≤ length threads.new }
    ensures known { AreKnown client.now threads.new known.new }
{
    if let Some(next) = known_drain(client, threads, known, number) {
        return Ok(next);
    }
    let next = next_thread(alloc, threads, number, Motion::Drain(entry), 0)?;
    remember_drain(client, threads, known, number, next)?;
    Ok(next)
}
