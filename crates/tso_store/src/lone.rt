//! Which thread's step may go first alone, as remembered steps tell.

ghost use Rattle.std.specs.Prelude.{◌≡◌, ◌<◌, ◌^◌, IfSome, IsTrue, MatchOption, Some, false, length, slice_get};
ghost use Rattle.tso_compact.specs.Motions.{move_of};
ghost use Rattle.tso_compact.specs.Plans.{kind_of_move, procedure_in};
ghost use Rattle.tso_flow.specs.declared.location.ProcedureKind.{ProcedureKind as AProcedure};
ghost use Rattle.tso_state.specs.declared.state.Thread.{Thread as ThreadValue};
ghost use Rattle.tso_keys.specs.Keys.{IsKept, state_at};
ghost use Rattle.tso_store.specs.Lone.{HasNoLoneCore, IsFirstLoneCore, IsLoneCore, is_running_if, lone_core, lone_of};
ghost use Rattle.tso_store.specs.Remembered.{AreKnown, IsRunKnown};
ghost use Rattle.tso_keys.specs.Running.{AreRunning};

use crate::known::{Known, Run, run_of};
use crate::stepped::own_number;
use tso_compact::{Motion, StepKind, kind};
use tso_flow::Checked;
use tso_keys::{Key, Parts, Running, View, WIDTH, procedure_at};
use tso_list::Seq;
use tso_parts::Catalog;
use tso_prog::Client;
use tso_state::{Actor, Core, Thread, Viewed};

/// A thread whose core has a step that may go first alone: one within its thread, or a return.
#[derive(Clone, Copy)]
pub struct Lone {
    pub thread: usize,
    pub kind: StepKind,
}

// A step's kind, where such a step may go first alone.
fn lone_of(kind: Option<StepKind>) -> Option<StepKind>
    ensures { result ≡ lone_of kind }
{
    match kind {
        Some(StepKind::Local) => Some(StepKind::Local),
        Some(StepKind::Return) => Some(StepKind::Return),
        _ => None,
    }
}

// The kind of a step that does this, where it may go first alone.
fn lone_motion(motion: Motion) -> Option<StepKind>
    ensures { (name : AProcedure) (t : ThreadValue) → result ≡ lone_of (Some (kind_of_move (move_of name t motion))) }
{
    match motion {
        Motion::Run(_) | Motion::Pass { .. } | Motion::Store { .. } | Motion::Stop(_) => {
            Some(StepKind::Local)
        }
        Motion::Return(_) => Some(StepKind::Return),
        Motion::Load { .. } | Motion::Locked { .. } | Motion::Begin { .. } | Motion::Drain(_) => {
            None
        }
    }
}

// Whether a thread is kept with this number that runs a call.
fn is_running(threads: &Catalog<Thread>, number: u32) -> bool
    ensures { result ≡ is_running_if (slice_get threads.now number) }
{
    match threads.get(number) {
        Some(thread) => matches!(thread.core, Core::Running(_)),
        None => false,
    }
}

// Whether nothing is remembered of a thread's next steps, as of one that runs no call. Nothing rests on it.
fn is_unknown(known: &Seq<Known>, number: u32) -> bool {
    let Some(found) = known.get(number as usize) else {
        return true;
    };
    matches!(found.push, Run::Unknown) && matches!(found.pop, Run::Unknown)
}

// Whether no thread that runs a call is kept with this number. One of which a step is remembered is not looked at.
fn is_resting(threads: &Catalog<Thread>, known: &Seq<Known>, number: u32) -> bool
    ensures { IsTrue result → is_running_if (slice_get threads.now number) ≡ false }
{
    if !is_unknown(known, number) {
        return false;
    }
    !is_running(threads, number)
}

// The kind of the step of a thread's core, where it may go first alone, found from the state.
fn lone_seen(checked: &Checked, view: &View<'_>, thread: usize) -> Option<StepKind>
    ensures { result ≡ lone_core checked.now.client view.now thread }
{
    lone_of(kind(checked, view, Actor::Exec(thread)))
}

// What is known of the next step of a thread of a kept state, whose number is this.
fn run_at(
    client: &Client,
    parts: &Parts,
    known: &Seq<Known>,
    running: &Seq<Running>,
    key: &Key,
    thread: usize,
    own: u32,
) -> Run
    requires kept { IsKept client.now parts.now key.now }
    requires known { AreKnown client.now parts.now.threads known.now }
    requires running { AreRunning parts.now.histories running.now }
    ensures { IsRunKnown client.now (procedure_in (state_at parts.now key.now) thread) parts.now.threads own result }
{
    let procedure = procedure_at(&parts.histories, running, key.history, thread);
    run_of(client, &parts.threads, known, procedure, own)
}

// The kind of the step of a thread's core, where it may go first alone.
fn lone_core(
    checked: &Checked,
    parts: &Parts,
    known: &Seq<Known>,
    running: &Seq<Running>,
    key: &Key,
    thread: usize,
) -> Option<StepKind>
    requires kept { IsKept checked.now.client parts.now key.now }
    requires small { length parts.now.threads < 2 ^ 32 }
    requires known { AreKnown checked.now.client parts.now.threads known.now }
    requires running { AreRunning parts.now.histories running.now }
    ensures { result ≡ lone_core checked.now.client (state_at parts.now key.now) thread }
{
    let own = own_number(key, thread)?;
    if is_resting(&parts.threads, known, own) {
        return None;
    }
    match run_at(&checked.client, parts, known, running, key, thread, own) {
        Run::Leaves(_) => Some(StepKind::Local),
        Run::Does(motion) => lone_motion(motion),
        Run::Unknown => match View::of_key(&checked.client, parts, running, key) {
            Some(view) => lone_seen(checked, &view, thread),
            None => None,
        },
    }
}

/// The lowest thread of a kept state whose core's step may go first alone, if there is one. What is remembered of threads' next
/// steps tells it mostly.
pub fn lone_at(
    checked: &Checked,
    parts: &Parts,
    known: &Seq<Known>,
    running: &Seq<Running>,
    key: &Key,
) -> Option<Lone>
    requires kept { IsKept checked.now.client parts.now key.now }
    requires small { length parts.now.threads < 2 ^ 32 }
    requires known { AreKnown checked.now.client parts.now.threads known.now }
    requires running { AreRunning parts.now.histories running.now }
    ensures first { MatchOption result (HasNoLoneCore checked.now.client (state_at parts.now key.now)) (IsFirstLoneCore checked.now.client (state_at parts.now key.now)) }
    ensures few { IfSome result (λ l. l.thread < 5) }
{
    for thread in 0..WIDTH {
        if let Some(kind) = lone_core(checked, parts, known, running, key, thread) {
            return Some(Lone { thread, kind });
        }
    }
    None
}

/// The kind of the step of the core of a thread of a kept state, where it may go first alone and is remembered of the thread.
pub fn remembered_core(
    client: &Client,
    parts: &Parts,
    known: &Seq<Known>,
    running: &Seq<Running>,
    key: &Key,
    thread: usize,
) -> Option<StepKind>
    requires kept { IsKept client.now parts.now key.now }
    requires small { length parts.now.threads < 2 ^ 32 }
    requires known { AreKnown client.now parts.now.threads known.now }
    requires running { AreRunning parts.now.histories running.now }
    ensures { IfSome result (IsLoneCore client.now (state_at parts.now key.now) thread) }
{
    let own = own_number(key, thread)?;
    match run_at(client, parts, known, running, key, thread, own) {
        Run::Leaves(_) => Some(StepKind::Local),
        Run::Does(motion) => lone_motion(motion),
        Run::Unknown => None,
    }
}
