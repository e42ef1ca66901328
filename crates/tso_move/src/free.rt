//! Free actors.

ghost use Rattle.std.specs.Prelude.{◌≡◌, ◌==◌, ◌||◌, IfOk, MatchBool, MatchOption, true};
ghost use Rattle.std.specs.List.{list_all};
ghost use Rattle.tso_choose.specs.Needs.{is_apart};
ghost use Rattle.tso_foot.specs.declared.table.ArrayTable.{ArrayTable as AnArrayTable};
ghost use Rattle.tso_move.specs.Free.{HasNoFree, HasNoFreeOf, IsFree, IsLowestFree, IsLowestOf, is_free_of, is_still, passes};
ghost use Rattle.tso_state.specs.declared.actor.Actor.TheVariants as actors;
ghost use Rattle.tso_move.specs.Parts.{parts_of};

use crate::parts::{MoveKind, begun_call, move_kind};
use std::alloc::{AllocError, Global};
use tso_choose::is_apart;
use tso_compact::{StepKind, kind};
use tso_flow::Checked;
use tso_foot::{ArrayTable, Table};
use tso_state::{Actor, Viewed};

// Whether neither actor of a thread has a step.
fn is_still<S: Viewed>(checked: &Checked, state: &S, thread: usize) -> bool
    ensures { result ≡ is_still checked.now.client (S.state state.now) thread }
{
    kind(checked, state, Actor::Exec(thread)).is_none()
        && kind(checked, state, Actor::Drain(thread)).is_none()
}

// Whether each part of such a move needs nobody of another thread.
fn are_apart<S: Viewed>(
    checked: &Checked,
    table: &Table,
    state: &S,
    kind: MoveKind,
    other: usize,
) -> bool
    ensures { result ≡ list_all (λ k. is_apart checked.now.client table.now (S.state state.now) k other) (parts_of kind) }
{
    match kind {
        MoveKind::Step(step) => is_apart(checked, table, state, step, other),
        MoveKind::Begin(None) => is_apart(checked, table, state, StepKind::Call, other),
        MoveKind::Begin(Some(step)) => {
            is_apart(checked, table, state, StepKind::Call, other)
                && is_apart(checked, table, state, step, other)
        }
    }
}

// Whether such a move may come before all that another thread does.
fn passes<S: Viewed>(
    checked: &Checked,
    table: &Table,
    state: &S,
    kind: MoveKind,
    other: usize,
) -> bool
    ensures { result ≡ passes checked.now.client table.now (S.state state.now) (parts_of kind) other }
{
    are_apart(checked, table, state, kind, other) || is_still(checked, state, other)
}

// Whether another thread is the move's own, or the move may come before all that it does.
fn is_passed<S: Viewed>(
    checked: &Checked,
    table: &Table,
    state: &S,
    thread: usize,
    kind: MoveKind,
    other: usize,
) -> bool
    ensures { result ≡ (other == thread || passes checked.now.client table.now (S.state state.now) (parts_of kind) other) }
{
    other == thread || passes(checked, table, state, kind, other)
}

/// Whether a move of this thread of the state, which has to do with memory and with calls what `kind` says, may come before all that
/// other threads do: each other thread has no step; or each part of the move is local, a return, far from the thread's future, or the begin
/// of a call while the thread returns no more. It takes no memory.
pub fn is_free<S: Viewed>(
    checked: &Checked,
    table: &Table,
    state: &S,
    thread: usize,
    kind: MoveKind,
) -> bool
    ensures { result ≡ is_free_of checked.now.client table.now (S.state state.now) thread (parts_of kind) }
{
    for other in 0..state.thread_count() {
        if !is_passed(checked, table, state, thread, kind, other) {
            return false;
        }
    }
    true
}

// Whether an actor whose move begins a call may begin it before all that other threads do. Where it may not, its opening need not be
// followed.
fn may_be_free<S: Viewed>(checked: &Checked, table: &Table, state: &S, actor: Actor) -> bool
    ensures { (own : AnArrayTable) → IsFree checked.now.client own table.now (S.state state.now) actor → result ≡ true }
{
    match begun_call(checked, state, actor) {
        Some(_) => is_free(checked, table, state, actor.thread(), MoveKind::Begin(None)),
        None => true,
    }
}

// Whether an actor is free.
fn is_free_actor<S: Viewed>(
    alloc: Global,
    checked: &Checked,
    own: &ArrayTable,
    table: &Table,
    state: &S,
    actor: Actor,
) -> Result<bool, AllocError>
    ensures { IfOk result (λ free. MatchBool free (IsFree checked.now.client own.now table.now (S.state state.now) actor) (IsFree checked.now.client own.now table.now (S.state state.now) actor → ⊥)) }
{
    if !may_be_free(checked, table, state, actor) {
        return Ok(false);
    }
    match move_kind(alloc, checked, own, state, actor)? {
        Some(kind) => Ok(is_free(checked, table, state, actor.thread(), kind)),
        None => Ok(false),
    }
}

/// The free actor of a thread with the lowest number, if one is free: the core comes before the buffer.
///
/// Errors: out of memory, while it follows openings.
pub fn lowest_of<S: Viewed>(
    alloc: Global,
    checked: &Checked,
    own: &ArrayTable,
    table: &Table,
    state: &S,
    thread: usize,
) -> Result<Option<Actor>, AllocError>
    ensures { IfOk result (λ found. MatchOption found (HasNoFreeOf checked.now.client own.now table.now (S.state state.now) thread) (IsLowestOf checked.now.client own.now table.now (S.state state.now) thread)) }
{
    let (core, buffer) = (Actor::Exec(thread), Actor::Drain(thread));
    if is_free_actor(alloc, checked, own, table, state, core)? {
        return Ok(Some(core));
    }
    if is_free_actor(alloc, checked, own, table, state, buffer)? {
        return Ok(Some(buffer));
    }
    Ok(None)
}

/// The free actor of a state with the lowest number, if one is free, by the least table of arrays and a certificate's table.
///
/// Errors: out of memory, while it follows openings.
pub fn lowest_free<S: Viewed>(
    alloc: Global,
    checked: &Checked,
    own: &ArrayTable,
    table: &Table,
    state: &S,
) -> Result<Option<Actor>, AllocError>
    ensures { IfOk result (λ found. MatchOption found (HasNoFree checked.now.client own.now table.now (S.state state.now)) (IsLowestFree checked.now.client own.now table.now (S.state state.now))) }
{
    for thread in 0..state.thread_count() {
        if let Some(actor) = lowest_of(alloc, checked, own, table, state, thread)? {
            return Ok(Some(actor));
        }
    }
    Ok(None)
}
