//! Whether the runs behind moves stop in records.

ghost use Rattle.std.specs.Prelude.{◌≡◌, ◌↔◌, IfOk, IsTrue};
ghost use Rattle.tso_cert.specs.Lookup.{IsOrdered, tree_states};
ghost use Rattle.tso_cert.specs.Trees.{tree_of};
ghost use Rattle.tso_compact.specs.Plans.{HasHistories};
ghost use Rattle.tso_judge.specs.Moved.{IsMetIfMoved, IsThreadMet};
ghost use Rattle.tso_move.specs.Crossed.{IsMetFrom};
ghost use Rattle.tso_rec.specs.Conditions.{IsLeast, MovesAreMet};

use crate::whole::Whole;
use std::alloc::AllocError;
use tso_compact::StepError;
use tso_move::{arrive, late_move};
use tso_state::{Actor, State, Viewed};

/// Whether the run from a state stops in a record.
///
/// Errors: where a growth was refused.
pub fn is_met_from(whole: &Whole<'_>, state: State) -> Result<bool, AllocError>
    requires ordered { IsOrdered (tree_of whole.now.tree.now) }
    ensures { IfOk result (λ r. IsTrue r ↔ IsMetFrom whole.now.checked.now.client whole.now.own.now whole.now.basis.now.table (tree_states (tree_of whole.now.tree.now)) state) }
{
    let stop = arrive(
        whole.alloc,
        whole.checked,
        whole.own,
        &whole.basis.table,
        state,
    )?;
    Ok(whole.tree.has(&stop))
}

// Whether the run behind the actor's move, if it has one, stops in a record.
fn is_met_after(whole: &Whole<'_>, state: &State, actor: Actor) -> Result<bool, AllocError>
    requires ordered { IsOrdered (tree_of whole.now.tree.now) }
    requires histories { HasHistories state.now }
    ensures { IfOk result (λ r. IsTrue r ↔ IsMetIfMoved whole.now.checked.now.client whole.now.own.now whole.now.basis.now.table (tree_states (tree_of whole.now.tree.now)) state.now actor) }
{
    match late_move(whole.alloc, whole.checked, whole.own, state, actor) {
        Ok(after) => is_met_from(whole, after),
        Err(StepError::Disabled) => Ok(true),
        Err(StepError::Memory) => Err(AllocError),
    }
}

// The same of both actors of a thread.
fn is_thread_met(whole: &Whole<'_>, state: &State, thread: usize) -> Result<bool, AllocError>
    requires ordered { IsOrdered (tree_of whole.now.tree.now) }
    requires histories { HasHistories state.now }
    ensures { IfOk result (λ r. IsTrue r ↔ IsThreadMet whole.now.checked.now.client whole.now.own.now whole.now.basis.now.table (tree_states (tree_of whole.now.tree.now)) state.now thread) }
{
    if !is_met_after(whole, state, Actor::Exec(thread))? {
        return Ok(false);
    }
    is_met_after(whole, state, Actor::Drain(thread))
}

/// Whether the runs behind all actors' moves stop in records.
///
/// Errors: where a growth was refused.
pub fn are_moves_met(whole: &Whole<'_>, state: &State) -> Result<bool, AllocError>
    requires least { IsLeast whole.now.checked.now.client whole.now.own.now }
    requires ordered { IsOrdered (tree_of whole.now.tree.now) }
    requires histories { HasHistories state.now }
    ensures { IfOk result (λ r. IsTrue r ↔ MovesAreMet whole.now.checked.now.client whole.now.basis.now.table (tree_states (tree_of whole.now.tree.now)) state.now) }
{
    for thread in 0..state.thread_count() {
        if !is_thread_met(whole, state, thread)? {
            return Ok(false);
        }
    }
    Ok(true)
}
