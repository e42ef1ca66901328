//! Runs of free actors' moves.

ghost use Rattle.std.specs.Prelude.{◌≡◌, IfOk, MatchOption};
ghost use Rattle.tso_move.specs.Runs.{HasMove, IsMove, IsNext, IsRun, StopsAt};
ghost use Rattle.tso_state.specs.WellFormed.{IsWellFormed};

use crate::free::lowest_free;
use crate::moves::late_move;
use std::alloc::{AllocError, Global};
use tso_compact::StepError;
use tso_flow::Checked;
use tso_foot::{ArrayTable, Table};
use tso_state::{Actor, State, is_well_formed};

// The state after the move of a free actor.
fn moved(
    alloc: Global,
    checked: &Checked,
    own: &ArrayTable,
    state: &State,
    actor: Actor,
) -> Result<State, AllocError>
    requires well_formed { IsWellFormed checked.now.client state.now }
    requires moves { HasMove checked.now.client own.now state.now actor }
    ensures { IfOk result (IsMove checked.now.client own.now state.now actor) }
{
    match late_move(alloc, checked, own, state, actor) {
        Ok(next) => Ok(next),
        Err(StepError::Memory) => Err(AllocError),
        Err(StepError::Disabled) => unreachable!(),
    }
}

// The next state of a run, if it does not stop.
fn next_of(
    alloc: Global,
    checked: &Checked,
    own: &ArrayTable,
    table: &Table,
    state: &State,
) -> Result<Option<State>, AllocError>
    ensures { IfOk result (λ next. MatchOption next (StopsAt checked.now.client own.now table.now state.now) (IsNext checked.now.client own.now table.now state.now)) }
{
    if !is_well_formed(checked, state) {
        return Ok(None);
    }
    match lowest_free(alloc, checked, own, table, state)? {
        Some(actor) => Ok(Some(moved(alloc, checked, own, state, actor)?)),
        None => Ok(None),
    }
}

/// The state in which the run from a state stops: while it is well-formed and an actor is free, the lowest free one moves.
///
/// Errors: out of memory.
pub fn arrive(
    alloc: Global,
    checked: &Checked,
    own: &ArrayTable,
    table: &Table,
    state: State,
) -> Result<State, AllocError>
    ensures { IfOk result (IsRun checked.now.client own.now table.now state) }
{
    let mut state = state;
    'run: loop {
        match next_of(alloc, checked, own, table, &state)? {
            Some(next) => state = next,
            None => return Ok(state),
        }
    }
}
