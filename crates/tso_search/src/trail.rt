//! Ways to states, with their labels.

ghost use Rattle.std.specs.Prelude.{◌≡◌, ◌<◌, ◌≤◌, IfOk, OnOk, length};
ghost use Rattle.tso_compact.specs.Laws.{initial_of};
ghost use Rattle.tso_compact.specs.Plans.{HasHistories, HasStep, IsLabelled, IsRunOfStep, IsStep};
ghost use Rattle.tso_move.specs.Runs.{HasMove, IsMove, IsRun};
ghost use Rattle.tso_search.specs.Grounds.{Goes, IsArrived, IsFirst, Leads};
ghost use Rattle.tso_search.specs.Ways.{AreLed, IsTrail};
ghost use Rattle.tso_state.specs.Views.{state_of};

use crate::ground::Ground;
use std::alloc::{AllocError, Global};
use tso_compact::{StepError, labels, step};
use tso_flow::Checked;
use tso_foot::{ArrayTable, Table};
use tso_machine::Label;
use tso_move::{late_move, lowest_free};
use tso_state::{Actor, State, initial_state, is_same};

/// A state, and the labels of a run from the initial state to it.
#[derive(Drop)]
pub struct Trail {
    pub state: State,
    pub labels: Vec<Label>,
}

// The state after the actor's step, which there is.
fn stepped(
    alloc: Global,
    checked: &Checked,
    state: &State,
    actor: Actor,
) -> Result<State, AllocError>
    requires histories { HasHistories state.now }
    requires step { HasStep checked.now.client state.now actor }
    ensures { IfOk result (IsStep checked.now.client state.now actor) }
{
    match step(alloc, checked, state, actor) {
        Ok(next) => Ok(next),
        Err(StepError::Memory) => Err(AllocError),
        Err(StepError::Disabled) => unreachable!(),
    }
}

// Its labels.
fn labels_of_step(
    alloc: Global,
    checked: &Checked,
    state: &State,
    actor: Actor,
) -> Result<Vec<Label>, AllocError>
    requires histories { HasHistories state.now }
    requires step { HasStep checked.now.client state.now actor }
    ensures labelled { IfOk result (λ ls. IsLabelled checked.now.client state.now actor ls.items) }
    ensures run { IfOk result (λ ls. IsRunOfStep checked.now.client state.now actor ls.items) }
{
    match labels(alloc, checked, state, actor) {
        Ok(labels) => Ok(labels),
        Err(StepError::Memory) => Err(AllocError),
        Err(StepError::Disabled) => unreachable!(),
    }
}

// Goes on by the actor's step.
fn step_on(
    alloc: Global,
    checked: &Checked,
    trail: &mut Trail,
    actor: Actor,
) -> Result<(), AllocError>
    requires trail { IsTrail checked.now.client trail.old }
    requires step { HasStep checked.now.client trail.old.state actor }
    ensures trail { OnOk result (IsTrail checked.now.client trail.new) }
    ensures step { OnOk result (IsStep checked.now.client trail.old.state actor trail.new.state) }
    ensures more { OnOk result (length trail.old.labels.items < length trail.new.labels.items) }
{
    let next = stepped(alloc, checked, &trail.state, actor)?;
    let labels = labels_of_step(alloc, checked, &trail.state, actor)?;
    trail.labels.extend_from_slice(labels.as_slice())?;
    trail.state = next;
    Ok(())
}

// Goes on by steps of the actor until they have led to this state.
fn walk_on(
    alloc: Global,
    checked: &Checked,
    trail: &mut Trail,
    actor: Actor,
    target: &State,
) -> Result<(), AllocError>
    requires trail { IsTrail checked.now.client trail.old }
    requires led { AreLed checked.now.client trail.old.state actor target.now }
    ensures trail { OnOk result (IsTrail checked.now.client trail.new) }
    ensures there { OnOk result (trail.new.state ≡ target.now) }
    ensures more { OnOk result (length trail.old.labels.items ≤ length trail.new.labels.items) }
{
    'steps: while !is_same(&trail.state, target) {
        step_on(alloc, checked, trail, actor)?;
    }
    Ok(())
}

// The state after the actor's move, which there is.
fn moved(
    alloc: Global,
    checked: &Checked,
    own: &ArrayTable,
    state: &State,
    actor: Actor,
) -> Result<State, AllocError>
    requires histories { HasHistories state.now }
    requires moves { HasMove checked.now.client own.now state.now actor }
    ensures { IfOk result (IsMove checked.now.client own.now state.now actor) }
{
    match late_move(alloc, checked, own, state, actor) {
        Ok(next) => Ok(next),
        Err(StepError::Memory) => Err(AllocError),
        Err(StepError::Disabled) => unreachable!(),
    }
}

// Goes on by the actor's move.
fn move_on(
    alloc: Global,
    checked: &Checked,
    own: &ArrayTable,
    trail: &mut Trail,
    actor: Actor,
) -> Result<(), AllocError>
    requires trail { IsTrail checked.now.client trail.old }
    requires moves { HasMove checked.now.client own.now trail.old.state actor }
    ensures trail { OnOk result (IsTrail checked.now.client trail.new) }
    ensures moved { OnOk result (IsMove checked.now.client own.now trail.old.state actor trail.new.state) }
    ensures more { OnOk result (length trail.old.labels.items < length trail.new.labels.items) }
{
    let target = moved(alloc, checked, own, &trail.state, actor)?;
    step_on(alloc, checked, trail, actor)?;
    walk_on(alloc, checked, trail, actor, &target)
}

// Goes on by moves of free actors until none is free.
fn run_on(
    alloc: Global,
    checked: &Checked,
    own: &ArrayTable,
    table: &Table,
    trail: &mut Trail,
) -> Result<(), AllocError>
    requires trail { IsTrail checked.now.client trail.old }
    ensures trail { OnOk result (IsTrail checked.now.client trail.new) }
    ensures run { OnOk result (IsRun checked.now.client own.now table.now trail.old.state trail.new.state) }
{
    'run: while let Some(actor) = lowest_free(alloc, checked, own, table, &trail.state)? {
        move_on(alloc, checked, own, trail, actor)?;
    }
    Ok(())
}

// Goes on by the actor's move, and the run behind it.
fn arrive_on(
    alloc: Global,
    checked: &Checked,
    own: &ArrayTable,
    table: &Table,
    trail: &mut Trail,
    actor: Actor,
) -> Result<(), AllocError>
    requires trail { IsTrail checked.now.client trail.old }
    requires moves { HasMove checked.now.client own.now trail.old.state actor }
    ensures trail { OnOk result (IsTrail checked.now.client trail.new) }
    ensures arrived { OnOk result (IsArrived checked.now.client own.now table.now trail.old.state actor trail.new.state) }
{
    move_on(alloc, checked, own, trail, actor)?;
    run_on(alloc, checked, own, table, trail)
}

/// Goes on to where the actor leads.
///
/// Errors: out of memory.
pub fn go_on(
    alloc: Global,
    checked: &Checked,
    ground: &Ground,
    trail: &mut Trail,
    actor: Actor,
) -> Result<(), AllocError>
    requires trail { IsTrail checked.now.client trail.old }
    requires goes { Goes checked.now.client ground.now trail.old.state actor }
    ensures trail { OnOk result (IsTrail checked.now.client trail.new) }
    ensures leads { OnOk result (Leads checked.now.client ground.now trail.old.state actor trail.new.state) }
{
    match ground {
        Ground::Steps(_) => step_on(alloc, checked, trail, actor),
        Ground::Crossings(own, table) => arrive_on(alloc, checked, own, table, trail, actor),
    }
}

// Goes on from the initial state to where a search begins.
fn begin_on(
    alloc: Global,
    checked: &Checked,
    ground: &Ground,
    trail: &mut Trail,
) -> Result<(), AllocError>
    requires trail { IsTrail checked.now.client trail.old }
    requires first { state_of trail.old.state ≡ initial_of checked.now.client }
    ensures trail { OnOk result (IsTrail checked.now.client trail.new) }
    ensures first { OnOk result (IsFirst checked.now.client ground.now trail.new.state) }
{
    match ground {
        Ground::Steps(_) => Ok(()),
        Ground::Crossings(own, table) => run_on(alloc, checked, own, table, trail),
    }
}

/// The way to the state with which a search begins.
///
/// Errors: out of memory.
pub fn first_trail(alloc: Global, checked: &Checked, ground: &Ground) -> Result<Trail, AllocError>
    ensures trail { IfOk result (IsTrail checked.now.client) }
    ensures first { IfOk result (λ trail. IsFirst checked.now.client ground.now trail.state) }
{
    let state = initial_state(alloc, checked)?;
    let mut trail = Trail {
        state,
        labels: Vec::new(alloc),
    };
    match begin_on(alloc, checked, ground, &mut trail) {
        Ok(()) => Ok(trail),
        Err(reason) => {
            drop(trail);
            Err(reason)
        }
    }
}
