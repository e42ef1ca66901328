//! Whether chosen actors have their reasons.

ghost use Rattle.std.specs.Prelude.{◌≡◌, ◌≢◌, ◌↔◌, ◌+◌, ◌<◌, ◌≤◌, All, IfOk, IsTrue};
ghost use Rattle.tso_choose.specs.Choices.{actors_of, AreReasons, position_of};
ghost use Rattle.tso_choose.specs.declared.choice.Choice.{Choice as AChoice};

use std::alloc::{AllocError, Global};
use tso_choose::Choice;
use tso_flow::Checked;
use tso_foot::Table;
use tso_indep::{Reason, holds};
use tso_list::Seq;
use tso_state::{Actor, Viewed};

// The thread of which the reason at this position speaks, in a list of one for each thread but `own`.
fn other_at(own: usize, position: usize) -> usize
    requires { position < usize.MAX }
    ensures position { position_of own result ≡ position }
    ensures other { result ≢ own }
    ensures near { result ≤ position + 1 }
{
    if position < own {
        return position;
    }
    position + 1
}

// Whether there is one reason for each other thread than the chosen actor's, and each holds.
fn are_reasons<S: Viewed>(
    checked: &Checked,
    table: &Table,
    state: &S,
    chosen: &[Actor],
    actor: Actor,
    given: &[Reason],
) -> bool
    ensures { IsTrue result ↔ AreReasons checked.now.client table.now (S.state state.now) chosen.now actor given.now }
{
    if given.len() + 1 != state.thread_count() {
        return false;
    }
    for position in 0..given.len() {
        let other = other_at(actor.thread(), position);
        if !holds(checked, table, state, chosen, actor, other, given[position]) {
            return false;
        }
    }
    true
}

// The chosen actors alone.
fn actors_of(alloc: Global, choices: &[Choice]) -> Result<Seq<Actor>, AllocError>
    ensures { IfOk result (λ actors. actors ≡ actors_of choices.now) }
{
    let mut actors = Seq::new(alloc);
    for choice in choices {
        actors.push(choice.actor)?;
    }
    Ok(actors)
}

/// Whether each chosen actor has one reason for each other thread, in rising order, each of which holds.
pub fn have_reasons<S: Viewed>(
    alloc: Global,
    checked: &Checked,
    table: &Table,
    state: &S,
    choices: &[Choice],
) -> Result<bool, AllocError>
    ensures { IfOk result (λ r. IsTrue r ↔ All (λ (x : AChoice). AreReasons checked.now.client table.now (S.state state.now) (actors_of choices.now) x.actor x.reasons) choices.now) }
{
    let actors = actors_of(alloc, choices)?;
    let chosen = actors.as_slice();
    let all = choices.iter().all(|choice| {
        are_reasons(
            checked,
            table,
            state,
            chosen,
            choice.actor,
            choice.reasons.as_slice(),
        )
    });
    Ok(all)
}
