//! Chosen actors with their reasons.

ghost use Rattle.std.specs.Prelude.{◌≡◌, ◌≤◌, IfOk, length, map, take};
ghost use Rattle.tso_choose.specs.Choices.{AreChosen, actors_below, choice_of, reason_for, reasons_for};
ghost use Rattle.tso_indep.specs.Reasons.{kind_in};
ghost use Rattle.tso_state.specs.Actors.{thread_of};
ghost use Rattle.tso_state.specs.WellFormed.{IsWellFormed};

use crate::choice::{Choice, Choices};
use crate::choosing::{ACTORS, chosen};
use crate::set::{actor_at, has_bit};
use std::alloc::{AllocError, Global};
use tso_compact::{StepKind, kind};
use tso_flow::Checked;
use tso_foot::Table;
use tso_indep::{Reason, is_reason};
use tso_list::Short;
use tso_state::{Actor, Viewed};

// Lists the actors of a set whose numbers are below `upto`, in rising order, from the beginning of `actors` on, and says how
// many they are.
fn list_actors(set: u16, upto: usize, actors: &mut [Actor]) -> usize
    requires small { upto ≤ 16 }
    requires room { upto ≤ length actors.old }
    ensures within { result ≤ length actors.new }
    ensures listed { take result actors.new ≡ actors_below set upto }
{
    let mut count = 0;
    for number in 0..upto {
        if has_bit(set, number) {
            actors[count] = actor_at(number);
            count += 1;
        }
    }
    count
}

// The reason that is given for a step of this kind and another thread: of a return that it is one, of any other step the lowest
// that holds; the last where none of the others does.
fn reason_for<S: Viewed>(
    checked: &Checked,
    table: &Table,
    state: &S,
    chosen: &[Actor],
    kind: StepKind,
    other: usize,
) -> Reason
    ensures { result ≡ reason_for checked.now.client table.now (S.state state.now) chosen.now kind other }
{
    if is_reason(checked, table, state, chosen, kind, other, Reason::Return) {
        return Reason::Return;
    }
    if is_reason(checked, table, state, chosen, kind, other, Reason::Own) {
        return Reason::Own;
    }
    if is_reason(checked, table, state, chosen, kind, other, Reason::Far) {
        return Reason::Far;
    }
    if is_reason(checked, table, state, chosen, kind, other, Reason::Inside) {
        return Reason::Inside;
    }
    if is_reason(checked, table, state, chosen, kind, other, Reason::Buffer) {
        return Reason::Buffer;
    }
    Reason::NoReturn
}

// The reasons of a step of this kind, of thread `own`, for each other thread.
fn reasons_of<S: Viewed>(
    alloc: Global,
    checked: &Checked,
    table: &Table,
    state: &S,
    chosen: &[Actor],
    kind: StepKind,
    own: usize,
) -> Result<Short<Reason, 4>, AllocError>
    ensures { IfOk result (λ given. given ≡ reasons_for checked.now.client table.now (S.state state.now) chosen.now kind own) }
{
    let mut given = Short::new(alloc);
    for other in 0..state.thread_count() {
        if other != own {
            given.push(reason_for(checked, table, state, chosen, kind, other))?;
        }
    }
    Ok(given)
}

// A chosen actor with its reasons.
fn choice_of<S: Viewed>(
    alloc: Global,
    checked: &Checked,
    table: &Table,
    state: &S,
    chosen: &[Actor],
    actor: Actor,
) -> Result<Choice, AllocError>
    ensures { IfOk result (λ choice. choice ≡ choice_of checked.now.client table.now (S.state state.now) chosen.now actor) }
{
    let reasons = match kind(checked, state, actor) {
        Some(kind) => reasons_of(alloc, checked, table, state, chosen, kind, actor.thread())?,
        None => Short::new(alloc),
    };
    Ok(Choice { actor, reasons })
}

// These chosen actors, each with its reasons.
fn choices_of<S: Viewed>(
    alloc: Global,
    checked: &Checked,
    table: &Table,
    state: &S,
    chosen: &[Actor],
) -> Result<Choices, AllocError>
    ensures { IfOk result (λ choices. choices ≡ map (choice_of checked.now.client table.now (S.state state.now) chosen.now) chosen.now) }
{
    let mut choices = Short::new(alloc);
    for actor in chosen {
        choices.push(choice_of(alloc, checked, table, state, chosen, *actor)?)?;
    }
    Ok(choices)
}

/// The chosen actors of a well-formed state in rising order, each with a reason that holds for each other thread: a persistent
/// choice over a closed table (Godefroid 1996). A return is chosen alone and gives that it is one; any other step gives the lowest
/// reason that holds. It takes no memory but for them.
pub fn choose<S: Viewed>(
    alloc: Global,
    checked: &Checked,
    table: &Table,
    state: &S,
) -> Result<Choices, AllocError>
    requires { IsWellFormed checked.now.client (S.state state.now) }
    ensures { IfOk result (AreChosen checked.now.client table.now (S.state state.now)) }
{
    let set = chosen(checked, table, state);
    let mut actors = [Actor::Exec(0); ACTORS];
    let count = list_actors(set, 2 * state.thread_count(), &mut actors);
    choices_of(alloc, checked, table, state, &actors[..count])
}
