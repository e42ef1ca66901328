//! Records whose states lie in a store under the records' numbers, and rise.

ghost use Rattle.std.specs.Prelude.{◌≡◌, ◌↔◌, All, IfOk, IsTrue, None, Some, slice_get};
ghost use Rattle.tso_check.specs.Numbered.{AreKeptFrom, IsJudgedAt, IsKeptFrom};
ghost use Rattle.tso_choose.specs.declared.choice.Choice.{Choice as AChoice};
ghost use Rattle.tso_judge.specs.Judging.{IsJudgedAlone};
ghost use Rattle.tso_judge.specs.Valid.{ContainsInitial};
ghost use Rattle.tso_rec.specs.Bases.{by_steps};
ghost use Rattle.tso_state.specs.Fitting.{PartsFit};
ghost use Rattle.tso_state.specs.Rising.{IsRising};
ghost use Rattle.tso_keys.specs.Forms.{AreForms};

use crate::alone::is_sure_end;
use crate::trail::Trail;
use std::alloc::{AllocError, Global};
use tso_choose::Choice;
use tso_flow::Checked;
use tso_foot::{Table, is_within};
use tso_judge::{Code, judge_alone};
use tso_keys::{Forms, View};
use tso_rec::{End, Grain};
use tso_state::{Actor, Viewed, initial_state, is_well_formed_given};
use tso_store::{Found, Store};

/// Whether the initial state is kept.
///
/// Errors: where a growth was refused.
pub fn has_initial(alloc: Global, checked: &Checked, store: &Store<'_>) -> Result<bool, AllocError>
    ensures { IfOk result (λ r. IsTrue r ↔ ContainsInitial checked.now.client store.now.states) }
{
    let initial = initial_state(alloc, checked)?;
    match store.find(&initial) {
        Some(_) => Ok(true),
        None => Ok(false),
    }
}

// Whether the state after the actor's step is kept, which is looked for first where the trail goes on.
fn is_kept_from(store: &Store<'_>, number: u32, actor: Actor, trail: &mut Trail) -> bool
    requires { IsRising store.now.states }
    ensures { IsTrue result ↔ IsKeptFrom store.now.client store.now.states number actor }
{
    match store.find_risen_successor(number, actor, trail.near(actor)) {
        Found::At(next) => {
            trail.note(actor, next);
            true
        }
        Found::Absent => false,
        Found::Disabled => false,
    }
}

// Whether the states after the steps of all chosen actors are kept.
fn are_kept_from(store: &Store<'_>, number: u32, choices: &[Choice], trail: &mut Trail) -> bool
    requires { IsRising store.now.states }
    ensures { IsTrue result ↔ All (λ (x : AChoice). IsKeptFrom store.now.client store.now.states number x.actor) choices.now }
{
    for choice in choices {
        if !is_kept_from(store, number, choice.actor, trail) {
            return false;
        }
    }
    true
}

// The same, where there are chosen actors.
fn are_successors_kept(store: &Store<'_>, number: u32, end: &End, trail: &mut Trail) -> bool
    requires { IsRising store.now.states }
    ensures { IsTrue result ↔ AreKeptFrom store.now.client store.now.states number end.now }
{
    match end {
        End::Choices(choices) => are_kept_from(store, number, choices.as_slice(), trail),
        End::Order(_) => true,
    }
}

// The first condition that a kept state with its end fails by itself, where it is known whether its parts fit. Where the store
// remembers of the one chosen core that it goes first alone, K05 alone is asked.
fn judge_view(
    alloc: Global,
    checked: &Checked,
    table: &Table,
    store: &Store<'_>,
    number: u32,
    view: &View<'_>,
    fits: bool,
    end: &End,
) -> Result<Option<Code>, AllocError>
    requires client { store.now.client ≡ checked.now.client }
    requires state { slice_get store.now.states number ≡ Some view.now }
    requires fits { IsTrue fits ↔ PartsFit checked.now.client view.now }
    ensures { IfOk result (IsJudgedAlone checked.now.client (by_steps table.now) view.now end.now) }
{
    if !is_sure_end(store, number, view.thread_count(), end) {
        return judge_alone(alloc, checked, Grain::Steps, table, view, fits, end);
    }
    if !is_well_formed_given(checked, view, fits) {
        return Ok(Some(Code::K05));
    }
    Ok(None)
}

// Where a kept state meets those conditions, K08 and K12 are left.
fn judge_rest(
    table: &Table,
    store: &Store<'_>,
    number: u32,
    view: &View<'_>,
    end: &End,
    trail: &mut Trail,
) -> Option<Code>
    requires rising { IsRising store.now.states }
    requires state { slice_get store.now.states number ≡ Some view.now }
    requires alone { IsJudgedAlone store.now.client (by_steps table.now) view.now end.now None }
    ensures { IsJudgedAt store.now.client table.now store.now.states number end.now result }
{
    if !are_successors_kept(store, number, end, trail) {
        return Some(Code::K08);
    }
    if !is_within(table, view) {
        return Some(Code::K12);
    }
    None
}

/// The first condition that the state of this number fails with an end, if there is such a state, where it is known of each state
/// whether its parts fit. The states after the chosen steps are looked for first where the trail goes on.
///
/// Errors: where a growth was refused.
pub fn judge_number(
    alloc: Global,
    checked: &Checked,
    table: &Table,
    store: &Store<'_>,
    forms: &Forms<'_>,
    number: u32,
    end: &End,
    trail: &mut Trail,
) -> Result<Option<Code>, AllocError>
    requires rising { IsRising store.now.states }
    requires client { store.now.client ≡ checked.now.client }
    requires forms { AreForms checked.now.client store.now.states forms.now }
    ensures { IfOk result (IsJudgedAt checked.now.client table.now store.now.states number end.now) }
{
    let Some(view) = store.view(number) else {
        return Ok(None);
    };
    let fits = forms.get(number);
    match judge_view(alloc, checked, table, store, number, &view, fits, end)? {
        Some(code) => Ok(Some(code)),
        None => Ok(judge_rest(table, store, number, &view, end, trail)),
    }
}
