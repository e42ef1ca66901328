//! Which condition of a record fails first.

ghost use Rattle.std.specs.Prelude.{◌≡◌, ◌↔◌, IfOk, IsTrue, List, None};
ghost use Rattle.tso_cert.specs.Lookup.{IsOrdered, tree_states};
ghost use Rattle.tso_cert.specs.Trees.{tree_of};
ghost use Rattle.tso_choose.specs.declared.choice.Choice.{Choice as AChoice};
ghost use Rattle.tso_compact.specs.Plans.{HasHistories};
ghost use Rattle.tso_foot.specs.declared.table.Table.{Table as FootprintTable};
ghost use Rattle.tso_rec.specs.Bases.{basis, by_steps};
ghost use Rattle.tso_rec.specs.Conditions.{AreFollowed, IsLeast, SuccessorsAreKept};
ghost use Rattle.tso_judge.specs.Judging.{IsJudgedAlone, IsJudgedAmong};
ghost use Rattle.tso_rec.specs.declared.basis.Grain.TheVariants as grains;
ghost use Rattle.tso_rec.specs.declared.record.End.TheVariants as ends;
ghost use Rattle.tso_state.specs.Fitting.{PartsFit};
ghost use Rattle.tso_state.specs.WellFormed.{IsWellFormed};

use crate::code::Code;
use crate::crossings::are_moves_met;
use crate::ends::{are_movers, has_no_stopped, is_over};
use crate::reasons::have_reasons;
use crate::successors::are_kept_after;
use crate::whole::Whole;
use std::alloc::{AllocError, Global};
use tso_choose::Choices;
use tso_fifo::{Order, is_linearization};
use tso_flow::Checked;
use tso_foot::{Table, is_within};
use tso_rec::{End, Grain};
use tso_state::{State, Viewed, is_well_formed_given, parts_fit};

// Of a well-formed state with choices, in a certificate of steps.
fn judge_choices<S: Viewed>(
    alloc: Global,
    checked: &Checked,
    table: &Table,
    state: &S,
    choices: &Choices,
) -> Result<Option<Code>, AllocError>
    requires { IsWellFormed checked.now.client (S.state state.now) }
    ensures { IfOk result (IsJudgedAlone checked.now.client (by_steps table.now) (S.state state.now) (ends.Choices choices.now)) }
{
    let choices = choices.as_slice();
    if !are_movers(checked, state, choices) {
        return Ok(Some(Code::K06));
    }
    if !have_reasons(alloc, checked, table, state, choices)? {
        return Ok(Some(Code::K07));
    }
    Ok(None)
}

// Of a well-formed state at a crossing, whatever the table says, and whatever was chosen.
fn judge_crossing<S: Viewed>(checked: &Checked, state: &S) -> Option<Code>
    requires { IsWellFormed checked.now.client (S.state state.now) }
    ensures { (t : FootprintTable) (choices : List AChoice) → IsJudgedAlone checked.now.client (basis grains.Crossings t) (S.state state.now) (ends.Choices choices) result }
{
    if is_over(checked, state) {
        return Some(Code::K06);
    }
    None
}

// Of a well-formed state with an order of the calls of its history.
fn judge_order<S: Viewed>(
    checked: &Checked,
    grain: Grain,
    table: &Table,
    state: &S,
    order: &Order,
) -> Option<Code>
    requires { IsWellFormed checked.now.client (S.state state.now) }
    ensures { IsJudgedAlone checked.now.client (basis grain table.now) (S.state state.now) (ends.Order order.now) result }
{
    if !is_over(checked, state) {
        return Some(Code::K06);
    }
    if !has_no_stopped(state) {
        return Some(Code::K10);
    }
    let client = &checked.client;
    if !is_linearization(
        state.history(),
        client.mode,
        client.capacity as usize,
        order,
    ) {
        return Some(Code::K11);
    }
    None
}

/// The code of the first condition that a record fails, of those that come before K12 and need no other record: K05 to K07, K10
/// and K11. `fits` says whether the state's parts fit the client (`parts_fit`).
///
/// Errors: where a growth was refused.
pub fn judge_alone<S: Viewed>(
    alloc: Global,
    checked: &Checked,
    grain: Grain,
    table: &Table,
    state: &S,
    fits: bool,
    end: &End,
) -> Result<Option<Code>, AllocError>
    requires { IsTrue fits ↔ PartsFit checked.now.client (S.state state.now) }
    ensures { IfOk result (IsJudgedAlone checked.now.client (basis grain table.now) (S.state state.now) end.now) }
{
    if !is_well_formed_given(checked, state, fits) {
        return Ok(Some(Code::K05));
    }
    match (end, grain) {
        (End::Choices(choices), Grain::Steps) => {
            judge_choices(alloc, checked, table, state, choices)
        }
        (End::Choices(_), Grain::Crossings) => Ok(judge_crossing(checked, state)),
        (End::Order(order), _) => Ok(judge_order(checked, grain, table, state, order)),
    }
}

impl Whole<'_> {
    // Whether records have the states after the steps of the chosen actors; at a crossing, those in which the runs behind all moves stop.
    fn are_followed(&self, state: &State, choices: &Choices) -> Result<bool, AllocError>
        requires least { IsLeast self.now.checked.now.client self.now.own.now }
        requires ordered { IsOrdered (tree_of self.now.tree.now) }
        requires histories { HasHistories state.now }
        ensures { IfOk result (λ r. IsTrue r ↔ AreFollowed self.now.checked.now.client self.now.basis.now.grain self.now.basis.now.table (tree_states (tree_of self.now.tree.now)) state.now choices.now) }
    {
        match self.basis.grain {
            Grain::Steps => {
                are_kept_after(
                    self.alloc,
                    self.checked,
                    self.tree,
                    state,
                    choices.as_slice(),
                )
            }
            Grain::Crossings => are_moves_met(self, state),
        }
    }

    // The same, if there are choices.
    fn are_successors_kept(&self, state: &State, end: &End) -> Result<bool, AllocError>
        requires least { IsLeast self.now.checked.now.client self.now.own.now }
        requires ordered { IsOrdered (tree_of self.now.tree.now) }
        requires histories { HasHistories state.now }
        ensures { IfOk result (λ r. IsTrue r ↔ SuccessorsAreKept self.now.checked.now.client self.now.basis.now (tree_states (tree_of self.now.tree.now)) state.now end.now) }
    {
        match end {
            End::Choices(choices) => self.are_followed(state, choices),
            End::Order(_) => Ok(true),
        }
    }

    // Where a record meets those conditions by itself, K08 and K12 are left.
    fn judge_rest(&self, state: &State, end: &End) -> Result<Option<Code>, AllocError>
        requires least { IsLeast self.now.checked.now.client self.now.own.now }
        requires ordered { IsOrdered (tree_of self.now.tree.now) }
        requires alone { IsJudgedAlone self.now.checked.now.client self.now.basis.now state.now end.now None }
        ensures { IfOk result (IsJudgedAmong self.now.checked.now.client self.now.basis.now (tree_states (tree_of self.now.tree.now)) state.now end.now) }
    {
        if !self.are_successors_kept(state, end)? {
            return Ok(Some(Code::K08));
        }
        if !is_within(&self.basis.table, state) {
            return Ok(Some(Code::K12));
        }
        Ok(None)
    }

    /// The code of the first condition that a record fails against the records of the tree, K05 to K08 and K10 to K12 in their order,
    /// or none. The state is well-formed. Of a certificate of steps, the record has chosen actors that each have a step, or an order where
    /// none has; each chosen actor has reasons that hold; records have the states after their steps. Of one of crossings, some actor has a
    /// move, or the record has an order where none has; records have the states in which the runs behind all moves stop. No thread is
    /// stopped where there is an order, and the order explains the calls; running registers lie in the table's intervals, if it has
    /// some.
    ///
    /// Errors: where a growth was refused.
    pub fn judge(&self, state: &State, end: &End) -> Result<Option<Code>, AllocError>
        requires least { IsLeast self.now.checked.now.client self.now.own.now }
        requires ordered { IsOrdered (tree_of self.now.tree.now) }
        ensures { IfOk result (IsJudgedAmong self.now.checked.now.client self.now.basis.now (tree_states (tree_of self.now.tree.now)) state.now end.now) }
    {
        let fits = parts_fit(self.checked, state);
        let (grain, table) = (self.basis.grain, &self.basis.table);
        match judge_alone(self.alloc, self.checked, grain, table, state, fits, end)? {
            Some(code) => Ok(Some(code)),
            None => self.judge_rest(state, end),
        }
    }
}
