//! What lies between the records of a certificate of crossings.

ghost use Rattle.std.specs.Prelude.{◌≡◌, ◌∷◌, [], IfOk, MatchBool, MatchOption, None, OnOk, length};
ghost use Rattle.tso_cert.specs.Lookup.{tree_states};
ghost use Rattle.tso_cert.specs.Trees.{tree_of};
ghost use Rattle.tso_compact.specs.Plans.{IsStep};
ghost use Rattle.tso_move.specs.Parts.{begun_in};
ghost use Rattle.tso_move.specs.Runs.{HasMove, IsMove, StopsAt};
ghost use Rattle.tso_rec.specs.Records.{states_of};
ghost use Rattle.tso_state.specs.WellFormed.{IsWellFormed};
ghost use Rattle.tso_verdict.specs.Between.{AreBehind, AreBetween, AreBeyond, IsBehind, IsBehindThread, IsBeyond, IsFromFirst, IsGoneOn, IsMovedPast, IsOpened, IsRunPast, IsWayOn};
ghost use Rattle.tso_verdict.specs.Counted.{AreCounted, ArePassed, IsCountedBetween, IsCountedIn};

use crate::coverage::{Coverage, counted};
use std::alloc::{AllocError, Global};
use tso_cert::Cert;
use tso_compact::{StepError, step};
use tso_flow::Checked;
use tso_foot::{ArrayTable, Table};
use tso_judge::least_table;
use tso_move::{begun_call, late_move, lowest_free};
use tso_prog::Client;
use tso_rec::{Grain, Packed};
use tso_state::{Actor, State, Viewed, initial_state, is_same, is_well_formed};

/// By what runs are followed from record to record.
#[derive(Clone, Copy)]
struct Course<'a> {
    alloc: Global,
    checked: &'a Checked,
    /// The least closed table of arrays, which tells what is a thread's own.
    own: &'a ArrayTable,
    /// The certificate's table, which tells which actors are free.
    table: &'a Table,
}

/// A free actor, and the state after its move.
#[derive(Drop)]
struct Next {
    actor: Actor,
    state: State,
}

impl Course<'_> {
    // The state after the actor's move, if it has one.
    fn moved(&self, state: &State, actor: Actor) -> Result<Option<State>, AllocError>
        requires { IsWellFormed self.now.checked.now.client state.now }
        ensures { IfOk result (λ after. MatchOption after (HasMove self.now.checked.now.client self.now.own.now state.now actor → ⊥) (IsMove self.now.checked.now.client self.now.own.now state.now actor)) }
    {
        match late_move(self.alloc, self.checked, self.own, state, actor) {
            Ok(after) => Ok(Some(after)),
            Err(StepError::Disabled) => Ok(None),
            Err(StepError::Memory) => Err(AllocError),
        }
    }

    // The state after the actor's step, where it has a move.
    fn stepped(&self, state: &State, actor: Actor) -> Result<State, AllocError>
        requires well_formed { IsWellFormed self.now.checked.now.client state.now }
        requires moves { HasMove self.now.checked.now.client self.now.own.now state.now actor }
        ensures { IfOk result (IsStep self.now.checked.now.client state.now actor) }
    {
        match step(self.alloc, self.checked, state, actor) {
            Ok(after) => Ok(after),
            Err(StepError::Disabled) => unreachable!(),
            Err(StepError::Memory) => Err(AllocError),
        }
    }

    // The lowest free actor, and the state after its move, if the run goes on.
    fn next_of(&self, state: &State) -> Result<Option<Next>, AllocError>
        ensures { IfOk result (λ next. MatchOption next (StopsAt self.now.checked.now.client self.now.own.now self.now.table.now state.now) (IsWayOn self.now.checked.now.client self.now.own.now self.now.table.now state.now)) }
    {
        if !is_well_formed(self.checked, state) {
            return Ok(None);
        }
        let Some(actor) = lowest_free(self.alloc, self.checked, self.own, self.table, state)? else {
            return Ok(None);
        };
        match self.moved(state, actor)? {
            Some(state) => Ok(Some(Next { actor, state })),
            None => unreachable!(),
        }
    }

    // Whether the actor's move begins no call.
    fn is_step(&self, state: &State, actor: Actor) -> bool
        ensures { MatchBool result (begun_in self.now.checked.now.client state.now actor ≡ None) (begun_in self.now.checked.now.client state.now actor ≡ None → ⊥) }
    {
        match begun_call(self.checked, state, actor) {
            None => true,
            Some(_) => false,
        }
    }

    // The state after the actor's move, if the state is well-formed, and the actor has a move.
    fn opened(&self, state: &State, actor: Actor) -> Result<Option<State>, AllocError>
        ensures { IfOk result (λ next. MatchOption next (IsWellFormed self.now.checked.now.client state.now → HasMove self.now.checked.now.client self.now.own.now state.now actor → ⊥) (IsGoneOn self.now.checked.now.client self.now.own.now state.now actor)) }
    {
        if !is_well_formed(self.checked, state) {
            return Ok(None);
        }
        self.moved(state, actor)
    }
}

impl Coverage {
    // Notes a state that is passed.
    fn pass(&mut self, client: &Client, state: &State)
        ensures { AreCounted client.now self.old (state.now ∷ []) [] self.new }
    {
        self.note_passed(client, state);
    }

    // Notes the states of a call that has begun and goes through its opening, up to where the move leads.
    fn pass_opening(
        &mut self,
        course: &Course<'_>,
        begun: State,
        actor: Actor,
        after: &State,
    ) -> Result<(), AllocError>
        ensures { OnOk result (ArePassed course.now.checked.now.client (IsOpened course.now.checked.now.client course.now.own.now actor after.now begun) self.old self.new) }
    {
        let mut state = begun;
        'opening: loop {
            self.pass(&course.checked.client, &state);
            if is_same(&state, after) {
                return Ok(());
            }
            match course.opened(&state, actor)? {
                Some(next) => state = next,
                None => return Ok(()),
            }
        }
    }

    // Notes the states that a move passes, with the one where it leads.
    fn pass_move(
        &mut self,
        course: &Course<'_>,
        state: &State,
        actor: Actor,
        after: &State,
    ) -> Result<(), AllocError>
        requires well_formed { IsWellFormed course.now.checked.now.client state.now }
        requires moves { IsMove course.now.checked.now.client course.now.own.now state.now actor after.now }
        ensures { OnOk result (ArePassed course.now.checked.now.client (IsMovedPast course.now.checked.now.client course.now.own.now state.now actor after.now) self.old self.new) }
    {
        if course.is_step(state, actor) {
            self.pass(&course.checked.client, after);
            return Ok(());
        }
        let begun = course.stepped(state, actor)?;
        self.pass_opening(course, begun, actor, after)
    }

    // Notes the states that the run from a state passes behind it.
    fn pass_run(&mut self, course: &Course<'_>, first: State) -> Result<(), AllocError>
        ensures { OnOk result (ArePassed course.now.checked.now.client (IsRunPast course.now.checked.now.client course.now.own.now course.now.table.now first) self.old self.new) }
    {
        let mut state = first;
        'run: loop {
            match course.next_of(&state)? {
                Some(next) => {
                    self.pass_move(course, &state, next.actor, &next.state)?;
                    state = next.state;
                }
                None => return Ok(()),
            }
        }
    }

    // Notes what the actor's move and the run behind it pass, if it has a move.
    fn pass_behind(
        &mut self,
        course: &Course<'_>,
        state: &State,
        actor: Actor,
    ) -> Result<(), AllocError>
        requires { IsWellFormed course.now.checked.now.client state.now }
        ensures { OnOk result (ArePassed course.now.checked.now.client (IsBehind course.now.checked.now.client course.now.own.now course.now.table.now state.now actor) self.old self.new) }
    {
        match course.moved(state, actor)? {
            Some(after) => {
                self.pass_move(course, state, actor, &after)?;
                self.pass_run(course, after)
            }
            None => Ok(()),
        }
    }

    // The same of both actors of a thread.
    fn pass_behind_thread(
        &mut self,
        course: &Course<'_>,
        state: &State,
        thread: usize,
    ) -> Result<(), AllocError>
        requires { IsWellFormed course.now.checked.now.client state.now }
        ensures { OnOk result (ArePassed course.now.checked.now.client (IsBehindThread course.now.checked.now.client course.now.own.now course.now.table.now state.now thread) self.old self.new) }
    {
        self.pass_behind(course, state, Actor::Exec(thread))?;
        self.pass_behind(course, state, Actor::Drain(thread))
    }

    // The same of all actors of a well-formed state.
    fn pass_behind_all(&mut self, course: &Course<'_>, state: &State) -> Result<(), AllocError>
        requires { IsWellFormed course.now.checked.now.client state.now }
        ensures { OnOk result (ArePassed course.now.checked.now.client (AreBehind course.now.checked.now.client course.now.own.now course.now.table.now state.now (length state.now.threads)) self.old self.new) }
    {
        for thread in 0..state.threads.len() {
            self.pass_behind_thread(course, state, thread)?;
        }
        Ok(())
    }

    // The same of a record's state.
    fn pass_beyond(&mut self, course: &Course<'_>, state: &State) -> Result<(), AllocError>
        ensures { OnOk result (ArePassed course.now.checked.now.client (IsBeyond course.now.checked.now.client course.now.own.now course.now.table.now state.now) self.old self.new) }
    {
        if !is_well_formed(course.checked, state) {
            return Ok(());
        }
        self.pass_behind_all(course, state)
    }

    // The same of the records of a leaf.
    fn pass_leaf(&mut self, course: &Course<'_>, records: &Packed) -> Result<(), AllocError>
        ensures { OnOk result (ArePassed course.now.checked.now.client (AreBeyond course.now.checked.now.client course.now.own.now course.now.table.now (states_of records.now)) self.old self.new) }
    {
        for number in 0..records.len() {
            let state = records.state(number)?;
            self.pass_beyond(course, &state)?;
        }
        Ok(())
    }

    // The same of the records of a tree.
    fn pass_tree(&mut self, course: &Course<'_>, cert: &Cert) -> Result<(), AllocError>
        ensures { OnOk result (ArePassed course.now.checked.now.client (AreBeyond course.now.checked.now.client course.now.own.now course.now.table.now (tree_states (tree_of cert.now))) self.old self.new) }
    {
        match cert {
            Cert::Leaf(records) => self.pass_leaf(course, records),
            Cert::Fork(left, _, right) => {
                self.pass_tree(course, left)?;
                self.pass_tree(course, right)?;
                Ok(())
            }
        }
    }

    // Notes the initial state, and what the run from it passes.
    fn pass_first(&mut self, course: &Course<'_>) -> Result<(), AllocError>
        ensures { OnOk result (ArePassed course.now.checked.now.client (IsFromFirst course.now.checked.now.client course.now.own.now course.now.table.now) self.old self.new) }
    {
        let first = initial_state(course.alloc, course.checked)?;
        self.pass(&course.checked.client, &first);
        self.pass_run(course, first)
    }

    // Notes what lies between the records of a tree.
    fn pass_between(&mut self, course: &Course<'_>, cert: &Cert) -> Result<(), AllocError>
        ensures { OnOk result (ArePassed course.now.checked.now.client (AreBetween course.now.checked.now.client course.now.own.now course.now.table.now (tree_states (tree_of cert.now))) self.old self.new) }
    {
        self.pass_first(course)?;
        self.pass_tree(course, cert)
    }
}

/// What the records of a certificate of crossings show of a client, and the states that lie between them.
///
/// Errors: where a growth was refused.
pub fn counted_between(
    alloc: Global,
    checked: &Checked,
    table: &Table,
    cert: &Cert,
) -> Result<Coverage, AllocError>
    ensures { IfOk result (IsCountedBetween checked.now.client table.now (tree_of cert.now)) }
{
    let own = least_table(alloc, checked)?;
    let course = Course {
        alloc,
        checked,
        own: &own,
        table,
    };
    let mut coverage = counted(alloc, &checked.client, cert)?;
    coverage.pass_between(&course, cert)?;
    Ok(coverage)
}

/// What a certificate of this grain shows of a client: by its records, and by what lies between crossings.
///
/// Errors: where a growth was refused.
pub fn counted_in(
    alloc: Global,
    checked: &Checked,
    grain: Grain,
    table: &Table,
    cert: &Cert,
) -> Result<Coverage, AllocError>
    ensures { IfOk result (IsCountedIn checked.now.client grain table.now (tree_of cert.now)) }
{
    match grain {
        Grain::Steps => counted(alloc, &checked.client, cert),
        Grain::Crossings => counted_between(alloc, checked, table, cert),
    }
}
