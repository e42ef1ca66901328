//! A client and its states, each once, by number.
ghost use Rattle.std.specs.Prelude.{◌≡◌, ◌↔◌, ◌+◌, ◌<◌, ◌≤◌, ◌^◌, List, [], length, Some, None, Err, IfOk, OnErr, OnOk, IfSome, MatchOption, slice_get};
ghost use Rattle.tso_confluence.specs.Stops.{HasOneStop};
ghost use Rattle.tso_parts.specs.Numbers.{IsNumbered, IsNowhere};
ghost use Rattle.tso_parts.specs.declared.refused.Refused.TheVariants as reasons;
ghost use Rattle.tso_state.specs.Rising.{IsRising};
ghost use Rattle.tso_keys.specs.Forms.{AreForms};
ghost use Rattle.tso_keys.specs.Keys.{AreKept, FitsClient, part_count, states_at};
ghost use Rattle.tso_store.specs.Arriving.{HasOneStopAt, IsArrivalOrNone, IsStop};
ghost use Rattle.tso_store.specs.Lone.{HasNoLoneAt, IsLoneAt, IsLoneCoreAt};
ghost use Rattle.tso_keys.specs.Orders.{AreRowsOf};
ghost use Rattle.tso_store.specs.Sheets.{CanStep, IsAdded, IsFound, IsSuccessorOrNone};
ghost use Rattle.tso_store.specs.declared.fault.AddError.TheVariants as errors;

use crate::arrived::{arrival_key, arrive_key};
use crate::fault::AddError;
use crate::known::{Known, learn_runs};
use crate::lone::{Lone, lone_at, remembered_core};
use crate::sought::{Found, Sought, find_from};
use crate::stepped::step_key;
use std::alloc::{AllocError, Global};
use std::marker::Model;
use tso_compact::StepKind;
use tso_flow::Checked;
use tso_foot::{ArrayTable, Table};
use tso_keys::{
    Forms, Key, NO_KEY, Parts, Running, Standings, View, copy_of, find_key, find_view_key,
    fits_client, forms_of, key_at, key_of, key_of_view, key_or_none, learn_running, number_risen,
    standings_of, view_fits_client,
};
use tso_list::Seq;
use tso_parts::{Pool, Refused};
use tso_state::{Actor, State};

/// A client and its states, numbered from 0 in the order in which they came. A state's number stays as more come.
#[derive(Drop)]
pub struct Store<'a> {
    checked: &'a Checked,
    parts: Parts,
    keys: Pool<Key>,
    known: Seq<Known>,
    running: Seq<Running>,
}

impl<'a> Model for Store<'a> {
    ghost use Rattle.tso_store.specs.Sheets.{Sheet, IsSheet};
    ghost use Rattle.std.specs.Prelude.{◌+◌, length};
    ghost use Rattle.tso_keys.specs.Keys.{part_count, states_at};

    ghost Value = { Sheet };

    ghost view = { λ s. record { client = s.checked.now.client; states = states_at s.parts s.keys; kept = part_count s.parts + length s.keys } };

    ghost invariant = { λ s. IsSheet s.checked.now.client s.parts s.keys s.known s.running };
}

impl<'a> Store<'a> {
    /// A store with no state. Its parts and states are hashed by this seed: whoever makes the states and does not know the
    /// seed cannot tell which of them collide.
    pub fn new(alloc: Global, checked: &'a Checked, seed: u64) -> Self
        ensures client { result.client ≡ checked.now.client }
        ensures states { result.states ≡ [] }
        ensures kept { result.kept ≡ 0 }
    {
        Store {
            checked,
            parts: Parts::new(alloc, seed),
            keys: Pool::new(alloc, seed),
            known: Seq::new(alloc),
            running: Seq::new(alloc),
        }
    }

    /// The states of these keys, whose parts are those with their numbers.
    pub(crate) fn of_parts(
        alloc: Global,
        checked: &'a Checked,
        parts: Parts,
        keys: Pool<Key>,
    ) -> Self
        requires { AreKept checked.now.client parts keys }
        ensures client { result.client ≡ checked.now.client }
        ensures states { result.states ≡ states_at parts keys }
    {
        parts.threads.is_numbered();
        Store {
            checked,
            parts,
            keys,
            known: Seq::new(alloc),
            running: Seq::new(alloc),
        }
    }

    /// How many states there are.
    pub fn len(&self) -> usize
        ensures { result ≡ length self.now.states }
    {
        self.keys.len()
    }

    /// State `number`, if there are so many. It is read where it is kept, without a copy and without memory.
    pub fn view(&self, number: u32) -> Option<View<'_>>
        ensures state { result ≡ slice_get self.now.states number }
        ensures fits { IfSome result (FitsClient self.now.client) }
    {
        match self.keys.get(number) {
            Some(key) => View::of_key(&self.checked.client, &self.parts, &self.running, key),
            None => None,
        }
    }

    /// The lowest thread of state `number` whose core has a step within its thread, or a return, if there is such a state and such a
    /// thread. What is remembered of threads' next steps tells it of most states; where it does not, the state is looked at.
    pub fn lone(&self, number: u32) -> Option<Lone>
        ensures { MatchOption result (HasNoLoneAt self.now.client self.now.states number) (IsLoneAt self.now.client self.now.states number) }
    {
        match self.keys.get(number) {
            Some(key) => lone_at(self.checked, &self.parts, &self.known, &self.running, key),
            None => None,
        }
    }

    /// The kind of the step of this thread's core in state `number`, where it may go first alone, as one within its thread or a
    /// return, and is remembered of the thread; `None` says nothing. The state is not looked at, and it takes no memory.
    pub fn remembered_kind(&self, number: u32, thread: usize) -> Option<StepKind>
        ensures { IfSome result (IsLoneCoreAt self.now.client self.now.states number thread) }
    {
        match self.keys.get(number) {
            Some(key) => remembered_core(
                &self.checked.client,
                &self.parts,
                &self.known,
                &self.running,
                key,
                thread,
            ),
            None => None,
        }
    }

    /// A copy of state `number`, if there are so many.
    ///
    /// Errors: where there is such a state and a growth was refused.
    pub fn state(&self, alloc: Global, number: u32) -> Result<Option<State>, AllocError>
        ensures state { IfOk result (λ s. s ≡ slice_get self.now.states number) }
        ensures err { OnErr result (number < length self.now.states) }
    {
        match self.view(number) {
            Some(view) => Ok(Some(copy_of(alloc, &view)?)),
            None => Ok(None),
        }
    }

    /// The number of a state, and whether it is new; it is kept then.
    ///
    /// Errors: `Misfit` exactly where the state has not as many threads, or lists of calls, as the client has threads; `Memory`
    /// where a growth was refused; `Full` where there are as many states, or parts of a kind, as numbers. The states stay. A
    /// state that is kept is never refused.
    pub fn add(&mut self, state: &State) -> Result<(u32, bool), AddError>
        ensures added { IfOk result (IsAdded self.old.states self.new.states state.now) }
        ensures err { OnErr result (self.new.states ≡ self.old.states) }
        ensures absent { OnErr result (IsNowhere self.old.states state.now) }
        ensures full { result ≡ Err errors.Full → 4294967295 ≤ self.new.kept }
        ensures more { self.new.kept ≤ self.old.kept + 8 }
        ensures misfit { (result ≡ Err errors.Misfit) ↔ (FitsClient self.old.client state.now → ⊥) }
        ensures client { self.new.client ≡ self.old.client }
    {
        if !fits_client(&self.checked.client, state) {
            return Err(AddError::Misfit);
        }
        let key = key_of(&mut self.parts, state)?;
        self.parts.threads.is_numbered();
        self.parts.memories.is_numbered();
        self.parts.histories.is_numbered();
        let result = self.keys.add(key)?;
        Ok(result)
    }

    /// The numbers of the parts of state `number`; those of nothing where there is no such state. They say where to look first
    /// in this store, and nothing rests on them.
    pub fn key(&self, number: u32) -> Key {
        key_or_none(&self.keys, number)
    }

    /// The number of a state that is kept, maybe in another store, and whether it is new here; it is kept here then. It is as
    /// `add` of that state, which is not copied: each part is looked for first at the number that `near` has for it, then by
    /// its hash, and is copied only where it is new. What `near` has need not be the numbers of anything.
    ///
    /// Errors: as for `add`.
    pub fn add_view(&mut self, near: &Key, view: &View<'_>) -> Result<(u32, bool), AddError>
        ensures added { IfOk result (IsAdded self.old.states self.new.states view.now) }
        ensures err { OnErr result (self.new.states ≡ self.old.states) }
        ensures absent { OnErr result (IsNowhere self.old.states view.now) }
        ensures full { result ≡ Err errors.Full → 4294967295 ≤ self.new.kept }
        ensures more { self.new.kept ≤ self.old.kept + 8 }
        ensures misfit { (result ≡ Err errors.Misfit) ↔ (FitsClient self.old.client view.now → ⊥) }
        ensures client { self.new.client ≡ self.old.client }
    {
        if !view_fits_client(&self.checked.client, view) {
            return Err(AddError::Misfit);
        }
        let key = key_of_view(&mut self.parts, near, view)?;
        self.parts.threads.is_numbered();
        self.parts.memories.is_numbered();
        self.parts.histories.is_numbered();
        let result = self.keys.add(key)?;
        Ok(result)
    }

    /// The number of a state, if it is kept. It takes no memory.
    pub fn find(&self, state: &State) -> Option<u32>
        ensures { MatchOption result (IsNowhere self.now.states state.now) (λ n. slice_get self.now.states n ≡ Some state.now) }
    {
        if !fits_client(&self.checked.client, state) {
            return None;
        }
        self.parts.threads.is_numbered();
        self.parts.memories.is_numbered();
        self.parts.histories.is_numbered();
        match find_key(&self.parts, state) {
            Some(key) => self.keys.find(&key),
            None => None,
        }
    }

    /// The number of a state that is kept, maybe in another store, if it is kept here. Each part is looked for first at the
    /// number that `near` has for it. It takes no memory.
    pub fn find_view(&self, near: &Key, view: &View<'_>) -> Option<u32>
        ensures { MatchOption result (IsNowhere self.now.states view.now) (λ n. slice_get self.now.states n ≡ Some view.now) }
    {
        if !view_fits_client(&self.checked.client, view) {
            return None;
        }
        self.parts.threads.is_numbered();
        self.parts.memories.is_numbered();
        self.parts.histories.is_numbered();
        let key = find_view_key(&self.parts, near, view)?;
        self.keys.find(&key)
    }

    /// The number of the state after the actor's step from state `number`, and whether it is new; it is kept then. `None`
    /// exactly where there is no such step, also where there is no such state.
    ///
    /// Errors: where there is such a step, and a growth was refused (`Memory`), or there are as many states, or parts of a
    /// kind, as numbers (`Full`). The states stay.
    pub fn successor(
        &mut self,
        alloc: Global,
        number: u32,
        actor: Actor,
    ) -> Result<Option<(u32, bool)>, Refused>
        ensures step { IfOk result (IsSuccessorOrNone self.old.client self.old.states self.new.states number actor) }
        ensures err { OnErr result (self.new.states ≡ self.old.states) }
        ensures full { result ≡ Err reasons.Full → 4294967295 ≤ self.new.kept }
        ensures more { self.new.kept ≤ self.old.kept + 4 }
        ensures some { OnErr result (CanStep self.old.client self.old.states number actor) }
        ensures client { self.new.client ≡ self.old.client }
    {
        let Some(key) = key_at(&self.keys, number) else {
            return Ok(None);
        };
        let Some(next) = step_key(
            alloc,
            &self.checked.client,
            &mut self.parts,
            &mut self.known,
            &self.running,
            &key,
            actor,
        )?
        else {
            return Ok(None);
        };
        learn_running(&self.parts.histories, &mut self.running)?;
        let result = self.keys.add(next)?;
        Ok(Some(result))
    }

    /// The number of the state in which the run from a state stops, and whether it is new; it is kept then. A run goes on while an actor
    /// is free; it makes no difference which one goes first.
    ///
    /// Errors: `Misfit` exactly where the state has not as many threads, or lists of calls, as the client has threads; `Memory`
    /// where an allocation failed; `Full` where there are as many states, or parts of a kind, as numbers. The states stay.
    pub fn arrive_state(
        &mut self,
        alloc: Global,
        own: &ArrayTable,
        table: &Table,
        state: &State,
    ) -> Result<(u32, bool), AddError>
        requires one_stop { HasOneStop self.old.client own.now table.now state.now }
        ensures stops { IfOk result (IsStop self.old.client own.now table.now self.old.states self.new.states state.now) }
        ensures err { OnErr result (self.new.states ≡ self.old.states) }
        ensures full { result ≡ Err errors.Full → 4294967295 ≤ self.new.kept }
        ensures misfit { (result ≡ Err errors.Misfit) ↔ (FitsClient self.old.client state.now → ⊥) }
        ensures client { self.new.client ≡ self.old.client }
    {
        if !fits_client(&self.checked.client, state) {
            return Err(AddError::Misfit);
        }
        let start = key_of(&mut self.parts, state)?;
        let last = arrive_key(
            alloc,
            self.checked,
            own,
            table,
            &mut self.parts,
            &mut self.known,
            &self.running,
            &start,
            0,
        )?;
        let result = self.keys.add(last)?;
        Ok(result)
    }

    /// The number of the state in which the run from the state after the actor's move from state `number` stops, and whether it is
    /// new; it is kept then. `None` exactly where there is no such move, also where there is no such state.
    ///
    /// Errors: where there is such a state, and an allocation failed (`Memory`), or there are as many states, or parts of a kind, as
    /// numbers (`Full`). The states stay.
    pub fn arrive(
        &mut self,
        alloc: Global,
        own: &ArrayTable,
        table: &Table,
        number: u32,
        actor: Actor,
    ) -> Result<Option<(u32, bool)>, Refused>
        requires one_stop { HasOneStopAt self.old.client own.now table.now self.old.states number }
        ensures arrival { IfOk result (IsArrivalOrNone self.old.client own.now table.now self.old.states self.new.states number actor) }
        ensures err { OnErr result (self.new.states ≡ self.old.states) }
        ensures there { OnErr result (number < length self.old.states) }
        ensures full { result ≡ Err reasons.Full → 4294967295 ≤ self.new.kept }
        ensures client { self.new.client ≡ self.old.client }
    {
        let Some(from) = key_at(&self.keys, number) else {
            return Ok(None);
        };
        let Some(stop) = arrival_key(
            alloc,
            self.checked,
            own,
            table,
            &mut self.parts,
            &mut self.known,
            &self.running,
            &from,
            actor,
        )?
        else {
            return Ok(None);
        };
        learn_running(&self.parts.histories, &mut self.running)?;
        let result = self.keys.add(stop)?;
        Ok(Some(result))
    }

    /// Remembers where the next steps of kept threads lead, which calls they are in and how many they have begun, so that
    /// `find_successor` is fast, and neither `lone` nor a view that is asked for them looks at a history, in a store that no
    /// `successor` filled. The states stay.
    ///
    /// Errors: where a growth was refused.
    pub fn learn(&mut self) -> Result<(), AllocError>
        ensures states { self.new.states ≡ self.old.states }
        ensures kept { self.new.kept ≡ self.old.kept }
        ensures client { self.new.client ≡ self.old.client }
    {
        learn_runs(&self.checked.client, &self.parts.threads, &mut self.known)?;
        learn_running(&self.parts.histories, &mut self.running)
    }

    /// The number of the state after the actor's step from state `number`, if there is such a step and the state is kept. It
    /// changes nothing and takes no memory, so that many threads may ask at once.
    pub fn find_successor(&self, number: u32, actor: Actor) -> Found
        ensures { IsFound self.now.client self.now.states number actor result }
    {
        self.parts.threads.is_numbered();
        self.parts.memories.is_numbered();
        self.parts.histories.is_numbered();
        match find_from(
            &self.checked.client,
            &self.parts,
            &self.known,
            &self.running,
            &self.keys,
            number,
            actor,
            &NO_KEY,
        ) {
            Sought::Disabled => Found::Disabled,
            Sought::Absent => Found::Absent,
            Sought::At(next) => match self.keys.find(&next) {
                Some(number) => Found::At(number),
                None => Found::Absent,
            },
        }
    }

    /// The same in a store whose states rise, which needs no index of them: the state is looked for first at the number `near` and
    /// the next ones, which need not be those of states, and then by halves; its parts first where state `near` has them.
    pub fn find_risen_successor(&self, number: u32, actor: Actor, near: u32) -> Found
        requires rising { IsRising self.now.states }
        ensures { IsFound self.now.client self.now.states number actor result }
    {
        self.parts.threads.is_numbered();
        self.parts.memories.is_numbered();
        self.parts.histories.is_numbered();
        match find_from(
            &self.checked.client,
            &self.parts,
            &self.known,
            &self.running,
            &self.keys,
            number,
            actor,
            &self.key(near),
        ) {
            Sought::Disabled => Found::Disabled,
            Sought::Absent => Found::Absent,
            Sought::At(next) => match number_risen(&self.parts, &self.keys, near, &next) {
                Some(number) => Found::At(number),
                None => Found::Absent,
            },
        }
    }

    /// The rows of ranks of all states, which are ordered as these. Each memory, thread and history is ranked among its kind, histories
    /// by the ranks of their lists of calls.
    ///
    /// Errors: where a growth was refused.
    pub fn standings(&self, alloc: Global) -> Result<Standings<'_>, AllocError>
        ensures { IfOk result (AreRowsOf self.now.states) }
    {
        standings_of(alloc, &self.parts, &self.keys)
    }

    /// For each state whether its parts fit the client, which is told by what is asked once of each part.
    ///
    /// Errors: where a growth was refused.
    pub fn forms(&self, alloc: Global) -> Result<Forms<'_>, AllocError>
        ensures { IfOk result (AreForms self.now.client self.now.states) }
    {
        forms_of(alloc, self.checked, &self.parts, &self.keys)
    }

    /// The parts of the states, and for each state, in their order, the numbers of its parts.
    pub fn keyed_parts(&self) -> (&Parts, &Pool<Key>)
        ensures states { states_at result.0.now result.1.now ≡ self.now.states }
        ensures kept { AreKept self.now.client result.0.now result.1.now }
        ensures count { self.now.kept ≡ part_count result.0.now + length result.1.now }
    {
        (&self.parts, &self.keys)
    }

    /// The parts of the states, and for each state, in their order, the numbers of its parts.
    pub fn into_parts(self) -> (Parts, Pool<Key>)
        ensures states { states_at result.0 result.1 ≡ self.entry.states }
        ensures kept { AreKept self.entry.client result.0 result.1 }
        ensures count { self.entry.kept ≡ part_count result.0 + length result.1 }
    {
        let Store {
            checked: _checked,
            parts,
            keys,
            known,
            running,
        } = self;
        drop(known);
        drop(running);
        (parts, keys)
    }

    /// Two states with different numbers differ. This function does nothing when it runs.
    pub fn states_differ(&self)
        ensures { IsNumbered self.now.states }
    {
        self.parts.threads.is_numbered();
        self.parts.memories.is_numbered();
        self.parts.histories.is_numbered();
        self.keys.is_numbered();
    }
}
