//! The states of one owner.

ghost use Rattle.std.specs.Prelude.{◌≡◌, [], IfOk, MatchOption, OnOk, Some, length, slice_get, true};
ghost use Rattle.tso_foot.specs.declared.table.Table.{Table as FootprintTable};
ghost use Rattle.tso_parts.specs.Numbers.{Extends, IsNowhere, IsNumbered};
ghost use Rattle.tso_prog.specs.declared.client.Client.{Client};
ghost use Rattle.tso_regions.specs.Regions.{AreSound};
ghost use Rattle.tso_search.specs.Marking.{is_marked};
ghost use Rattle.tso_search.specs.Reached.{AllMet};
ghost use Rattle.tso_search.specs.BySteps.{AreDone};

use crate::agenda::Agenda;
use crate::halt::Halt;
use crate::owner::{Owner, owner_of};
use crate::parcel::{Parcel, keep};
use crate::realm::Realm;
use crate::stepping::work;
use std::alloc::{AllocError, Global};
use std::marker::{Model, PhantomData};
use tso_flow::Checked;
use tso_foot::Table;
use tso_keys::{NO_KEY, View};
use tso_search::{Judged, Marks};
use tso_state::{State, Viewed};
use tso_store::Store;

/// The states of one owner, as far as they were met, and those of others that their steps lead to. What is marked is worked.
#[derive(Drop)]
pub struct Region<'a, U: Realm> {
    checked: &'a Checked,
    table: &'a Table,
    owner: Owner,
    store: Store<'a>,
    marks: Marks,
    own: Vec<u32>,
    judged: Judged,
    agenda: Agenda,
    halt: Option<Halt>,
    is_begun: bool,
    realm: PhantomData<U>,
}

impl<'a, U: Realm> Model for Region<'a, U> {
    ghost use Rattle.tso_regions.specs.Regions.{Domain, IsDomain};

    ghost Value = { Domain };

    ghost view = { λ r. record { number = r.owner.number; count = r.owner.count; states = r.store.states; marks = r.marks; own = r.own.items } };

    ghost invariant = { λ r. IsDomain U.client U.table r.checked.now.client r.table.now r.store r.marks r.halt };
}

// The owner of a state.
fn owner_at(store: &Store<'_>, count: u64, number: u32) -> u64 {
    match store.view(number) {
        Some(view) if count > 0 => owner_of(view.history(), count),
        _ => 0,
    }
}

// Lists a state of this owner.
fn list_own(agenda: &mut Agenda, own: &mut Vec<u32>, number: u32) -> Result<(), AllocError> {
    own.push(number)?;
    agenda.put_off(number)
}

// Lists a new state, which a step from another has led to. Where its history is that of the other, it has the same owner.
fn place(
    store: &Store<'_>,
    agenda: &mut Agenda,
    own: &mut Vec<u32>,
    owner: Owner,
    from: u32,
    new: u32,
) -> Result<(), AllocError> {
    if store.key(from).history == store.key(new).history {
        return list_own(agenda, own, new);
    }
    let other = owner_at(store, owner.count, new);
    if other == owner.number {
        return list_own(agenda, own, new);
    }
    agenda.send(new, other)
}

// Lists all states that were met last, from a state of this owner.
fn place_all(
    store: &Store<'_>,
    agenda: &mut Agenda,
    own: &mut Vec<u32>,
    owner: Owner,
    from: u32,
) -> Result<(), AllocError> {
    for at in 0..agenda.met.len() {
        if let Some(new) = agenda.met_at(at) {
            place(store, agenda, own, owner, from, new)?;
        }
    }
    Ok(())
}

// Works the state that came last, if one is left. Whether one was.
fn work_next(
    alloc: Global,
    checked: &Checked,
    table: &Table,
    store: &mut Store<'_>,
    judged: &mut Judged,
    marks: &mut Marks,
    agenda: &mut Agenda,
    own: &mut Vec<u32>,
    owner: Owner,
) -> Result<bool, Halt>
    requires client { store.old.client ≡ checked.now.client }
    requires sound { AreSound checked.now.client store.old.states }
    requires done { AreDone checked.now.client table.now store.old.states marks.old }
    ensures met { AllMet checked.now.client store.new.states }
    ensures done { AreDone checked.now.client table.now store.new.states marks.new }
    ensures sound { OnOk result (AreSound checked.now.client store.new.states) }
    ensures client { store.new.client ≡ store.old.client }
{
    let Some(next) = agenda.next() else {
        return Ok(false);
    };
    if next as usize >= store.len() || marks.has(next) {
        return Ok(true);
    }
    let met = &mut agenda.met;
    work(alloc, checked, table, store, judged, marks, next, met)?;
    place_all(store, agenda, own, owner, next)?;
    Ok(true)
}

// Works so many states, or as many as are left.
fn explore(
    alloc: Global,
    checked: &Checked,
    table: &Table,
    store: &mut Store<'_>,
    judged: &mut Judged,
    marks: &mut Marks,
    agenda: &mut Agenda,
    own: &mut Vec<u32>,
    owner: Owner,
    turns: u32,
) -> Result<(), Halt>
    requires client { store.old.client ≡ checked.now.client }
    requires sound { AreSound checked.now.client store.old.states }
    requires done { AreDone checked.now.client table.now store.old.states marks.old }
    ensures met { AllMet checked.now.client store.new.states }
    ensures done { AreDone checked.now.client table.now store.new.states marks.new }
    ensures sound { OnOk result (AreSound checked.now.client store.new.states) }
    ensures client { store.new.client ≡ store.old.client }
{
    for _turn in 0..turns {
        let found = work_next(
            alloc, checked, table, store, judged, marks, agenda, own, owner,
        )?;
        if !found {
            return Ok(());
        }
    }
    Ok(())
}

// Keeps a state of a parcel, and lists it where it is new.
fn take<U: Realm>(
    store: &mut Store<'_>,
    agenda: &mut Agenda,
    own: &mut Vec<u32>,
    parcel: &Parcel<'_, U>,
    number: u32,
) -> Result<(), Halt>
    requires realm { U.client ≡ Some store.old.client }
    requires sound { AreSound store.old.client store.old.states }
    ensures sound { AreSound store.new.client store.new.states }
    ensures stays { Extends store.old.states store.new.states }
    ensures client { store.new.client ≡ store.old.client }
{
    let Some(view) = parcel.view(number) else {
        return Ok(());
    };
    let count = store.len();
    let kept = keep(store, &view)?;
    if let Some(number) = kept {
        if store.len() > count {
            list_own(agenda, own, number)?;
        }
    }
    Ok(())
}

// Keeps all states of a parcel.
fn take_all<U: Realm>(
    store: &mut Store<'_>,
    agenda: &mut Agenda,
    own: &mut Vec<u32>,
    parcel: &Parcel<'_, U>,
) -> Result<(), Halt>
    requires realm { U.client ≡ Some store.old.client }
    requires sound { AreSound store.old.client store.old.states }
    ensures sound { AreSound store.new.client store.new.states }
    ensures stays { Extends store.old.states store.new.states }
    ensures client { store.new.client ≡ store.old.client }
{
    for number in 0..parcel.count() {
        take(store, agenda, own, parcel, number)?;
    }
    Ok(())
}

// Keeps those states of a parcel that are of this owner.
fn take_own<U: Realm>(
    alloc: Global,
    store: &mut Store<'_>,
    agenda: &mut Agenda,
    own: &mut Vec<u32>,
    owner: Owner,
    parcel: &Parcel<'_, U>,
) -> Result<(), Halt>
    requires realm { U.client ≡ Some store.old.client }
    requires sound { AreSound store.old.client store.old.states }
    ensures sound { AreSound store.new.client store.new.states }
    ensures stays { Extends store.old.states store.new.states }
    ensures client { store.new.client ≡ store.old.client }
{
    if owner.count == 0 {
        return Ok(());
    }
    for number in &parcel.own(alloc, owner)? {
        take(store, agenda, own, parcel, *number)?;
    }
    Ok(())
}

impl<'a, U: Realm> Region<'a, U> {
    /// The region of this owner, without states.
    ///
    /// Errors: where a growth was refused.
    pub fn new(
        alloc: Global,
        checked: &'a Checked,
        table: &'a Table,
        owner: Owner,
    ) -> Result<Self, AllocError>
        requires client { U.client ≡ Some checked.now.client }
        requires table { U.table ≡ Some table.now }
        ensures number { IfOk result (λ r. r.number ≡ owner.number) }
        ensures count { IfOk result (λ r. r.count ≡ owner.count) }
        ensures states { IfOk result (λ r. r.states ≡ []) }
        ensures marks { IfOk result (λ r. r.marks ≡ []) }
        ensures own { IfOk result (λ r. r.own ≡ []) }
    {
        let judged = Judged::new(alloc)?;
        let agenda = Agenda::new(alloc, owner.count)?;
        Ok(Region {
            checked,
            table,
            owner,
            store: Store::new(alloc, checked, 0),
            marks: Marks::new(alloc),
            own: Vec::new(alloc),
            judged,
            agenda,
            halt: None,
            is_begun: false,
            realm: PhantomData,
        })
    }

    /// Takes those of the first states that are its own, if it has not yet. Where it cannot, it does nothing more.
    ///
    /// All are worked here, those too that the caller has worked.
    pub fn begin(&mut self, alloc: Global, first: &Parcel<'_, U>)
        ensures number { self.new.number ≡ self.old.number }
        ensures count { self.new.count ≡ self.old.count }
        ensures marks { self.new.marks ≡ self.old.marks }
    {
        if self.is_begun || self.halt.is_some() {
            return;
        }
        self.is_begun = true;
        let taken = take_own(
            alloc,
            &mut self.store,
            &mut self.agenda,
            &mut self.own,
            self.owner,
            first,
        );
        if let Err(halt) = taken {
            self.halt = Some(halt);
        }
    }

    /// Works so many states, or as many as are left. Where it cannot, it does nothing more.
    pub fn turn(&mut self, alloc: Global, turns: u32)
        ensures number { self.new.number ≡ self.old.number }
        ensures count { self.new.count ≡ self.old.count }
    {
        if self.halt.is_some() {
            return;
        }
        let explored = explore(
            alloc,
            self.checked,
            self.table,
            &mut self.store,
            &mut self.judged,
            &mut self.marks,
            &mut self.agenda,
            &mut self.own,
            self.owner,
            turns,
        );
        if let Err(halt) = explored {
            self.halt = Some(halt);
        }
    }

    /// Whether states were met that belong to another owner, and have not gone there.
    pub fn has_for(&self, other: u64) -> bool {
        !self.agenda.sent(other).is_empty()
    }

    /// Puts those into a parcel. Where it cannot, it does nothing more.
    pub fn hand_on(&mut self, other: u64, parcel: &mut Parcel<'_, U>)
        ensures { self.new ≡ self.old }
    {
        if self.halt.is_some() {
            return;
        }
        let states = self.agenda.sent(other);
        if let Err(halt) = parcel.put(&self.store, states) {
            self.halt = Some(halt);
        }
    }

    /// All have gone to their owners.
    pub fn forget_sent(&mut self)
        ensures { self.new ≡ self.old }
    {
        self.agenda.forget_sent();
    }

    /// Takes the states of a parcel, which belong to this owner. Where it cannot, it does nothing more.
    pub fn receive(&mut self, parcel: &Parcel<'_, U>)
        ensures number { self.new.number ≡ self.old.number }
        ensures count { self.new.count ≡ self.old.count }
        ensures marks { self.new.marks ≡ self.old.marks }
    {
        if self.halt.is_some() {
            return;
        }
        let taken = take_all(&mut self.store, &mut self.agenda, &mut self.own, parcel);
        if let Err(halt) = taken {
            self.halt = Some(halt);
        }
    }

    /// Why it is worked no further, if it is not.
    pub fn halt(&self) -> Option<Halt> {
        self.halt
    }

    /// Whether no state of this owner is left to work.
    pub fn is_over(&self) -> bool {
        self.agenda.is_over()
    }

    /// How many states there are, its own and those of others.
    pub fn len(&self) -> usize
        ensures { result ≡ length self.now.states }
    {
        self.store.len()
    }

    /// State `number`, if there are so many.
    pub fn view(&self, number: u32) -> Option<View<'_>>
        ensures { result ≡ slice_get self.now.states number }
    {
        self.store.view(number)
    }

    /// Whether state `number` is marked, and so worked.
    pub fn is_marked(&self, number: u32) -> bool
        ensures { result ≡ is_marked self.now.marks number }
    {
        self.marks.has(number)
    }

    /// The number that is listed behind so many of its own.
    pub fn own_at(&self, before: usize) -> Option<u32>
        ensures { result ≡ slice_get self.now.own before }
    {
        self.own.as_slice().get(before).copied()
    }

    /// How many are listed as its own.
    pub fn own_count(&self) -> usize
        ensures { result ≡ length self.now.own }
    {
        self.own.len()
    }

    /// The number of a state that is kept here, maybe elsewhere too, if it is. It takes no memory.
    pub fn find(&self, view: &View<'_>) -> Option<u32>
        ensures { MatchOption result (IsNowhere self.now.states view.now) (λ n. slice_get self.now.states n ≡ Some view.now) }
    {
        self.store.find_view(&NO_KEY, view)
    }

    /// Its states, and the numbers of those that are listed as its own.
    pub fn lent(&self) -> (&Store<'a>, &[u32])
        ensures client { U.client ≡ Some result.0.now.client }
        ensures states { result.0.now.states ≡ self.now.states }
        ensures own { result.1.now ≡ self.now.own }
    {
        (&self.store, self.own.as_slice())
    }

    /// Its states, and the numbers of those that are listed as its own. All else is let go of.
    pub fn into_states(self) -> (Store<'a>, Vec<u32>)
        ensures client { U.client ≡ Some result.0.client }
        ensures states { result.0.states ≡ self.entry.states }
        ensures own { result.1.items ≡ self.entry.own }
    {
        let Region {
            checked: _checked,
            table: _table,
            owner: _owner,
            store,
            marks,
            own,
            judged,
            agenda,
            halt: _halt,
            is_begun: _is_begun,
            realm: _realm,
        } = self;
        drop(marks);
        drop(judged);
        drop(agenda);
        (store, own)
    }

    /// Whether this state is its first one, which is listed as its own.
    pub fn begins_with(&self, state: &State) -> bool
        ensures own { result ≡ true → slice_get self.now.own 0 ≡ Some 0 }
        ensures state { result ≡ true → slice_get self.now.states 0 ≡ Some state.now }
    {
        self.own_at(0) == Some(0) && self.store.find(state) == Some(0)
    }

    /// What is known of it: its states are met, each has one number, and those that are marked are worked. This function does nothing
    /// when it runs.
    pub fn is_known(&self)
        ensures met { (c : Client) → U.client ≡ Some c → AllMet c self.now.states }
        ensures differ { IsNumbered self.now.states }
        ensures done { (c : Client) (t : FootprintTable) → U.client ≡ Some c → U.table ≡ Some t → AreDone c t self.now.states self.now.marks }
    {
        self.store.states_differ();
    }
}
