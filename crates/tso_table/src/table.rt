//! The states of one shard, with no lock and no budget.

ghost use Rattle.std.specs.Prelude.{◌≡◌, ◌↔◌, ◌+◌, ◌<◌, ◌≤◌, ◌^◌, true, false, [], length, IfErr, IfOk, IfSome, IsTrue, MatchBool, MatchOption, OnErr, OnOk};
ghost use Rattle.tso_parts.specs.Numbers.{IsNumbered};
ghost use Rattle.tso_table.specs.Ends.{AreNear, IsEnd};
ghost use Rattle.tso_table.specs.Leading.{IsKept, shard_of};
ghost use Rattle.tso_table.specs.OneThread.{Call, IsRefused, Makes, Replays, Reply, no_rows};
ghost use Rattle.tso_table.specs.Sheets.{HasSameStates, IsForSame, IsFull, IsKeptIn, IsNewIn, IsSameButCounted, IsSound, open_count};

use crate::errors::InternError;
use crate::kept::Kept;
use crate::rows::{are_there, is_at, is_claimed, is_waiting, put_last, set_slot};
use crate::same::{are_same_footprints, is_same_client};
use crate::slot::{Filed, Near, Slot};
use std::alloc::{AllocError, Global};
use std::marker::Model;
use tso_flow::Checked;
use tso_foot::Table as Footprints;
use tso_list::{Paths, Seq};
use tso_state::State;
use tso_store::Store;

/// States by their places, in the order in which they came, with the actors that lead to each and how far it is worked.
/// Contracts see also how many calls were answered.
#[derive(Drop)]
pub struct Table<'a> {
    checked: &'a Checked,
    table: &'a Footprints,
    number: u8,
    store: Store<'a>,
    actors: Paths,
    slots: Vec<Slot>,
    entries: u64,
    unfinished: usize,
}

impl<'a> Model for Table<'a> {
    ghost use Rattle.std.specs.Prelude.{◌≡◌};
    ghost use Rattle.tso_table.specs.Sheets.{IsSound, Sheet};

    ghost Value = { Sheet };

    ghost view = { λ t. record { client = t.checked.now.client; table = t.table.now; number = t.number; rows = record { states = t.store.states; slots = t.slots.items }; actors = t.actors; entries = t.entries } };

    ghost invariant = { λ t. (t.store.client ≡ t.checked.now.client) × IsSound t.checked.now.client t.table.now t.number (record { states = t.store.states; slots = t.slots.items }) t.actors t.unfinished t.entries };
}

impl<'a> Table<'a> {
    /// A table with no state, which hashes by this seed (see `Store::new`).
    pub fn new(
        alloc: Global,
        checked: &'a Checked,
        table: &'a Footprints,
        number: u8,
        seed: u64,
    ) -> Self
        ensures of { (result.client ≡ checked.now.client) × (result.table ≡ table.now) × (result.number ≡ number) }
        ensures rows { (result.rows ≡ no_rows) × (result.actors ≡ []) × (result.entries ≡ 0) }
    {
        Table {
            checked,
            table,
            number,
            store: Store::new(alloc, checked, seed),
            actors: Paths::new(alloc),
            slots: Vec::new(alloc),
            entries: 0,
            unfinished: 0,
        }
    }

    /// Whether the table is of this client, with the lines of its instructions, of this table of footprints and of this number.
    pub fn is_for(&self, checked: &Checked, table: &Footprints, number: u8) -> bool
        ensures { IsTrue result ↔ ((self.now.client ≡ checked.now.client) × (self.now.table ≡ table.now) × (self.now.number ≡ number)) }
    {
        is_same_client(&self.checked.client, &checked.client)
            && are_same_footprints(self.table, table)
            && self.number == number
    }

    /// The number of its shard.
    pub fn number(&self) -> u8
        ensures { result ≡ self.now.number }
    {
        self.number
    }

    /// How many states are not done.
    pub fn outstanding(&self) -> usize
        ensures open { result ≡ open_count self.now.rows.slots }
        ensures small { open_count self.now.rows.slots < 2 ^ 32 }
    {
        self.unfinished
    }

    /// How many states there are, each at one place.
    pub fn len(&self) -> usize
        ensures len { result ≡ length self.now.rows.states }
        ensures small { length self.now.rows.states < 2 ^ 32 }
        ensures one_place_each { IsNumbered self.now.rows.states }
    {
        self.store.states_differ();
        self.store.len()
    }

    /// How many calls were answered. One thread can have made them, with the same answers.
    pub fn log_len(&self) -> u64
        ensures len { result ≡ self.now.entries }
        ensures replays { Replays self.now.rows self.now.entries }
    {
        self.entries
    }

    /// What is true of a table whenever no call is under way. This function does nothing when it runs.
    pub fn is_sound(&self)
        ensures { IsSound self.now.client self.now.table self.now.number self.now.rows self.now.actors (open_count self.now.rows.slots) self.now.entries }
    {
        let _open = self.unfinished;
    }

    /// A copy of the state at a place, if there are so many, with the actors that lead to it.
    ///
    /// Errors: where a growth was refused.
    pub fn kept(&self, alloc: Global, place: u32) -> Result<Option<Kept>, AllocError>
        ensures kept { IfOk result (λ o. MatchOption o (length self.now.rows.states ≤ place) (IsKeptIn self.now.rows.states self.now.actors place)) }
        ensures leads { IfOk result (λ o. IfSome o (IsKept self.now.client)) }
    {
        let Some(state) = self.store.state(alloc, place)? else {
            return Ok(None);
        };
        let Some(path) = self.actors.get(place as usize) else {
            return Ok(None);
        };
        let actors = Seq::from_slice(alloc, path)?;
        Ok(Some(Kept { state, actors }))
    }

    /// Gives a state its place, with the actors that lead to it. True where it is new, which it may be only where `room` says so;
    /// it waits then. What is new of it is copied.
    ///
    /// Errors: `Full` where the state is not there and may not be new; `Memory` where it is not there, may be new, and a growth
    /// was refused. The table stays, and a state that is there is never refused.
    pub fn intern(&mut self, kept: &Kept, room: bool) -> Result<(u32, bool), InternError>
        requires leads { IsKept self.old.client kept.now }
        requires here { shard_of kept.now.state ≡ self.old.number }
        requires more { self.old.entries + 1 < 2 ^ 64 }
        requires small { room ≡ true → length self.old.rows.states + 1 < 2 ^ 32 }
        ensures made { IfOk result (λ r. Makes self.old.rows (Call.intern kept.now.state) self.new.rows (Reply.placed r.0 r.1)) }
        ensures new { IfOk result (λ r. MatchBool r.1 (IsNewIn self.old self.new kept.now × (room ≡ true)) (IsSameButCounted self.old self.new)) }
        ensures of { IsForSame self.old self.new }
        ensures entries { OnOk result (self.new.entries ≡ self.old.entries + 1) }
        ensures err { OnErr result (self.new ≡ self.old) }
        ensures full { IfErr result (IsFull room self.old.rows.states kept.now.state) }
    {
        if let Some(place) = self.store.find(&kept.state) {
            self.store.states_differ();
            self.entries += 1;
            return Ok((place, false));
        }
        if !room {
            return Err(InternError::Full);
        }
        match put_last(&mut self.store, &mut self.actors, &mut self.slots, kept) {
            Ok(place) => {
                self.unfinished += 1;
                self.entries += 1;
                Ok((place, true))
            }
            Err(_) => Err(InternError::Memory),
        }
    }

    /// Claims a state that waits. False where no state waits at the place.
    pub fn claim(&mut self, place: u32) -> bool
        requires more { self.old.entries + 1 < 2 ^ 64 }
        ensures made { Makes self.old.rows (Call.claim place) self.new.rows (Reply.taken result) }
        ensures same { HasSameStates self.old self.new }
        ensures of { IsForSame self.old self.new }
        ensures entries { self.new.entries ≡ self.old.entries + 1 }
    {
        if !is_waiting(self.slots.as_slice(), place) {
            self.entries += 1;
            return false;
        }
        set_slot(&mut self.slots, place, Slot::Claimed);
        self.entries += 1;
        true
    }

    /// Files an end under the place of its state, given those of its successors that belong to this shard. False, and no change,
    /// where the state is not the one at the place, or is not claimed, or one of these successors is not at its place.
    pub fn finish(&mut self, place: u32, state: &State, filed: Filed, near: &[Near]) -> bool
        requires end { IsEnd self.old.client self.old.table state.now filed }
        requires near { AreNear self.old.client self.old.number state.now filed near.now }
        requires more { self.old.entries + 1 < 2 ^ 64 }
        ensures made { MatchBool result
            (Makes self.old.rows (Call.finish place state.now filed near.now) self.new.rows Reply.filed × (self.new.entries ≡ self.old.entries + 1))
            (IsRefused self.old.rows (Call.finish place state.now filed near.now) × (self.new ≡ self.old)) }
        ensures same { HasSameStates self.old self.new }
        ensures of { IsForSame self.old self.new }
    {
        if !is_claimed(self.slots.as_slice(), place) {
            return false;
        }
        if !is_at(&self.store, place, state) {
            return false;
        }
        if !are_there(&self.store, near) {
            return false;
        }
        set_slot(&mut self.slots, place, Slot::Done(filed));
        self.unfinished -= 1;
        self.entries += 1;
        true
    }
}
