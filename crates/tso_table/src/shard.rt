//! A shard: a table, with its shares of what the budget gives and of the entries. It is kept in a lock of its own.

ghost use Rattle.std.specs.Prelude.{◌≡◌, ◌↔◌, ◌+◌, ◌<◌, [], IfErr, IfOk, IsTrue, MatchBool, OnErr, OnOk, Some};
ghost use Rattle.tso_table.specs.Ends.{AreNear, IsEnd};
ghost use Rattle.tso_table.specs.Leading.{IsKept, shard_of};
ghost use Rattle.tso_table.specs.OneThread.{Call, Makes, Reply, no_rows};
ghost use Rattle.tso_table.specs.Sheets.{HasSameStates, IsForSame, IsNewIn, IsSameButCounted};
ghost use Rattle.tso_table.specs.Totals.{IsRefusal, IsUnfiled, allotment, claims};

use crate::budget::{ALLOTMENT, Budget};
use crate::errors::{FinishError, InternError};
use crate::kept::Kept;
use crate::number::Number;
use crate::search::Search;
use crate::slot::{Filed, Near};
use crate::table::Table;
use std::alloc::{AllocError, Global};
use std::marker::Model;
use std::sync::ledger::{Ledger, Share};
use tso_flow::Checked;
use tso_foot::Table as Footprints;
use tso_state::State;

/// Contracts see a shard as its table, which is of the client and the table of footprints of its search. Of the ledger of units it
/// has as many as it has states, and of that of entries what is left of its allotment.
#[derive(Drop)]
pub struct Shard<'a, U: Search, E: Ledger> {
    table: Table<'a>,
    units: Share<U>,
    left: Share<E>,
}

impl<'a, U: Search, E: Ledger> Model for Shard<'a, U, E> {
    ghost use Rattle.std.specs.Prelude.{◌≡◌, ◌+◌, Some, length};
    ghost use Rattle.tso_table.specs.Sheets.{Sheet};
    ghost use Rattle.tso_table.specs.Totals.{allotment};

    ghost Value = { Sheet };

    ghost view = { λ s. s.table };

    ghost invariant = { λ s. (s.units.parts ≡ 1) × (s.units.amount ≡ length s.table.rows.states) × (s.left.parts ≡ 1) × (s.left.amount + s.table.entries ≡ allotment) × (U.client ≡ Some s.table.client) × (U.table ≡ Some s.table.table) };
}

impl<'a, U: Search, E: Ledger> Shard<'a, U, E> {
    /// A shard with no state, whose table hashes by this seed.
    pub fn new(
        alloc: Global,
        checked: &'a Checked,
        table: &'a Footprints,
        number: u8,
        seed: u64,
        units: Share<U>,
        left: Share<E>,
    ) -> Self
        requires units { (units.parts ≡ 1) × (units.amount ≡ 0) }
        requires left { (left.parts ≡ 1) × (left.amount ≡ allotment) }
        requires client { U.client ≡ Some checked.now.client }
        requires table { U.table ≡ Some table.now }
        ensures of { (result.client ≡ checked.now.client) × (result.table ≡ table.now) × (result.number ≡ number) }
        ensures rows { (result.rows ≡ no_rows) × (result.actors ≡ []) × (result.entries ≡ 0) }
    {
        let table = Table::new(alloc, checked, table, number, seed);
        Shard { table, units, left }
    }

    /// Whether the shard is of this client, with the lines of its instructions, of this table of footprints and of this number.
    pub fn is_for(&self, checked: &Checked, table: &Footprints, number: u8) -> bool
        ensures { IsTrue result ↔ ((self.now.client ≡ checked.now.client) × (self.now.table ≡ table.now) × (self.now.number ≡ number)) }
    {
        self.table.is_for(checked, table, number)
    }

    /// The table, which several threads may look at.
    pub fn table(&self) -> &Table<'a>
        ensures { result.now ≡ self.now }
    {
        &self.table
    }

    /// A shard is of the client and the table of footprints of its search, so these are its own. This function does nothing when
    /// it runs.
    pub fn is_of(&self, checked: &Checked, table: &Footprints)
        requires client { U.client ≡ Some checked.now.client }
        requires table { U.table ≡ Some table.now }
        ensures { (self.now.client ≡ checked.now.client) × (self.now.table ≡ table.now) }
    {
        let _number = self.table.number();
    }

    /// Gives a state its number, with the actors that lead to it. True where it is new: then it takes a unit, and waits. A state that
    /// is there takes none.
    ///
    /// Errors: `Full` exactly where the state is not there and the budget is empty; `Memory` where it is not there and a growth was
    /// refused, or no entry more can be counted. Nothing changes.
    pub fn intern(
        &mut self,
        budget: &mut Budget<U, E>,
        kept: &Kept,
        share: &mut Share<E>,
    ) -> Result<(Number, bool), InternError>
        requires leads { IsKept self.old.client kept.now }
        requires here { shard_of kept.now.state ≡ self.old.number }
        requires part { 0 < share.old.parts }
        ensures made { IfOk result (λ r. Makes self.old.rows (Call.intern kept.now.state) self.new.rows (Reply.placed r.0.place r.1)) }
        ensures number { IfOk result (λ r. r.0.shard ≡ self.old.number) }
        ensures new { IfOk result (λ r. MatchBool r.1
            (IsNewIn self.old self.new kept.now × (budget.old.given < budget.old.limit) × (budget.new.given ≡ budget.old.given + 1))
            (IsSameButCounted self.old self.new × (budget.new.given ≡ budget.old.given))) }
        ensures counts { OnOk result ((self.new.entries ≡ self.old.entries + 1) × (share.new.amount ≡ share.old.amount + 1)) }
        ensures of { IsForSame self.old self.new }
        ensures limit { budget.new.limit ≡ budget.old.limit }
        ensures parts { share.new.parts ≡ share.old.parts }
        ensures err { OnErr result ((self.new ≡ self.old) × (budget.new ≡ budget.old) × (share.new.amount ≡ share.old.amount)) }
        ensures refused { IfErr result (IsRefusal self.old budget.old kept.now.state) }
    {
        if self.table.log_len() == ALLOTMENT {
            return Err(InternError::Memory);
        }
        budget.bound(&mut self.units);
        let room = budget.has_unit();
        let shard = self.table.number();
        match self.table.intern(kept, room) {
            Ok((place, new)) => {
                if new {
                    budget.give(&mut self.units);
                }
                self.left.transfer(share, 1);
                Ok((Number { shard, place }, new))
            }
            Err(refused) => Err(refused),
        }
    }

    /// Claims a state that waits. False where no state waits at the place.
    ///
    /// Errors: where no entry more can be counted. Nothing changes.
    pub fn claim(&mut self, place: u32, share: &mut Share<E>) -> Result<bool, AllocError>
        requires part { 0 < share.old.parts }
        ensures made { IfOk result (λ taken. Makes self.old.rows (Call.claim place) self.new.rows (Reply.taken taken)) }
        ensures same { HasSameStates self.old self.new }
        ensures counts { OnOk result ((self.new.entries ≡ self.old.entries + 1) × (share.new.amount ≡ share.old.amount + 1)) }
        ensures of { IsForSame self.old self.new }
        ensures parts { share.new.parts ≡ share.old.parts }
        ensures err { OnErr result ((self.new ≡ self.old) × (share.new.amount ≡ share.old.amount) × (self.old.entries ≡ allotment)) }
    {
        if self.table.log_len() == ALLOTMENT {
            return Err(AllocError);
        }
        let taken = self.table.claim(place);
        self.left.transfer(share, 1);
        Ok(taken)
    }

    /// Files an end under the place of its state, given those of its successors that belong to this shard, each with its place.
    ///
    /// Errors: `NotReady` exactly where the state is not the one at the place, or is not claimed, or one of these successors is
    /// not at its place; `Memory` where no entry more can be counted. Nothing changes.
    pub fn finish(
        &mut self,
        place: u32,
        state: &State,
        filed: Filed,
        near: &[Near],
        share: &mut Share<E>,
    ) -> Result<(), FinishError>
        requires end { IsEnd self.old.client self.old.table state.now filed }
        requires near { AreNear self.old.client self.old.number state.now filed near.now }
        requires part { 0 < share.old.parts }
        ensures made { OnOk result (Makes self.old.rows (Call.finish place state.now filed near.now) self.new.rows Reply.filed) }
        ensures same { HasSameStates self.old self.new }
        ensures counts { OnOk result ((self.new.entries ≡ self.old.entries + 1) × (share.new.amount ≡ share.old.amount + 1)) }
        ensures of { IsForSame self.old self.new }
        ensures parts { share.new.parts ≡ share.old.parts }
        ensures err { OnErr result ((self.new ≡ self.old) × (share.new.amount ≡ share.old.amount)) }
        ensures refused { IfErr result (IsUnfiled self.old (Call.finish place state.now filed near.now)) }
    {
        if self.table.log_len() == ALLOTMENT {
            return Err(FinishError::Memory);
        }
        if !self.table.finish(place, state, filed, near) {
            return Err(FinishError::NotReady);
        }
        self.left.transfer(share, 1);
        Ok(())
    }

    /// The table, and the rest. Several threads may look at a table, and at no share.
    pub fn open(self) -> (Table<'a>, Rest<U, E>)
        ensures { (result.0 ≡ self.entry) × (result.1 ≡ claims self.entry) }
    {
        let Shard { table, units, left } = self;
        let rest = Rest {
            number: table.number(),
            states: table.len(),
            entries: table.log_len(),
            units,
            left,
        };
        (table, rest)
    }
}

/// What a shard has beside its table.
#[derive(Drop)]
pub struct Rest<U: Ledger, E: Ledger> {
    pub(crate) number: u8,
    pub(crate) states: usize,
    pub(crate) entries: u64,
    pub(crate) units: Share<U>,
    pub(crate) left: Share<E>,
}

impl<U: Ledger, E: Ledger> Model for Rest<U, E> {
    ghost use Rattle.std.specs.Prelude.{◌≡◌, ◌+◌};
    ghost use Rattle.tso_table.specs.Totals.{Claims, allotment};

    ghost Value = { Claims };

    ghost view = { λ r. record { number = r.number; states = r.states; entries = r.entries } };

    ghost invariant = { λ r. (r.units.parts ≡ 1) × (r.units.amount ≡ r.states) × (r.left.parts ≡ 1) × (r.left.amount + r.entries ≡ allotment) };
}
