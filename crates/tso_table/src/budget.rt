//! The units for new states. It is kept in a lock of its own, which only a new state needs.

ghost use Rattle.std.specs.Prelude.{◌≡◌, ◌↔◌, ◌+◌, ◌*◌, ◌<◌, ◌≤◌, ◌^◌, IsTrue, MatchBool};
ghost use Rattle.tso_table.specs.Totals.{allotment};

use crate::number::SHARDS;
use std::marker::Model;
use std::sync::ledger::{Blank, Book, Ledger, Share, Total};

/// How many entries a shard can count.
pub const ALLOTMENT: u64 = 1 << 63;

/// Units that are left for new states. `U` counts the units given, by shards. `E` counts entries: each shard begins with an
/// allotment, of which an entry moves one to the share of the worker whose call it is; so their sum stays, and no lock of all
/// is needed to count.
#[derive(Drop)]
pub struct Budget<U: Ledger, E: Ledger> {
    limit: u32,
    given: u32,
    units: Book<U>,
    entries: Total<E>,
}

impl<U: Ledger, E: Ledger> Model for Budget<U, E> {
    ghost use Rattle.std.specs.Prelude.{◌≡◌, ◌≤◌, ◌*◌};
    ghost use Rattle.tso_table.specs.Totals.{Purse, allotment};

    ghost Value = { Purse };

    ghost view = { λ b. record { limit = b.limit; given = b.given } };

    ghost invariant = { λ b. (b.given ≤ b.limit) × (b.units.total ≡ b.given) × (b.entries.amount ≡ 16 * allotment) × (b.entries.parts ≡ E.parts) };
}

// A ledger of entries with the allotments of all shards, whose sum stays.
fn allotted<E: Ledger>(blank: Blank) -> (Total<E>, Share<E>)
    requires { (blank.name ≡ E.name) × (blank.parts ≡ E.parts) × (0 < blank.parts) }
    ensures total { (result.0.amount ≡ 16 * allotment) × (result.0.parts ≡ E.parts) }
    ensures share { (result.1.amount ≡ 16 * allotment) × (result.1.parts ≡ E.parts) }
{
    let (mut book, mut share) = blank.open::<E>();
    for _ in 0..SHARDS {
        book.add(&mut share, ALLOTMENT);
    }
    (book.close(), share)
}

impl<U: Ledger, E: Ledger> Budget<U, E> {
    /// A budget of so many units, with the whole shares of its ledgers: no units, and the allotments of all shards.
    pub fn new(limit: u32, units: Blank, entries: Blank) -> (Self, Share<U>, Share<E>)
        requires units { (units.name ≡ U.name) × (units.parts ≡ U.parts) }
        requires entries { (entries.name ≡ E.name) × (entries.parts ≡ E.parts) × (0 < entries.parts) }
        ensures budget { (result.0.limit ≡ limit) × (result.0.given ≡ 0) }
        ensures units { (result.1.parts ≡ U.parts) × (result.1.amount ≡ 0) }
        ensures entries { (result.2.parts ≡ E.parts) × (result.2.amount ≡ 16 * allotment) }
    {
        let (units, unit_share) = units.open::<U>();
        let (entries, entry_share) = allotted::<E>(entries);
        let budget = Budget {
            limit,
            given: 0,
            units,
            entries,
        };
        (budget, unit_share, entry_share)
    }

    /// Whether the budget began with so many units.
    pub fn is_for(&self, limit: u32) -> bool
        ensures { IsTrue result ↔ (self.now.limit ≡ limit) }
    {
        self.limit == limit
    }

    /// How many units were given, at most the limit.
    pub fn given(&self) -> u32
        ensures given { result ≡ self.now.given }
        ensures within { self.now.given ≤ self.now.limit }
    {
        self.given
    }

    /// Whether a unit is left.
    pub fn has_unit(&self) -> bool
        ensures { MatchBool result (self.now.given < self.now.limit) (self.now.given ≡ self.now.limit) }
    {
        self.given < self.limit
    }

    /// Gives a unit.
    pub(crate) fn give(&mut self, units: &mut Share<U>)
        requires left { self.old.given < self.old.limit }
        requires part { 0 < units.old.parts }
        ensures given { self.new.given ≡ self.old.given + 1 }
        ensures same { self.new.limit ≡ self.old.limit }
        ensures share { (units.new.amount ≡ units.old.amount + 1) × (units.new.parts ≡ units.old.parts) }
    {
        self.units.add(units, 1);
        self.given += 1;
    }

    /// A share has no more than was given.
    pub(crate) fn bound(&mut self, units: &mut Share<U>)
        ensures same { self.new ≡ self.old }
        ensures units { (units.new.amount ≡ units.old.amount) × (units.new.parts ≡ units.old.parts) }
        ensures bound { (units.old.amount ≤ self.old.given) × (self.old.given ≤ self.old.limit) × (self.old.limit < 2 ^ 32) }
    {
        let _limit = self.limit;
        self.units.audit(units);
    }

    /// With all parts of both: the shares have what was given, and what was allotted.
    pub(crate) fn audit(&mut self, units: &mut Share<U>, entries: &mut Share<E>)
        requires { (units.old.parts ≡ U.parts) × (entries.old.parts ≡ E.parts) }
        ensures same { self.new ≡ self.old }
        ensures units { (units.new.amount ≡ units.old.amount) × (units.new.parts ≡ units.old.parts) × (units.old.amount ≡ self.old.given) }
        ensures entries { (entries.new.amount ≡ entries.old.amount) × (entries.new.parts ≡ entries.old.parts) × (entries.old.amount ≡ 16 * allotment) }
    {
        self.units.audit(units);
        self.entries.audit(entries);
    }
}
