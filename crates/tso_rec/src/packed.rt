//! Lists of records.
ghost use Rattle.std.specs.Prelude.{◌≡◌, ◌↔◌, ◌<◌, ◌≤◌, ◌++◌, ◌∷◌, [], ◌==◌, Err, IfOk, IsTrue, length, OnErr, OnOk, option_map, slice_get, Some};
ghost use Rattle.std.specs.Ordering.{is_eq};
ghost use Rattle.tso_code.specs.Fields.{Gives, items_at, list};
ghost use Rattle.tso_rec.specs.Keeping.{record_of};
ghost use Rattle.tso_rec.specs.Parts.{parts_kept};
ghost use Rattle.tso_rec.specs.Records.{ends_of, states_of};
ghost use Rattle.tso_rec.specs.Spelling.{a_record, record_at};
ghost use Rattle.tso_state.specs.Order.{state_cmp};

use crate::basis::Grain;
use crate::kept::Kept;
use crate::known::Known;
use crate::record::{End, Record};
use std::alloc::{AllocError, Global};
use std::cmp::Ordering;
use std::marker::Model;
use tso_code::{Code, ReadError, write_number};
use tso_list::Seq;
use tso_state::State;

/// A list of records, kept by parts: the first one keeps all its parts, and a later one those that differ from the record
/// before it; the others it shares. Contracts see the list of records.
#[derive(Drop)]
pub struct Packed {
    kept: Seq<Kept>,
}

impl Model for Packed {
    ghost use Rattle.std.specs.Prelude.{List};
    ghost use Rattle.tso_rec.specs.Keeping.{records_of};
    ghost use Rattle.tso_rec.specs.declared.record.Record.{Record as StateWithEnd};

    ghost Value = { List StateWithEnd };

    ghost view = { λ p. records_of p.kept };
}

impl Packed {
    /// No records.
    pub fn new(alloc: Global) -> Packed
        ensures { result ≡ [] }
    {
        Packed {
            kept: Seq::new(alloc),
        }
    }

    /// These records, in this order.
    pub fn from_records(alloc: Global, records: &[Record]) -> Result<Packed, AllocError>
        ensures { IfOk result (λ p. p ≡ records.now) }
    {
        let mut packed = Packed::new(alloc);
        for record in records {
            packed.push(record)?;
        }
        Ok(packed)
    }

    /// Adds a record at the end. Want of memory leaves the records as they were.
    pub fn push(&mut self, added: &Record) -> Result<(), AllocError>
        ensures ok { OnOk result (self.new ≡ self.old ++ added.now ∷ []) }
        ensures err { OnErr result (self.new ≡ self.old) }
    {
        let kept = self.keep(added)?;
        self.append(kept)
    }

    /// Adds a record that is kept by parts at the end, with what it shares. Want of memory leaves the records as they were.
    pub fn append(&mut self, kept: Kept) -> Result<(), AllocError>
        ensures ok { OnOk result (self.new ≡ self.old ++ record_of kept ∷ []) }
        ensures err { OnErr result (self.new ≡ self.old) }
    {
        self.kept.push(kept)
    }

    // The record behind the last one, with which it shares what is the same.
    fn keep(&self, added: &Record) -> Result<Kept, AllocError>
        ensures { IfOk result (λ k. record_of k ≡ added.now) }
    {
        let alloc = self.kept.allocator();
        match self.kept.as_slice().last() {
            Some(before) => Kept::behind(alloc, before, added),
            None => Kept::first(alloc, added),
        }
    }

    /// How many records there are. It takes no memory.
    pub fn len(&self) -> usize
        ensures { result ≡ length self.now }
    {
        self.kept.len()
    }

    /// Whether there are no records. It takes no memory.
    pub fn is_empty(&self) -> bool
        ensures { result ≡ (length self.now == 0) }
    {
        self.kept.is_empty()
    }

    /// The end of record `k`. It takes no memory.
    pub fn end(&self, k: usize) -> &End
        requires { k < length self.now }
        ensures { slice_get (ends_of self.now) k ≡ Some result.now }
    {
        self.kept.as_slice()[k].end.get()
    }

    /// How the state of record `k` is ordered against a state. It takes no memory, and builds no state.
    pub fn compare(&self, k: usize, state: &State) -> Ordering
        requires { k < length self.now }
        ensures order { option_map (λ s. state_cmp s state.now) (slice_get (states_of self.now) k) ≡ Some result }
        ensures same { IsTrue (is_eq result) ↔ (slice_get (states_of self.now) k ≡ Some state.now) }
    {
        self.kept.as_slice()[k].compare(state)
    }

    /// How many parts of its state record `k` keeps: those that differ from the record before it, and all where it is the
    /// first or the counts of threads or of lists of calls differ. It takes no memory.
    pub fn parts_kept(&self, k: usize) -> usize
        requires { k < length self.now }
        ensures { parts_kept self.now k ≡ Some result }
    {
        let kept = self.kept.as_slice();
        if k == 0 {
            return kept[k].part_count();
        }
        kept[k].kept_after(&kept[k - 1])
    }

    /// The state of record `k`, put together from its parts.
    pub fn state(&self, k: usize) -> Result<State, AllocError>
        requires { k < length self.now }
        ensures { IfOk result (λ s. slice_get (states_of self.now) k ≡ Some s) }
    {
        let state = self.kept.as_slice()[k].state(self.kept.allocator())?;
        Ok(state)
    }

    /// So many records of a certificate of this grain at the front of the bytes, and the bytes after them. However many are asked for, room is made only for
    /// records that were read.
    pub fn read(
        alloc: Global,
        grain: Grain,
        count: u64,
        bytes: &[u8],
    ) -> Result<(Packed, &[u8]), ReadError>
        ensures read { Gives (λ x. (x.0, x.1.now)) result (items_at (record_at grain) count bytes.now) }
        ensures empty { 0 < count → bytes.now ≡ [] → result ≡ Err ReadError.Malformed }
    {
        let mut known = Known::new(alloc);
        Packed::read_among(alloc, grain, &mut known, count, bytes)
    }

    /// The same, with parts shared with equal ones of records that were read before, also of other lists.
    pub fn read_among<'a>(
        alloc: Global,
        grain: Grain,
        known: &mut Known,
        count: u64,
        bytes: &'a [u8],
    ) -> Result<(Packed, &'a [u8]), ReadError>
        ensures read { Gives (λ x. (x.0, x.1.now)) result (items_at (record_at grain) count bytes.now) }
        ensures empty { 0 < count → bytes.now ≡ [] → result ≡ Err ReadError.Malformed }
    {
        let mut packed = Packed::new(alloc);
        let mut rest = bytes;
        for _ in 0..count {
            let (kept, after) = Kept::read(alloc, grain, known, rest)?;
            packed.append(kept)?;
            rest = after;
        }
        Ok((packed, rest))
    }

    /// Puts the count of the records and then the records at the end of the bytes of a certificate of this grain.
    pub fn write(&self, grain: Grain, out: &mut Vec<u8>) -> Result<(), AllocError>
        ensures { OnOk result (out.new.items ≡ out.old.items ++ list (a_record grain) self.now) }
    {
        let kept = self.kept.as_slice();
        write_number(kept.len() as u64, out)?;
        for record in kept {
            record.write(grain, out)?;
        }
        Ok(())
    }
}
