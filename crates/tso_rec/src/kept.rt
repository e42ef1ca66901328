//! Records that are kept by parts.
ghost use Rattle.std.specs.Prelude.{◌≡◌, ◌++◌, [], Err, IfOk, OnOk};
ghost use Rattle.tso_code.specs.Fields.{Gives};
ghost use Rattle.tso_rec.specs.Keeping.{parts_cmp, record_of};
ghost use Rattle.tso_rec.specs.Parts.{kept_after, part_count};
ghost use Rattle.tso_rec.specs.Spelling.{a_record, ending, ending_at, record_at};
ghost use Rattle.tso_state.specs.Order.{state_cmp};

use crate::basis::Grain;
use crate::known::Known;
use crate::record::{End, Record};
use crate::shared::{
    Part, Shared, compare_all, copy_all, copy_of, differing, keep, keep_all, write_all,
};
use std::alloc::{AllocError, Global};
use std::cmp::Ordering;
use tso_choose::Choices;
use tso_code::{Code, ReadError};
use tso_hist::{Call, History};
use tso_list::{Exact, Seq};
use tso_state::{State, Thread};

/// A record, whose parts may be shared with others: its state's memory, threads and lists of calls, and its end. Each part lies
/// beside its spelling.
#[derive(Drop)]
pub struct Kept {
    pub memory: Shared<Seq<u64>>,
    pub threads: Seq<Shared<Thread>>,
    pub history: Seq<Shared<Seq<Call>>>,
    pub end: Shared<End>,
}

impl Part for Thread {
    ghost use Rattle.std.proofs.Common.{rules};

    ghost copied = { λ x y c. Prim.search rules };
}

impl Part for Call {
    ghost use Rattle.std.proofs.Common.{rules};

    ghost copied = { λ x y c. Prim.search rules };
}

impl Exact for End {
    ghost use Rattle.tso_rec.specs.Exactness.{end_exact};

    ghost exact = { end_exact };
}

impl Part for End {
    ghost use Rattle.std.proofs.Common.{rules};

    ghost copied = { λ x y c. Prim.search rules };
}

// The end at the front of the bytes, and the bytes after it.
#[tactic(auto, unfolding(crate::specs::Spelling::ending_at))]
fn read_end<'a>(
    alloc: Global,
    grain: Grain,
    known: &mut Known,
    bytes: &'a [u8],
) -> Result<(Shared<End>, &'a [u8]), ReadError>
    ensures { Gives (λ x. (x.0, x.1.now)) result (ending_at grain bytes.now) }
{
    match grain {
        Grain::Steps => known.ends.read(alloc, 0, bytes),
        Grain::Crossings => match bytes {
            [0, rest @ ..] => {
                let end = Shared::new(alloc, End::Choices(Choices::new(alloc)))?;
                Ok((end, rest))
            }
            [1, ..] => known.ends.read(alloc, 0, bytes),
            _ => Err(ReadError::Malformed),
        },
    }
}

// Puts the spelling of an end at the end of the bytes.
fn write_end(grain: Grain, end: &Shared<End>, out: &mut Vec<u8>) -> Result<(), AllocError>
    ensures { OnOk result (out.new.items ≡ out.old.items ++ ending grain end.now) }
{
    match (grain, end.get()) {
        (Grain::Crossings, End::Choices(_)) => {
            out.push(0)?;
            Ok(())
        }
        _ => end.write(out),
    }
}

impl Kept {
    // The record, each of its parts shared with the record before where that has the same.
    fn after(alloc: Global, before: &Kept, added: &Record) -> Result<Kept, AllocError>
        ensures { IfOk result (λ k. record_of k ≡ added.now) }
    {
        let memory = keep(alloc, Some(&before.memory), &added.state.memory)?;
        let threads = keep_all(
            alloc,
            before.threads.as_slice(),
            added.state.threads.as_slice(),
        )?;
        let history = keep_all(
            alloc,
            before.history.as_slice(),
            added.state.history.threads(),
        )?;
        let end = keep(alloc, Some(&before.end), &added.end)?;
        Ok(Kept {
            memory,
            threads,
            history,
            end,
        })
    }

    /// The record behind another, with which it shares parts where the counts of threads and of lists are the same.
    pub fn behind(alloc: Global, before: &Kept, added: &Record) -> Result<Kept, AllocError>
        ensures { IfOk result (λ k. record_of k ≡ added.now) }
    {
        if before.threads.len() == added.state.threads.len()
            && before.history.len() == added.state.history.threads().len()
        {
            return Kept::after(alloc, before, added);
        }
        Kept::first(alloc, added)
    }

    /// The record, which shares nothing.
    pub fn first(alloc: Global, added: &Record) -> Result<Kept, AllocError>
        ensures { IfOk result (λ k. record_of k ≡ added.now) }
    {
        let memory = keep(alloc, None, &added.state.memory)?;
        let threads = keep_all(alloc, &[], added.state.threads.as_slice())?;
        let history = keep_all(alloc, &[], added.state.history.threads())?;
        let end = keep(alloc, None, &added.end)?;
        Ok(Kept {
            memory,
            threads,
            history,
            end,
        })
    }

    /// The record at the front of the bytes, of a certificate of this grain, and the bytes after it. Its parts are shared with equal ones
    /// that were read before.
    #[tactic(auto, unfolding(crate::specs::Spelling::record_at, tso_code::specs::States::state_at))]
    pub fn read<'a>(
        alloc: Global,
        grain: Grain,
        known: &mut Known,
        bytes: &'a [u8],
    ) -> Result<(Kept, &'a [u8]), ReadError>
        ensures read { Gives (λ x. (record_of x.0, x.1.now)) result (record_at grain bytes.now) }
        ensures empty { bytes.now ≡ [] → result ≡ Err ReadError.Malformed }
    {
        if bytes.is_empty() {
            return Err(ReadError::Malformed);
        }
        let (memory, rest) = known.memories.read(alloc, 0, bytes)?;
        let (threads, rest) = known.threads.read_list(alloc, rest)?;
        let (history, rest) = known.calls.read_list(alloc, rest)?;
        let (end, rest) = read_end(alloc, grain, known, rest)?;
        let kept = Kept {
            memory,
            threads,
            history,
            end,
        };
        Ok((kept, rest))
    }

    /// The state, put together.
    pub fn state(&self, alloc: Global) -> Result<State, AllocError>
        ensures { IfOk result (λ s. s ≡ (record_of self.now).state) }
    {
        let memory = copy_of(self.memory.get())?;
        let threads = copy_all(alloc, self.threads.as_slice())?;
        let history = copy_all(alloc, self.history.as_slice())?;
        Ok(State {
            memory,
            threads,
            history: History::from_threads(history),
        })
    }

    /// How the state is ordered against another.
    pub fn compare(&self, state: &State) -> Ordering
        ensures { result ≡ state_cmp (record_of self.now).state state.now }
    {
        self.by_parts(state)
    }

    // Memory first, then threads, then lists of calls.
    fn by_parts(&self, state: &State) -> Ordering
        ensures { result ≡ parts_cmp (record_of self.now).state state.now }
    {
        let by_memory = self.memory.get().cmp(&state.memory);
        if by_memory != Ordering::Equal {
            return by_memory;
        }
        let by_threads = compare_all(self.threads.as_slice(), state.threads.as_slice());
        if by_threads != Ordering::Equal {
            return by_threads;
        }
        compare_all(self.history.as_slice(), state.history.threads())
    }

    /// How many parts the state has.
    pub fn part_count(&self) -> usize
        ensures { result ≡ part_count (record_of self.now).state }
    {
        1 + self.threads.as_slice().len() + self.history.as_slice().len()
    }

    /// How many parts it keeps after another record.
    pub fn kept_after(&self, before: &Kept) -> usize
        ensures { result ≡ kept_after (record_of before.now).state (record_of self.now).state }
    {
        if before.threads.len() != self.threads.len()
            || before.history.len() != self.history.len()
        {
            return self.part_count();
        }
        let memory = usize::from(before.memory.get() != self.memory.get());
        memory
            + differing(before.threads.as_slice(), self.threads.as_slice())
            + differing(before.history.as_slice(), self.history.as_slice())
    }

    /// Puts the spelling of the record at the end, in a certificate of this grain. Choices are not spelled at a crossing.
    pub fn write(&self, grain: Grain, out: &mut Vec<u8>) -> Result<(), AllocError>
        ensures { OnOk result (out.new.items ≡ out.old.items ++ a_record grain (record_of self.now)) }
    {
        self.memory.write(out)?;
        write_all(self.threads.as_slice(), out)?;
        write_all(self.history.as_slice(), out)?;
        write_end(grain, &self.end, out)
    }
}
