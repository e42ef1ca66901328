//! The spellings of kept states, put together from those of their parts.
ghost use Rattle.std.specs.List.{flat_map};
ghost use Rattle.std.specs.Prelude.{◌≡◌, ◌<◌, ◌≤◌, ◌++◌, ℕ, List, IfOk, OnOk, Some, length, map, slice_get};
ghost use Rattle.tso_code.specs.Numbers.{number as spelled_number};
ghost use Rattle.tso_rec.specs.Spelling.{ending};
ghost use Rattle.tso_write.specs.Spelling.{IsEndedBehind, IsStateBehind};
ghost use Rattle.tso_prog.specs.declared.client.Client.{Client as ClientValue};
ghost use Rattle.tso_keys.specs.Keys.{AreKept, states_at};
ghost use Rattle.tso_keys.specs.Numbers.{values_at};

use std::alloc::{AllocError, Global};
use std::marker::Model;
use std::thread::Threads;
use tso_cert::{Task, run_by};
use tso_code::{Code, write_number};
use tso_keys::{Key, Parts};
use tso_list::Paths;
use tso_parts::Pool;
use tso_rec::{End, Grain};
use tso_store::Store;

/// The spelling of each part of kept states, made once: that of a state is copied from here by the numbers of its parts, by as many
/// threads as want to. Contracts see the states.
#[derive(Drop)]
pub struct Speller<'a> {
    parts: &'a Parts,
    keys: &'a Pool<Key>,
    memories: Paths,
    threads: Paths,
    histories: Paths,
}

impl<'a> Model for Speller<'a> {
    ghost use Rattle.std.specs.Prelude.{List};
    ghost use Rattle.tso_write.specs.Spelled.{AreSpelled};
    ghost use Rattle.tso_state.specs.declared.state.State.{State as StateValue};
    ghost use Rattle.tso_keys.specs.Keys.{states_at};

    ghost Value = { List StateValue };

    ghost view = { λ s. states_at s.parts.now s.keys.now };

    ghost invariant = { λ s. AreSpelled s.parts.now s.keys.now s.memories s.threads s.histories };
}

// The spellings of these values, by one thread.
fn spelled_all<T: Code>(alloc: Global, values: &[T]) -> Result<Paths, AllocError>
    ensures { IfOk result (λ all. all ≡ map T.spell values.now) }
{
    let mut all = Paths::new(alloc);
    let mut bytes = Vec::new(alloc);
    for value in values {
        bytes.clear();
        value.write(&mut bytes)?;
        all.push(bytes.as_slice())?;
    }
    Ok(all)
}

// Puts these spellings at the end.
fn put_all(more: &Paths, all: &mut Paths) -> Result<(), AllocError>
    ensures { OnOk result (all.new ≡ all.old ++ more.now) }
{
    for number in 0..more.len() {
        let Some(bytes) = more.get(number) else {
            unreachable!()
        };
        all.push(bytes)?;
    }
    Ok(())
}

// As many values one thread spells sooner than others are started for them: a history takes as long as some states.
const FEW: usize = 512;

// Values that are to be spelled.
#[derive(Drop)]
struct Unwritten<'a, T: Code> {
    alloc: Global,
    values: &'a [T],
}

impl<'a, T: Code> Task for Unwritten<'a, T> {
    ghost use Rattle.std.specs.Prelude.{◌≡◌, ◌++◌, map};

    type Output = Paths;

    ghost is_ready = { λ p. Unit {0} };

    ghost is_output = { λ p all. all ≡ map T.spell p.values.now };

    ghost are_halves = { λ p left right. p.values.now ≡ left.values.now ++ right.values.now };

    fn run(&self) -> Result<Paths, AllocError> {
        spelled_all(self.alloc, self.values)
    }

    fn halves(&self) -> Option<(Self, Self)> {
        let count = self.values.len();
        if count <= FEW {
            return None;
        }
        let (low, high) = self.values.split_at(count / 2);
        let left = Unwritten {
            alloc: self.alloc,
            values: low,
        };
        let right = Unwritten {
            alloc: self.alloc,
            values: high,
        };
        Some((left, right))
    }

    fn joined(
        &self,
        _left: &Self,
        _right: &Self,
        first: Paths,
        second: Paths,
    ) -> Result<Paths, AllocError> {
        let mut all = first;
        put_all(&second, &mut all)?;
        Ok(all)
    }
}

// The spellings of these values, by so many workers.
fn spelled_by<R: Threads + Sync, T: Code + Sync>(
    rt: &R,
    alloc: Global,
    values: &[T],
    workers: u64,
) -> Result<Paths, AllocError>
    ensures { IfOk result (λ all. all ≡ map T.spell values.now) }
{
    run_by(rt, &Unwritten { alloc, values }, workers)
}

// Puts the spelling of an end at the end: at a crossing that of its choices is one byte.
fn put_end(grain: Grain, end: &End, out: &mut Vec<u8>) -> Result<(), AllocError>
    ensures { OnOk result (out.new.items ≡ out.old.items ++ ending grain end.now) }
{
    match (grain, end) {
        (Grain::Crossings, End::Choices(_)) => {
            out.push(0)?;
            Ok(())
        }
        _ => end.write(out),
    }
}

// Puts the spelling with this number at the end, if there are so many.
fn put_part(spelled: &Paths, number: u32, out: &mut Vec<u8>) -> Result<(), AllocError>
    ensures { OnOk result ((bytes : List ℕ) → slice_get spelled.now number ≡ Some bytes → out.new.items ≡ out.old.items ++ bytes) }
{
    if let Some(bytes) = spelled.get(number as usize) {
        out.extend_from_slice(bytes)?;
    }
    Ok(())
}

// How many of these numbers come before the first that is the number of nothing.
fn count_of(spelled: &Paths, numbers: &[u32]) -> usize
    ensures count { result ≡ length (values_at spelled.now numbers.now) }
    ensures few { result ≤ length numbers.now }
{
    match numbers {
        [] => 0,
        [first, rest @ ..] => {
            if *first as usize >= spelled.len() {
                return 0;
            }
            1 + count_of(spelled, rest)
        }
    }
}

// Puts the spellings with these numbers at the end, up to the first that is the number of nothing.
fn put_each(spelled: &Paths, numbers: &[u32], out: &mut Vec<u8>) -> Result<(), AllocError>
    ensures { OnOk result (out.new.items ≡ out.old.items ++ flat_map (λ bytes. bytes) (values_at spelled.now numbers.now)) }
{
    match numbers {
        [] => Ok(()),
        [first, rest @ ..] => {
            let Some(bytes) = spelled.get(*first as usize) else {
                return Ok(());
            };
            out.extend_from_slice(bytes)?;
            put_each(spelled, rest, out)?;
            Ok(())
        }
    }
}

// The same behind their count.
fn put_list(spelled: &Paths, numbers: &[u32], out: &mut Vec<u8>) -> Result<(), AllocError>
    ensures { OnOk result (out.new.items ≡ out.old.items ++ (spelled_number (length (values_at spelled.now numbers.now)) ++ flat_map (λ bytes. bytes) (values_at spelled.now numbers.now))) }
{
    write_number(count_of(spelled, numbers) as u64, out)?;
    put_each(spelled, numbers, out)?;
    Ok(())
}

// How many bytes the spelling with this number has, if there are so many.
fn length_of(spelled: &Paths, number: u32) -> usize {
    match spelled.get(number as usize) {
        Some(bytes) => bytes.len(),
        None => 0,
    }
}

// Most records have fewer bytes beside those of their state's history.
const BESIDE: usize = 64;

impl<'a> Speller<'a> {
    /// Of the states of a store, whose parts so many workers spell.
    ///
    /// Errors: where a growth was refused.
    pub fn new<R: Threads + Sync>(
        rt: &R,
        alloc: Global,
        store: &'a Store<'_>,
        workers: u64,
    ) -> Result<Self, AllocError>
        ensures { IfOk result (λ s. s ≡ store.now.states) }
    {
        let (parts, keys) = store.keyed_parts();
        Speller::of_parts(rt, alloc, parts, keys, workers)
    }

    // Of the states of these keys.
    fn of_parts<R: Threads + Sync>(
        rt: &R,
        alloc: Global,
        parts: &'a Parts,
        keys: &'a Pool<Key>,
        workers: u64,
    ) -> Result<Self, AllocError>
        requires kept { (c : ClientValue) × AreKept c parts.now keys.now }
        ensures { IfOk result (λ s. s ≡ states_at parts.now keys.now) }
    {
        let memories = spelled_by(rt, alloc, parts.memories.values(), workers)?;
        let threads = spelled_by(rt, alloc, parts.threads.values(), workers)?;
        let histories = spelled_by(rt, alloc, parts.histories.values(), workers)?;
        Ok(Speller {
            parts,
            keys,
            memories,
            threads,
            histories,
        })
    }

    /// How many bytes the records of these states have, about: most have fewer. States that are neighbours in their order lie anywhere in
    /// memory, and here those of several are waited for at one time; whoever asks before it spells them one by one waits less then.
    pub fn room_for(&self, numbers: &[u32]) -> usize {
        let mut room: usize = 0;
        for number in numbers {
            if let Some(key) = self.keys.get(*number) {
                let length = length_of(&self.histories, key.history);
                room = room.saturating_add(length).saturating_add(BESIDE);
            }
        }
        room
    }

    /// Puts the spelling of state `number` at the end.
    ///
    /// Errors: where a growth was refused.
    pub fn put_state(&self, number: u32, out: &mut Vec<u8>) -> Result<(), AllocError>
        requires { number < length self.now }
        ensures { OnOk result (IsStateBehind self.now number out.old.items out.new.items) }
    {
        let Some(key) = self.keys.get(number) else {
            unreachable!()
        };
        put_part(&self.memories, key.memory, out)?;
        put_list(&self.threads, key.threads.as_slice(), out)?;
        put_part(&self.histories, key.history, out)?;
        Ok(())
    }

    /// Puts the spelling of the record of state `number` with this end at the end.
    ///
    /// Errors: where a growth was refused.
    pub fn put_record(
        &self,
        grain: Grain,
        number: u32,
        end: &End,
        out: &mut Vec<u8>,
    ) -> Result<(), AllocError>
        requires { number < length self.now }
        ensures { OnOk result (IsEndedBehind grain self.now number end.now out.old.items out.new.items) }
    {
        self.put_state(number, out)?;
        put_end(grain, end, out)
    }
}
