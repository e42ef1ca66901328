//! States of several stores, or of parts that are handed over, behind one another.
ghost use Rattle.std.specs.Prelude.{◌≡◌, ◌↔◌, ◌+◌, ◌++◌, ◌<◌, ◌≤◌, ◌^◌, [], length, map, slice_get, Err, IsTrue, OnErr, OnOk, Some};
ghost use Rattle.tso_parts.specs.Numbers.{IsNumbered};
ghost use Rattle.tso_parts.specs.declared.refused.Refused.TheVariants as reasons;
ghost use Rattle.tso_store.specs.Gathering.{AreThere, moved_from, picked};
ghost use Rattle.tso_keys.specs.Keys.{AreKept, part_count, states_at};
ghost use Rattle.tso_keys.specs.Moving.{moved_key};

use crate::numbered::Store;
use crate::rising::{Rising, kept_at};
use std::alloc::{AllocError, Global};
use std::marker::Model;
use tso_flow::Checked;
use tso_keys::{
    Key, PartNumbers, Parts, find_key, fits_client, key_or_none, moved_key, take_parts,
};
use tso_list::{Exact, Seq};
use tso_parts::{Pool, Refused};
use tso_state::State;

/// States of one client, of several stores or of parts that are handed over, one behind another, by the numbers of their parts.
#[derive(Drop)]
pub struct Gathered<'a> {
    checked: &'a Checked,
    parts: Parts,
    keys: Vec<Key>,
}

impl<'a> Model for Gathered<'a> {
    ghost use Rattle.tso_store.specs.Gathering.{AreGathered, Gathering};
    ghost use Rattle.tso_keys.specs.Keys.{part_count, states_at};

    ghost Value = { Gathering };

    ghost view = { λ g. record { client = g.checked.now.client; states = states_at g.parts g.keys.items; parts = part_count g.parts } };

    ghost invariant = { λ g. AreGathered g.checked.now.client g.parts g.keys.items };
}

// The key with this number by the new numbers of its parts.
fn moved_from(numbers: &PartNumbers, others: &Pool<Key>, number: u32) -> Key
    ensures { result ≡ moved_from numbers.now others.now number }
{
    moved_key(numbers, &key_or_none(others, number))
}

// Puts the keys with these numbers at the end, each by the new numbers of its parts.
fn push_moved(
    keys: &mut Vec<Key>,
    numbers: &PartNumbers,
    others: &Pool<Key>,
    taken: &[u32],
) -> Result<(), AllocError>
    ensures ok { OnOk result (keys.new.items ≡ keys.old.items ++ map (moved_from numbers.now others.now) taken.now) }
    ensures err { OnErr result (keys.new.items ≡ keys.old.items) }
{
    keys.reserve(taken.len())?;
    for number in taken {
        keys.push_reserved(moved_from(numbers, others, *number));
    }
    Ok(())
}

// Puts these keys at the end, each by the new numbers of its parts.
fn push_all_moved(
    keys: &mut Vec<Key>,
    numbers: &PartNumbers,
    others: &[Key],
) -> Result<(), AllocError>
    ensures ok { OnOk result (keys.new.items ≡ keys.old.items ++ map (moved_key numbers.now) others.now) }
    ensures err { OnErr result (keys.new.items ≡ keys.old.items) }
{
    keys.reserve(others.len())?;
    for key in others {
        keys.push_reserved(moved_key(numbers, key));
    }
    Ok(())
}

// Whether two values are one.
fn are_same<T: Exact>(a: &T, b: &T) -> bool
    ensures { IsTrue result ↔ (a.now ≡ b.now) }
{
    a == b
}

impl<'a> Gathered<'a> {
    /// No states. The parts of those that come are hashed by this seed: whoever makes the states and does not know the seed
    /// cannot tell which of them collide.
    pub fn new(alloc: Global, checked: &'a Checked, seed: u64) -> Self
        ensures client { result.client ≡ checked.now.client }
        ensures states { result.states ≡ [] }
        ensures parts { result.parts ≡ 0 }
    {
        Gathered {
            checked,
            parts: Parts::new(alloc, seed),
            keys: Vec::new(alloc),
        }
    }

    /// The states of these keys, whose parts are those with their numbers.
    pub fn of_parts(checked: &'a Checked, parts: Parts, keys: Vec<Key>) -> Self
        requires { AreKept checked.now.client parts keys.items }
        ensures client { result.client ≡ checked.now.client }
        ensures states { result.states ≡ states_at parts keys.items }
        ensures parts { result.parts ≡ part_count parts }
    {
        parts.threads.is_numbered();
        Gathered {
            checked,
            parts,
            keys,
        }
    }

    /// How many states there are.
    pub fn len(&self) -> usize
        ensures { result ≡ length self.now.states }
    {
        self.keys.len()
    }

    /// Puts the states of a store of the same client with these numbers at the end, in this order. Each part of the store is
    /// looked for once, and moved where it is new; then each state takes its parts by their numbers here, so that for a state
    /// no part is compared or hashed. What of the store is not needed is let go of.
    ///
    /// Errors: where a growth was refused (`Memory`), or there are as many parts of a kind as numbers (`Full`). The states stay.
    pub fn take(&mut self, alloc: Global, store: Store<'_>, numbers: &[u32]) -> Result<(), Refused>
        requires client { store.client ≡ self.old.client }
        requires there { AreThere store.states numbers.now }
        ensures taken { OnOk result (self.new.states ≡ self.old.states ++ picked store.entry.states numbers.now) }
        ensures err { OnErr result (self.new.states ≡ self.old.states) }
        ensures full { result ≡ Err reasons.Full → 4294967295 ≤ self.new.parts }
        ensures more { self.new.parts ≤ self.old.parts + store.entry.kept }
        ensures client { self.new.client ≡ self.old.client }
    {
        let (others, keys) = store.into_parts();
        others.threads.is_numbered();
        let moved = take_parts(alloc, &mut self.parts, others)?;
        push_moved(&mut self.keys, &moved, &keys, numbers)?;
        Ok(())
    }

    /// Puts the states of others of the same client at the end, as `take` does.
    ///
    /// Errors: those of `take`. The states stay.
    pub fn append(&mut self, alloc: Global, others: Gathered<'_>) -> Result<(), Refused>
        requires { others.client ≡ self.old.client }
        ensures ok { OnOk result (self.new.states ≡ self.old.states ++ others.entry.states) }
        ensures err { OnErr result (self.new.states ≡ self.old.states) }
        ensures full { result ≡ Err reasons.Full → 4294967295 ≤ self.new.parts }
        ensures more { self.new.parts ≤ self.old.parts + others.entry.parts }
        ensures client { self.new.client ≡ self.old.client }
    {
        let Gathered {
            checked: _checked,
            parts,
            keys,
        } = others;
        parts.threads.is_numbered();
        let moved = take_parts(alloc, &mut self.parts, parts)?;
        push_all_moved(&mut self.keys, &moved, keys.as_slice())?;
        Ok(())
    }

    /// Whether the state at this place is this one. It takes no memory.
    pub fn is_at(&self, place: usize, state: &State) -> bool
        ensures { IsTrue result ↔ (slice_get self.now.states place ≡ Some state.now) }
    {
        if !fits_client(&self.checked.client, state) {
            return false;
        }
        self.parts.threads.is_numbered();
        self.parts.memories.is_numbered();
        self.parts.histories.is_numbered();
        let Some(key) = find_key(&self.parts, state) else {
            return false;
        };
        match kept_at(self.keys.as_slice(), place) {
            Some(kept) => are_same(&kept, &key),
            None => false,
        }
    }

    /// Its states, to be compared with one another.
    pub fn rising(&self) -> Rising<'_>
        ensures { result ≡ self.now.states }
    {
        Rising::of(self.checked, &self.parts, self.keys.as_slice())
    }

    /// One store of these states, in this order. No state is compared, hashed or copied, and the store has no index of them, so
    /// that to look for a state, or to add one, goes over all of them: it is for states that are read by their numbers from
    /// then on.
    pub fn finish(self) -> Store<'a>
        requires numbered { IsNumbered self.states }
        requires small { length self.states < 2 ^ 32 }
        ensures client { result.client ≡ self.entry.client }
        ensures states { result.states ≡ self.entry.states }
    {
        let Gathered {
            checked,
            parts,
            keys,
        } = self;
        let alloc = *keys.allocator();
        let keys = Pool::listed(Seq::from_vec(keys));
        Store::of_parts(alloc, checked, parts, keys)
    }
}
