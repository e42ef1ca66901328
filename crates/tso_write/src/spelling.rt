//! The spelling of worked states as the records of a tree, before there is one.

ghost use Rattle.std.specs.Prelude.{◌≡◌, ◌<◌, ◌≤◌, [], get_or, IfOk, IfSome, OnOk, length};
ghost use Rattle.tso_write.specs.Spelling.{AreSpelledBehind, CanBeSpelled, IsRecordBehind, IsSpelledBehind, IsSpelledCut, IsStateBehind};
ghost use Rattle.tso_write.specs.Cutting.{AreNumbers, AreRising};
ghost use Rattle.tso_write.specs.Tasks.{AreHalvesCut, uncut};
ghost use Rattle.tso_write.specs.Unspelled.{numbers_of};
ghost use Rattle.tso_search.specs.Grounds.{IsGround};
ghost use Rattle.tso_search.specs.Searched.{AreSearched};

use crate::cutting::{LEAF, end_at};
use crate::speller::Speller;
use std::alloc::{AllocError, Global};
use tso_code::write_number;
use tso_flow::Checked;
use tso_search::Ground;
use tso_store::Store;

// Puts the record of a state at the end.
fn put_record(
    alloc: Global,
    checked: &Checked,
    ground: &Ground,
    store: &Store<'_>,
    speller: &Speller<'_>,
    number: u32,
    out: &mut Vec<u8>,
) -> Result<(), AllocError>
    requires client { store.now.client ≡ checked.now.client }
    requires searched { AreSearched checked.now.client ground.now store.now.states }
    requires closed { IsGround checked.now.client ground.now }
    requires same { speller.now ≡ store.now.states }
    requires there { number < length store.now.states }
    ensures { OnOk result (IsRecordBehind (uncut checked.now.client ground.now store.now.states []) number out.old.items out.new.items) }
{
    let end = end_at(alloc, checked, ground, store, number)?;
    speller.put_record(ground.grain(), number, &end, out)?;
    Ok(())
}

// Puts the records of these states at the end, without their count.
fn put_records(
    alloc: Global,
    checked: &Checked,
    ground: &Ground,
    store: &Store<'_>,
    speller: &Speller<'_>,
    numbers: &[u32],
    out: &mut Vec<u8>,
) -> Result<(), AllocError>
    requires client { store.now.client ≡ checked.now.client }
    requires searched { AreSearched checked.now.client ground.now store.now.states }
    requires closed { IsGround checked.now.client ground.now }
    requires same { speller.now ≡ store.now.states }
    requires numbers { AreNumbers store.now.states numbers.now }
    ensures { OnOk result (AreSpelledBehind (uncut checked.now.client ground.now store.now.states numbers.now) (length numbers.now) out.old.items out.new.items) }
{
    for number in numbers {
        put_record(alloc, checked, ground, store, speller, *number, out)?;
    }
    Ok(())
}

// Puts the leaf of these states at the end.
fn put_leaf(
    alloc: Global,
    checked: &Checked,
    ground: &Ground,
    store: &Store<'_>,
    speller: &Speller<'_>,
    numbers: &[u32],
    out: &mut Vec<u8>,
) -> Result<(), AllocError>
    requires client { store.now.client ≡ checked.now.client }
    requires searched { AreSearched checked.now.client ground.now store.now.states }
    requires closed { IsGround checked.now.client ground.now }
    requires same { speller.now ≡ store.now.states }
    requires numbers { AreNumbers store.now.states numbers.now }
    requires few { length numbers.now ≤ 64 }
    ensures { OnOk result (IsSpelledBehind (uncut checked.now.client ground.now store.now.states numbers.now) out.old.items out.new.items) }
{
    out.push(0)?;
    write_number(numbers.len() as u64, out)?;
    put_records(alloc, checked, ground, store, speller, numbers, out)?;
    Ok(())
}

// Puts the tree of these states at the end, cut as `cutting` cuts it.
fn put_tree(
    alloc: Global,
    checked: &Checked,
    ground: &Ground,
    store: &Store<'_>,
    speller: &Speller<'_>,
    numbers: &[u32],
    out: &mut Vec<u8>,
) -> Result<(), AllocError>
    requires client { store.now.client ≡ checked.now.client }
    requires searched { AreSearched checked.now.client ground.now store.now.states }
    requires closed { IsGround checked.now.client ground.now }
    requires same { speller.now ≡ store.now.states }
    requires numbers { AreNumbers store.now.states numbers.now }
    requires rising { AreRising store.now.states numbers.now }
    ensures { OnOk result (IsSpelledBehind (uncut checked.now.client ground.now store.now.states numbers.now) out.old.items out.new.items) }
{
    if numbers.len() <= LEAF {
        put_leaf(alloc, checked, ground, store, speller, numbers, out)?;
        return Ok(());
    }
    let (low, high) = numbers.split_at(numbers.len() / 2);
    out.push(1)?;
    put_tree(alloc, checked, ground, store, speller, low, out)?;
    speller.put_state(high[0], out)?;
    put_tree(alloc, checked, ground, store, speller, high, out)?;
    Ok(())
}

// The spelling of the tree of these states, by one thread.
fn spelled(
    alloc: Global,
    checked: &Checked,
    ground: &Ground,
    store: &Store<'_>,
    speller: &Speller<'_>,
    numbers: &[u32],
) -> Result<Vec<u8>, AllocError>
    requires client { store.now.client ≡ checked.now.client }
    requires searched { AreSearched checked.now.client ground.now store.now.states }
    requires closed { IsGround checked.now.client ground.now }
    requires same { speller.now ≡ store.now.states }
    requires numbers { AreNumbers store.now.states numbers.now }
    requires rising { AreRising store.now.states numbers.now }
    ensures { IfOk result (λ bytes. IsSpelledCut (uncut checked.now.client ground.now store.now.states numbers.now) bytes.items) }
{
    let mut out = Vec::with_capacity(alloc, speller.room_for(numbers))?;
    put_tree(alloc, checked, ground, store, speller, numbers, &mut out)?;
    Ok(out)
}

// The spelling of a kept state.
fn state_bytes(alloc: Global, speller: &Speller<'_>, number: u32) -> Result<Vec<u8>, AllocError>
    requires { number < length speller.now }
    ensures { IfOk result (λ bytes. IsStateBehind speller.now number [] bytes.items) }
{
    let mut bytes = Vec::new(alloc);
    speller.put_state(number, &mut bytes)?;
    Ok(bytes)
}

/// States that are to be spelled.
#[derive(Clone, Copy)]
pub struct Unspelled<'a> {
    pub alloc: Global,
    pub checked: &'a Checked,
    pub ground: &'a Ground,
    pub store: &'a Store<'a>,
    pub speller: &'a Speller<'a>,
    pub numbers: &'a [u32],
}

impl<'a> Unspelled<'a> {
    /// The halves of what is more than a leaf.
    pub fn in_turn(&self) -> Option<(Self, Self)>
        requires ready { CanBeSpelled (numbers_of self.now) self.now.store.now.client self.now.speller.now }
        ensures { IfSome result (λ h. AreHalvesCut (numbers_of self.now) (numbers_of h.0) (numbers_of h.1) × CanBeSpelled (numbers_of h.0) h.0.store.now.client h.0.speller.now × CanBeSpelled (numbers_of h.1) h.1.store.now.client h.1.speller.now × (0 < length h.1.numbers.now)) }
    {
        let count = self.numbers.len();
        if count <= LEAF {
            return None;
        }
        let (low, high) = self.numbers.split_at(count / 2);
        let left = Unspelled {
            alloc: self.alloc,
            checked: self.checked,
            ground: self.ground,
            store: self.store,
            speller: self.speller,
            numbers: low,
        };
        let right = Unspelled {
            alloc: self.alloc,
            checked: self.checked,
            ground: self.ground,
            store: self.store,
            speller: self.speller,
            numbers: high,
        };
        Some((left, right))
    }

    /// The spelling of their tree, by one thread.
    ///
    /// Errors: where a growth was refused.
    pub fn spelled(&self) -> Result<Vec<u8>, AllocError>
        requires ready { CanBeSpelled (numbers_of self.now) self.now.store.now.client self.now.speller.now }
        ensures { IfOk result (λ bytes. IsSpelledCut (numbers_of self.now) bytes.items) }
    {
        let bytes = spelled(
            self.alloc,
            self.checked,
            self.ground,
            self.store,
            self.speller,
            self.numbers,
        )?;
        Ok(bytes)
    }

    /// The spelling of the first of these states.
    ///
    /// Errors: where a growth was refused.
    pub fn first(&self) -> Result<Vec<u8>, AllocError>
        requires ready { CanBeSpelled (numbers_of self.now) self.now.store.now.client self.now.speller.now }
        requires some { 0 < length self.now.numbers.now }
        ensures { IfOk result (λ bytes. IsStateBehind self.now.store.now.states (get_or self.now.numbers.now 0 0) [] bytes.items) }
    {
        let bytes = state_bytes(self.alloc, self.speller, self.numbers[0])?;
        Ok(bytes)
    }
}
