//! Lists of bytes, one behind another.

ghost use Rattle.std.specs.Prelude.{◌≡◌, ℕ, ◌+◌, ◌-◌, ◌≤◌, ◌<◌, ◌++◌, ◌∷◌, List, [], length, take, drop, Some, true, false, IfOk, OnErr, OnOk, MatchBool, MatchOption, slice_get, slice_index, slice_range};
ghost use Rattle.tso_list.specs.Cuts.{IsLonger, start_at};

use std::alloc::{AllocError, Global};
use std::marker::Model;

/// Lists of bytes, one behind another in one block: so none takes a block of its own, and all are let go at once.
/// Contracts see the list of lists.
#[derive(Drop)]
pub struct Paths {
    bytes: Vec<u8>,
    ends: Vec<usize>,
}

impl Model for Paths {
    ghost use Rattle.std.specs.Prelude.{ℕ, List, length};
    ghost use Rattle.tso_list.specs.Cuts.{cut, IsRising};

    ghost Value = { List (List ℕ) };

    ghost view = { λ p. cut 0 p.ends.items p.bytes.items };

    ghost invariant = { λ p. IsRising 0 p.ends.items (length p.bytes.items) };
}

// Where a list starts.
fn start_of(ends: &[usize], number: usize) -> usize
    requires { number ≤ length ends.now }
    ensures { result ≡ start_at 0 ends.now number }
{
    if number == 0 {
        return 0;
    }
    ends[number - 1]
}

// Copies the bytes between two places to those from `at` on.
fn copy_on(bytes: &mut [u8], start: usize, end: usize, at: usize)
    requires rising { start ≤ end }
    requires within { end ≤ at }
    requires room { at + (end - start) ≤ length bytes.old }
    ensures { bytes.new ≡ take at bytes.old ++ (slice_range bytes.old start end ++ drop (at + (end - start)) bytes.old) }
{
    let (kept, fresh) = bytes.split_at_mut(at);
    fresh[..end - start].copy_from_slice(&kept[start..end]);
}

// Copies the bytes between two places to the end, and puts one more behind them. Where a growth was refused they stay.
fn copy_to_end(bytes: &mut Vec<u8>, start: usize, end: usize, last: u8) -> Result<(), AllocError>
    requires rising { start ≤ end }
    requires within { end ≤ length bytes.old.items }
    ensures ok { OnOk result (bytes.new.items ≡ bytes.old.items ++ (slice_range bytes.old.items start end ++ last ∷ [])) }
    ensures err { OnErr result (bytes.new.items ≡ bytes.old.items) }
{
    let at = bytes.len();
    bytes.resize(at + (end - start) + 1, last)?;
    copy_on(bytes.as_mut_slice(), start, end, at);
    Ok(())
}

impl Paths {
    /// No lists.
    pub fn new(alloc: Global) -> Self
        ensures { result ≡ [] }
    {
        Paths {
            bytes: Vec::new(alloc),
            ends: Vec::new(alloc),
        }
    }

    /// How many lists there are.
    pub fn len(&self) -> usize
        ensures { result ≡ length self.now }
    {
        self.ends.len()
    }

    /// The list with this number, if there are so many. Nothing is copied.
    pub fn get(&self, number: usize) -> Option<&[u8]>
        ensures { MatchOption result (length self.now ≤ number) (λ list. slice_get self.now number ≡ Some list.now) }
    {
        if number >= self.ends.len() {
            return None;
        }
        let start = start_of(&self.ends, number);
        let end = self.ends[number];
        Some(&self.bytes[start..end])
    }

    /// Adds a list at the end.
    ///
    /// Errors: where a growth was refused. The lists stay.
    pub fn push(&mut self, list: &[u8]) -> Result<(), AllocError>
        ensures ok { OnOk result (self.new ≡ self.old ++ list.now ∷ []) }
        ensures err { OnErr result (self.new ≡ self.old) }
    {
        self.ends.reserve(1)?;
        self.bytes.extend_from_slice(list)?;
        self.ends.push_reserved(self.bytes.len());
        Ok(())
    }

    /// Adds the list with this number once more, with a byte behind it. False, and no change, where there is no such list.
    ///
    /// Errors: where a growth was refused. The lists stay.
    pub fn push_longer(&mut self, number: usize, last: u8) -> Result<bool, AllocError>
        ensures ok { IfOk result (λ there. MatchBool there (IsLonger self.old number last self.new) ((length self.old ≤ number) × (self.new ≡ self.old))) }
        ensures err { OnErr result (self.new ≡ self.old) }
    {
        if number >= self.ends.len() {
            return Ok(false);
        }
        let start = start_of(&self.ends, number);
        let end = self.ends[number];
        self.ends.reserve(1)?;
        copy_to_end(&mut self.bytes, start, end, last)?;
        self.ends.push_reserved(self.bytes.len());
        Ok(true)
    }

    /// Takes the last list away. False where there was none.
    pub fn pop(&mut self) -> bool
        ensures taken { MatchBool result (0 < length self.old) (self.old ≡ []) }
        ensures rest { self.new ≡ take (length self.old - 1) self.old }
    {
        if self.ends.pop().is_none() {
            return false;
        }
        let end = start_of(&self.ends, self.ends.len());
        self.bytes.truncate(end);
        true
    }
}
