//! Parts that records share.
ghost use Rattle.std.specs.Cmp.Lexicographic.{slice_cmp};
ghost use Rattle.std.specs.Prelude.{◌≡◌, ◌≤◌, ◌++◌, IfOk, length, OnOk};
ghost use Rattle.tso_code.specs.Fields.{list};
ghost use Rattle.tso_rec.specs.Parts.{CopiesAre, differing};

use std::alloc::{AllocError, Global};
use std::cmp::Ordering;
use std::marker::Model;
use std::sync::Arc;
use tso_code::{Code, write_number};
use tso_list::{Exact, Seq};

// A value with its spelling.
#[derive(Drop)]
struct Held<T: Code> {
    value: T,
    spelled: Seq<u8>,
    ghost is_spelled: { spelled ≡ T.spell value },
}

impl<T: Code> Held<T> {
    // The value, with its spelling.
    fn new(alloc: Global, value: T) -> Result<Held<T>, AllocError>
        ensures { IfOk result (λ h. h.value ≡ value) }
    {
        let mut bytes = Vec::new(alloc);
        value.write(&mut bytes)?;
        let spelled = Seq::from_slice(alloc, bytes.as_slice())?;
        Ok(Held { value, spelled })
    }
}

/// A value that is held in several places and lies in memory once, beside its spelling. Contracts see the value.
#[derive(Drop)]
pub struct Shared<T: Code> {
    held: Arc<Held<T>>,
}

impl<T: Code> Model for Shared<T> {
    ghost Value = { T };

    ghost view = { λ s. s.held.value.value };
}

impl<T: Code> Shared<T> {
    /// A value that is held once.
    pub fn new(alloc: Global, value: T) -> Result<Shared<T>, AllocError>
        ensures { IfOk result (λ s. s ≡ value) }
    {
        let held = Held::new(alloc, value)?;
        let held = Arc::new(alloc, held)?;
        Ok(Shared { held })
    }

    /// The value.
    pub fn get(&self) -> &T
        ensures { result.now ≡ self.now }
    {
        &self.held.value
    }

    /// Its spelling, which is not made anew.
    pub fn spelled(&self) -> &[u8]
        ensures { result.now ≡ T.spell self.now }
    {
        self.held.spelled.as_slice()
    }

    /// Puts its spelling at the end.
    pub fn write(&self, out: &mut Vec<u8>) -> Result<(), AllocError>
        ensures { OnOk result (out.new.items ≡ out.old.items ++ T.spell self.now) }
    {
        out.extend_from_slice(self.spelled())?;
        Ok(())
    }

    /// The same value, held once more.
    pub fn again(&self) -> Result<Shared<T>, AllocError>
        ensures { IfOk result (λ s. s ≡ self.now) }
    {
        let held = self.held.clone()?;
        Ok(Shared { held })
    }
}

/// What may be shared: its copies and its `==` are exact, and it is spelled.
pub trait Part: Exact + Clone + Code {
    ghost copied: { CopiesAre Self.is_clone };
}

impl Part for u64 {
    ghost use Rattle.std.proofs.Common.{rules};

    ghost copied = { λ x y c. Prim.search rules };
}

impl<T: Part> Part for Seq<T> {
    ghost use Rattle.tso_rec.specs.Parts.{zipped};

    ghost copied = { zipped T.copied };
}

/// The part, shared with the same part of the record before.
pub fn keep<T: Part>(
    alloc: Global,
    before: Option<&Shared<T>>,
    part: &T,
) -> Result<Shared<T>, AllocError>
    ensures { IfOk result (λ s. s ≡ part.now) }
{
    if let Some(shared) = before {
        if shared.get() == part {
            return shared.again();
        }
    }
    let copy = part.clone()?;
    Shared::new(alloc, copy)
}

/// The parts, each shared with the one at its place in the record before where they are the same.
pub fn keep_all<T: Part>(
    alloc: Global,
    before: &[Shared<T>],
    parts: &[T],
) -> Result<Seq<Shared<T>>, AllocError>
    ensures { IfOk result (λ kept. kept ≡ parts.now) }
{
    let mut kept = Seq::new(alloc);
    for (i, part) in parts.iter().enumerate() {
        let shared = keep(alloc, before.get(i), part)?;
        kept.push(shared)?;
    }
    Ok(kept)
}

/// The parts, each copied.
pub fn copy_all<T: Part>(alloc: Global, parts: &[Shared<T>]) -> Result<Seq<T>, AllocError>
    ensures { IfOk result (λ copies. copies ≡ parts.now) }
{
    let mut copies = Seq::new(alloc);
    for part in parts {
        let copy = copy_of(part.get())?;
        copies.push(copy)?;
    }
    Ok(copies)
}

/// A copy of a part.
pub fn copy_of<T: Part>(part: &T) -> Result<T, AllocError>
    ensures { IfOk result (λ copy. copy ≡ part.now) }
{
    part.clone()
}

/// How the parts are ordered against other values, as lists are.
pub fn compare_all<T: Ord + Code>(parts: &[Shared<T>], values: &[T]) -> Ordering
    ensures { result ≡ slice_cmp T.cmp parts.now values.now }
{
    for i in 0..parts.len().min(values.len()) {
        let order = parts[i].get().cmp(&values[i]);
        if order != Ordering::Equal {
            return order;
        }
    }
    parts.len().cmp(&values.len())
}

/// How many parts differ from those at the same places.
pub fn differing<T: PartialEq + Code>(before: &[Shared<T>], parts: &[Shared<T>]) -> usize
    ensures count { result ≡ differing T.eq before.now parts.now }
    ensures bound { result ≤ length parts.now }
{
    let mut count = 0;
    for i in 0..before.len().min(parts.len()) {
        if before[i].get() != parts[i].get() {
            count += 1;
        }
    }
    count
}

/// Puts the count of the parts and then the parts at the end.
pub fn write_all<T: Code>(parts: &[Shared<T>], out: &mut Vec<u8>) -> Result<(), AllocError>
    ensures { OnOk result (out.new.items ≡ out.old.items ++ list T.spell parts.now) }
{
    write_number(parts.len() as u64, out)?;
    for part in parts {
        part.write(out)?;
    }
    Ok(())
}
