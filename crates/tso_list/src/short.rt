//! A list whose first `N` items lie in the value itself, over the kit's `smallvec`.

ghost use Rattle.std.specs.Prelude.{◌≡◌, ℕ, ◌+◌, ◌<◌, ◌≤◌, [], ◌∷◌, ◌++◌, length, IfOk, OnOk, OnErr, IsOk, slice_get, ◌==◌, true};
ghost use Rattle.std.specs.List.{AllZip};
ghost use Rattle.std.specs.Option.{option_copied};
ghost use Rattle.std.specs.Cmp.{on_equiv, on_total, on_po, on_per};
ghost use Rattle.std.specs.Cmp.Lexicographic.{pointwise, slice_cmp, slice_partial_cmp, lists_per, lists_equiv, lists_po, lists_total, lists_agrees, lists_ties};
ghost use Rattle.std.specs.Hash as fed;
ghost use Rattle.std.specs.Hash.{on_Alike, items_Alike};
ghost use Rattle.tso_list.specs.Same.{IsExact};
ghost use lib.Pointwise.{pointwise_decides};

use crate::Exact;
use smallvec::SmallVec;
use std::alloc::{AllocError, Global};
use std::cmp::Ordering;
use std::default::MadeWith;
use std::fmt;
use std::hash::{Hash, Hasher};
use std::marker::Model;

/// A list. Up to `N` items lie in the value itself; more take an allocation. Two are equal where their items are.
#[derive(Drop)]
pub struct Short<T, const N: usize> {
    items: SmallVec<T, N>,
}

impl<T, const N: usize> Model for Short<T, N> {
    ghost use Rattle.std.specs.Prelude.{List};

    ghost Value = { List T };

    ghost view = { λ s. s.items.items };
}

impl<T, const N: usize> Short<T, N> {
    /// How many items there are.
    pub fn len(&self) -> usize
        ensures { result ≡ length self.now }
    {
        self.items.len()
    }

    /// Whether there are no items.
    pub fn is_empty(&self) -> bool
        ensures { result ≡ (length self.now == 0) }
    {
        self.items.is_empty()
    }

    /// The items.
    pub fn as_slice(&self) -> &[T]
        ensures { result.now ≡ self.now }
    {
        self.items.as_slice()
    }

    /// The item at `index`, if there are so many.
    pub fn get(&self, index: usize) -> Option<&T>
        ensures { option_copied result ≡ slice_get self.now index }
    {
        self.items.as_slice().get(index)
    }
}

impl<T: MadeWith<Global> + Drop, const N: usize> Short<T, N> {
    /// An empty list.
    pub fn new(alloc: Global) -> Self
        ensures { result ≡ [] }
    {
        Short {
            items: SmallVec::new(alloc),
        }
    }

    /// Adds an item at the end. Want of memory leaves the list as it was.
    pub fn push(&mut self, item: T) -> Result<(), AllocError>
        ensures ok { OnOk result (self.new ≡ self.old ++ item ∷ []) }
        ensures err { OnErr result (self.new ≡ self.old) }
    {
        self.items.push(item)?;
        Ok(())
    }
}

impl<T: MadeWith<Global> + Copy + Drop, const N: usize> Short<T, N> {
    /// The list of these items. More than `N` of them take memory, fewer none.
    pub fn from_slice(alloc: Global, items: &[T]) -> Result<Self, AllocError>
        ensures ok { IfOk result (λ s. s ≡ items.now) }
        ensures succeeds { length items.now ≤ N → IsOk result }
    {
        let items = SmallVec::from_slice(alloc, items)?;
        Ok(Short { items })
    }
}

impl<T: MadeWith<Global> + Clone, const N: usize> Clone for Short<T, N> {
    ghost is_clone = { λ v w. AllZip T.is_clone v w };

    fn clone(&self) -> Result<Self, AllocError> {
        let items = self.items.clone()?;
        Ok(Short { items })
    }
}

impl<T: PartialEq, const N: usize> PartialEq for Short<T, N> {
    ghost eq = { λ v w. pointwise T.eq v w };

    ghost laws = { lists_per T.laws };

    fn eq(&self, other: &Self) -> bool {
        self.as_slice() == other.as_slice()
    }
}

impl<T: Eq, const N: usize> Eq for Short<T, N> {
    ghost laws = { lists_equiv T.Eq.laws };
}

impl<T: Exact, const N: usize> Exact for Short<T, N> {
    ghost exact = { pointwise_decides T.exact };
}

impl<T: PartialOrd, const N: usize> PartialOrd for Short<T, N> {
    ghost partial_cmp = { λ v w. slice_partial_cmp T.partial_cmp v w };

    ghost laws = { lists_po T.PartialOrd.laws };

    fn partial_cmp(&self, other: &Self) -> Option<Ordering> {
        self.as_slice().partial_cmp(&other.as_slice())
    }
}

impl<T: Ord, const N: usize> Ord for Short<T, N> {
    ghost cmp = { λ v w. slice_cmp T.cmp v w };

    ghost total = { lists_total T.total };

    ghost matches_partial_cmp = { λ v w. lists_agrees T.matches_partial_cmp v w };

    ghost matches_eq = { λ v w. lists_ties T.cmp T.matches_eq v w };

    fn cmp(&self, other: &Self) -> Ordering {
        self.as_slice().cmp(&other.as_slice())
    }
}

impl<T: Hash, const N: usize> Hash for Short<T, N> {
    ghost hash_input = { λ v. fed.slice T.hash_input v };

    ghost respects_eq = { (items_Alike (record { fed = T.respects_eq })).fed };

    fn hash<H: Hasher>(&self, state: &mut H) {
        self.as_slice().hash(state);
    }
}

impl<T: fmt::Debug, const N: usize> fmt::Debug for Short<T, N> {
    fn fmt<W: fmt::Write>(&self, f: &mut fmt::Formatter<W>) -> fmt::Result {
        f.debug_list().entries(self.as_slice()).finish()
    }
}
