//! What a search remembers of where it has been.
ghost use Rattle.std.specs.Prelude.{◌≡◌, ◌↔◌, ◌⊎◌, ◌∷◌, OnOk, OnErr, IsTrue, Contains};
ghost use Rattle.std.specs.List.Sorted.{IsPermutation};

use std::alloc::AllocError;
use std::collections::HashSet;
use tso_list::{Exact, Seq};

/// What decides whether an order can be completed: for each candidate whether the order has it, how many items the queue
/// holds, and the first of them, as many as can still be taken.
#[derive(PartialEq, Eq, Hash, Drop)]
pub(crate) struct Key {
    pub(crate) taken: Seq<bool>,
    pub(crate) front: Seq<u64>,
    pub(crate) len: usize,
}

impl Exact for Key {
    ghost use Rattle.std.proofs.Common.{rules};
    ghost use Rattle.std.proofs.lemmas.Bool.Decides.{Decides-eqb};
    ghost use Rattle.tso_list.specs.Same.{same_three};
    ghost use lib.Pointwise.{pointwise_decides};

    ghost exact = { λ a b. same_three _ _ _ (pointwise_decides (λ x y. Prim.search rules) a.taken b.taken) (pointwise_decides Decides-eqb a.front b.front) (Decides-eqb a.len b.len)
        (λ p q r i. record { taken = p i; front = q i; len = r i }) (λ e i. (e i).taken) (λ e i. (e i).front) (λ e i. (e i).len) };
}

// The key is among these.
pub(crate) fn is_known(keys: &HashSet<Key>, key: &Key) -> bool
    ensures { IsTrue result ↔ Contains keys.now.keys key.now }
{
    keys.contains(key)
}

// Adds the key. Want of memory leaves the keys as they were.
pub(crate) fn remember(keys: &mut HashSet<Key>, key: Key) -> Result<(), AllocError>
    ensures added { OnOk result (Contains keys.new.keys key) }
    ensures others { OnOk result (IsPermutation (key ∷ keys.old.keys) keys.new.keys ⊎ (keys.new.keys ≡ keys.old.keys)) }
    ensures err { OnErr result (keys.new.keys ≡ keys.old.keys) }
{
    keys.insert(key)?;
    Ok(())
}
