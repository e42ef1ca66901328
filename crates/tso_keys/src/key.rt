//! The numbers of a state's parts.

ghost use Rattle.std.specs.Prelude.{◌≡◌, ◌+◌, ◌*◌};
ghost use Rattle.std.specs.List.{fold};
ghost use Rattle.tso_keys.specs.Marks.{pair, pairs};

use std::hash::{Hash, Hasher};
use tso_list::Exact;

/// So many threads a kept state has at most: four, and the prologue's.
pub const WIDTH: usize = 5;

/// The number that stands where there is no thread.
pub const NONE: u32 = 4294967295;

/// The numbers of a state's memory, of its history, and of its threads.
#[derive(Clone, Copy, PartialEq, Eq, PartialOrd, Ord)]
pub struct Key {
    pub memory: u32,
    pub history: u32,
    pub threads: [u32; 5],
}

/// The numbers of nothing.
pub const NO_KEY: Key = Key {
    memory: NONE,
    history: NONE,
    threads: [NONE; 5],
};

impl Exact for Key {
    ghost use Rattle.std.proofs.lemmas.Bool.Decides.{Decides-eqb};
    ghost use Rattle.tso_list.specs.Same.{same_three};
    ghost use lib.Pointwise.{pointwise_decides};

    ghost exact = { λ a b. same_three _ _ _ (Decides-eqb a.memory b.memory) (Decides-eqb a.history b.history) (pointwise_decides Decides-eqb a.threads b.threads)
        (λ p q r i. record { memory = p i; history = q i; threads = r i }) (λ e i. (e i).memory) (λ e i. (e i).history) (λ e i. (e i).threads) };
}

// Two numbers as one.
fn pair(first: u32, second: u32) -> u64
    ensures { result ≡ pair first second }
{
    first as u64 * 4294967296 + second as u64
}

// Feeds the hasher with two numbers at a time.
fn feed_pairs<H: Hasher>(numbers: &[u32], state: &mut H)
    ensures { state.new ≡ fold H.write state.old (pairs numbers.now) }
{
    match numbers {
        [] => {}
        [last] => state.write_u32(*last),
        [first, second, rest @ ..] => {
            state.write_u64(pair(*first, *second));
            feed_pairs(rest, state);
        }
    }
}

// It is fed by pairs of numbers, in half as many writes.
impl Hash for Key {
    ghost use Rattle.std.proofs.lemmas.Bool.Decides.{Decides-eqb};
    ghost use Rattle.std.specs.Hash.{same_Alike};
    ghost use Rattle.tso_list.specs.Same.{same_three};
    ghost use Rattle.tso_keys.specs.Marks.{key_writes};
    ghost use lib.Pointwise.{pointwise_decides};

    ghost hash_input = { key_writes };

    ghost respects_eq = { (same_Alike key_writes (λ a b. same_three _ _ _ (Decides-eqb a.memory b.memory) (Decides-eqb a.history b.history) (pointwise_decides Decides-eqb a.threads b.threads)
        (λ p q r i. record { memory = p i; history = q i; threads = r i }) (λ e i. (e i).memory) (λ e i. (e i).history) (λ e i. (e i).threads))).fed };

    fn hash<H: Hasher>(&self, state: &mut H) {
        state.write_u64(pair(self.memory, self.history));
        feed_pairs(self.threads.as_slice(), state);
    }
}
