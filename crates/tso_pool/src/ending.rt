//! How a worker ends.

use std::alloc::AllocError;
use tso_table::Kept;

/// How a worker ends.
#[derive(Drop)]
pub enum Ending {
    /// Nothing was left to do, or another worker noted its end.
    Quiet,
    /// A shard, the budget or a successor was not where its number says. No run is known to meet that, and of what was searched
    /// nothing follows.
    Astray,
    /// A run to this state is not good: no actor has a step there, and a fault has stopped a thread or no order explains the
    /// calls.
    Violation(Kept),
    /// No unit was left for this state, which was met.
    Full(Kept),
    /// A growth was refused.
    Memory,
}

impl From<AllocError> for Ending {
    ghost use Rattle.std.specs.Prelude.{◌≡◌};
    ghost use Rattle.tso_pool.specs.declared.ending.Ending.TheVariants as endings;

    ghost from_gives = { λ _ ending. ending ≡ endings.Memory };

    fn from(_e: AllocError) -> Ending {
        Ending::Memory
    }
}
