//! Why a search stops before its end.

use std::alloc::AllocError;

/// Why a search stops before its end.
#[derive(Clone, Copy, PartialEq, Eq)]
pub enum Stop {
    /// The state with this number is the end of a run that is not good.
    Violation(u32),
    /// There is one more state than the limit allows.
    Limit,
    /// A growth was refused.
    Memory,
}

impl From<AllocError> for Stop {
    ghost use Rattle.std.specs.Prelude.{◌≡◌};
    ghost use Rattle.tso_search.specs.declared.stop.Stop.TheVariants as stops;

    ghost from_gives = { λ _ stop. stop ≡ stops.Memory };

    fn from(_e: AllocError) -> Stop {
        Stop::Memory
    }
}
