//! Why a region is worked no further.

use std::alloc::AllocError;
use tso_parts::Refused;

/// Why a region is worked no further.
#[derive(Clone, Copy, PartialEq, Eq)]
pub enum Halt {
    /// A state was met to which a run leads that is not good.
    Violation,
    /// A growth was refused.
    Memory,
    /// There are as many states, or parts of a kind, as numbers.
    Full,
}

impl From<AllocError> for Halt {
    fn from(_e: AllocError) -> Halt {
        Halt::Memory
    }
}

impl From<Refused> for Halt {
    fn from(reason: Refused) -> Halt {
        match reason {
            Refused::Memory => Halt::Memory,
            Refused::Full => Halt::Full,
        }
    }
}
