//! Why a state is not kept.

ghost use Rattle.std.specs.Prelude.{◌≡◌};
ghost use Rattle.tso_parts.specs.declared.refused.Refused.{Refused as Reason};
ghost use Rattle.tso_store.specs.Sheets.{error_of};

use thiserror::Error;
use tso_parts::Refused;

/// Why a state is not kept.
#[derive(Clone, Copy, Debug, PartialEq, Eq, Error)]
pub enum AddError {
    /// The state has not as many threads, or not as many lists of calls, as the client has threads.
    #[error("the state has other threads than the client")]
    Misfit,
    /// A growth was refused.
    #[error("out of memory")]
    Memory,
    /// There are as many states, or as many parts of one kind, as there are numbers.
    #[error("as many states as there are numbers")]
    Full,
}

impl From<Refused> for AddError {
    ghost from_gives = { λ refused error. error ≡ error_of refused };

    fn from(refused: Refused) -> Self {
        match refused {
            Refused::Memory => AddError::Memory,
            Refused::Full => AddError::Full,
        }
    }
}
