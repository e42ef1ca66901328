//! Why a step is not taken.

ghost use Rattle.std.specs.Prelude.{◌≡◌};
ghost use Rattle.tso_compact.specs.declared.fault.StepError.TheVariants.{Memory};

use std::alloc::AllocError;
use thiserror::Error;

/// Why an actor's step is not taken.
#[derive(Debug, PartialEq, Eq, Drop, Error)]
pub enum StepError {
    /// The actor has no step.
    #[error("the actor has no step")]
    Disabled,
    /// A growth was refused.
    #[error("out of memory")]
    Memory,
}

impl From<AllocError> for StepError {
    ghost from_gives = { λ _ e. e ≡ Memory };

    fn from(_e: AllocError) -> StepError {
        StepError::Memory
    }
}
