//! Why a case is not found as it is said.

ghost use Rattle.std.specs.Prelude.{◌≡◌, true, false, OnErr, OnOk};

use std::alloc::{AllocError, AllocFailed};
use tso_compact::StepError;
use tso_machine::ApplyError;
use tso_store::{AddError, Refused};

/// Why a call is not made, or not made to its end.
#[derive(Clone, Copy, PartialEq, Eq)]
pub enum Failure {
    /// A growth was refused.
    Memory,
    /// Two answers that should agree do not, or a step, a choice or a state that should be there is not.
    Difference,
    /// The text of the case, or a file that it names, cannot be read.
    Unreadable,
}

impl From<AllocError> for Failure {
    fn from(_error: AllocError) -> Self {
        Failure::Memory
    }
}

impl<T: Drop> From<AllocFailed<T>> for Failure {
    fn from(_error: AllocFailed<T>) -> Self {
        Failure::Memory
    }
}

impl From<StepError> for Failure {
    fn from(error: StepError) -> Self {
        match error {
            StepError::Memory => Failure::Memory,
            StepError::Disabled => Failure::Difference,
        }
    }
}

impl From<ApplyError> for Failure {
    fn from(error: ApplyError) -> Self {
        match error {
            ApplyError::Memory => Failure::Memory,
            ApplyError::NotAStep => Failure::Difference,
        }
    }
}

impl From<AddError> for Failure {
    fn from(error: AddError) -> Self {
        match error {
            AddError::Memory => Failure::Memory,
            AddError::Misfit | AddError::Full => Failure::Difference,
        }
    }
}

impl From<Refused> for Failure {
    fn from(refused: Refused) -> Self {
        match refused {
            Refused::Memory => Failure::Memory,
            Refused::Full => Failure::Difference,
        }
    }
}

/// An error where this does not hold.
pub fn ensure(holds: bool) -> Result<(), Failure>
    ensures ok { OnOk result (holds ≡ true) }
    ensures err { OnErr result (holds ≡ false) }
{
    if holds {
        Ok(())
    } else {
        Err(Failure::Difference)
    }
}
