//! Why there is no answer.

ghost use Rattle.std.specs.Prelude.{◌≡◌};
ghost use Rattle.tso_client.specs.declared.error.CheckError.TheVariants as errors;

use std::alloc::AllocError;
use tso_prog::Fault;

/// Why nothing is said of a program text, or of a certificate for it.
#[derive(Clone, Copy, PartialEq, Eq)]
pub enum CheckError {
    /// The program text is refused.
    Program(Fault),
    /// A growth was refused.
    Memory,
}

impl From<AllocError> for CheckError {
    ghost from_gives = { λ _ e. e ≡ errors.Memory };

    fn from(_e: AllocError) -> CheckError {
        CheckError::Memory
    }
}
