//! Refusals.

use thiserror::Error;

/// Why a state is given no number.
#[derive(Clone, Copy, Debug, PartialEq, Eq, Error)]
pub enum InternError {
    /// The state is not there, and no unit is left.
    #[error("no state more is allowed")]
    Full,
    /// A growth was refused, or there is no number left for an entry of the log.
    #[error("out of memory")]
    Memory,
}

/// Why an end is not filed.
#[derive(Clone, Copy, Debug, PartialEq, Eq, Error)]
pub enum FinishError {
    /// The state is not the number's, or is not claimed, or a successor of the same shard is not where its number says.
    #[error("the state is not ready for its end")]
    NotReady,
    /// There is no number left for an entry of the log.
    #[error("no entry more can be counted")]
    Memory,
}
