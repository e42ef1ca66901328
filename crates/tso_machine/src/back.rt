//! The way back.

use crate::change::ChangeBack;

/// What brings a machine back by one step.
#[derive(PartialEq, Eq, Drop)]
pub struct Undo {
    pub thread: usize,
    /// The place that was written, and the word that was there.
    pub memory: Option<(usize, u64)>,
    /// Who held the lock.
    pub lock: Option<usize>,
    pub back: ChangeBack,
}
