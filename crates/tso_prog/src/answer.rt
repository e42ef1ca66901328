//! What a call answers.

/// The answer of a call.
#[derive(Clone, Copy, Debug, PartialEq, Eq, PartialOrd, Ord, Hash)]
pub enum Answer {
    /// The push found no room, or the pop found no value.
    Refused,
    /// The push put its argument into the queue.
    Done,
    /// The pop took this word from the queue.
    Value(u64),
}
