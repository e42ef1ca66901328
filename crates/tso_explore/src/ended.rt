//! How the search of a store's states ended.

use tso_trace::Trace;

/// Why a search stopped early.
#[derive(Drop)]
pub enum Stopped {
    /// A run of the client is not good: its trace.
    Trace(Trace),
    /// More states can be reached than the limit allows.
    LimitReached,
}

/// How the search of a store's states ended.
#[derive(Drop)]
pub enum Ended {
    /// All of them are worked.
    Worked,
    /// It stopped early, for this.
    Early(Stopped),
}
