//! What a search found, before anything of it is written.

use tso_trace::Trace;
use tso_write::Worked;

/// What a search found.
#[derive(Drop)]
pub enum Finding<'c> {
    /// All runs of the client are good: each state is worked.
    Worked(Worked<'c>),
    /// A run of the client that is not good.
    Trace(Trace),
    /// More states can be reached than the limit allows.
    LimitReached,
    /// A growth was refused.
    NoMemory,
}
