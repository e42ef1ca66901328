//! What a search finds.

use tso_cert::Cert;
use tso_search::Ground;
use tso_trace::Trace;

/// What a search finds.
#[derive(Drop)]
pub enum Outcome {
    /// All runs of the client are good: by what the search went, and the tree of a valid certificate.
    Certificate(Ground, Cert),
    /// A run of the client that is not good.
    Trace(Trace),
    /// More states can be reached than the limit allows.
    LimitReached,
    /// A growth was refused.
    NoMemory,
}
