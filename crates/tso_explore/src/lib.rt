//! The search of a client's states: a certificate that all runs are good, or the trace of one that is not.
#![tactic(auto)]

mod closing;
mod ended;
mod exploring;
mod finding;
mod first;
mod grounds;
mod merging;
mod outcome;

pub use exploring::{explore, find};
pub use finding::Finding;
pub use outcome::Outcome;
