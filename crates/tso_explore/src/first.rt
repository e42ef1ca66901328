//! What the first states tell.

use crate::ended::Stopped;
use crate::finding::Finding;

/// What the first states of a search tell, and hunts where it is not over then.
#[derive(Drop)]
pub enum First {
    /// Why the search stopped.
    Stopped(Stopped),
    /// The search goes on from the state with this number, if there is one.
    GoesOn(u32),
}

/// What several workers find soon.
#[derive(Drop)]
pub enum Soon<'c> {
    /// This.
    Found(Finding<'c>),
    /// The first states are all that there are: these are to be searched by all.
    Few,
    /// Nothing: one worker searches alone.
    Unknown,
}
