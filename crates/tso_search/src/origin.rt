//! Where a state was first met from.

use tso_list::Exact;
use tso_state::Actor;

/// The number of the state that another was first met from, and the actor whose step leads there.
#[derive(Clone, Copy, PartialEq, Eq)]
pub struct Origin {
    pub from: u32,
    pub actor: Actor,
}
