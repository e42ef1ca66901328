//! The search of a client's states by one worker: by breadth, by hunts for a violation, and the short trace of what is found.
#![tactic(auto)]

mod ending;
mod following;
mod ground;
mod hunting;
mod judging;
mod leaving;
mod lessening;
mod looking;
mod marks;
mod narrowing;
mod origin;
mod searching;
mod shortening;
mod shortest;
mod starting;
mod stop;
mod track;
mod trail;
mod way;

pub use ending::is_good;
pub use ground::Ground;
pub use hunting::hunt;
pub use judging::{Judged, is_new_good};
pub use looking::{chosen_at, to_follow};
pub use marks::Marks;
pub use origin::Origin;
pub use searching::search;
pub use shortening::shortened;
pub use starting::{at_initial, is_first_good, started};
pub use stop::Stop;
pub use track::Way;
pub use way::trace_to;
