//! Moves of states, and free actors: what certificates of crossings are made of.
//!
//! A call begins as late as it can: an idle thread's move begins its next call, goes through the opening of the call, which touches no memory
//! but places that no other thread writes, and takes the step that the opening stops before. An actor is free if its move may come before
//! all that other threads do: where one is free, no other need be followed.
#![tactic(auto)]

mod free;
mod laws;
mod moves;
mod openings;
mod own;
mod parts;
mod runs;

pub use free::{is_free, lowest_free, lowest_of};
pub use laws::{crossed_runs_are_good, free_is_the_models, initial_is_apart, moves_cost};
pub use moves::late_move;
pub use openings::{Sight, opening};
pub use own::Own;
pub use parts::{MoveKind, begun_call, move_kind, opened_frame};
pub use runs::arrive;
