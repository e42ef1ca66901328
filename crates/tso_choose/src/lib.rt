//! Choices: which enabled actors of a state have to be followed, and why no other has.
#![tactic(auto)]

mod choice;
mod choosing;
mod closure;
mod laws;
mod making;
mod needs;
mod set;

pub use choice::{Choice, Choices};
pub use choosing::chosen;
pub use laws::{choices_are_determined, chosen_are_valid, valid_choices_are_persistent};
pub use making::choose;
pub use needs::is_apart;
pub use set::{actor_at, has_bit};
