//! Which fences and locked instructions the clients of a queue need, and which fences would make a wrong one right.
#![tactic(auto)]

mod changes;
mod clients;
mod deciding;
mod fencing;
mod lines;
mod plain;
mod ruling;
mod saying;
mod sets;
mod sites;
mod tally;
mod trials;
mod unread;
mod words;

pub use fencing::{Fenced, Wrong, fences};
pub use words::{Fences, fences_arguments, fences_of};
