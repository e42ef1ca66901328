//! Histories of calls: which call of which thread had returned when another one began.
#![tactic(auto)]

mod call;
mod exact;
mod history;
mod laws;

pub use call::Call;
pub use history::History;
pub use laws::{histories_tell, runs_are_in_turn};
