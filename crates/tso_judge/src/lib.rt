//! The conditions of a certificate's records, the first that one fails, and what numbers the states of a client have.
#![tactic(auto)]

mod code;
mod crossings;
mod ends;
mod judging;
mod laws;
mod reasons;
mod successors;
mod whole;

pub use code::Code;
pub use crossings::is_met_from;
pub use ends::{has_no_stopped, is_over};
pub use judging::judge_alone;
pub use laws::{certificates_fit, states_fit, words_stay};
pub use whole::{Whole, least_table};
