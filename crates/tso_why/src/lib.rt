//! The calls of a run in time, and why they have no order, in so far as that is said in a sentence.
#![tactic(auto)]

mod call;
mod why;
mod words;

pub use call::{Returned, TimedCall, calls_in};
pub use why::{Cause, cause_of, end_of};
pub use words::{Answered, Asked};
