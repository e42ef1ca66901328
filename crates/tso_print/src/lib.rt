//! Clients as program texts.
#![tactic(auto)]

mod client;
mod instruction;
mod laws;
mod operand;
mod procedure;
mod words;

pub use client::print;
pub use laws::printed_is_read_back;
