//! Numbered states whose parts are kept once. Contracts see a client and the list of its states, plain values, all different.
#![tactic(auto)]

mod arrived;
mod begun;
mod fault;
mod gathered;
mod history_after;
mod known;
mod lone;
mod lookup;
mod moved;
mod numbered;
mod rising;
mod sought;
mod stepped;
mod thread_after;

pub use fault::AddError;
pub use gathered::Gathered;
pub use lone::Lone;
pub use numbered::Store;
pub use rising::Rising;
pub use sought::Found;
pub use tso_parts::Refused;
