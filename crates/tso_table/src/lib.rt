//! A table of numbered states in shards, each to be kept in a lock of its own, with one budget for all.
#![tactic(auto)]

mod budget;
mod errors;
mod kept;
mod number;
mod rows;
mod same;
mod search;
mod settling;
mod shard;
mod slot;
mod table;

pub use budget::{ALLOTMENT, Budget};
pub use errors::{FinishError, InternError};
pub use kept::{Kept, number_of};
pub use number::{Number, SHARDS, shard_of};
pub use search::Search;
pub use settling::{open_all, settle};
pub use shard::{Rest, Shard};
pub use slot::{Filed, Near, Numbers, Slot};
pub use table::Table;
