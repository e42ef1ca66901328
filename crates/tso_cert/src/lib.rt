//! Certificates: trees of records, their one spelling as bytes, and which states a tree has.
#![tactic(auto)]

mod cert;
mod decoding;
mod encoding;
mod fault;
mod intervals;
mod lookup;
mod task;
mod workers;

pub use cert::Cert;
pub use decoding::{decode, magic, read_front, read_tree};
pub use encoding::{encode, encode_before, front_of, write};
pub use fault::{DecodeError, Fault, WriteError};
pub use intervals::{build_intervals, intervals_of, take_state};
pub use task::{ALONE, Task, run_by};
pub use workers::{NoWatch, Watch, Workers};
