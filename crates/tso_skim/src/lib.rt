//! How far bytes are those of a certificate, told by their structure alone: without memory for what they say. So a check answers at once
//! where they are none, and who reads a file knows when to stop.
#![tactic(auto)]

mod dense;
mod end;
mod skip;
mod state;
mod tree;
mod whole;

pub use dense::is_dense;
pub use skip::{Skim, Stop};
pub use tree::{Halt, skip_tree};
pub use whole::{Skimmed, skim};
