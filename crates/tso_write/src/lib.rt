//! What is written of a client's worked states: a certificate, straight from the store that has them, or the tree of their records.
#![tactic(auto)]

mod cutting;
mod enclosing;
mod ends;
mod helping;
mod laws;
mod line;
mod lone;
mod meanwhile;
mod ordering;
mod recorder;
mod slab;
mod speller;
mod spelling;
mod subject;
mod trees;
mod worked;
mod writing;

pub use enclosing::intervals_for;
pub use laws::has_tree;
pub use trees::tree_for;
pub use worked::Worked;
pub use writing::write;
