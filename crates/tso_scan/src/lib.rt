//! Certificates read straight into a store: each part is told by its spelling, and no tree of records is made.
#![tactic(auto)]

mod front;
mod halves;
mod histories;
mod neighbours;
mod parts;
mod rows;
mod scanned;
mod scroll;
mod seams;
mod shape;
mod sources;
mod states;
mod trees;
mod whole;

pub use parts::put_together;
pub use scanned::{Scanned, scan, scan_with};
pub use seams::{forks_at, seam_in};
pub use shape::Shape;
