//! Surveys of a queue: which clients there are up to a size, which of them are decided, and what that says of the others.
#![tactic(auto)]

mod accepted;
mod beginning;
mod bounds;
mod calls;
mod cases;
mod decided;
mod finding;
mod method;
mod plan;
mod shape;
mod shown;
mod surveying;
mod tally;
mod undecided;
mod words;

pub use accepted::Accepted;
pub use bounds::Bounds;
pub use calls::Calls;
pub use decided::Decided;
pub use finding::{Finder, Finding};
pub use shown::{LineShown, Shown};
pub use surveying::{Conclusion, lines_of, listed, survey};
pub use tally::Violated;
pub use undecided::{Undecided, Why};
pub use words::{Asking, COLLECTED, Part, asking_arguments, asking_of};
