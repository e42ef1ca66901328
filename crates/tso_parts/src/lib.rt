//! Values that are kept once, by number.
#![tactic(auto)]

mod catalog;
mod like;
mod mark;
mod pool;
mod refused;
mod repeated;
mod seeded;
mod spliced;
mod taking;

pub use catalog::Catalog;
pub use like::Like;
pub use pool::Pool;
pub use refused::{LIMIT, Refused};
pub use repeated::Repeated;
pub use seeded::Seeded;
pub use spliced::Spliced;
