//! The lines of a program's text: as they are shown, where in one a fault stands, what is said of one that compilers write, and how
//! that one is written here.
#![tactic(auto)]

mod fields;
mod hints;
mod narrow;
mod place;
mod respelling;
mod rewriting;
mod source;
mod suspect;

pub use fields::{Wanted, constant_access, field, number_of};
pub use hints::{is_step, name_of, of_name, of_shape, of_word, warning};
pub use place::{Place, place_of_fault, place_of_location};
pub use respelling::respelled;
pub use source::{cut, line, shown, text_of, tokens_of, under};
