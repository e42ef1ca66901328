//! What is asked in the words of the command line.
#![tactic(auto)]

mod command;
mod coverage;
mod fences;
mod form;
mod help;
mod limit;
mod parse;
mod survey;
mod upgrade;

pub use command::{Asked, Request, Search, request_of};
pub use coverage::Covering;
pub use fences::FenceSearch;
pub use form::Form;
pub use limit::{MOST_STATES, StateLimit};
pub use parse::Parsing;
pub use survey::Survey;
pub use upgrade::Upgrading;
