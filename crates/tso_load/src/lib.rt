//! Certificates that are read from files: large ones in parts, each by a worker of its own.
#![tactic(auto)]

mod loading;
mod skim;
mod source;
mod span;
mod workers;

pub use loading::load;
pub use skim::read_certificate;
pub use source::Source;
