//! What both programs begin with: the words of the command line, files by their paths, and failures with their statuses.
#![tactic(auto)]

mod draft;
mod failure;
mod files;
mod host;
mod json;
mod limited;
mod part;
mod paths;
mod session;
mod variant;
mod words;

pub use draft::{Draft, Opened};
pub use failure::{Failure, cannot_read, cannot_write, misused};
pub use files::{Files, Kind, Probe, STREAM, read_bytes, read_up_to};
pub use host::HostFiles;
pub use json::{Members, json_line, number_or_null, violation_words};
pub use paths::{both_apart, read_apart, written_apart};
pub use session::{Out, Session, Streams, reported};
pub use variant::{TEXT_BYTES, VARIANT, Variant, fault_of, variant_of};
pub use words::{
    Ended, FILE, JSON, VERSION, Word, ended_words, is_given, number_argument, refuse_given,
    started, with_word, with_words,
};
