//! The program `tsoq` over its words, files and streams.
#![tactic(auto)]

mod counted;
mod covering;
mod fences;
mod filing;
mod guard;
mod outside;
mod parse;
mod people;
mod round;
mod running;
mod survey;
mod upgrade;
mod verify;

pub use running::{run, run_process};
