//! The search of a client's states by several workers: each state belongs to a region, which one worker at a time works (Stern and Dill 1997).
#![tactic(auto)]

mod agenda;
mod gathering;
mod halt;
mod owner;
mod parcel;
mod pile;
mod realm;
mod region;
mod searching;
mod settling;
mod stepping;
mod team;

pub use searching::by_regions;
