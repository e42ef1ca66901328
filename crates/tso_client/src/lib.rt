//! The client of a program text, what its instructions mean, what it is for all its runs to be good, and when the good runs of one
//! client answer for those of another: the same memory and code under a queue that may do no less, and calls that are beginnings of
//! the other's, whatever the numbers of the threads.
//!
//! - [`checked_of`]: the client of a text;
//! - [`programs`]: the law, of programs of the model with any meaning of instructions;
//! - [`clients`]: the same of clients;
//! - [`covers`], [`is_served`]: which clients cover which, and what that says of their runs in the words of the check;
//! - what the machine and its definitions mean, said beside them: what instructions and places do, in the words of the Intel 64
//!   manual, and instances of the model, which meet the theorem's premises and do what x86-TSO does in the standard litmus tests.
//!
//! A function with an empty body is a law: its contract.
#![tactic(auto)]

mod accesses;
mod alike;
mod cells;
pub mod clients;
mod covering;
mod error;
mod instances;
mod instructions;
mod program;
pub mod programs;
mod served;
mod threads;

pub use accesses::{reads_are_all, writes_are_all};
pub use cells::{operands_count, places_are_cells};
pub use covering::covers;
pub use error::CheckError;
pub use instances::{
    both_read_zero, every_pair_run_is_good, every_small_run_is_good, fences_wait_here,
    locks_hold_here, returns_are_no_drains,
};
pub use instructions::{
    comparisons_compare, fences_wait, locked_instructions_lock, operands_are_accessed,
};
pub use program::checked_of;
pub use served::{answers_for, is_served, verified_serves};
pub use threads::prologue_is_last;
