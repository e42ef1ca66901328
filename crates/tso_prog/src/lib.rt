//! Programs: two procedures of a queue in assembly, with the arrays that they use and the calls of each thread.
#![tactic(auto)]

mod answer;
mod client;
mod copy;
mod draft;
mod fault;
mod finish;
mod named;
mod text;

pub use answer::Answer;
pub use client::{Array, Client, Procedure, Step};
pub use fault::{Code, Fault, ReadError};
pub use text::read;
pub use tso_line::{
    Address, CallKind, Comparison, Instruction, LockedOperation, Mode, Operation, Register, Source,
};
