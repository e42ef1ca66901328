//! Instructions, and what a line of a program text says by itself.
#![tactic(auto)]

mod form;
mod instruction;
mod lexeme;
mod line;
mod names;
mod reading;
mod shape;
mod vocabulary;
mod words;

pub use instruction::{
    Address, CallKind, Comparison, Instruction, LockedOperation, Mode, Operation, Register, Source,
};
pub use lexeme::Lexeme;
pub use line::{Kind, Line, Slip};
pub use reading::line_of;
pub use vocabulary::{comparison_word, condition_word, locked_word, operation_word, register_word};
pub use words::lexeme_of;
