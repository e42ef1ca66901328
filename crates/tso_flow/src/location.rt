//! Registers, flags and procedures by their names.

ghost use Rattle.std.specs.Prelude.{◌≡◌};
ghost use Rattle.tso_flow.specs.Calls.{kind_of};

use tso_line::{CallKind, Register};

/// A flag that a condition can read.
#[derive(Clone, Copy, PartialEq, Eq)]
pub enum Flag {
    Zero,
    Carry,
    Sign,
    Overflow,
}

/// What an instruction can read or write besides memory.
#[derive(Clone, Copy, PartialEq, Eq)]
pub enum Location {
    Register(Register),
    Flag(Flag),
}

/// One of the two procedures of a client.
#[derive(Clone, Copy, Debug, PartialEq, Eq)]
pub enum ProcedureKind {
    Push,
    Pop,
}

impl From<CallKind> for ProcedureKind {
    ghost from_gives = { λ call kind. kind ≡ kind_of call };

    fn from(call: CallKind) -> ProcedureKind {
        match call {
            CallKind::Push(_) => ProcedureKind::Push,
            CallKind::Pop => ProcedureKind::Pop,
        }
    }
}

/// Each register and each flag, in the order in which faults of reads are told.
pub const LOCATIONS: [Location; 19] = [
    Location::Register(Register::Rax),
    Location::Register(Register::Rbx),
    Location::Register(Register::Rcx),
    Location::Register(Register::Rdx),
    Location::Register(Register::Rsi),
    Location::Register(Register::Rdi),
    Location::Register(Register::Rbp),
    Location::Register(Register::R8),
    Location::Register(Register::R9),
    Location::Register(Register::R10),
    Location::Register(Register::R11),
    Location::Register(Register::R12),
    Location::Register(Register::R13),
    Location::Register(Register::R14),
    Location::Register(Register::R15),
    Location::Flag(Flag::Zero),
    Location::Flag(Flag::Carry),
    Location::Flag(Flag::Sign),
    Location::Flag(Flag::Overflow),
];
