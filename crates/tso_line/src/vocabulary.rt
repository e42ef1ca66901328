//! The words of registers, conditions and operations: one table, by which they are read and printed.

ghost use Rattle.std.specs.Prelude.{◌≡◌};
ghost use Rattle.tso_line.specs.Vocabulary.{register_word, condition_word, operation_word, comparison_word, locked_word};

use crate::instruction::{Comparison, LockedOperation, Operation, Register};
use tso_word::{BitOperation, Condition};

/// The registers, in their order.
pub const REGISTERS: [Register; 15] = [
    Register::Rax,
    Register::Rbx,
    Register::Rcx,
    Register::Rdx,
    Register::Rsi,
    Register::Rdi,
    Register::Rbp,
    Register::R8,
    Register::R9,
    Register::R10,
    Register::R11,
    Register::R12,
    Register::R13,
    Register::R14,
    Register::R15,
];

pub const CONDITIONS: [Condition; 10] = [
    Condition::E,
    Condition::Ne,
    Condition::B,
    Condition::Ae,
    Condition::Be,
    Condition::A,
    Condition::L,
    Condition::Ge,
    Condition::Le,
    Condition::G,
];

pub const OPERATIONS: [Operation; 5] = [
    Operation::Add,
    Operation::Sub,
    Operation::Logic(BitOperation::And),
    Operation::Logic(BitOperation::Or),
    Operation::Logic(BitOperation::Xor),
];

pub const COMPARISONS: [Comparison; 2] = [Comparison::Cmp, Comparison::Test];

pub const LOCKED_OPERATIONS: [LockedOperation; 3] = [
    LockedOperation::Exchange,
    LockedOperation::CompareExchange,
    LockedOperation::ExchangeAdd,
];

/// The word of a register.
pub fn register_word(register: Register) -> &'static str
    ensures { result.now ≡ register_word register }
{
    match register {
        Register::Rax => "rax",
        Register::Rbx => "rbx",
        Register::Rcx => "rcx",
        Register::Rdx => "rdx",
        Register::Rsi => "rsi",
        Register::Rdi => "rdi",
        Register::Rbp => "rbp",
        Register::R8 => "r8",
        Register::R9 => "r9",
        Register::R10 => "r10",
        Register::R11 => "r11",
        Register::R12 => "r12",
        Register::R13 => "r13",
        Register::R14 => "r14",
        Register::R15 => "r15",
    }
}

/// The word of a condition, as it stands behind `assert` and, behind a `j`, in a jump.
pub fn condition_word(condition: Condition) -> &'static str
    ensures { result.now ≡ condition_word condition }
{
    match condition {
        Condition::E => "e",
        Condition::Ne => "ne",
        Condition::B => "b",
        Condition::Ae => "ae",
        Condition::Be => "be",
        Condition::A => "a",
        Condition::L => "l",
        Condition::Ge => "ge",
        Condition::Le => "le",
        Condition::G => "g",
    }
}

/// The mnemonic of an operation.
pub fn operation_word(operation: Operation) -> &'static str
    ensures { result.now ≡ operation_word operation }
{
    match operation {
        Operation::Add => "add",
        Operation::Sub => "sub",
        Operation::Logic(BitOperation::And) => "and",
        Operation::Logic(BitOperation::Or) => "or",
        Operation::Logic(BitOperation::Xor) => "xor",
    }
}

/// The mnemonic of a comparison.
pub fn comparison_word(comparison: Comparison) -> &'static str
    ensures { result.now ≡ comparison_word comparison }
{
    match comparison {
        Comparison::Cmp => "cmp",
        Comparison::Test => "test",
    }
}

/// The mnemonic of a locked operation.
pub fn locked_word(operation: LockedOperation) -> &'static str
    ensures { result.now ≡ locked_word operation }
{
    match operation {
        LockedOperation::Exchange => "xchg",
        LockedOperation::CompareExchange => "cmpxchg",
        LockedOperation::ExchangeAdd => "xadd",
    }
}
