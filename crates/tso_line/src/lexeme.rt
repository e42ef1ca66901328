//! Tokens with their meaning.

ghost use Rattle.std.specs.Prelude.{◌≡◌};
ghost use Rattle.tso_line.specs.Ranges.{ranged, within};

use crate::instruction::{Comparison, LockedOperation, Operation, Register};
use tso_word::Condition;

/// Where a word stands in the source.
#[derive(Clone, Copy, PartialEq, Eq)]
pub struct Span {
    pub start: usize,
    pub end: usize,
}

/// What is well written, if it is in its range.
#[derive(Clone, Copy, PartialEq, Eq)]
pub enum Ranged<T> {
    Within(T),
    OutOfRange,
}

impl<T: Copy + Drop> Ranged<T> {
    /// It, if it is in its range.
    pub fn within(self) -> Option<T>
        ensures { result ≡ within self }
    {
        match self {
            Ranged::Within(it) => Some(it),
            Ranged::OutOfRange => None,
        }
    }

    /// What is there, as in its range.
    pub fn of(it: Option<T>) -> Ranged<T>
        ensures { result ≡ ranged it }
    {
        match it {
            Some(it) => Ranged::Within(it),
            None => Ranged::OutOfRange,
        }
    }
}

/// A word that begins a line and starts with a dot.
#[derive(Clone, Copy, PartialEq, Eq)]
pub enum Directive {
    Capacity,
    Mode,
    Array,
    Push,
    Pop,
    End,
    Before,
    Thread,
}

/// What an instruction does, by its first word.
#[derive(Clone, Copy, PartialEq, Eq)]
pub enum Mnemonic {
    Mov,
    /// `add`, `sub`, `and`, `or`, `xor`
    Compute(Operation),
    /// `cmp`, `test`
    Compare(Comparison),
    /// `inc`
    Increment,
    /// `dec`
    Decrement,
    /// `jmp`, or `j` and a condition
    Jump(Option<Condition>),
    Assert,
    /// `xchg`, `cmpxchg`, `xadd`
    Locked(LockedOperation),
    /// `mfence`
    Fence,
    Nop,
    Pause,
    /// `ret`
    Return,
}

/// What a word means, besides being a name.
#[derive(Clone, Copy, PartialEq, Eq)]
pub enum Meaning {
    Plain,
    Register(Register),
    Mnemonic(Mnemonic),
    Condition(Condition),
    Lock,
    Bound,
    Qword,
    Ptr,
    Strict,
    Weak,
    Push,
    Pop,
}

/// A token of a line.
#[derive(Clone, Copy, PartialEq, Eq)]
pub enum Lexeme {
    Directive(Directive),
    Word(Span, Meaning),
    /// A well-formed number, in its range up to 2^64 - 1.
    Number(Ranged<u64>),
    Colon,
    Comma,
    Open,
    Close,
    Plus,
    Minus,
    Star,
    Equals,
    /// What stands in no line: a malformed number, an unknown word with a dot, another byte.
    Other,
}
