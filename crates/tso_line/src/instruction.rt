//! Instructions of Intel 64 on words of 64 bits, and the calls of a thread.

use tso_word::{BitOperation, Condition};

/// A general register of 64 bits.
#[derive(Clone, Copy, PartialEq, Eq, PartialOrd, Ord, Hash)]
pub enum Register {
    Rax,
    Rbx,
    Rcx,
    Rdx,
    Rsi,
    Rdi,
    Rbp,
    R8,
    R9,
    R10,
    R11,
    R12,
    R13,
    R14,
    R15,
}

/// When a call may be refused: in strict mode a push of a full queue and a pop of an empty one, in weak mode any call.
#[derive(Clone, Copy, PartialEq, Eq, PartialOrd, Ord, Hash)]
pub enum Mode {
    Strict,
    Weak,
}

/// A call of a thread: a push of an argument, or a pop.
#[derive(Clone, Copy, Debug, PartialEq, Eq, PartialOrd, Ord, Hash)]
pub enum CallKind {
    Push(u64),
    Pop,
}

/// A cell of an array: the unsigned value of the index register, if there is one, and so many cells more, in whole numbers.
#[derive(Clone, Copy, PartialEq, Eq)]
pub struct Address<A> {
    pub array: A,
    pub index: Option<Register>,
    /// The displacement in cells of 8 bytes.
    pub offset: i64,
}

/// A register or an immediate, which is kept as its sign-extended word.
#[derive(Clone, Copy, PartialEq, Eq)]
pub enum Source {
    Register(Register),
    Word(u64),
}

/// What is computed of two operands and put into the first.
#[derive(Clone, Copy, PartialEq, Eq)]
pub enum Operation {
    Add,
    Sub,
    Logic(BitOperation),
}

/// What is computed of two operands for its flags alone: `cmp` as a difference, `test` as a bitwise and.
#[derive(Clone, Copy, PartialEq, Eq)]
pub enum Comparison {
    Cmp,
    Test,
}

/// What a locked instruction does with a cell and a register.
#[derive(Clone, Copy, PartialEq, Eq)]
pub enum LockedOperation {
    /// `xchg`
    Exchange,
    /// `lock cmpxchg`
    CompareExchange,
    /// `lock xadd`
    ExchangeAdd,
}

/// An instruction, whose arrays and labels are named by `A` and `L`.
#[derive(Clone, Copy, PartialEq, Eq)]
pub enum Instruction<A, L> {
    Move {
        to: Register,
        from: Source,
    },
    Load {
        to: Register,
        from: Address<A>,
    },
    Store {
        to: Address<A>,
        from: Source,
    },
    Compute {
        operation: Operation,
        to: Register,
        from: Source,
    },
    Compare {
        comparison: Comparison,
        left: Register,
        right: Source,
    },
    Increment(Register),
    Decrement(Register),
    /// A jump to a label, with the bound of a back jump: how often it may be taken in one call.
    Jump {
        when: Option<Condition>,
        target: L,
        bound: Option<u8>,
    },
    Assert(Condition),
    Locked {
        operation: LockedOperation,
        cell: Address<A>,
        register: Register,
    },
    Fence,
    Nop,
    Pause,
    Return,
}
