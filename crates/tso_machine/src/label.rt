//! Labels: what the machine does in one step.

ghost use Rattle.std.proofs.Common.{rules};

use crate::action::FaultKind;
use tso_list::Exact;
use tso_prog::{Answer, CallKind};

/// The kind of a step, with what it moves. A place is the position of a word in memory.
#[derive(Clone, Copy, Debug, PartialEq, Eq)]
pub enum LabelKind {
    /// A call begins.
    Call(CallKind),
    /// A step within registers, flags and position.
    Reg,
    /// A word is read, from the own buffer or from memory.
    Read { place: usize, word: u64 },
    /// A word goes into the own buffer.
    Write { place: usize, word: u64 },
    /// The oldest entry of the buffer goes to memory.
    Drain { place: usize, word: u64 },
    /// A fence, with the own buffer empty.
    Fence,
    /// A locked instruction begins.
    Lock,
    /// A locked instruction ends.
    Unlock,
    /// A call returns.
    Return(Answer),
    /// The thread stops.
    Fault(FaultKind),
}

/// A step of a thread.
#[derive(Clone, Copy, PartialEq, Eq)]
pub struct Label {
    pub thread: usize,
    pub kind: LabelKind,
}

impl Exact for LabelKind {
    ghost exact = { λ a b. Prim.search rules };
}
