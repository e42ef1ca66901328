//! What a line says by itself.

ghost use Rattle.std.specs.Prelude.{◌≡◌};
ghost use Rattle.tso_line.specs.Lines.{kind_of, slip_of, lacks_lock, view};

use crate::instruction::{CallKind, Instruction, Mode};
use tso_list::Seq;

/// Where a line may stand.
#[derive(Clone, Copy, PartialEq, Eq)]
pub enum Kind {
    Capacity,
    Mode,
    Array,
    Push,
    Pop,
    End,
    Target,
    Instruction,
    Before,
    Thread,
}

/// What is wrong with a line that has a shape.
#[derive(Clone, Copy, PartialEq, Eq)]
pub enum Slip {
    /// The count of values is not the length.
    Count,
    /// An unknown word or operand form.
    Word,
    /// A number out of its range.
    Number,
}

/// A line, read by itself.
#[derive(Drop)]
pub enum Line<'a> {
    /// It has none of the shapes.
    Misshapen,
    /// It has a shape, but not its words or numbers.
    Wrong(Kind, Slip),
    Capacity(u8),
    Mode(Mode),
    Array {
        name: &'a [u8],
        words: Seq<u64>,
    },
    Push,
    Pop,
    End,
    Target(&'a [u8]),
    Instruction {
        instruction: Instruction<&'a [u8], &'a [u8]>,
        lacks_lock: bool,
    },
    /// The calls of the prologue.
    Before(Seq<CallKind>),
    Thread(Seq<CallKind>),
}

impl Line<'_> {
    /// Where it may stand, if it has a shape.
    pub fn kind(&self) -> Option<Kind>
        ensures { result ≡ kind_of (view self.now) }
    {
        match self {
            Line::Misshapen => None,
            Line::Wrong(kind, _) => Some(*kind),
            Line::Capacity(_) => Some(Kind::Capacity),
            Line::Mode(_) => Some(Kind::Mode),
            Line::Array { .. } => Some(Kind::Array),
            Line::Push => Some(Kind::Push),
            Line::Pop => Some(Kind::Pop),
            Line::End => Some(Kind::End),
            Line::Target(_) => Some(Kind::Target),
            Line::Instruction { .. } => Some(Kind::Instruction),
            Line::Before(_) => Some(Kind::Before),
            Line::Thread(_) => Some(Kind::Thread),
        }
    }

    /// What is wrong with it by itself.
    pub fn slip(&self) -> Option<Slip>
        ensures { result ≡ slip_of (view self.now) }
    {
        match self {
            Line::Wrong(_, slip) => Some(*slip),
            _ => None,
        }
    }

    /// Whether a lock is missing.
    pub fn lacks_lock(&self) -> bool
        ensures { result ≡ lacks_lock (view self.now) }
    {
        match self {
            Line::Instruction { lacks_lock, .. } => *lacks_lock,
            _ => false,
        }
    }
}
