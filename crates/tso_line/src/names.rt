//! The arrays and labels that instructions name.

ghost use Rattle.std.specs.Prelude.{◌≡◌};
ghost use Rattle.tso_line.specs.Instructions.{address_of, label_of, renamed, renamed_cell};

use crate::instruction::{Address, Instruction};

impl<A: Copy + Drop> Address<A> {
    /// The same cell of another array.
    pub fn with_array<B: Copy + Drop>(self, array: B) -> Address<B>
        ensures { result ≡ renamed_cell (λ _. array) self }
    {
        Address {
            array,
            index: self.index,
            offset: self.offset,
        }
    }
}

impl<A: Copy + Drop, L: Copy + Drop> Instruction<A, L> {
    /// The cell that it reads or writes.
    pub fn address(self) -> Option<Address<A>>
        ensures { result ≡ address_of self }
    {
        match self {
            Instruction::Load { from, .. } => Some(from),
            Instruction::Store { to, .. } => Some(to),
            Instruction::Locked { cell, .. } => Some(cell),
            _ => None,
        }
    }

    /// The label that it names.
    pub fn label(self) -> Option<L>
        ensures { result ≡ label_of self }
    {
        match self {
            Instruction::Jump { target, .. } => Some(target),
            _ => None,
        }
    }

    /// The same instruction, where it names an array or a label with this array or label.
    pub fn with_names<B: Copy + Drop, M: Copy + Drop>(self, array: B, label: M) -> Instruction<B, M>
        ensures { result ≡ renamed (λ _. array) (λ _. label) self }
    {
        match self {
            Instruction::Move { to, from } => Instruction::Move { to, from },
            Instruction::Load { to, from } => Instruction::Load {
                to,
                from: from.with_array(array),
            },
            Instruction::Store { to, from } => Instruction::Store {
                to: to.with_array(array),
                from,
            },
            Instruction::Compute {
                operation,
                to,
                from,
            } => Instruction::Compute {
                operation,
                to,
                from,
            },
            Instruction::Compare {
                comparison,
                left,
                right,
            } => Instruction::Compare {
                comparison,
                left,
                right,
            },
            Instruction::Increment(to) => Instruction::Increment(to),
            Instruction::Decrement(to) => Instruction::Decrement(to),
            Instruction::Jump { when, bound, .. } => Instruction::Jump {
                when,
                target: label,
                bound,
            },
            Instruction::Assert(condition) => Instruction::Assert(condition),
            Instruction::Locked {
                operation,
                cell,
                register,
            } => Instruction::Locked {
                operation,
                cell: cell.with_array(array),
                register,
            },
            Instruction::Fence => Instruction::Fence,
            Instruction::Nop => Instruction::Nop,
            Instruction::Pause => Instruction::Pause,
            Instruction::Return => Instruction::Return,
        }
    }
}
