//! Where the words of registers lie after an instruction.

ghost use Rattle.std.specs.Prelude.{◌≡◌, ◌<◌};
ghost use Rattle.tso_flow.specs.Accesses.{register_number};
ghost use Rattle.tso_cells.specs.Moved.{computed, exchanged, interval_of, moved, put, source_interval};

use crate::interval::{ALL_WORDS, Interval};
use tso_line::{Instruction, LockedOperation, Operation, Register, Source};
use tso_word::BitOperation;

/// The place of a register in the order of registers, from 0.
pub fn register_number(register: Register) -> usize
    ensures is { result ≡ register_number register }
    ensures below { result < 15 }
{
    register as usize
}

// The interval of a register.
fn interval_of(before: &[Interval; 15], register: Register) -> Interval
    ensures { result ≡ interval_of before.now register }
{
    before[register_number(register)]
}

// That of a register or an immediate.
fn source_interval(before: &[Interval; 15], source: Source) -> Interval
    ensures { result ≡ source_interval before.now source }
{
    match source {
        Source::Register(register) => interval_of(before, register),
        Source::Word(word) => Interval::alone(word),
    }
}

// The intervals with another one for a register.
fn put(before: &[Interval; 15], register: Register, interval: Interval) -> [Interval; 15]
    ensures { result ≡ put before.now register interval }
{
    let mut after = *before;
    after[register_number(register)] = interval;
    after
}

// Where the sum of a word of an interval and a register or an immediate lies. Only what is added as it stands, and is not below 0,
// raises the ends.
fn sum_with(interval: Interval, source: Source) -> Interval
    ensures { result ≡ computed Operation.Add interval source interval }
{
    match source {
        Source::Word(word) if word < 1 << 63 => interval.raised(word),
        Source::Word(_) | Source::Register(_) => ALL_WORDS,
    }
}

// Where what is computed of a register and a source lies.
fn computed(operation: Operation, interval: Interval, source: Source, other: Interval) -> Interval
    ensures { result ≡ computed operation interval source other }
{
    match operation {
        Operation::Add => sum_with(interval, source),
        Operation::Logic(BitOperation::And) => interval.below_both(other),
        Operation::Sub | Operation::Logic(BitOperation::Or | BitOperation::Xor) => ALL_WORDS,
    }
}

// The register that a locked instruction can write.
fn exchanged(operation: LockedOperation, register: Register) -> Register
    ensures { result ≡ exchanged operation register }
{
    match operation {
        LockedOperation::Exchange | LockedOperation::ExchangeAdd => register,
        LockedOperation::CompareExchange => Register::Rax,
    }
}

/// Where the words of registers lie after an instruction, where they lay in these intervals before it. Conditions are not looked at.
pub fn moved(before: &[Interval; 15], instruction: &Instruction<usize, usize>) -> [Interval; 15]
    ensures { result ≡ moved before.now instruction.now }
{
    match *instruction {
        Instruction::Move { to, from } => put(before, to, source_interval(before, from)),
        Instruction::Load { to, .. } => put(before, to, ALL_WORDS),
        Instruction::Compute {
            operation,
            to,
            from,
        } => {
            let other = source_interval(before, from);
            put(
                before,
                to,
                computed(operation, interval_of(before, to), from, other),
            )
        }
        Instruction::Increment(register) => {
            put(before, register, interval_of(before, register).raised(1))
        }
        Instruction::Decrement(register) => put(before, register, ALL_WORDS),
        Instruction::Locked {
            operation,
            register,
            ..
        } => put(before, exchanged(operation, register), ALL_WORDS),
        Instruction::Store { .. }
        | Instruction::Compare { .. }
        | Instruction::Jump { .. }
        | Instruction::Assert(_)
        | Instruction::Fence
        | Instruction::Nop
        | Instruction::Pause
        | Instruction::Return => *before,
    }
}
