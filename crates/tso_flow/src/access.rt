//! Which registers and flags an instruction reads and writes.

ghost use Rattle.std.specs.Prelude.{◌≡◌};
ghost use Rattle.tso_flow.specs.Accesses.{is_same, is_source, is_index, is_compared, is_answer, reads_register, writes_register, locked_writes, condition_reads, reads_flag, writes_flag, reads, writes, is_given};

use crate::location::{Flag, Location, ProcedureKind};
use tso_line::{Address, Instruction, LockedOperation, Register, Source};
use tso_prog::Step;
use tso_word::Condition;

fn is_same(a: Register, b: Register) -> bool
    ensures { result ≡ is_same a b }
{
    a == b
}

fn is_source(source: Source, register: Register) -> bool
    ensures { result ≡ is_source source register }
{
    match source {
        Source::Register(own) => is_same(own, register),
        Source::Word(_) => false,
    }
}

fn is_index(address: Address<usize>, register: Register) -> bool
    ensures { result ≡ is_index address register }
{
    match address.index {
        Some(own) => is_same(own, register),
        None => false,
    }
}

fn is_compared(operation: LockedOperation, register: Register) -> bool
    ensures { result ≡ is_compared operation register }
{
    match operation {
        LockedOperation::CompareExchange => is_same(Register::Rax, register),
        LockedOperation::Exchange | LockedOperation::ExchangeAdd => false,
    }
}

fn is_answer(kind: ProcedureKind, register: Register) -> bool
    ensures { result ≡ is_answer kind register }
{
    match kind {
        ProcedureKind::Push => is_same(Register::Rax, register),
        ProcedureKind::Pop => {
            is_same(Register::Rax, register) || is_same(Register::Rdx, register)
        }
    }
}

fn reads_register(kind: ProcedureKind, step: Step, register: Register) -> bool
    ensures { result ≡ reads_register kind step register }
{
    match step {
        Instruction::Move { from, .. } => is_source(from, register),
        Instruction::Load { from, .. } => is_index(from, register),
        Instruction::Store { to, from } => is_index(to, register) || is_source(from, register),
        Instruction::Compute { to, from, .. } => is_same(to, register) || is_source(from, register),
        Instruction::Compare { left, right, .. } => {
            is_same(left, register) || is_source(right, register)
        }
        Instruction::Increment(own) | Instruction::Decrement(own) => is_same(own, register),
        Instruction::Locked {
            operation,
            cell,
            register: own,
        } => {
            is_index(cell, register) || is_same(own, register) || is_compared(operation, register)
        }
        Instruction::Return => is_answer(kind, register),
        Instruction::Jump { .. }
        | Instruction::Assert(_)
        | Instruction::Fence
        | Instruction::Nop
        | Instruction::Pause => false,
    }
}

fn locked_writes(operation: LockedOperation, own: Register, register: Register) -> bool
    ensures { result ≡ locked_writes operation own register }
{
    match operation {
        LockedOperation::CompareExchange => is_same(Register::Rax, register),
        LockedOperation::Exchange | LockedOperation::ExchangeAdd => is_same(own, register),
    }
}

fn writes_register(step: Step, register: Register) -> bool
    ensures { result ≡ writes_register step register }
{
    match step {
        Instruction::Move { to, .. }
        | Instruction::Load { to, .. }
        | Instruction::Compute { to, .. } => is_same(to, register),
        Instruction::Increment(own) | Instruction::Decrement(own) => is_same(own, register),
        Instruction::Locked {
            operation,
            register: own,
            ..
        } => locked_writes(operation, own, register),
        Instruction::Store { .. }
        | Instruction::Compare { .. }
        | Instruction::Jump { .. }
        | Instruction::Assert(_)
        | Instruction::Fence
        | Instruction::Nop
        | Instruction::Pause
        | Instruction::Return => false,
    }
}

fn condition_reads(condition: Condition, flag: Flag) -> bool
    ensures { result ≡ condition_reads condition flag }
{
    match condition {
        Condition::E | Condition::Ne => matches!(flag, Flag::Zero),
        Condition::B | Condition::Ae => matches!(flag, Flag::Carry),
        Condition::Be | Condition::A => matches!(flag, Flag::Carry | Flag::Zero),
        Condition::L | Condition::Ge => matches!(flag, Flag::Sign | Flag::Overflow),
        Condition::Le | Condition::G => matches!(flag, Flag::Zero | Flag::Sign | Flag::Overflow),
    }
}

fn reads_flag(step: Step, flag: Flag) -> bool
    ensures { result ≡ reads_flag step flag }
{
    match step {
        Instruction::Jump {
            when: Some(condition),
            ..
        } => condition_reads(condition, flag),
        Instruction::Assert(condition) => condition_reads(condition, flag),
        _ => false,
    }
}

fn writes_flag(step: Step, flag: Flag) -> bool
    ensures { result ≡ writes_flag step flag }
{
    match step {
        Instruction::Compute { .. } | Instruction::Compare { .. } => true,
        Instruction::Increment(_) | Instruction::Decrement(_) => !matches!(flag, Flag::Carry),
        Instruction::Locked { operation, .. } => !matches!(operation, LockedOperation::Exchange),
        _ => false,
    }
}

/// Whether the instruction, in a procedure of this kind, reads what the register or flag holds before it.
#[tactic(auto, unfolding(crate::specs::Accesses::reads))]
pub fn reads(kind: ProcedureKind, step: Step, location: Location) -> bool
    ensures { result ≡ reads kind step location }
{
    match location {
        Location::Register(register) => reads_register(kind, step, register),
        Location::Flag(flag) => reads_flag(step, flag),
    }
}

/// Whether the instruction writes the register or flag.
#[tactic(auto, unfolding(crate::specs::Accesses::writes))]
pub fn writes(step: Step, location: Location) -> bool
    ensures { result ≡ writes step location }
{
    match location {
        Location::Register(register) => writes_register(step, register),
        Location::Flag(flag) => writes_flag(step, flag),
    }
}

/// Whether a call of this kind begins with the register or flag written: the value of a push stands in RDI.
#[tactic(auto, unfolding(crate::specs::Accesses::is_given))]
pub fn is_given(kind: ProcedureKind, location: Location) -> bool
    ensures { result ≡ is_given kind location }
{
    match (kind, location) {
        (ProcedureKind::Push, Location::Register(register)) => is_same(Register::Rdi, register),
        _ => false,
    }
}
