//! Instructions by their forms, and their numbers.

ghost use Rattle.std.specs.Prelude.{◌≡◌, ◌≤◌, ◌<◌, ◌^◌, IfSome, IsTrue};
ghost use Rattle.tso_line.specs.Proper.{is_small, is_word, is_narrow, is_near, is_narrow_source, is_in_range};
ghost use Rattle.tso_line.specs.Instructions.{renamed};
ghost use Rattle.tso_line.specs.Ranges.{IfWithin};
ghost use Rattle.tso_line.specs.Forms.{register_of, source_of, raw_cell_of, move_form, plain_form, takes_lock, locked_form, jump_form, form_of, lacks_lock, word_of, narrow, cells_of, address_of_cell, from_of, bound_value, instruction_of, text_at};

use crate::instruction::{
    Address, Comparison, Instruction, LockedOperation, Operation, Register, Source,
};
use crate::lexeme::{Meaning, Mnemonic, Ranged, Span};
use crate::shape::{Cell, Offset, Operand, Operands, Scaled, Signed, Statement};
use tso_word::Condition;

/// A source whose number is not yet in range.
#[derive(Clone, Copy, PartialEq, Eq)]
pub enum RawSource {
    Register(Register),
    Number(Signed),
}

/// A cell whose offset is not yet in range.
#[derive(Clone, Copy, PartialEq, Eq)]
pub struct RawCell {
    pub array: Span,
    pub index: Option<Register>,
    pub offset: Offset,
}

/// An instruction whose words are known, and whose numbers are not yet in range.
#[derive(Clone, Copy, PartialEq, Eq)]
pub enum Form {
    Move(Register, RawSource),
    Load(Register, RawCell),
    Store(RawCell, RawSource),
    Compute(Operation, Register, RawSource),
    Compare(Comparison, Register, RawSource),
    Increment(Register),
    Decrement(Register),
    Jump(Option<Condition>, Span, Option<Ranged<u64>>),
    Assert(Condition),
    Locked(LockedOperation, RawCell, Register),
    Fence,
    Nop,
    Pause,
    Return,
}

fn register_of(operand: Operand) -> Option<Register>
    ensures { result ≡ register_of operand }
{
    match operand {
        Operand::Word(_, Meaning::Register(register)) => Some(register),
        _ => None,
    }
}

fn source_of(operand: Operand) -> Option<RawSource>
    ensures { result ≡ source_of operand }
{
    match operand {
        Operand::Word(_, Meaning::Register(register)) => Some(RawSource::Register(register)),
        Operand::Number(number) => Some(RawSource::Number(number)),
        _ => None,
    }
}

fn raw_cell_of(cell: Cell) -> Option<RawCell>
    ensures { result ≡ raw_cell_of cell }
{
    let index = match cell.index {
        None => None,
        Some(
            Scaled {
                register: Meaning::Register(register),
                scale: Ranged::Within(8),
            },
        ) => Some(register),
        Some(_) => return None,
    };
    Some(RawCell {
        array: cell.array,
        index,
        offset: cell.offset,
    })
}

fn move_form(to: Operand, from: Operand) -> Option<Form>
    ensures { result ≡ move_form to from }
{
    match (to, from) {
        (Operand::Memory(cell), _) => Some(Form::Store(raw_cell_of(cell)?, source_of(from)?)),
        (_, Operand::Memory(cell)) => Some(Form::Load(register_of(to)?, raw_cell_of(cell)?)),
        _ => Some(Form::Move(register_of(to)?, source_of(from)?)),
    }
}

// The form of an instruction that is neither a jump nor locked.
fn plain_form(mnemonic: Mnemonic, operands: Operands) -> Option<Form>
    ensures { result ≡ plain_form mnemonic operands }
{
    match (mnemonic, operands) {
        (Mnemonic::Mov, Operands::Two(to, from)) => move_form(to, from),
        (Mnemonic::Compute(operation), Operands::Two(to, from)) => {
            Some(Form::Compute(operation, register_of(to)?, source_of(from)?))
        }
        (Mnemonic::Compare(comparison), Operands::Two(left, right)) => {
            Some(Form::Compare(comparison, register_of(left)?, source_of(right)?))
        }
        (Mnemonic::Increment, Operands::One(to)) => Some(Form::Increment(register_of(to)?)),
        (Mnemonic::Decrement, Operands::One(to)) => Some(Form::Decrement(register_of(to)?)),
        (Mnemonic::Assert, Operands::One(Operand::Word(_, Meaning::Condition(condition)))) => {
            Some(Form::Assert(condition))
        }
        (Mnemonic::Fence, Operands::Zero) => Some(Form::Fence),
        (Mnemonic::Nop, Operands::Zero) => Some(Form::Nop),
        (Mnemonic::Pause, Operands::Zero) => Some(Form::Pause),
        (Mnemonic::Return, Operands::Zero) => Some(Form::Return),
        _ => None,
    }
}

// Whether the instruction is one that is written with `lock` before it.
fn takes_lock(operation: LockedOperation) -> bool
    ensures { result ≡ takes_lock operation }
{
    match operation {
        LockedOperation::Exchange => false,
        LockedOperation::CompareExchange | LockedOperation::ExchangeAdd => true,
    }
}

fn locked_form(operation: LockedOperation, operands: Operands) -> Option<Form>
    ensures { result ≡ locked_form operation operands }
{
    match operands {
        Operands::Two(Operand::Memory(cell), register) => Some(Form::Locked(
            operation,
            raw_cell_of(cell)?,
            register_of(register)?,
        )),
        _ => None,
    }
}

fn jump_form(
    when: Option<Condition>,
    operands: Operands,
    bound: Option<Ranged<u64>>,
) -> Option<Form>
    ensures { result ≡ jump_form when operands bound }
{
    match operands {
        Operands::One(Operand::Word(target, _)) => Some(Form::Jump(when, target, bound)),
        _ => None,
    }
}

/// The form of an instruction, if its words are known and stand where they may.
pub fn form_of(statement: Statement) -> Option<Form>
    ensures { result ≡ form_of statement }
{
    match (statement.lock, statement.mnemonic, statement.bound) {
        (false, Meaning::Mnemonic(Mnemonic::Jump(when)), bound) => {
            jump_form(when, statement.operands, bound)
        }
        (lock, Meaning::Mnemonic(Mnemonic::Locked(operation)), None) => {
            if lock && !takes_lock(operation) {
                None
            } else {
                locked_form(operation, statement.operands)
            }
        }
        (false, Meaning::Mnemonic(mnemonic), None) => plain_form(mnemonic, statement.operands),
        _ => None,
    }
}

/// Whether the instruction is written with `lock` before it, and stands without.
pub fn lacks_lock(statement: Statement) -> bool
    ensures { result ≡ lacks_lock statement }
{
    match (statement.lock, statement.mnemonic) {
        (false, Meaning::Mnemonic(Mnemonic::Locked(operation))) => takes_lock(operation),
        _ => false,
    }
}

/// The word of a number from -`least` to `greatest`.
pub fn word_of(number: Signed, least: u64, greatest: u64) -> Option<u64>
    ensures exact { result ≡ word_of least greatest number }
    ensures range { IfSome result (λ w. IsTrue (is_word w)) }
{
    let magnitude = number.magnitude.within()?;
    if number.negative {
        (magnitude <= least).then_some(0u64.wrapping_sub(magnitude))
    } else {
        (magnitude <= greatest).then_some(magnitude)
    }
}

// A number of 32 bits.
fn narrow(number: Signed) -> Option<u64>
    ensures exact { result ≡ narrow number }
    ensures range { IfSome result (λ w. IsTrue (is_narrow w)) }
{
    word_of(number, 1 << 31, (1 << 31) - 1)
}

fn from_of(source: RawSource) -> Option<Source>
    ensures exact { result ≡ from_of source }
    ensures range { IfSome result (λ s. IsTrue (is_narrow_source s)) }
{
    match source {
        RawSource::Register(register) => Some(Source::Register(register)),
        RawSource::Number(number) => Some(Source::Word(narrow(number)?)),
    }
}

// How many cells an offset of bytes is.
fn cells_of(offset: Offset) -> Option<i64>
    ensures exact { result ≡ cells_of offset }
    ensures range { IfSome result (λ n. IsTrue (is_near n)) }
{
    match offset {
        Offset::Absent => Some(0),
        Offset::By(number) => {
            let magnitude = number.magnitude.within()?;
            if magnitude % 8 != 0 || narrow(number).is_none() {
                return None;
            }
            if magnitude > 1 << 31 {
                return None;
            }
            let cells = (magnitude / 8) as i64;
            Some(if number.negative { -cells } else { cells })
        }
    }
}

fn address_of_cell(cell: RawCell) -> Option<Address<Span>>
    ensures exact { result ≡ address_of_cell cell }
    ensures range { IfSome result (λ a. IsTrue (is_near a.offset)) }
{
    Some(Address {
        array: cell.array,
        index: cell.index,
        offset: cells_of(cell.offset)?,
    })
}

fn bound_value(bound: Option<Ranged<u64>>) -> Ranged<Option<u8>>
    ensures exact { result ≡ bound_value bound }
    ensures small { IfWithin result (λ b. IsTrue (is_small b)) }
{
    match bound {
        None => Ranged::Within(None),
        Some(Ranged::Within(n)) if n <= 15 => Ranged::Within(Some(n as u8)),
        Some(_) => Ranged::OutOfRange,
    }
}

/// The instruction of a form, if its numbers are in range.
pub fn instruction_of(form: Form) -> Option<Instruction<Span, Span>>
    ensures exact { result ≡ instruction_of form }
    ensures range { IfSome result (λ i. IsTrue (is_in_range i)) }
{
    match form {
        Form::Move(to, RawSource::Number(number)) => Some(Instruction::Move {
            to,
            from: Source::Word(word_of(number, 1 << 63, u64::MAX)?),
        }),
        Form::Move(to, from) => Some(Instruction::Move {
            to,
            from: from_of(from)?,
        }),
        Form::Load(to, from) => Some(Instruction::Load {
            to,
            from: address_of_cell(from)?,
        }),
        Form::Store(to, from) => Some(Instruction::Store {
            to: address_of_cell(to)?,
            from: from_of(from)?,
        }),
        Form::Compute(operation, to, from) => Some(Instruction::Compute {
            operation,
            to,
            from: from_of(from)?,
        }),
        Form::Compare(comparison, left, right) => Some(Instruction::Compare {
            comparison,
            left,
            right: from_of(right)?,
        }),
        Form::Increment(to) => Some(Instruction::Increment(to)),
        Form::Decrement(to) => Some(Instruction::Decrement(to)),
        Form::Jump(when, target, bound) => Some(Instruction::Jump {
            when,
            target,
            bound: bound_value(bound).within()?,
        }),
        Form::Assert(condition) => Some(Instruction::Assert(condition)),
        Form::Locked(operation, cell, register) => Some(Instruction::Locked {
            operation,
            cell: address_of_cell(cell)?,
            register,
        }),
        Form::Fence => Some(Instruction::Fence),
        Form::Nop => Some(Instruction::Nop),
        Form::Pause => Some(Instruction::Pause),
        Form::Return => Some(Instruction::Return),
    }
}

/// The bytes at a span, none where it is not within the source.
pub fn text_at(source: &[u8], span: Span) -> &[u8]
    ensures { result.now ≡ text_at source.now span }
{
    if span.start <= span.end && span.end <= source.len() {
        &source[span.start..span.end]
    } else {
        &[]
    }
}

/// The instruction with the names that stand in the source.
pub fn named<'a>(
    source: &'a [u8],
    instruction: Instruction<Span, Span>,
) -> Instruction<&'a [u8], &'a [u8]>
    ensures exact { renamed (λ a. a.now) (λ l. l.now) result ≡ renamed (text_at source.now) (text_at source.now) instruction }
{
    let array = match instruction.address() {
        Some(address) => text_at(source, address.array),
        None => &[],
    };
    let label = match instruction.label() {
        Some(label) => text_at(source, label),
        None => &[],
    };
    instruction.with_names(array, label)
}
