//! Instructions.

ghost use Rattle.std.specs.Prelude.{◌≡◌, ◌<◌, ◌++◌, codes, ◌∷◌, [], length, OnOk, IsTrue};
ghost use Rattle.std.specs.List.{list_all};
ghost use Rattle.std.specs.String.{string_bytes};
ghost use Rattle.tso_line.specs.Proper.{is_in_range, is_near};
ghost use Rattle.tso_prog.specs.Limits.{is_short_name, has_array_below};
ghost use Rattle.tso_print.specs.Pieces.{spelled, tight, spaced};
ghost use Rattle.tso_line.specs.Vocabulary.{condition_word, jump_word};
ghost use Rattle.tso_print.specs.Signs.{name, comma};
ghost use Rattle.tso_print.specs.Layout.{register_sign, label_name, bound_pieces, jump_pieces, two_pieces, locked_pieces, instruction_pieces};
ghost use Rattle.tso_line.specs.declared.instruction.Instruction.TheVariants.{Load, Store, Locked};

use crate::operand::{push_cell, push_number, push_source};
use std::alloc::AllocError;
use tso_line::{
    Address, LockedOperation, Register, Source, comparison_word, condition_word, locked_word,
    operation_word, register_word,
};
use tso_prog::{Array, Step};
use tso_word::Condition;

// The name of the label at this position.
pub fn push_label_name(text: &mut String, at: usize) -> Result<(), AllocError>
    ensures { OnOk result (string_bytes text.new ≡ string_bytes text.old ++ label_name at) }
{
    text.push_str("l")?;
    push_number(text, at as u64)
}

// A mnemonic with the register behind it.
#[tactic(auto, using(crate::proofs::Joins::joins))]
fn push_one(text: &mut String, word: &str, register: Register) -> Result<(), AllocError>
    ensures { OnOk result (string_bytes text.new ≡ string_bytes text.old ++ (codes "  " ++ (word.now ++ spelled (spaced (register_sign register) ∷ [])))) }
{
    text.push_str("  ")?;
    text.push_str(word)?;
    text.push_str(" ")?;
    text.push_str(register_word(register))?;
    Ok(())
}

// A mnemonic with a register and a source.
#[tactic(auto, using(crate::proofs::Joins::joins))]
fn push_two(text: &mut String, word: &str, left: Register, right: Source) -> Result<(), AllocError>
    ensures { OnOk result (string_bytes text.new ≡ string_bytes text.old ++ (codes "  " ++ (word.now ++ spelled (two_pieces left right)))) }
{
    push_one(text, word, left)?;
    text.push_str(",")?;
    push_source(text, right)?;
    Ok(())
}

#[tactic(auto, using(crate::proofs::Joins::joins))]
fn push_load(
    text: &mut String,
    arrays: &[Array],
    to: Register,
    from: Address<usize>,
) -> Result<(), AllocError>
    requires names { IsTrue (list_all (λ a. is_short_name a.name) arrays.now) }
    requires below { from.array < length arrays.now }
    requires near { IsTrue (is_near from.offset) }
    ensures { OnOk result (string_bytes text.new ≡ string_bytes text.old ++ spelled (instruction_pieces arrays.now (Load to from))) }
{
    push_one(text, "mov", to)?;
    text.push_str(",")?;
    push_cell(text, arrays, from)?;
    Ok(())
}

#[tactic(auto, using(crate::proofs::Joins::joins))]
fn push_store(
    text: &mut String,
    arrays: &[Array],
    to: Address<usize>,
    from: Source,
) -> Result<(), AllocError>
    requires names { IsTrue (list_all (λ a. is_short_name a.name) arrays.now) }
    requires below { to.array < length arrays.now }
    requires near { IsTrue (is_near to.offset) }
    ensures { OnOk result (string_bytes text.new ≡ string_bytes text.old ++ spelled (instruction_pieces arrays.now (Store to from))) }
{
    text.push_str("  mov")?;
    push_cell(text, arrays, to)?;
    text.push_str(",")?;
    push_source(text, from)?;
    Ok(())
}

fn push_bound(text: &mut String, bound: Option<u8>) -> Result<(), AllocError>
    ensures { OnOk result (string_bytes text.new ≡ string_bytes text.old ++ spelled (bound_pieces bound)) }
{
    match bound {
        None => Ok(()),
        Some(bound) => {
            text.push_str(" bound ")?;
            push_number(text, u64::from(bound))
        }
    }
}

fn push_jump_word(text: &mut String, when: Option<Condition>) -> Result<(), AllocError>
    ensures { OnOk result (string_bytes text.new ≡ string_bytes text.old ++ (codes "  " ++ jump_word when)) }
{
    match when {
        None => text.push_str("  jmp"),
        Some(condition) => {
            text.push_str("  j")?;
            text.push_str(condition_word(condition))
        }
    }
}

#[tactic(auto, using(crate::proofs::Joins::joins))]
fn push_jump(
    text: &mut String,
    when: Option<Condition>,
    target: usize,
    bound: Option<u8>,
) -> Result<(), AllocError>
    ensures { OnOk result (string_bytes text.new ≡ string_bytes text.old ++ (codes "  " ++ (jump_word when ++ spelled (jump_pieces target bound)))) }
{
    push_jump_word(text, when)?;
    text.push_str(" ")?;
    push_label_name(text, target)?;
    push_bound(text, bound)?;
    Ok(())
}

#[tactic(auto, using(crate::proofs::Joins::joins))]
fn push_locked_word(text: &mut String, operation: LockedOperation) -> Result<(), AllocError>
    ensures { OnOk result (string_bytes text.new ≡ string_bytes text.old ++ spelled (locked_pieces operation)) }
{
    text.push_str(match operation {
        LockedOperation::Exchange => "  ",
        LockedOperation::CompareExchange | LockedOperation::ExchangeAdd => "  lock ",
    })?;
    text.push_str(locked_word(operation))?;
    Ok(())
}

#[tactic(auto, using(crate::proofs::Joins::joins))]
fn push_locked(
    text: &mut String,
    arrays: &[Array],
    operation: LockedOperation,
    cell: Address<usize>,
    register: Register,
) -> Result<(), AllocError>
    requires names { IsTrue (list_all (λ a. is_short_name a.name) arrays.now) }
    requires below { cell.array < length arrays.now }
    requires near { IsTrue (is_near cell.offset) }
    ensures { OnOk result (string_bytes text.new ≡ string_bytes text.old ++ spelled (instruction_pieces arrays.now (Locked operation cell register))) }
{
    push_locked_word(text, operation)?;
    push_cell(text, arrays, cell)?;
    text.push_str(", ")?;
    text.push_str(register_word(register))?;
    Ok(())
}

fn push_assert(text: &mut String, condition: Condition) -> Result<(), AllocError>
    ensures { OnOk result (string_bytes text.new ≡ string_bytes text.old ++ (codes "  assert " ++ condition_word condition)) }
{
    text.push_str("  assert ")?;
    text.push_str(condition_word(condition))
}

/// An instruction on its line, without the newline.
pub fn push_instruction(text: &mut String, arrays: &[Array], step: Step) -> Result<(), AllocError>
    requires names { IsTrue (list_all (λ a. is_short_name a.name) arrays.now) }
    requires below { IsTrue (has_array_below (length arrays.now) step) }
    requires in_range { IsTrue (is_in_range step) }
    ensures { OnOk result (string_bytes text.new ≡ string_bytes text.old ++ spelled (instruction_pieces arrays.now step)) }
{
    match step {
        Step::Move { to, from } => push_two(text, "mov", to, from),
        Step::Load { to, from } => push_load(text, arrays, to, from),
        Step::Store { to, from } => push_store(text, arrays, to, from),
        Step::Compute {
            operation,
            to,
            from,
        } => push_two(text, operation_word(operation), to, from),
        Step::Compare {
            comparison,
            left,
            right,
        } => push_two(text, comparison_word(comparison), left, right),
        Step::Increment(to) => push_one(text, "inc", to),
        Step::Decrement(to) => push_one(text, "dec", to),
        Step::Jump {
            when,
            target,
            bound,
        } => push_jump(text, when, target, bound),
        Step::Assert(condition) => push_assert(text, condition),
        Step::Locked {
            operation,
            cell,
            register,
        } => push_locked(text, arrays, operation, cell, register),
        Step::Fence => text.push_str("  mfence"),
        Step::Nop => text.push_str("  nop"),
        Step::Pause => text.push_str("  pause"),
        Step::Return => text.push_str("  ret"),
    }
}
