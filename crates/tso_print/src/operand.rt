//! Operands.

ghost use Rattle.std.specs.Prelude.{◌≡◌, ◌<◌, ◌++◌, length, OnOk, IsTrue};
ghost use Rattle.std.specs.List.{list_all};
ghost use Rattle.std.specs.String.{string_bytes};
ghost use Rattle.std.specs.Fmt.{decimal};
ghost use Rattle.tso_line.specs.Proper.{is_name, is_near};
ghost use Rattle.tso_prog.specs.Limits.{is_short_name};
ghost use Rattle.tso_print.specs.Pieces.{spelled};
ghost use Rattle.tso_print.specs.Layout.{source_pieces, index_pieces, offset_pieces, cell_pieces};

use std::alloc::AllocError;
use tso_line::{Address, Register, Source, register_word};
use tso_prog::Array;

// A name, whose bytes are ASCII.
pub fn push_name(text: &mut String, name: &[u8]) -> Result<(), AllocError>
    requires { IsTrue (is_name name.now) }
    ensures { OnOk result (string_bytes text.new ≡ string_bytes text.old ++ name.now) }
{
    for byte in name {
        text.push(char::from(*byte))?;
    }
    Ok(())
}

pub fn push_number(text: &mut String, number: u64) -> Result<(), AllocError>
    ensures { OnOk result (string_bytes text.new ≡ string_bytes text.old ++ decimal number) }
{
    write!(text, "{number}")
}

// A register, or a word as a signed number.
pub fn push_source(text: &mut String, source: Source) -> Result<(), AllocError>
    ensures { OnOk result (string_bytes text.new ≡ string_bytes text.old ++ spelled (source_pieces source)) }
{
    match source {
        Source::Register(register) => {
            text.push_str(" ")?;
            text.push_str(register_word(register))
        }
        Source::Word(word) if word < 1 << 63 => {
            text.push_str(" ")?;
            push_number(text, word)
        }
        Source::Word(word) => {
            text.push_str(" -")?;
            push_number(text, u64::MAX - word + 1)
        }
    }
}

#[tactic(auto, using(crate::proofs::Joins::joins))]
fn push_index(text: &mut String, index: Option<Register>) -> Result<(), AllocError>
    ensures { OnOk result (string_bytes text.new ≡ string_bytes text.old ++ spelled (index_pieces index)) }
{
    if let Some(register) = index {
        text.push_str(" + ")?;
        text.push_str(register_word(register))?;
        text.push_str("*8")?;
    }
    Ok(())
}

// The displacement of so many cells, in bytes.
fn push_offset(text: &mut String, offset: i64) -> Result<(), AllocError>
    requires { IsTrue (is_near offset) }
    ensures { OnOk result (string_bytes text.new ≡ string_bytes text.old ++ spelled (offset_pieces offset)) }
{
    if offset == 0 {
        return Ok(());
    }
    text.push_str(if offset < 0 { " - " } else { " + " })?;
    push_number(text, offset.unsigned_abs() * 8)
}

/// A cell of one of these arrays.
#[tactic(auto, using(crate::proofs::Joins::joins))]
pub fn push_cell(
    text: &mut String,
    arrays: &[Array],
    cell: Address<usize>,
) -> Result<(), AllocError>
    requires names { IsTrue (list_all (λ a. is_short_name a.name) arrays.now) }
    requires below { cell.array < length arrays.now }
    requires near { IsTrue (is_near cell.offset) }
    ensures { OnOk result (string_bytes text.new ≡ string_bytes text.old ++ spelled (cell_pieces arrays.now cell)) }
{
    text.push_str(" qword ptr [")?;
    push_name(text, arrays[cell.array].name.as_slice())?;
    push_index(text, cell.index)?;
    push_offset(text, cell.offset)?;
    text.push_str("]")?;
    Ok(())
}
