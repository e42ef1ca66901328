//! The cells that an instruction itself may access, where registers lie in intervals.

ghost use Rattle.std.specs.Prelude.{◌≡◌, option_to_list, Some};
ghost use Rattle.tso_cells.specs.Cells.{cut, greatest_index, index_interval, least_index, operand_cells, own_reads, own_writes};

use crate::interval::Interval;
use crate::lists::array_len;
use crate::moving::register_number;
use crate::table::Cells;
use tso_line::{Address, Instruction, Register};
use tso_prog::{Array, Step};

// The interval of the index register. Without one the index is 0.
fn index_interval(registers: &[Interval; 15], index: Option<Register>) -> Interval
    ensures { result ≡ index_interval registers.now index }
{
    match index {
        Some(register) => registers[register_number(register)],
        None => Interval::alone(0),
    }
}

// The least index that is not below 0, of those from `lo` on with a displacement.
fn least_index(lo: u64, offset: i64) -> u128
    ensures { result ≡ least_index lo offset }
{
    u128::from(lo).saturating_add_signed(i128::from(offset))
}

// The greatest index, of those up to `hi` with a displacement, if it is not below 0.
fn greatest_index(hi: u64, offset: i64) -> Option<u128>
    ensures { result ≡ greatest_index hi offset }
{
    u128::from(hi).checked_add_signed(i128::from(offset))
}

// The cells from one index to another, cut to an array of so many words; none where nothing is left.
fn cut(array: usize, size: usize, lo: u128, hi: u128) -> Option<Cells>
    ensures { option_to_list result ≡ cut array size lo (Some hi) }
{
    let size = size as u128;
    if lo >= size || lo > hi {
        return None;
    }
    Some(Cells {
        array,
        lo: lo as usize,
        hi: hi.min(size - 1) as usize,
    })
}

// The cells of a memory operand: the words of its index register and its displacement, in whole numbers, as far as they are inside
// its array.
fn operand_cells(
    arrays: &[Array],
    registers: &[Interval; 15],
    address: Address<usize>,
) -> Option<Cells>
    ensures { option_to_list result ≡ operand_cells arrays.now registers.now address }
{
    let index = index_interval(registers, address.index);
    let size = array_len(arrays, address.array);
    let lo = least_index(index.lo, address.offset);
    let hi = greatest_index(index.hi, address.offset)?;
    cut(address.array, size, lo, hi)
}

/// The cells that an instruction itself may read, where registers lie in these intervals; a locked one reads and writes its cell.
pub fn own_reads(arrays: &[Array], registers: &[Interval; 15], step: Step) -> Option<Cells>
    ensures { option_to_list result ≡ own_reads arrays.now registers.now step }
{
    match step {
        Instruction::Load { from: cell, .. } | Instruction::Locked { cell, .. } => {
            operand_cells(arrays, registers, cell)
        }
        _ => None,
    }
}

/// The cells that an instruction itself may write, where registers lie in these intervals.
pub fn own_writes(arrays: &[Array], registers: &[Interval; 15], step: Step) -> Option<Cells>
    ensures { option_to_list result ≡ own_writes arrays.now registers.now step }
{
    match step {
        Instruction::Store { to: cell, .. } | Instruction::Locked { cell, .. } => {
            operand_cells(arrays, registers, cell)
        }
        _ => None,
    }
}
