//! Plain instructions that do what a locked one does, but for its lock.

use crate::lines::lines_of;
use std::alloc::{AllocError, Global};
use tso_line::register_word;
use tso_list::Seq;
use tso_prog::{Address, Client, Register};

/// A locked instruction: its cell as a text has it, and its register.
#[derive(Drop)]
pub struct Locked {
    pub cell: String,
    pub register: Register,
}

// The index of a cell as a text has it.
fn index_text(alloc: Global, address: &Address<usize>) -> Result<String, AllocError> {
    match address.index {
        Some(register) => {
            let word = register_word(register);
            format!(in alloc; " + {word}*8")
        }
        None => Ok(String::new(alloc)),
    }
}

// The displacement of a cell as a text has it, in bytes.
fn displacement_text(alloc: Global, cells: i64) -> Result<String, AllocError> {
    let bytes = cells.unsigned_abs().saturating_mul(8);
    if cells == 0 {
        Ok(String::new(alloc))
    } else if cells < 0 {
        format!(in alloc; " - {bytes}")
    } else {
        format!(in alloc; " + {bytes}")
    }
}

/// A cell as a text has it.
///
/// Errors: where a growth was refused.
pub fn cell_text(
    alloc: Global,
    client: &Client,
    address: &Address<usize>,
) -> Result<String, AllocError> {
    let name = match client.arrays.get(address.array) {
        Some(array) => std::str::from_utf8(array.name.as_slice()).unwrap_or(""),
        None => "",
    };
    let index = index_text(alloc, address)?;
    let displacement = displacement_text(alloc, address.offset)?;
    format!(in alloc; "qword ptr [{name}{index}{displacement}]")
}

// The lines of a text.
fn as_lines(alloc: Global, text: String) -> Result<Vec<Seq<u8>>, AllocError> {
    let lines = lines_of(alloc, text.as_str().as_bytes())?;
    Ok(lines.into_vec())
}

/// One line.
///
/// Errors: where a growth was refused.
pub fn one_line(alloc: Global, line: String) -> Result<Vec<Seq<u8>>, AllocError> {
    let mut lines = Vec::new(alloc);
    lines.push(Seq::from_vec(line.into_bytes()))?;
    Ok(lines)
}

/// A plain store in place of `xchg`, which leaves the register as it is.
///
/// Errors: where a growth was refused.
pub fn store_line(alloc: Global, locked: &Locked) -> Result<Vec<Seq<u8>>, AllocError> {
    let (cell, register) = (locked.cell.as_str(), register_word(locked.register));
    one_line(alloc, format!(in alloc; "mov {cell}, {register}")?)
}

/// A load, a sum and a store in place of `lock xadd`, whose cell has another index than its register: the same values and flags,
/// by way of a register that is free.
///
/// Errors: where a growth was refused.
pub fn add_lines(
    alloc: Global,
    locked: &Locked,
    free: Register,
) -> Result<Vec<Seq<u8>>, AllocError> {
    let (cell, register) = (locked.cell.as_str(), register_word(locked.register));
    let free = register_word(free);
    let text = format!(in alloc;
        "mov {free}, {cell}\nadd {register}, {free}\nmov {cell}, {register}\nmov {register}, {free}"
    )?;
    as_lines(alloc, text)
}

/// A load, a comparison and a store in place of `lock cmpxchg`: the same values and flags, by way of a register that is free and of
/// a label. Where the two are equal the last line changes nothing.
///
/// Errors: where a growth was refused.
pub fn compare_lines(
    alloc: Global,
    locked: &Locked,
    free: Register,
    label: &str,
) -> Result<Vec<Seq<u8>>, AllocError> {
    let (cell, register) = (locked.cell.as_str(), register_word(locked.register));
    let free = register_word(free);
    let text = format!(in alloc;
        "mov {free}, {cell}\ncmp rax, {free}\njne {label}\nmov {cell}, {register}\n{label}:\nmov rax, {free}"
    )?;
    as_lines(alloc, text)
}

// Whether a word stands in a text.
fn stands_in(text: &[u8], word: &[u8]) -> bool {
    !word.is_empty() && text.windows(word.len()).any(|part| part == word)
}

/// A label that a text does not have.
///
/// Errors: where a growth was refused.
pub fn new_label(alloc: Global, text: &[u8]) -> Result<String, AllocError> {
    let mut label = String::from_str(alloc, "other")?;
    for number in 0..text.len() {
        if !stands_in(text, label.as_bytes()) {
            break;
        }
        label = format!(in alloc; "other{number}")?;
    }
    Ok(label)
}
