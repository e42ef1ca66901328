//! A program's text with a mark at each line.

use crate::fact::Facts;
use crate::mark::Mark;
use std::alloc::{AllocError, Global};

// What stands before a line.
fn word(mark: Option<Mark>) -> &'static str {
    match mark {
        Some(Mark::NeverMet) => "never met",
        Some(Mark::Met) => "met      ",
        Some(Mark::Cut) => "cut here ",
        None => "         ",
    }
}

// Adds a line behind its number and its mark.
fn put_line(
    alloc: Global,
    text: &mut Vec<u8>,
    number: usize,
    mark: Option<Mark>,
    line: &[u8],
) -> Result<(), AllocError> {
    let word = word(mark);
    text.extend_from_slice(
        format!(in alloc; "{number:>4} {word} | ")?
            .as_str()
            .as_bytes(),
    )?;
    text.extend_from_slice(line)?;
    text.push(b'\n')?;
    Ok(())
}

/// The lines of a program's text behind their numbers, each that has an instruction with its mark.
///
/// Errors: where a growth was refused.
pub fn marked(alloc: Global, program: &[u8], facts: &Facts) -> Result<Vec<u8>, AllocError> {
    let mut text = Vec::new(alloc);
    let program = program.strip_suffix(b"\n").unwrap_or(program);
    for (index, line) in program.split(|byte| *byte == b'\n').enumerate() {
        let number = index.saturating_add(1);
        put_line(alloc, &mut text, number, facts.mark_at(number), line)?;
    }
    Ok(text)
}
