//! Lines as compilers write them, in the words that are read here.

use crate::lines::put_shown;
use crate::page::Page;
use std::alloc::{AllocError, Global};
use tso_prog::{Code, Fault};
use tso_source::{
    Wanted, constant_access, cut, field, line, number_of, respelled, text_of, tokens_of, warning,
};

/// The text with another line at this number.
///
/// Errors: where a growth was refused.
pub fn with_line(
    alloc: Global,
    text: &[u8],
    number: usize,
    new: &[u8],
) -> Result<Vec<u8>, AllocError> {
    let mut all = Vec::new(alloc);
    let mut rest = text;
    for at in 1..=text.len() {
        let Some((line, after)) = cut(rest) else {
            break;
        };
        all.extend_from_slice(if at == number { new } else { line })?;
        all.push(b'\n')?;
        rest = after;
    }
    all.extend_from_slice(rest)?;
    Ok(all)
}

/// What stands in place of a line that compilers write.
#[derive(Drop)]
pub enum Replacement {
    /// A line, or two, that are accepted there; none if the line is left out.
    Lines(Vec<u8>),
    /// A line that is accepted once there is an array of this name.
    With(Wanted),
}

// How far a text is read.
#[derive(Clone, Copy, PartialEq, Eq)]
enum ReadUpTo {
    /// Beyond the line.
    Beyond,
    /// Up to the line, which names an array that is not there.
    Name,
    /// Not so far, or the line has another fault.
    Before,
}

// How far a text is read, with another line at this number.
fn reach(alloc: Global, text: &[u8], number: usize, new: &[u8]) -> Result<ReadUpTo, AllocError> {
    let text = with_line(alloc, text, number, new)?;
    match tso_prog::read(alloc, &text) {
        Ok(_) => Ok(ReadUpTo::Beyond),
        Err(tso_prog::ReadError::Refused(fault)) => {
            let at = fault.line as usize;
            if at > number || at < number && fault.code == Code::E07 {
                Ok(ReadUpTo::Beyond)
            } else if at == number && fault.code == Code::E07 {
                Ok(ReadUpTo::Name)
            } else {
                Ok(ReadUpTo::Before)
            }
        }
        Err(tso_prog::ReadError::Memory) => Err(AllocError),
    }
}

// How far a text is read with the first and then with the second of two lines at this number, whichever is less; or with the one.
fn reach_of_lines(
    alloc: Global,
    text: &[u8],
    number: usize,
    lines: &[u8],
) -> Result<ReadUpTo, AllocError> {
    let Some((first, second)) = cut(lines) else {
        return reach(alloc, text, number, lines);
    };
    match reach(alloc, text, number, first)? {
        ReadUpTo::Beyond => reach(alloc, text, number, second),
        other => Ok(other),
    }
}

// How many words an array of the text has; none if there is no such array.
fn word_count(alloc: Global, text: &[u8], array: &[u8]) -> u64 {
    let mut rest = text;
    for _above in 0..text.len() {
        let Some((line, after)) = cut(rest) else {
            break;
        };
        if let Some(count) = declared_count(alloc, line, array) {
            return count;
        }
        rest = after;
    }
    0
}

// How many words the array has that a line declares, if it has this name.
fn declared_count(alloc: Global, line: &[u8], array: &[u8]) -> Option<u64> {
    match tokens_of(alloc, line).as_slice() {
        [directive, name, count, ..] => {
            if text_of(line, *directive) == b".array".as_slice() && text_of(line, *name) == array {
                number_of(text_of(line, *count))
            } else {
                None
            }
        }
        _ => None,
    }
}

// Whether a line's access is to a word that its array has, or has an index, so that nothing is known.
fn is_within(alloc: Global, text: &[u8], line: &[u8]) -> bool {
    match constant_access(alloc, line) {
        Some((array, displacement)) => displacement / 8 < word_count(alloc, text, array),
        None => true,
    }
}

// What stands in place of a line that is written so in the words that are read here.
fn in_place(
    alloc: Global,
    text: &[u8],
    number: usize,
    line: &[u8],
    new: Vec<u8>,
) -> Result<Option<Replacement>, AllocError> {
    if reach_of_lines(alloc, text, number, &new)? == ReadUpTo::Beyond
        && is_within(alloc, text, &new)
    {
        return Ok(Some(Replacement::Lines(new)));
    }
    let Some(wanted) = field(alloc, &new)? else {
        return Ok(None);
    };
    let is_new = wanted.line.as_slice() != line;
    if is_new && reach(alloc, text, number, &wanted.line)? == ReadUpTo::Name {
        return Ok(Some(Replacement::With(wanted)));
    }
    Ok(None)
}

/// What stands in place of the line of a fault, if it is one that compilers write: with capitals, with other names of jumps, with
/// labels that a dot begins, with registers of 32 bits, with memory as `head[rip]`, `8[rdx]`, `[rip + head]` or `[head]`, an index
/// as `8*rcx`, an exchange with the register first, a sum by `lea`, operands in the order of AT&T syntax, a comment behind `#`, a
/// field of a struct, or a fence that is written as a locked instruction on the stack.
///
/// Errors: out of memory.
pub fn instead(
    alloc: Global,
    text: &[u8],
    fault: Fault,
) -> Result<Option<Replacement>, AllocError> {
    let number = fault.line as usize;
    let Some(line) = line(text, number) else {
        return Ok(None);
    };
    if !matches!(fault.code, Code::E03 | Code::E04 | Code::E05 | Code::E07) {
        return Ok(None);
    }
    let new = respelled(alloc, line)?;
    in_place(alloc, text, number, line, new)
}

// Shows each of the lines behind a number.
fn put_lines(
    alloc: Global,
    page: &mut Page,
    number: usize,
    lines: &[u8],
) -> Result<(), AllocError> {
    match cut(lines) {
        Some((first, second)) => {
            put_shown(alloc, page, number, first)?;
            put_shown(alloc, page, number, second)
        }
        None => put_shown(alloc, page, number, lines),
    }
}

// Says what has to be known of the line that stands in place of this one.
fn put_warning(
    alloc: Global,
    page: &mut Page,
    text: &[u8],
    number: usize,
) -> Result<(), AllocError> {
    let Some(line) = line(text, number) else {
        return Ok(());
    };
    let said = warning(line, &tokens_of(alloc, line));
    if said.is_empty() {
        return Ok(());
    }
    page.say(said)?;
    page.say("\n")
}

/// Shows what stands in place of the line of a fault, behind what has to be known of it.
///
/// Errors: out of memory.
pub fn put_new(
    alloc: Global,
    page: &mut Page,
    text: &[u8],
    fault: Fault,
    new: &Replacement,
) -> Result<(), AllocError> {
    let number = fault.line as usize;
    match new {
        Replacement::Lines(lines) => {
            if lines.trim_ascii().is_empty() {
                return page.say("Leave the line out.\n");
            }
            put_warning(alloc, page, text, number)?;
            page.say("Written so it is accepted:\n")?;
            put_lines(alloc, page, number, lines)
        }
        Replacement::With(wanted) => {
            put_warning(alloc, page, text, number)?;
            page.say("A field of a struct has an array of its own. With an array `")?;
            page.put(&wanted.array)?;
            page.say("` it is accepted so:\n")?;
            put_shown(alloc, page, number, &wanted.line)
        }
    }
}

/// Shows what stands in place of the line of a fault, if it is one that compilers write.
///
/// Errors: out of memory.
pub fn put_instead(
    alloc: Global,
    page: &mut Page,
    text: &[u8],
    fault: Fault,
) -> Result<(), AllocError> {
    match instead(alloc, text, fault)? {
        Some(new) => put_new(alloc, page, text, fault, &new),
        None => Ok(()),
    }
}
