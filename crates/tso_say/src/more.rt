//! The faults of a text behind its first, as they show if those before them are mended.

use crate::instead::{Replacement, instead, put_new, with_line};
use crate::lines::put_fault;
use crate::page::Page;
use crate::reason::{is_inside, put_reason, refused_behind};
use std::alloc::{AllocError, Global};
use tso_prog::{Code, Fault};
use tso_source::cut;

// So many faults are told behind the first: as many as there can be instructions. Of the others it is said how many there are.
const MOST: usize = 256;

// The fault of a text, if it has one.
fn fault_of(alloc: Global, text: &[u8]) -> Option<Fault> {
    match tso_prog::read(alloc, text) {
        Err(tso_prog::ReadError::Refused(fault)) => Some(fault),
        Err(tso_prog::ReadError::Memory) => None,
        Ok(client) => match tso_flow::check(alloc, client) {
            Err(tso_flow::FlowError::Refused(fault)) => Some(fault),
            _ => None,
        },
    }
}

// Whether a fault is one of an instruction's or a label's line, with which the others can be read.
fn is_of_line(alloc: Global, text: &[u8], fault: Fault) -> bool {
    let is_told = match fault.code {
        Code::E03 | Code::E04 | Code::E05 | Code::E06 => true,
        Code::E07 | Code::E10 | Code::E12 | Code::E13 => true,
        _ => false,
    };
    is_told && is_inside(alloc, text, fault.line as usize)
}

// The text without this fault: with its line as it is accepted, the first if there are two, or else with another instruction there.
fn without(alloc: Global, text: &[u8], fault: Fault) -> Result<Vec<u8>, AllocError> {
    let number = fault.line as usize;
    match instead(alloc, text, fault)? {
        Some(Replacement::Lines(new)) => match cut(&new) {
            Some((first, _)) => with_line(alloc, text, number, first),
            None => with_line(alloc, text, number, &new),
        },
        _ => with_line(alloc, text, number, b"nop"),
    }
}

// Why the line of a fault is refused, of codes with one reason.
fn brief(code: Code) -> &'static str {
    match code {
        Code::E06 => "The name is given twice.\n",
        Code::E07 => "No array, or no label of this procedure, has this name.\n",
        Code::E10 => "It is locked here: `lock` stands before it.\n",
        Code::E12 =>
            "A jump back says how often it may be taken in one call, as `bound 2` behind the label.\n",
        Code::E13 => "A jump forward has no bound.\n",
        _ => "",
    }
}

// One of the faults: its code, its line, and what stands in place of the line, or else the reason.
fn put_one(alloc: Global, page: &mut Page, text: &[u8], fault: Fault) -> Result<(), AllocError> {
    page.say_made(format!(in alloc; "{fault}\n"))?;
    put_fault(alloc, page, text, fault)?;
    match instead(alloc, text, fault)? {
        Some(new) => put_new(alloc, page, text, fault, &new),
        None => {
            page.say(brief(fault.code))?;
            put_reason(alloc, page, text, fault)
        }
    }
}

// The next fault behind one of a line, if that is mended, and if it is one of a line too; and the text in which it shows.
fn next(alloc: Global, text: &[u8], fault: Fault) -> Result<Option<(Vec<u8>, Fault)>, AllocError> {
    if !is_of_line(alloc, text, fault) {
        return Ok(None);
    }
    let mended = without(alloc, text, fault)?;
    match fault_of(alloc, &mended) {
        Some(behind) => {
            if is_of_line(alloc, &mended, behind) {
                return Ok(Some((mended, behind)));
            }
            Ok(None)
        }
        None => Ok(None),
    }
}

// How many lines behind a fault are refused by themselves, if any are.
fn put_count(alloc: Global, page: &mut Page, text: &[u8], fault: Fault) -> Result<(), AllocError> {
    let count = refused_behind(alloc, text, fault.line as usize)?;
    if count == 0 {
        return Ok(());
    }
    page.say_made(format!(in alloc; "Behind them {count} more lines are refused.\n"))
}

// The faults behind one, so many at the most, and then how many there are besides.
fn put_behind(
    alloc: Global,
    page: &mut Page,
    text: &[u8],
    fault: Fault,
    most: usize,
) -> Result<(), AllocError> {
    if most == 0 {
        return put_count(alloc, page, text, fault);
    }
    match next(alloc, text, fault)? {
        Some((mended, behind)) => {
            put_one(alloc, page, &mended, behind)?;
            put_behind(alloc, page, &mended, behind, most - 1)
        }
        None => Ok(()),
    }
}

/// Tells the faults of lines of push and pop that a text has behind its first, if that is such a one.
///
/// Errors: out of memory.
pub fn put_more(
    alloc: Global,
    page: &mut Page,
    text: &[u8],
    fault: Fault,
) -> Result<(), AllocError> {
    match next(alloc, text, fault)? {
        Some((mended, behind)) => {
            page.say("Behind it, with what comes before mended:\n")?;
            put_one(alloc, page, &mended, behind)?;
            put_behind(alloc, page, &mended, behind, MOST - 1)
        }
        None => Ok(()),
    }
}
