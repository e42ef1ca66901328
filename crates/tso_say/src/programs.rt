//! Why a program is refused.

use crate::instead::put_instead;
use crate::lines::{put_fault, put_meaning, put_number, put_read};
use crate::more::put_more;
use crate::page::Page;
use crate::reading::{UnwrittenRead, location_word, unwritten};
use crate::reason::{is_within_procedure, put_reason};
use std::alloc::{AllocError, Global};
use tso_machine::procedure_of;
use tso_prog::{Client, Code, Fault};

// How many instructions of a way are shown before its last.
const SHOWN: usize = 6;

// The line of the instruction at a position.
fn put_step(
    alloc: Global,
    page: &mut Page,
    text: &[u8],
    lines: &[u32],
    position: usize,
) -> Result<(), AllocError> {
    match lines.get(position) {
        Some(number) => put_number(alloc, page, text, *number as usize),
        None => Ok(()),
    }
}

// The first instructions on the way to a read, and the read itself.
fn put_way(
    alloc: Global,
    page: &mut Page,
    text: &[u8],
    lines: &[u32],
    path: &[usize],
) -> Result<(), AllocError> {
    put_step(alloc, page, text, lines, 0)?;
    for (number, position) in path.iter().enumerate() {
        if number < SHOWN || number >= path.len() - 1 {
            put_step(alloc, page, text, lines, *position)?;
        } else if number == SHOWN {
            page.say("       ..\n")?;
        }
    }
    Ok(())
}

// Which register or flag is read unwritten, and how control comes there.
fn put_unwritten(
    alloc: Global,
    page: &mut Page,
    text: &[u8],
    client: &Client,
    number: usize,
    found: &UnwrittenRead,
) -> Result<(), AllocError> {
    put_read(alloc, page, text, number, found.location)?;
    let word = location_word(found.location);
    page.say_made(format!(in alloc;
        "{word} is read here, and nothing on this way from the first instruction has written it:\n"
    ))?;
    let lines = procedure_of(client, found.kind).lines.as_slice();
    put_way(alloc, page, text, lines, &found.path)
}

// The read of something unwritten on the line of a fault, where the client has one there.
fn put_found(
    alloc: Global,
    page: &mut Page,
    text: &[u8],
    client: &Client,
    fault: Fault,
) -> Result<(), AllocError> {
    match unwritten(alloc, client, fault.line)? {
        Some(found) => put_unwritten(alloc, page, text, client, fault.line as usize, &found),
        None => put_fault(alloc, page, text, fault),
    }
}

// The same, where the text is a client's.
fn put_flow(alloc: Global, page: &mut Page, text: &[u8], fault: Fault) -> Result<(), AllocError> {
    match tso_prog::read(alloc, text) {
        Ok(client) => put_found(alloc, page, text, &client, fault),
        Err(_) => put_fault(alloc, page, text, fault),
    }
}

// What the code means, and how to see more of it; of an instruction without a shape the second alone.
fn put_code(alloc: Global, page: &mut Page, text: &[u8], fault: Fault) -> Result<(), AllocError> {
    if is_within_procedure(alloc, text, fault) {
        return page.say("`tsoq explain E03` shows it in small.\n");
    }
    let code = fault.code;
    put_meaning(alloc, page, format!(in alloc; "{code}")?.as_str())
}

/// Says why a program is refused: the line of the fault with a mark, how control comes to a read of something unwritten, what the
/// code means, and which lines behind it are refused by themselves.
///
/// Errors: where a growth was refused.
pub fn put_program(
    alloc: Global,
    page: &mut Page,
    text: &[u8],
    fault: Fault,
) -> Result<(), AllocError> {
    match fault.code {
        Code::E14 => put_flow(alloc, page, text, fault)?,
        _ => put_fault(alloc, page, text, fault)?,
    }
    put_reason(alloc, page, text, fault)?;
    put_instead(alloc, page, text, fault)?;
    put_code(alloc, page, text, fault)?;
    put_more(alloc, page, text, fault)
}
