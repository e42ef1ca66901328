//! Where in its line a fault stands.

ghost use Rattle.std.specs.Prelude.{◌≡◌, ◌<◌, ◌≤◌, length, IfOk, IfSome};
ghost use Rattle.tso_source.specs.Places.{IsPlaceIn};

use crate::suspect;
use std::alloc::{AllocError, Global};
use tso_flow::Location;
use tso_prog::Code;
use tso_text::{LexError, Token, lex};

/// Some bytes of a line: those from `start` up to `end`, which is not one of them.
#[derive(Clone, Copy, PartialEq, Eq)]
pub struct Place {
    pub start: usize,
    pub end: usize,
}

// The place of a token, if the line has it.
fn place_in(line: &[u8], token: Token) -> Option<Place>
    ensures { IfSome result (IsPlaceIn line.now) }
{
    if token.start < token.end && token.end <= line.len() {
        Some(Place {
            start: token.start,
            end: token.end,
        })
    } else {
        None
    }
}

fn is_fine(byte: u8) -> bool {
    matches!(byte, b'\t' | b' '..=b'~')
}

// The first byte that may stand in no text.
fn bad_byte(line: &[u8]) -> Option<Place>
    ensures { IfSome result (IsPlaceIn line.now) }
{
    for (start, byte) in line.iter().enumerate() {
        if !is_fine(*byte) {
            return Some(Place {
                start,
                end: start + 1,
            });
        }
    }
    None
}

// The tokens of a line; none where it has a byte that may stand in no text.
fn tokens_of(alloc: Global, line: &[u8]) -> Result<Vec<Token>, AllocError> {
    match lex(alloc, line) {
        Ok(tokens) => Ok(tokens),
        Err(LexError::Memory) => Err(AllocError),
        Err(LexError::TooLong | LexError::BadByte { .. }) => Ok(Vec::new(alloc)),
    }
}

/// Where in a line the fault with this code stands, if it has a place of its own there.
///
/// Errors: where a growth was refused.
pub fn place_of_fault(alloc: Global, line: &[u8], code: Code) -> Result<Option<Place>, AllocError>
    ensures { IfOk result (λ place. IfSome place (IsPlaceIn line.now)) }
{
    if let Code::E02 = code {
        return Ok(bad_byte(line));
    }
    let tokens = tokens_of(alloc, line)?;
    match suspect::of_code(line, &tokens, code) {
        Some(token) => Ok(place_in(line, token)),
        None => Ok(None),
    }
}

/// Where in the line of an instruction a register is named, or else its first word.
///
/// Errors: where a growth was refused.
pub fn place_of_location(
    alloc: Global,
    line: &[u8],
    location: Location,
) -> Result<Option<Place>, AllocError>
    ensures { IfOk result (λ place. IfSome place (IsPlaceIn line.now)) }
{
    let tokens = tokens_of(alloc, line)?;
    match suspect::of_location(line, &tokens, location) {
        Some(token) => Ok(place_in(line, token)),
        None => Ok(None),
    }
}
