//! Fields of structs, and the arrays that take their place.

use crate::rewriting::with_words;
use crate::source::{text_of, tokens_of};
use crate::suspect::is_register;
use std::alloc::{AllocError, Global};
use tso_text::{Token, TokenKind};

/// The array that an access wants, and its line with that array.
#[derive(Drop)]
pub struct Wanted {
    pub array: Vec<u8>,
    pub line: Vec<u8>,
}

// What stands in the brackets of an access: what it begins with, a register that is an index, and a displacement.
#[derive(Clone, Copy)]
struct Access {
    base: Token,
    end: Token,
    index: Option<Token>,
    displacement: Option<Token>,
}

// The access with what stands behind one of its signs; none where that has no place in one.
fn with_piece(line: &[u8], access: Access, piece: &[Token]) -> Option<Access> {
    match piece {
        [number] => {
            if number.kind == TokenKind::Number && access.displacement.is_none() {
                Some(Access {
                    displacement: Some(*number),
                    ..access
                })
            } else {
                None
            }
        }
        [register, star, _scale] => {
            if star.kind == TokenKind::Star
                && is_register(text_of(line, *register))
                && access.index.is_none()
            {
                Some(Access {
                    index: Some(*register),
                    ..access
                })
            } else {
                None
            }
        }
        _ => None,
    }
}

// What stands between the brackets of a line.
fn access_of(line: &[u8], tokens: &[Token]) -> Option<Access> {
    let open = tokens
        .iter()
        .position(|token| token.kind == TokenKind::Open)?;
    let close = tokens
        .iter()
        .position(|token| token.kind == TokenKind::Close)?;
    let inside = tokens.get(open.saturating_add(1)..close)?;
    let base = inside.first().copied()?;
    let end = inside.last().copied()?;
    let mut access = Access {
        base,
        end,
        index: None,
        displacement: None,
    };
    for piece in inside
        .get(1..)?
        .split(|token| token.kind == TokenKind::Plus)
        .skip(1)
    {
        access = with_piece(line, access, piece)?;
    }
    if base.kind == TokenKind::Word {
        Some(access)
    } else {
        None
    }
}

// The name of a field: what the access begins with, and where in the struct it is.
fn name_of_field(alloc: Global, line: &[u8], access: Access) -> Result<Vec<u8>, AllocError> {
    let mut name = Vec::new(alloc);
    name.extend_from_slice(text_of(line, access.base))?;
    match access.displacement {
        Some(number) => {
            name.push(b'_')?;
            name.extend_from_slice(text_of(line, number))?;
        }
        None => {
            if is_register(text_of(line, access.base)) {
                name.extend_from_slice(b"_0")?;
            }
        }
    }
    Ok(name)
}

// The field's name with the index of the access.
fn indexed(alloc: Global, line: &[u8], access: Access, name: &[u8]) -> Result<Vec<u8>, AllocError> {
    let mut all = Vec::from_slice(alloc, name)?;
    if let Some(register) = access.index {
        all.extend_from_slice(b" + ")?;
        all.extend_from_slice(text_of(line, register))?;
        all.extend_from_slice(b"*8")?;
    }
    Ok(all)
}

/// The array of its own that a field of a struct wants, and the line with it.
///
/// Errors: out of memory.
pub fn field(alloc: Global, line: &[u8]) -> Result<Option<Wanted>, AllocError> {
    let Some(access) = access_of(line, &tokens_of(alloc, line)) else {
        return Ok(None);
    };
    let array = name_of_field(alloc, line, access)?;
    let inside = indexed(alloc, line, access, &array)?;
    let line = with_words(alloc, line, access.base.start, &inside, access.end.end)?;
    Ok(Some(Wanted { array, line }))
}

/// The array and the displacement of an access by these two alone.
pub fn constant_access<'a>(alloc: Global, line: &'a [u8]) -> Option<(&'a [u8], u64)> {
    let access = access_of(line, &tokens_of(alloc, line))?;
    if access.index.is_some() {
        return None;
    }
    let displacement = match access.displacement {
        Some(number) => number_of(text_of(line, number))?,
        None => 0,
    };
    Some((text_of(line, access.base), displacement))
}

/// The number that is written in these decimal digits.
pub fn number_of(digits: &[u8]) -> Option<u64> {
    match std::str::from_utf8(digits) {
        Ok(digits) => digits.parse::<u64>().ok(),
        Err(_) => None,
    }
}
