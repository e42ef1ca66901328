//! Lines that stand for an instruction that is not read here.

use crate::narrow::unsized_name;
use crate::source::{text_of, tokens_of};
use crate::suspect::{is_register, unlocked};
use std::alloc::{AllocError, Global};
use tso_text::{Token, TokenKind};

/// The line up to a byte, then these words, and then the line from another byte on.
///
/// Errors: out of memory.
pub fn with_words(
    alloc: Global,
    line: &[u8],
    upto: usize,
    words: &[u8],
    from: usize,
) -> Result<Vec<u8>, AllocError> {
    let mut all = Vec::new(alloc);
    all.extend_from_slice(line.get(..upto).unwrap_or(&[]))?;
    all.extend_from_slice(words)?;
    all.extend_from_slice(line.get(from..).unwrap_or(&[]))?;
    Ok(all)
}

// The words one after the other.
fn joined(
    alloc: Global,
    first: &[u8],
    second: &[u8],
    third: &[u8],
    last: &[u8],
) -> Result<Vec<u8>, AllocError> {
    let mut all = Vec::new(alloc);
    all.extend_from_slice(first)?;
    all.extend_from_slice(second)?;
    all.extend_from_slice(third)?;
    all.extend_from_slice(last)?;
    Ok(all)
}

// The register of an exclusive or of a register with itself.
fn cleared(line: &[u8], tokens: &[Token]) -> Option<Token> {
    let [name, register, _comma, other] = tokens else {
        return None;
    };
    let is_same = text_of(line, *register) == text_of(line, *other);
    if text_of(line, *name) == b"xor".as_slice() && is_same && is_register(text_of(line, *other)) {
        Some(*register)
    } else {
        None
    }
}

/// The line that puts 0 into a register, if it clears the register by an exclusive or.
///
/// Errors: out of memory.
pub fn zeroed(alloc: Global, line: Vec<u8>) -> Result<Vec<u8>, AllocError> {
    let tokens = tokens_of(alloc, &line);
    let (Some(name), Some(register)) = (tokens.first().copied(), cleared(&line, &tokens)) else {
        return Ok(line);
    };
    let front = line.get(..name.start).unwrap_or(&[]);
    joined(alloc, front, b"mov ", text_of(&line, register), b", 0")
}

// The name with a size, and the two operands behind it: the first token of the first, and the comma.
fn sized_operands(line: &[u8], tokens: &[Token]) -> Option<(Token, Token, Token)> {
    let [name, first, rest @ ..] = unlocked(line, tokens) else {
        return None;
    };
    unsized_name(text_of(line, *name))?;
    let comma = rest
        .iter()
        .copied()
        .find(|token| token.kind == TokenKind::Comma)?;
    Some((*name, *first, comma))
}

/// The line without the size behind its instruction's name, and with its operands turned: of AT&T syntax the first is the source.
///
/// Errors: out of memory.
pub fn turned_round(alloc: Global, line: Vec<u8>) -> Result<Vec<u8>, AllocError> {
    let Some((name, first, comma)) = sized_operands(&line, &tokens_of(alloc, &line)) else {
        return Ok(line);
    };
    let word = text_of(&line, name);
    let front = line.get(..name.start).unwrap_or(&[]);
    let to = line.get(comma.end..).unwrap_or(&[]);
    let from = line.get(first.start..comma.start).unwrap_or(&[]);
    let name = unsized_name(word).unwrap_or(word);
    let begun = joined(alloc, front, name, b" ", to.trim_ascii())?;
    joined(alloc, &begun, b", ", from.trim_ascii(), b"")
}

// A sum that `lea` puts into a register: where it is put, its base, the sign, and what is added.
#[derive(Clone, Copy)]
struct Sum {
    to: Token,
    base: Token,
    sign: Token,
    other: Token,
}

// The sum of a line's `lea`, if it is that of a register and a number or another register.
fn sum_of(line: &[u8], tokens: &[Token]) -> Option<Sum> {
    let [name, to, _comma, rest @ ..] = tokens else {
        return None;
    };
    let open = rest.iter().position(|token| token.kind == TokenKind::Open)?;
    let [base, sign, other, close] = rest.get(open.saturating_add(1)..)? else {
        return None;
    };
    let is_sum = matches!(sign.kind, TokenKind::Plus | TokenKind::Minus);
    let is_lea = text_of(line, *name) == b"lea".as_slice() && is_register(text_of(line, *to));
    if is_lea && is_sum && is_register(text_of(line, *base)) && close.kind == TokenKind::Close {
        Some(Sum {
            to: *to,
            base: *base,
            sign: *sign,
            other: *other,
        })
    } else {
        None
    }
}

// The instruction that adds to a register, or takes from it.
fn added(
    alloc: Global,
    front: &[u8],
    sign: TokenKind,
    to: &[u8],
    other: &[u8],
) -> Result<Vec<u8>, AllocError> {
    let name: &[u8] = match sign {
        TokenKind::Minus => b"sub ",
        _ => b"add ",
    };
    let begun = joined(alloc, front, name, to, b", ")?;
    joined(alloc, &begun, other, b"", b"")
}

// The instructions in place of such a `lea`, on a line each.
fn of_sum(alloc: Global, line: &[u8], front: &[u8], sum: Sum) -> Result<Vec<u8>, AllocError> {
    let to = text_of(line, sum.to);
    let base = text_of(line, sum.base);
    let other = text_of(line, sum.other);
    if to == base {
        return added(alloc, front, sum.sign.kind, to, other);
    }
    if to == other {
        return added(alloc, front, sum.sign.kind, to, base);
    }
    let begun = joined(alloc, front, b"mov ", to, b", ")?;
    let both = joined(alloc, &begun, base, b"\n", front)?;
    added(alloc, &both, sum.sign.kind, to, other)
}

/// The line, or the lines in place of a `lea` that adds a number or a register to a register.
///
/// Errors: out of memory.
pub fn summed(alloc: Global, line: Vec<u8>) -> Result<Vec<u8>, AllocError> {
    let tokens = tokens_of(alloc, &line);
    let (Some(name), Some(sum)) = (tokens.first().copied(), sum_of(&line, &tokens)) else {
        return Ok(line);
    };
    let front = line.get(..name.start).unwrap_or(&[]);
    of_sum(alloc, &line, front, sum)
}
