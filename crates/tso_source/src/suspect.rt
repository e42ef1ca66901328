//! The token of a line at which a fault shows.

use crate::source::text_of;
use tso_flow::Location;
use tso_line::register_word;
use tso_prog::Code;
use tso_text::{Token, TokenKind};

fn is_word(token: Token) -> bool {
    matches!(token.kind, TokenKind::Word)
}

fn is_number(token: Token) -> bool {
    matches!(token.kind, TokenKind::Number)
}

/// Whether this word stands among a list with bars between.
pub fn is_among(word: &[u8], list: &str) -> bool {
    list.as_bytes()
        .split(|byte| *byte == b'|')
        .any(|known| known == word)
}

/// Whether the word is a register's.
pub fn is_register(word: &[u8]) -> bool {
    is_among(
        word,
        "rax|rbx|rcx|rdx|rsi|rdi|rbp|r8|r9|r10|r11|r12|r13|r14|r15",
    )
}

fn is_jump(word: &[u8]) -> bool {
    is_among(word, "jmp|je|jne|jb|jae|jbe|ja|jl|jge|jle|jg")
}

// Whether an instruction of this name may name memory.
fn takes_memory(word: &[u8]) -> bool {
    is_among(word, "mov|xchg|cmpxchg|xadd|lock")
}

/// Whether instructions have this name.
pub fn is_mnemonic(word: &[u8]) -> bool {
    is_jump(word)
        || takes_memory(word)
        || is_among(
            word,
            "add|sub|and|or|xor|cmp|test|inc|dec|assert|mfence|nop|pause|ret",
        )
}

/// Whether a dot begins the word.
pub fn is_directive(word: &[u8]) -> bool {
    word.first() == Some(&b'.')
}

// The first token with this text.
fn named(line: &[u8], tokens: &[Token], word: &[u8]) -> Option<Token> {
    tokens
        .iter()
        .copied()
        .find(|token| text_of(line, *token) == word)
}

// The token behind the first one of this kind.
fn behind(tokens: &[Token], kind: TokenKind) -> Option<Token> {
    let at = tokens.iter().position(|token| token.kind == kind)?;
    tokens.get(at.saturating_add(1)).copied()
}

fn first(tokens: &[Token]) -> Option<Token> {
    tokens.first().copied()
}

// The first word that is no directive.
fn name(line: &[u8], tokens: &[Token]) -> Option<Token> {
    tokens.iter().copied().find(|token| is_word(*token) && !is_directive(text_of(line, *token)))
}

// Whether a number is spelled as one: without leading zeros, and decimal or in lower case hexadecimal digits.
fn is_spelled(digits: &[u8]) -> bool {
    match digits {
        [b'0'] => true,
        [b'0', b'x', rest @ ..] => {
            rest.iter().all(|b| matches!(*b, b'0'..=b'9' | b'a'..=b'f')) && !rest.is_empty()
        }
        [b'0', ..] => false,
        _ => digits.iter().all(|b| b.is_ascii_digit()),
    }
}

// The first token that is nothing of the language, or a number that is misspelled.
fn misspelled(line: &[u8], tokens: &[Token]) -> Option<Token> {
    tokens.iter().copied().find(|token| {
        matches!(token.kind, TokenKind::Other)
            || is_number(*token) && !is_spelled(text_of(line, *token))
    })
}

// The first word for memory that is not in small letters.
fn capital(line: &[u8], tokens: &[Token]) -> Option<Token> {
    tokens.iter().copied().find(|token| {
        let word = text_of(line, *token);
        (word.eq_ignore_ascii_case(b"ptr") || word.eq_ignore_ascii_case(b"qword"))
            && !is_among(word, "ptr|qword")
    })
}

// Whether a name or a number stands where the word for memory stands before a bracket.
fn is_misplaced(line: &[u8], token: Token) -> bool {
    let word = text_of(line, token);
    let is_named = is_word(token) || is_number(token);
    is_named && !word.eq_ignore_ascii_case(b"ptr") && !word.eq_ignore_ascii_case(b"qword")
}

/// The name of an instruction and its operands, without the `lock` before them.
pub fn unlocked<'a>(line: &[u8], tokens: &'a [Token]) -> &'a [Token] {
    match tokens {
        [lock, rest @ ..] => {
            if text_of(line, *lock) == b"lock".as_slice() {
                rest
            } else {
                tokens
            }
        }
        _ => tokens,
    }
}

/// Memory as compilers write it, with a name or a number before its brackets.
pub fn outside(line: &[u8], tokens: &[Token]) -> Option<Token> {
    let operands = match unlocked(line, tokens) {
        [_, operands @ ..] => operands,
        _ => return None,
    };
    let open = operands
        .iter()
        .position(|token| matches!(token.kind, TokenKind::Open))?;
    let close = operands
        .iter()
        .copied()
        .find(|token| matches!(token.kind, TokenKind::Close))?;
    let name = operands.get(open.checked_sub(1)?).copied()?;
    if is_misplaced(line, name) {
        Some(Token {
            end: close.end,
            ..name
        })
    } else {
        None
    }
}

/// A word behind the first that a dot begins.
pub fn dotted(line: &[u8], tokens: &[Token]) -> Option<Token> {
    tokens
        .iter()
        .skip(1)
        .copied()
        .find(|token| is_directive(text_of(line, *token)))
}

/// A register that stands where an array's name is wanted.
pub fn register_for_array(line: &[u8], tokens: &[Token]) -> Option<Token> {
    let token = behind(tokens, TokenKind::Open)?;
    let word = text_of(line, token);
    if is_register(word) || is_among(word, "rip|rsp|esp") {
        Some(token)
    } else {
        None
    }
}

// The place of a misshapen instruction, where its name is known.
fn misplaced(line: &[u8], tokens: &[Token]) -> Option<Token> {
    let name = first(tokens)?;
    if is_mnemonic(text_of(line, name)) {
        dotted(line, tokens)
            .or(outside(line, tokens))
            .or(register_for_array(line, tokens))
    } else {
        None
    }
}

// Whether a word behind the first means something where registers and memory are named.
fn is_operand_word(word: &[u8]) -> bool {
    is_register(word) || is_among(word, "qword|ptr|bound|lock")
}

// The first word behind the first token that is neither an operand's nor, behind a bracket, an array's.
fn strange_word(line: &[u8], tokens: &[Token]) -> Option<Token> {
    let array = behind(tokens, TokenKind::Open);
    tokens.iter().skip(1).copied().find(|token| {
        is_word(*token)
            && !is_operand_word(text_of(line, *token))
            && array != Some(*token)
            && !is_mnemonic(text_of(line, *token))
    })
}

// A scale other than 8.
fn strange_scale(line: &[u8], tokens: &[Token]) -> Option<Token> {
    let scale = behind(tokens, TokenKind::Star)?;
    if text_of(line, scale) == b"8".as_slice() {
        None
    } else {
        Some(scale)
    }
}

/// Whether an instruction exchanges a register with memory.
pub fn is_exchange(word: &[u8]) -> bool {
    is_among(word, "xchg|xadd|cmpxchg")
}

// What stands where it may not behind a `lock`, or in an exchange: another instruction, or a register before the memory.
fn misexchanged(line: &[u8], tokens: &[Token]) -> Option<Token> {
    let [name, operand, ..] = unlocked(line, tokens) else {
        return None;
    };
    if !is_exchange(text_of(line, *name)) {
        return Some(*name);
    }
    if is_register(text_of(line, *operand)) {
        return Some(*operand);
    }
    None
}

// What stands where it may not: memory, a register, `bound`, or an instruction behind `lock`.
fn out_of_place(line: &[u8], tokens: &[Token], mnemonic: &[u8]) -> Option<Token> {
    if is_jump(mnemonic) || mnemonic == b"assert".as_slice() {
        return tokens.get(1).copied();
    }
    if mnemonic == b"lock".as_slice() || is_exchange(mnemonic) {
        if let Some(strange) = misexchanged(line, tokens) {
            return Some(strange);
        }
    }
    if !takes_memory(mnemonic) {
        if let Some(memory) = named(line, tokens, b"qword") {
            return Some(memory);
        }
    }
    named(line, tokens, b"bound")
}

// The word of an instruction that is not understood.
fn unknown(line: &[u8], tokens: &[Token]) -> Option<Token> {
    let mnemonic = first(tokens)?;
    let word = text_of(line, mnemonic);
    if is_directive(word) {
        return tokens.get(1).copied();
    }
    if !is_mnemonic(word) {
        return Some(mnemonic);
    }
    if let Some(strange) = out_of_place(line, tokens, word) {
        return Some(strange);
    }
    if let Some(strange) = strange_word(line, tokens) {
        return Some(strange);
    }
    strange_scale(line, tokens)
}

// Whether the number of a displacement is one of whole words.
fn is_even(digits: &[u8]) -> bool {
    match std::str::from_utf8(digits) {
        Ok(number) => match number.parse::<u64>() {
            Ok(number) => number % 8 == 0,
            Err(_) => matches!(digits.last(), Some(b'0' | b'8')),
        },
        Err(_) => false,
    }
}

// The displacement behind this sign.
fn displacement(line: &[u8], tokens: &[Token], sign: TokenKind) -> Option<Token> {
    let token = behind(tokens, sign)?;
    if is_number(token) && !is_even(text_of(line, token)) {
        Some(token)
    } else {
        None
    }
}

// The longest number, the first of several.
fn longest(tokens: &[Token]) -> Option<Token> {
    let mut found: Option<Token> = None;
    for token in tokens {
        let len = token.end.saturating_sub(token.start);
        let most = match found {
            Some(other) => other.end.saturating_sub(other.start),
            None => 0,
        };
        if is_number(*token) && len > most {
            found = Some(*token);
        }
    }
    found
}

fn out_of_range(line: &[u8], tokens: &[Token]) -> Option<Token> {
    if named(line, tokens, b"qword").is_some() {
        if let Some(token) = displacement(line, tokens, TokenKind::Plus) {
            return Some(token);
        }
        if let Some(token) = displacement(line, tokens, TokenKind::Minus) {
            return Some(token);
        }
    }
    longest(tokens)
}

// The name that a line refers to.
fn reference(tokens: &[Token]) -> Option<Token> {
    match behind(tokens, TokenKind::Open) {
        Some(array) => Some(array),
        None => tokens.get(1).copied(),
    }
}

// A name that is too long.
fn too_long(tokens: &[Token]) -> Option<Token> {
    tokens.iter().copied().find(|token| is_word(*token)
        && token.end.saturating_sub(token.start) > 32)
}

/// The token at which a fault with this code shows, if there is one.
pub fn of_code(line: &[u8], tokens: &[Token], code: Code) -> Option<Token> {
    match code {
        Code::E01 | Code::E02 | Code::E08 => None,
        Code::E03 => misspelled(line, tokens)
            .or(misplaced(line, tokens))
            .or(capital(line, tokens))
            .or(first(tokens)),
        Code::E04 => unknown(line, tokens),
        Code::E05 => out_of_range(line, tokens),
        Code::E06 => name(line, tokens),
        Code::E07 => reference(tokens),
        Code::E09 => too_long(tokens).or(first(tokens)),
        Code::E10 | Code::E11 | Code::E12 | Code::E14 => first(tokens),
        Code::E13 => named(line, tokens, b"bound"),
    }
}

/// The token that names a register, or else the first of the line.
pub fn of_location(line: &[u8], tokens: &[Token], location: Location) -> Option<Token> {
    let register = match location {
        Location::Register(register) => named(line, tokens, register_word(register).as_bytes()),
        Location::Flag(_) => None,
    };
    match register {
        Some(token) => Some(token),
        None => first(tokens),
    }
}
