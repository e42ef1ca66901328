//! A line as compilers write it, in the words that are read here.

use crate::hints::name_of;
use crate::narrow::{other_name, wide};
use crate::rewriting::{summed, turned_round, with_words, zeroed};
use crate::source::{text_of, tokens_of};
use crate::suspect::{is_among, is_mnemonic, is_register, unlocked};
use std::alloc::{AllocError, Global};
use tso_text::{Token, TokenKind};

// Names that are not read, each before the one that is, with bars between: of jumps by their conditions, and of a move of a number.
const ALIASES: &str =
    "jz je|jnz jne|jc jb|jnc jae|jnae jb|jnb jae|jna jbe|jnbe ja|jnge jl|jnl jge|jng jle|jnle jg|movabs mov";

// The name that is read here, if this is another one of it, or one of fewer bits.
fn read_name(word: &[u8]) -> Option<&'static str> {
    match other_name(ALIASES, word) {
        Some(name) => Some(name),
        None => wide(word),
    }
}

// Whether a word of small letters means something in an instruction.
fn is_known(word: &[u8]) -> bool {
    is_register(word)
        || is_mnemonic(word)
        || is_among(word, "qword|ptr")
        || read_name(word).is_some()
}

// The word in small letters.
fn lowered(alloc: Global, word: &[u8]) -> Result<Vec<u8>, AllocError> {
    let mut small = Vec::new(alloc);
    for byte in word {
        small.push(byte.to_ascii_lowercase())?;
    }
    Ok(small)
}

// The word without the dot that begins labels of compilers.
fn undotted(word: &[u8]) -> &[u8] {
    match word {
        [b'.', name @ ..] => name,
        _ => word,
    }
}

// Puts a word as it is read here: one that is known in small letters, an instruction by the name that it has here, and a label
// without its dot.
fn put_word(alloc: Global, all: &mut Vec<u8>, word: &[u8]) -> Result<(), AllocError> {
    let small = lowered(alloc, word)?;
    if !is_known(&small) {
        all.extend_from_slice(undotted(word))?;
        return Ok(());
    }
    match read_name(&small) {
        Some(name) => all.extend_from_slice(name.as_bytes())?,
        None => all.extend_from_slice(&small)?,
    }
    Ok(())
}

// The line in words that are read here, without its comment.
fn reworded(alloc: Global, line: &[u8]) -> Result<Vec<u8>, AllocError> {
    let mut all = Vec::new(alloc);
    let mut from = 0;
    for token in tokens_of(alloc, line) {
        if let Some(between) = line.get(from..token.start) {
            all.extend_from_slice(between)?;
        }
        match token.kind {
            TokenKind::Word => put_word(alloc, &mut all, text_of(line, token))?,
            _ => all.extend_from_slice(text_of(line, token))?,
        }
        from = token.end;
    }
    Ok(all)
}

// The place of the first token with this text.
fn place_of(line: &[u8], tokens: &[Token], word: &[u8]) -> Option<usize> {
    tokens
        .iter()
        .position(|token| text_of(line, *token) == word)
}

// The name and the `rip` of memory that is written `head[rip]`, or the 0 of `head[0+rax*8]`.
fn name_before(line: &[u8], tokens: &[Token]) -> Option<(Token, Token)> {
    let at = place_of(line, tokens, b"rip").or(place_of(line, tokens, b"0"))?;
    let open = tokens.get(at.checked_sub(1)?).copied()?;
    let name = tokens.get(at.checked_sub(2)?).copied()?;
    let rip = tokens.get(at).copied()?;
    let is_name = name.kind == TokenKind::Word && !is_among(text_of(line, name), "qword|ptr");
    if open.kind == TokenKind::Open && is_name {
        Some((name, rip))
    } else {
        None
    }
}

// The line with the name of its array within the brackets, where it is written `head[rip]` or `head[0+rax*8]`.
fn bracketed(alloc: Global, line: Vec<u8>) -> Result<Vec<u8>, AllocError> {
    match name_before(&line, &tokens_of(alloc, &line)) {
        Some((name, rip)) => {
            let array = with_words(alloc, text_of(&line, name), 0, b"[", 0)?;
            with_words(alloc, &line, name.start, &array, rip.end)
        }
        None => Ok(line),
    }
}

// The number, the bracket before and the one behind of memory that is written `8[rdx]`.
fn number_before(tokens: &[Token]) -> Option<(Token, Token, Token)> {
    let at = tokens
        .iter()
        .position(|token| token.kind == TokenKind::Open)?;
    let number = tokens.get(at.checked_sub(1)?).copied()?;
    let open = tokens.get(at).copied()?;
    let close = tokens
        .iter()
        .copied()
        .find(|token| token.kind == TokenKind::Close)?;
    if number.kind == TokenKind::Number && open.end <= close.start {
        Some((number, open, close))
    } else {
        None
    }
}

// The line with a number within the brackets that stands before them.
fn displaced(alloc: Global, line: Vec<u8>) -> Result<Vec<u8>, AllocError> {
    let Some((number, open, close)) = number_before(&tokens_of(alloc, &line)) else {
        return Ok(line);
    };
    let inside = line.get(open.start..close.start).unwrap_or(&[]);
    let sum = with_words(alloc, inside, inside.len(), b" + ", inside.len())?;
    let end = sum.len();
    let memory = with_words(alloc, &sum, end, text_of(&line, number), end)?;
    with_words(alloc, &line, number.start, &memory, close.start)
}

// The `rip` and the name of memory that is written `[rip + head]`.
fn name_behind(line: &[u8], tokens: &[Token]) -> Option<(Token, Token)> {
    let at = place_of(line, tokens, b"rip")?;
    let rip = tokens.get(at).copied()?;
    let plus = tokens.get(at.saturating_add(1)).copied()?;
    let name = tokens.get(at.saturating_add(2)).copied()?;
    if plus.kind == TokenKind::Plus && name.kind == TokenKind::Word {
        Some((rip, name))
    } else {
        None
    }
}

// The line with its array in place of `rip + head`.
fn unrelated(alloc: Global, line: Vec<u8>) -> Result<Vec<u8>, AllocError> {
    match name_behind(&line, &tokens_of(alloc, &line)) {
        Some((rip, name)) => with_words(alloc, &line, rip.start, b"", name.start),
        None => Ok(line),
    }
}

// The scale and the register of an index that is written `8*rcx`.
fn scaled(tokens: &[Token]) -> Option<(Token, Token)> {
    let at = tokens
        .iter()
        .position(|token| token.kind == TokenKind::Star)?;
    let scale = tokens.get(at.checked_sub(1)?).copied()?;
    let register = tokens.get(at.saturating_add(1)).copied()?;
    if scale.kind == TokenKind::Number && register.kind == TokenKind::Word {
        Some((scale, register))
    } else {
        None
    }
}

// The line with the register of its index before the scale.
fn rescaled(alloc: Global, line: Vec<u8>) -> Result<Vec<u8>, AllocError> {
    let Some((scale, register)) = scaled(&tokens_of(alloc, &line)) else {
        return Ok(line);
    };
    let end = text_of(&line, register).len();
    let index = with_words(alloc, text_of(&line, register), end, b"*", end)?;
    let both = with_words(alloc, text_of(&line, scale), 0, &index, 0)?;
    with_words(alloc, &line, scale.start, &both, register.end)
}

// What is wanting before memory that is written without its size, and where.
fn wanting(line: &[u8], tokens: &[Token]) -> Option<(&'static str, usize)> {
    let at = tokens
        .iter()
        .position(|token| token.kind == TokenKind::Open)?;
    let open = tokens.get(at).copied()?;
    let before = tokens.get(at.checked_sub(1)?).copied()?;
    match text_of(line, before) {
        b"ptr" => None,
        b"qword" => Some(("ptr ", open.start)),
        _ => Some(("qword ptr ", open.start)),
    }
}

// The line with the size of its memory.
fn sized(alloc: Global, line: Vec<u8>) -> Result<Vec<u8>, AllocError> {
    match wanting(&line, &tokens_of(alloc, &line)) {
        Some((words, at)) => with_words(alloc, &line, at, words.as_bytes(), at),
        None => Ok(line),
    }
}

// Whether a locked instruction adds nothing to a word of the stack, as compilers write a fence.
fn is_stack_fence(line: &[u8], tokens: &[Token]) -> bool {
    let [lock, operation, rest @ ..] = tokens else {
        return false;
    };
    let is_no_change = matches!(text_of(line, *operation), b"or" | b"add");
    let has_stack = rest
        .iter()
        .any(|token| matches!(text_of(line, *token), b"rsp" | b"esp"));
    let ends_with_0 = match rest.last() {
        Some(token) => text_of(line, *token) == b"0".as_slice(),
        None => false,
    };
    text_of(line, *lock) == b"lock".as_slice() && is_no_change && has_stack && ends_with_0
}

// Whether these two words are a pause by its older name.
fn is_pause(line: &[u8], tokens: &[Token]) -> bool {
    match tokens {
        [rep, nop] => {
            text_of(line, *rep) == b"rep".as_slice() && text_of(line, *nop) == b"nop".as_slice()
        }
        _ => false,
    }
}

// The line without the `lock` of an exchange, which is locked without it.
fn unlock(alloc: Global, line: Vec<u8>) -> Result<Vec<u8>, AllocError> {
    match tokens_of(alloc, &line).as_slice() {
        [lock, name, ..] => {
            if text_of(&line, *lock) == b"lock".as_slice()
                && text_of(&line, *name) == b"xchg".as_slice()
            {
                return with_words(alloc, &line, lock.start, b"", name.start);
            }
            Ok(line)
        }
        _ => Ok(line),
    }
}

// The register and the memory of an instruction that exchanges both, where the register stands first.
fn operands(line: &[u8], tokens: &[Token]) -> Option<(Token, Token)> {
    let [name, register, comma, memory, ..] = unlocked(line, tokens) else {
        return None;
    };
    let is_exchange = matches!(text_of(line, *name), b"xchg" | b"xadd");
    if is_exchange && is_register(text_of(line, *register)) && comma.kind == TokenKind::Comma {
        Some((*register, *memory))
    } else {
        None
    }
}

// The line with the memory before the register.
fn turned(alloc: Global, line: Vec<u8>) -> Result<Vec<u8>, AllocError> {
    let Some((register, memory)) = operands(&line, &tokens_of(alloc, &line)) else {
        return Ok(line);
    };
    let mut all = Vec::new(alloc);
    all.extend_from_slice(line.get(..register.start).unwrap_or(&[]))?;
    all.extend_from_slice(line.get(memory.start..).unwrap_or(&[]))?;
    all.extend_from_slice(b", ")?;
    all.extend_from_slice(text_of(&line, register))?;
    Ok(all)
}

// The line with one word in place of all, as far in.
fn one_word(alloc: Global, line: &[u8], word: &[u8]) -> Result<Vec<u8>, AllocError> {
    let start = match tokens_of(alloc, line).first() {
        Some(token) => token.start,
        None => 0,
    };
    with_words(alloc, line, start, word, line.len())
}

// The line without the comment that `#` begins.
fn uncommented(line: &[u8]) -> &[u8] {
    let len = line.iter().take_while(|byte| **byte != b'#').count();
    line.get(..len).unwrap_or(line).trim_ascii_end()
}

// The line with its memory as it is named here.
fn named(alloc: Global, line: Vec<u8>) -> Result<Vec<u8>, AllocError> {
    let inside = displaced(alloc, bracketed(alloc, line)?)?;
    rescaled(alloc, unrelated(alloc, inside)?)
}

// Whether a line that begins with this word says nothing of what is done.
fn is_for_assembler(word: &[u8]) -> bool {
    word.starts_with(b".cfi_")
        || is_among(
            word,
            "endbr64|.p2align|.align|.text|.data|.bss|.section|.globl|.type|.size|.file|.loc|.ident|.intel_syntax",
        )
}

/// The line as it is read here, if it is one that compilers write, two lines if it takes two instructions, and none if it says
/// nothing; else it is the line in small letters, or nearly so.
///
/// Errors: out of memory.
pub fn respelled(alloc: Global, line: &[u8]) -> Result<Vec<u8>, AllocError> {
    let words = named(alloc, reworded(alloc, uncommented(line))?)?;
    let tokens = tokens_of(alloc, &words);
    if is_for_assembler(name_of(line, &tokens_of(alloc, line))) {
        return Ok(Vec::new(alloc));
    }
    if is_stack_fence(&words, &tokens) {
        return one_word(alloc, &words, b"mfence");
    }
    if is_pause(&words, &tokens) {
        return one_word(alloc, &words, b"pause");
    }
    let plain = summed(alloc, zeroed(alloc, turned_round(alloc, words)?)?)?;
    turned(alloc, unlock(alloc, sized(alloc, plain)?)?)
}
