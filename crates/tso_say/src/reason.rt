//! Which of its reasons a fault has, where its code stands for several.

ghost use Rattle.std.specs.Prelude.{IfOk, IsTrue};
ghost use Rattle.std.specs.List.{list_all};
ghost use Rattle.tso_line.specs.Words.{has_name};

use crate::page::Page;
use std::alloc::{AllocError, Global};
use tso_line::{Kind, Lexeme, Line, Slip, lexeme_of, line_of};
use tso_prog::{Code, Fault};
use tso_source::{cut, is_step, line, name_of, of_name, of_shape, of_word, tokens_of};
use tso_text::{Token, lex};

fn lexemes_of(alloc: Global, source: &[u8], tokens: &[Token]) -> Result<Vec<Lexeme>, AllocError>
    ensures { IfOk result (λ v. IsTrue (list_all (has_name source.now) v.items)) }
{
    let mut lexemes = Vec::new(alloc);
    for token in tokens {
        lexemes.push(lexeme_of(source, *token))?;
    }
    Ok(lexemes)
}

// What a line says by itself.
fn read_line<'a>(alloc: Global, line: &'a [u8]) -> Result<Line<'a>, AllocError> {
    match lex(alloc, line) {
        Ok(tokens) => {
            let lexemes = lexemes_of(alloc, line, &tokens)?;
            line_of(alloc, line, &lexemes)
        }
        Err(_) => Ok(Line::Misshapen),
    }
}

// The first word of a line.
fn first_word(alloc: Global, line: &[u8]) -> &[u8] {
    name_of(line, &tokens_of(alloc, line))
}

/// Whether a line stands between .push or .pop and its .end.
pub fn is_inside(alloc: Global, text: &[u8], number: usize) -> bool {
    let mut inside = false;
    let mut rest = text;
    for _above in 1..number {
        let Some((line, after)) = cut(rest) else {
            break;
        };
        match first_word(alloc, line) {
            b".push" | b".pop" => inside = true,
            b".end" => inside = false,
            _ => {}
        }
        rest = after;
    }
    inside
}

/// Whether a fault is that an instruction or a label is misshapen, of which its code says no more than its reason does.
pub fn is_within_procedure(alloc: Global, text: &[u8], fault: Fault) -> bool {
    let number = fault.line as usize;
    let line = line(text, number).unwrap_or(&[]);
    fault.code == Code::E03
        && is_step(line, &tokens_of(alloc, line))
        && is_inside(alloc, text, number)
}

// Whether a line is refused by itself.
fn is_refused(alloc: Global, line: &[u8]) -> Result<bool, AllocError> {
    let read = read_line(alloc, line)?;
    Ok(read.slip().is_some() || read.kind().is_none() && !first_word(alloc, line).is_empty())
}

/// How many lines of push and pop behind this one are refused by themselves.
///
/// Errors: out of memory.
pub fn refused_behind(alloc: Global, text: &[u8], number: usize) -> Result<usize, AllocError> {
    let mut count: usize = 0;
    let mut inside = false;
    let mut rest = text;
    for at in 1..=text.len() {
        let Some((line, after)) = cut(rest) else {
            break;
        };
        inside = match first_word(alloc, line) {
            b".push" | b".pop" => true,
            b".end" => false,
            _ => inside,
        };
        if inside && at > number && is_refused(alloc, line)? {
            count = count.saturating_add(1);
        }
        rest = after;
    }
    Ok(count)
}

// How a line is written that begins with this directive.
fn shape(word: &[u8]) -> &'static str {
    match word {
        b".capacity" => "It is written `.capacity N`.",
        b".mode" => "It is written `.mode strict` or `.mode weak`.",
        b".array" =>
            "It is written `.array NAME LENGTH`, or `.array NAME LENGTH = V, V` with a value for each word.",
        b".push" | b".pop" | b".end" => "It stands alone on its line.",
        b".thread" | b".before" =>
            "Calls are written `push V` and `pop`, with commas between them.",
        [b'.', ..] =>
            "No line begins so: these are .capacity, .mode, .array, .push, .pop, .end, .before and .thread.",
        _ => "",
    }
}

// Where a line of this kind may stand.
fn place(kind: Kind) -> &'static str {
    match kind {
        Kind::Capacity => "It stands once, on the first line of the text that is not empty.",
        Kind::Mode => "It stands once, behind .capacity.",
        Kind::Array => "Arrays stand behind .mode and before .push.",
        Kind::Push => "It stands once, behind the arrays.",
        Kind::Pop => "It stands once, behind the .end of .push.",
        Kind::End =>
            "It stands behind the instructions of .push and of .pop, which are at least one each.",
        Kind::Target | Kind::Instruction =>
            "Instructions and labels stand between .push or .pop and its .end.",
        Kind::Before => "It stands once, behind the .end of .pop and before the first .thread.",
        Kind::Thread => "Threads stand last, behind the .end of .pop.",
    }
}

// Why a line has no shape.
fn misshapen_reason(alloc: Global, line: &[u8]) -> &'static str {
    let tokens = tokens_of(alloc, line);
    match of_shape(line, &tokens) {
        Some(said) => said,
        None => shape(first_word(alloc, line)),
    }
}

// Why a line has no place in the text.
fn shape_reason(alloc: Global, line: &[u8]) -> Result<&'static str, AllocError> {
    let read = read_line(alloc, line)?;
    if let Some(Slip::Count) = read.slip() {
        return Ok("The array has not as many values as words.");
    }
    match read.kind() {
        Some(kind) => Ok(place(kind)),
        None => Ok(misshapen_reason(alloc, line)),
    }
}

// Which limits a line of this kind may pass.
fn limit_reason(alloc: Global, line: &[u8]) -> Result<&'static str, AllocError> {
    let read = read_line(alloc, line)?;
    match read.kind() {
        Some(Kind::Array) => Ok(
            "A text has at most 16 arrays, with at most 256 words in all, and a name has at most 32 bytes.",
        ),
        Some(Kind::Instruction) => Ok(
            "Push and pop have at most 256 instructions together, and a name has at most 32 bytes.",
        ),
        Some(Kind::Before | Kind::Thread) => Ok(
            "A client has at most 4 threads, with at most 4 calls each, a prologue of at most 4, and at most 12 calls in all.",
        ),
        _ => Ok("A name has at most 32 bytes."),
    }
}

// Which range the numbers of a line of this kind have.
fn range_reason(alloc: Global, line: &[u8]) -> Result<&'static str, AllocError> {
    let read = read_line(alloc, line)?;
    match read.kind() {
        Some(Kind::Capacity) => Ok("A capacity is 1 to 16."),
        Some(Kind::Array) => Ok(
            "A length is 1 to 256, and a value a word of 64 bits, with or without a sign.",
        ),
        Some(Kind::Instruction) => Ok(
            "A bound is 0 to 15, a displacement a multiple of 8, and both it and an immediate -2^31 to 2^31 - 1; an immediate\nthat `mov` puts into a register is any word of 64 bits, with or without a sign.",
        ),
        Some(Kind::Before | Kind::Thread) => Ok(
            "A value is a word of 64 bits, with or without a sign.",
        ),
        _ => Ok(""),
    }
}

/// Says which reason a fault has whose code stands for several.
///
/// Errors: where a growth was refused.
pub fn put_reason(
    alloc: Global,
    page: &mut Page,
    text: &[u8],
    fault: Fault,
) -> Result<(), AllocError> {
    let Some(line) = line(text, fault.line as usize) else {
        return Ok(());
    };
    let said = match fault.code {
        Code::E03 => shape_reason(alloc, line)?,
        Code::E04 => of_word(line, &tokens_of(alloc, line)),
        Code::E05 => range_reason(alloc, line)?,
        Code::E07 => of_name(line, &tokens_of(alloc, line)),
        Code::E09 => limit_reason(alloc, line)?,
        _ => return Ok(()),
    };
    if said.is_empty() {
        return Ok(());
    }
    page.say(said)?;
    page.say("\n")
}
