//! Lines of a text, as they are shown.

ghost use Rattle.std.specs.Prelude.{◌≡◌, ◌<◌, ◌≤◌, ◌-◌, ◌++◌, ◌∷◌, [], None, Some, length, map, not, replicate, slice_get, take, IfNone, IfOk, IfSome, OnOk};
ghost use Rattle.std.specs.Option.{option_map};
ghost use Rattle.std.specs.List.{prefix_len};
ghost use Rattle.tso_source.specs.Sources.{blank_byte, caret, is_newline, lines_of, mark_of, shown_byte};
ghost use Rattle.tso_source.specs.Places.{IsPlaceIn};

use crate::place::Place;
use std::alloc::{AllocError, Global};
use tso_text::{Token, lex};

// How many bytes stand before the end of the first line.
fn line_len(text: &[u8]) -> usize
    ensures within { result ≤ length text.now }
    ensures len { result ≡ prefix_len (λ b. not (is_newline b)) text.now }
{
    text.iter().take_while(|b| **b != b'\n').count()
}

/// The first line, and what stands behind its newline.
pub fn cut(text: &[u8]) -> Option<(&[u8], &[u8])>
    ensures some { IfSome result (λ x. lines_of text.now ≡ x.0.now ∷ lines_of x.1.now) }
    ensures none { IfNone result (lines_of text.now ≡ text.now ∷ []) }
{
    let n = line_len(text);
    if n == text.len() {
        return None;
    }
    Some((&text[..n], text.split_at(n + 1).1))
}

fn first_line(text: &[u8]) -> &[u8]
    ensures { slice_get (lines_of text.now) 0 ≡ Some result.now }
{
    match cut(text) {
        Some((line, _)) => line,
        None => text,
    }
}

// The line with this number, from 0.
fn nth_line(text: &[u8], index: usize) -> Option<&[u8]>
    ensures { option_map (λ l. l.now) result ≡ slice_get (lines_of text.now) index }
{
    let mut rest = text;
    for _done in 0..index {
        match cut(rest) {
            Some((_, after)) => rest = after,
            None => return None,
        }
    }
    Some(first_line(rest))
}

/// The line of a text with this number, from 1, without its newline, if the text has so many; of 0, which stands for the text
/// as a whole, none.
pub fn line(text: &[u8], number: usize) -> Option<&[u8]>
    ensures whole { number ≡ 0 → result ≡ None }
    ensures exact { 0 < number → option_map (λ l. l.now) result ≡ slice_get (lines_of text.now) (number - 1) }
{
    if number == 0 {
        return None;
    }
    nth_line(text, number - 1)
}

/// The bytes of a token; none where the line has it not.
pub fn text_of<'a>(line: &'a [u8], token: Token) -> &'a [u8] {
    match line.get(token.start..token.end) {
        Some(text) => text,
        None => &[],
    }
}

/// The tokens of a line; none where it has a byte that may stand in no text, is too long, or a growth was refused.
pub fn tokens_of(alloc: Global, line: &[u8]) -> Vec<Token> {
    match lex(alloc, line) {
        Ok(tokens) => tokens,
        Err(_) => Vec::new(alloc),
    }
}

// The byte as it is shown: one that a terminal may not be sent as a question mark.
fn shown_byte(byte: u8) -> u8
    ensures { result ≡ shown_byte byte }
{
    match byte {
        b'\t' | b' '..=b'~' => byte,
        _ => b'?',
    }
}

/// A line as it is shown: each byte that may stand in no program text as a question mark.
///
/// Errors: where a growth was refused.
pub fn shown(alloc: Global, line: &[u8]) -> Result<Vec<u8>, AllocError>
    ensures { IfOk result (λ v. v.items ≡ map shown_byte line.now) }
{
    let mut bytes = Vec::new(alloc);
    for byte in line {
        bytes.push(shown_byte(*byte))?;
    }
    Ok(bytes)
}

// What stands below a byte before the mark: tabs stay, so that the mark is below its place.
fn blank_byte(byte: u8) -> u8
    ensures { result ≡ blank_byte byte }
{
    if byte == b'\t' { b'\t' } else { b' ' }
}

fn blanks(alloc: Global, front: &[u8]) -> Result<Vec<u8>, AllocError>
    ensures { IfOk result (λ v. v.items ≡ map blank_byte front.now) }
{
    let mut bytes = Vec::new(alloc);
    for byte in front {
        bytes.push(blank_byte(*byte))?;
    }
    Ok(bytes)
}

fn push_carets(bytes: &mut Vec<u8>, count: usize) -> Result<(), AllocError>
    ensures { OnOk result (bytes.new.items ≡ bytes.old.items ++ replicate count caret) }
{
    for _done in 0..count {
        bytes.push(b'^')?;
    }
    Ok(())
}

/// The line that is shown below a line, with a mark under a place of it.
///
/// Errors: where a growth was refused.
pub fn under(alloc: Global, line: &[u8], place: Place) -> Result<Vec<u8>, AllocError>
    requires { IsPlaceIn line.now place }
    ensures { IfOk result (λ v. v.items ≡ mark_of line.now place) }
{
    let mut bytes = blanks(alloc, &line[..place.start])?;
    push_carets(&mut bytes, place.end - place.start)?;
    Ok(bytes)
}
