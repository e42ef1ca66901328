//! Calls that a comment hides.

use crate::page::Page;
use std::alloc::{AllocError, Global};
use tso_source::cut;
use tso_text::lex;

// Whether the word stands somewhere in the bytes.
fn has_word(bytes: &[u8], word: &[u8]) -> bool {
    for at in 0..bytes.len() {
        if bytes[at..].starts_with(word) {
            return true;
        }
    }
    false
}

// What stands behind the first semicolon, if there is one.
fn comment(line: &[u8]) -> Option<&[u8]> {
    for at in 0..line.len() {
        if line[at] == b';' {
            return Some(&line[at + 1..]);
        }
    }
    None
}

// Whether the line says calls.
fn says_calls(alloc: Global, line: &[u8]) -> bool {
    match lex(alloc, line) {
        Ok(tokens) => match tokens.first() {
            Some(token) => {
                let word = line.get(token.start..token.end).unwrap_or(&[]);
                word == b".thread".as_slice() || word == b".before".as_slice()
            }
            None => false,
        },
        Err(_) => false,
    }
}

// Whether calls stand in the comment of a line that says calls.
fn hides_calls(alloc: Global, line: &[u8]) -> bool {
    let Some(comment) = comment(line) else {
        return false;
    };
    (has_word(comment, b"push") || has_word(comment, b"pop")) && says_calls(alloc, line)
}

/// Says of each line of a thread, or of the prologue, with calls behind a semicolon that these are a comment.
///
/// Errors: where a growth was refused.
pub fn put_hidden(alloc: Global, page: &mut Page, text: &[u8]) -> Result<(), AllocError> {
    let mut rest = text;
    for number in 1..=text.len() {
        let Some((line, after)) = cut(rest) else {
            break;
        };
        if hides_calls(alloc, line) {
            page.say_made(format!(in alloc;
                "line {number}: what stands behind the semicolon is a comment, and its calls are not made\n"
            ))?;
        }
        rest = after;
    }
    Ok(())
}
