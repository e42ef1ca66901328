//! The words of a case, and the files that they name.

use crate::failure::Failure;
use std::alloc::Global;
use std::fs;
use std::io::ErrorKind;
use std::rt::Files;
use tso_flow::{Checked, FlowError};
use tso_prog::{Answer, CallKind, ReadError};

/// The word with this number, from 0, without a colon behind it; the empty word where there are not so many.
pub fn word(text: &str, number: usize) -> &str {
    match text.split_whitespace().nth(number) {
        Some(word) => before(word, ":"),
        None => "",
    }
}

/// The word with this number, as a number.
pub fn number_at(text: &str, number: usize) -> Result<u64, Failure> {
    match word(text, number).parse::<u64>() {
        Ok(value) => Ok(value),
        Err(_) => Err(Failure::Unreadable),
    }
}

/// The word with this number, as the number of a place, a thread or a call.
pub fn index_at(text: &str, number: usize) -> Result<usize, Failure> {
    let value = number_at(text, number)?;
    Ok(value as usize)
}

/// What stands behind the first of these marks; the empty text where there is none.
pub fn behind<'a>(text: &'a str, mark: &str) -> &'a str {
    match text.split_once(mark) {
        Some((_, rest)) => rest,
        None => "",
    }
}

/// What stands before the first of these marks; all of the text where there is none.
pub fn before<'a>(text: &'a str, mark: &str) -> &'a str {
    match text.split_once(mark) {
        Some((front, _)) => front,
        None => text,
    }
}

/// Whether this is a word of the text.
pub fn has_word(text: &str, wanted: &str) -> bool {
    text.split_whitespace().any(|word| word == wanted)
}

/// A call, `push` with its argument or `pop`, from the word with this number on.
pub fn call_kind_at(text: &str, number: usize) -> Result<CallKind, Failure> {
    match word(text, number) {
        "push" => Ok(CallKind::Push(number_at(text, number.saturating_add(1))?)),
        "pop" => Ok(CallKind::Pop),
        _ => Err(Failure::Unreadable),
    }
}

/// An answer, from the word with this number on.
pub fn answer_at(text: &str, number: usize) -> Result<Answer, Failure> {
    match word(text, number) {
        "refused" => Ok(Answer::Refused),
        "done" => Ok(Answer::Done),
        "value" => Ok(Answer::Value(number_at(text, number.saturating_add(1))?)),
        _ => Err(Failure::Unreadable),
    }
}

/// The bytes of the file that a text names with its word of this number.
pub fn file_at<R: Files + AllocGlobal>(
    rt: &R,
    text: &str,
    number: usize,
) -> Result<Vec<u8>, Failure> {
    match fs::read(rt, word(text, number)) {
        Ok(bytes) => Ok(bytes),
        Err(error) if error.kind() == ErrorKind::OutOfMemory => Err(Failure::Memory),
        Err(_) => Err(Failure::Unreadable),
    }
}

/// The client of a program's text.
pub fn client_of(alloc: Global, text: &[u8]) -> Result<Checked, Failure> {
    let client = match tso_prog::read(alloc, text) {
        Ok(client) => client,
        Err(ReadError::Memory) => return Err(Failure::Memory),
        Err(ReadError::Refused(_)) => return Err(Failure::Unreadable),
    };
    match tso_flow::check(alloc, client) {
        Ok(checked) => Ok(checked),
        Err(FlowError::Memory) => Err(Failure::Memory),
        Err(FlowError::Refused(_)) => Err(Failure::Unreadable),
    }
}
