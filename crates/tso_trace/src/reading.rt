//! Labels, read from lines.

ghost use Rattle.std.specs.Str.{bytes_eq};
ghost use Rattle.tso_machine.specs.declared.label.Label.{Label};
ghost use Rattle.tso_machine.specs.declared.label.LabelKind.{LabelKind};
ghost use Rattle.std.specs.Prelude.{position, ◌↔◌, false, [], ◌≡◌, ◌≢◌, ◌+◌, ◌<◌, ◌^◌, ◌++◌, ℕ, List, Some, IsTrue, MatchOption};
ghost use Rattle.tso_trace.specs.Grammar.{cell_in, is_proper_kind, kind_text, named_cell, IsLineOf};
ghost use Rattle.tso_text.specs.Bytes.{bracket};
ghost use Rattle.tso_trace.specs.Parts.{is_bare, lacks, IsSplit, IsUnsplit, Tells, TellsAccess, TellsNumbered};

use crate::parts::{behind, cut, number_before, number_behind};
use tso_machine::{FaultKind, Label, LabelKind, place_at};
use tso_prog::{Answer, CallKind, Client};

// The array's name, the index and the word of `NAME[INDEX] = WORD`.
fn split_access(text: &[u8]) -> Option<(&[u8], u64, u64)>
    ensures { MatchOption result (IsUnsplit text.now) (λ r. IsSplit text.now r.0.now r.1 r.2) }
{
    let (name, rest) = cut(text, b'[')?;
    let (index, rest) = number_before(rest, b']')?;
    let word = number_behind(rest, b" = ")?;
    Some((name, index, word))
}

// The number of the array of this name.
fn array_named(client: &Client, name: &[u8]) -> Option<usize>
    ensures { result ≡ position (λ a. bytes_eq a.name name.now) client.now.arrays }
{
    client
        .arrays
        .as_slice()
        .iter()
        .position(|array| array.name.as_slice() == name)
}

// The place of `NAME[INDEX]`, if memory has it. A name has no `[`.
fn place_named(client: &Client, name: &[u8], index: u64) -> Option<usize>
    requires { IsTrue (lacks bracket name.now) }
    ensures { (place : ℕ) → (result ≡ Some place) ↔ (cell_in client.now.arrays place ≡ Some (named_cell name.now index)) }
{
    let array = array_named(client, name)?;
    place_at(client.arrays.as_slice(), array, index as usize)
}

// The place and the word of an access.
fn access(client: &Client, text: &[u8]) -> Option<(usize, u64)>
    ensures { TellsAccess client.now.arrays [] text.now result }
{
    let (name, index, word) = split_access(text)?;
    let place = place_named(client, name, index)?;
    Some((place, word))
}

// What a thread does, where it has no number and no place.
fn bare_kind(text: &[u8]) -> Option<LabelKind>
    ensures { Tells (λ k. IsTrue (is_bare k)) (kind_text []) text.now result }
{
    if text == b"call pop".as_slice() {
        Some(LabelKind::Call(CallKind::Pop))
    } else if text == b"reg".as_slice() {
        Some(LabelKind::Reg)
    } else if text == b"fence".as_slice() {
        Some(LabelKind::Fence)
    } else if text == b"lock".as_slice() {
        Some(LabelKind::Lock)
    } else if text == b"unlock".as_slice() {
        Some(LabelKind::Unlock)
    } else if text == b"return refused".as_slice() {
        Some(LabelKind::Return(Answer::Refused))
    } else if text == b"return done".as_slice() {
        Some(LabelKind::Return(Answer::Done))
    } else if text == b"fault range".as_slice() {
        Some(LabelKind::Fault(FaultKind::OutOfRange))
    } else if text == b"fault assert".as_slice() {
        Some(LabelKind::Fault(FaultKind::FalseAssertion))
    } else if text == b"fault answer".as_slice() {
        Some(LabelKind::Fault(FaultKind::BadAnswer))
    } else {
        None
    }
}

// The place and the word of an access behind a word with which the text begins.
fn access_behind(client: &Client, text: &[u8], verb: &[u8]) -> Option<(usize, u64)>
    ensures { TellsAccess client.now.arrays verb.now text.now result }
{
    access(client, behind(text, verb)?)
}

// What a thread does, where it has a number.
fn numbered_kind(client: &Client, text: &[u8]) -> Option<LabelKind>
    ensures { TellsNumbered client.now.arrays text.now result }
{
    if let Some(argument) = number_behind(text, b"call push ") {
        Some(LabelKind::Call(CallKind::Push(argument)))
    } else if let Some(word) = number_behind(text, b"return value ") {
        Some(LabelKind::Return(Answer::Value(word)))
    } else if let Some((place, word)) = access_behind(client, text, b"read ") {
        Some(LabelKind::Read { place, word })
    } else if let Some((place, word)) = access_behind(client, text, b"write ") {
        Some(LabelKind::Write { place, word })
    } else if let Some((place, word)) = access_behind(client, text, b"drain ") {
        Some(LabelKind::Drain { place, word })
    } else {
        None
    }
}

// What a thread does.
fn kind_of(client: &Client, text: &[u8]) -> Option<LabelKind>
    ensures { Tells (λ k. IsTrue (is_proper_kind client.now.arrays k)) (kind_text client.now.arrays) text.now result }
{
    match bare_kind(text) {
        Some(kind) => Some(kind),
        None => numbered_kind(client, text),
    }
}

/// The label of a line, which stands without its newline.
pub fn label_of(client: &Client, line: &[u8]) -> Option<Label>
    ensures { (l : Label) → (result ≡ Some l) ↔ IsLineOf client.now.arrays line.now l }
{
    let (thread, kind) = number_before(line, b' ')?;
    let kind = kind_of(client, kind)?;
    Some(Label {
        thread: thread as usize,
        kind,
    })
}
