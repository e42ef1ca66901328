//! A line of tokens, read by itself.

ghost use Rattle.std.specs.Prelude.{◌≡◌, ◌≤◌, length, replicate, IfOk, IfSome, IsTrue};
ghost use Rattle.std.specs.List.{list_all};
ghost use Rattle.tso_line.specs.Words.{has_name};
ghost use Rattle.tso_line.specs.Proper.{is_name, is_word, is_call, are_calls, is_proper};
ghost use Rattle.tso_line.specs.Ranges.{all_within, or_out};
ghost use Rattle.std.specs.Option.{option_map};
ghost use Rattle.tso_line.specs.Lexemes.{pieces};
ghost use Rattle.tso_line.specs.Forms.{text_at};
ghost use Rattle.tso_line.specs.declared.line.Kind.TheVariants.{Before, Thread};
ghost use Rattle.tso_line.specs.Lines.{view, before, thread};
ghost use Rattle.tso_line.specs.Reading.{value_of, call_of, each, calls_of, calls_line, is_counted, IfCalls, array_line, values_line, instruction_line, directive_line, line_of};

use crate::form::{form_of, instruction_of, lacks_lock, named, text_at, word_of};
use crate::instruction::{CallKind, Mode};
use crate::lexeme::{Directive, Lexeme, Meaning, Ranged};
use crate::line::{Kind, Line, Slip};
use crate::shape::{cut, signed_of, statement_of};
use std::alloc::{AllocError, Global};
use tso_list::Seq;

// A value, in its range from -2^63 to 2^64-1, as a word.
fn value_of(lexemes: &[Lexeme]) -> Option<Ranged<u64>>
    ensures exact { result ≡ value_of lexemes.now }
    ensures word { IfSome result (λ o. IsTrue (or_out is_word o)) }
{
    let word = word_of(signed_of(lexemes)?, 1 << 63, u64::MAX);
    Some(Ranged::of(word))
}

// `push V` or `pop`.
fn call_of(lexemes: &[Lexeme]) -> Option<Ranged<CallKind>>
    ensures exact { result ≡ call_of lexemes.now }
    ensures call { IfSome result (λ o. IsTrue (or_out is_call o)) }
{
    match lexemes {
        [Lexeme::Word(_, Meaning::Pop)] => Some(Ranged::Within(CallKind::Pop)),
        [Lexeme::Word(_, Meaning::Push), value @ ..] => match value_of(value)? {
            Ranged::Within(word) => Some(Ranged::Within(CallKind::Push(word))),
            Ranged::OutOfRange => Some(Ranged::OutOfRange),
        },
        _ => None,
    }
}

// The values between commas.
fn values_of(alloc: Global, lexemes: &[Lexeme]) -> Result<Option<Vec<Ranged<u64>>>, AllocError>
    ensures nonempty { IfOk result (λ r. IfSome r (λ v. 1 ≤ length v.items)) }
    ensures words { IfOk result (λ r. IfSome r (λ v. IsTrue (list_all (or_out is_word) v.items))) }
    ensures exact { IfOk result (λ r. option_map (λ v. v.items) r ≡ each value_of (pieces lexemes.now)) }
{
    let mut values = Vec::new(alloc);
    let mut rest = lexemes;
    while let Some((piece, after)) = cut(rest) {
        let Some(value) = value_of(piece) else {
            return Ok(None);
        };
        values.push(value)?;
        rest = after;
    }
    let Some(value) = value_of(rest) else {
        return Ok(None);
    };
    values.push(value)?;
    Ok(Some(values))
}

// The calls between commas.
fn calls_between(
    alloc: Global,
    lexemes: &[Lexeme],
) -> Result<Option<Vec<Ranged<CallKind>>>, AllocError>
    ensures nonempty { IfOk result (λ r. IfSome r (λ v. 1 ≤ length v.items)) }
    ensures calls { IfOk result (λ r. IfSome r (λ v. IsTrue (list_all (or_out is_call) v.items))) }
    ensures exact { IfOk result (λ r. option_map (λ v. v.items) r ≡ each call_of (pieces lexemes.now)) }
{
    let mut calls = Vec::new(alloc);
    let mut rest = lexemes;
    while let Some((piece, after)) = cut(rest) {
        let Some(call) = call_of(piece) else {
            return Ok(None);
        };
        calls.push(call)?;
        rest = after;
    }
    let Some(call) = call_of(rest) else {
        return Ok(None);
    };
    calls.push(call)?;
    Ok(Some(calls))
}

// All of the values, if each is in range.
fn all_within<T: Copy + Drop>(
    alloc: Global,
    values: &[Ranged<T>],
) -> Result<Option<Seq<T>>, AllocError>
    ensures len { IfOk result (λ r. IfSome r (λ v. length v ≡ length values.now)) }
    ensures exact { IfOk result (λ r. r ≡ all_within values.now) }
{
    let mut found = Vec::new(alloc);
    for value in values {
        let Ranged::Within(value) = *value else {
            return Ok(None);
        };
        found.push(value)?;
    }
    Ok(Some(Seq::from_vec(found)))
}

fn zeros(alloc: Global, len: usize) -> Result<Seq<u64>, AllocError>
    ensures { IfOk result (λ words. words ≡ replicate len 0) }
{
    let words = vec![in alloc; 0; len]?;
    Ok(Seq::from_vec(words))
}

// An array of zeros.
fn array_line<'a>(alloc: Global, name: &'a [u8], len: Ranged<u64>) -> Result<Line<'a>, AllocError>
    requires { IsTrue (is_name name.now) }
    ensures proper { IfOk result (λ line. IsTrue (is_proper (view line))) }
    ensures exact { IfOk result (λ line. view line ≡ array_line name.now len) }
{
    match len {
        Ranged::Within(len) if 1 <= len && len <= 256 => {
            let words = zeros(alloc, len as usize)?;
            Ok(Line::Array { name, words })
        }
        _ => Ok(Line::Wrong(Kind::Array, Slip::Number)),
    }
}

// Whether the length is this count.
fn is_counted(len: Ranged<u64>, count: usize) -> bool
    ensures { result ≡ is_counted len count }
{
    match len {
        Ranged::Within(len) => len == count as u64,
        Ranged::OutOfRange => false,
    }
}

// An array with its values.
fn values_line<'a>(
    alloc: Global,
    name: &'a [u8],
    len: Ranged<u64>,
    values: &[Ranged<u64>],
) -> Result<Line<'a>, AllocError>
    requires named { IsTrue (is_name name.now) }
    requires nonempty { 1 ≤ length values.now }
    requires words { IsTrue (list_all (or_out is_word) values.now) }
    ensures proper { IfOk result (λ line. IsTrue (is_proper (view line))) }
    ensures exact { IfOk result (λ line. view line ≡ values_line name.now len values.now) }
{
    if !is_counted(len, values.len()) {
        return Ok(Line::Wrong(Kind::Array, Slip::Count));
    }
    if values.len() > 256 {
        return Ok(Line::Wrong(Kind::Array, Slip::Number));
    }
    match all_within(alloc, values)? {
        Some(words) => Ok(Line::Array { name, words }),
        None => Ok(Line::Wrong(Kind::Array, Slip::Number)),
    }
}

// What stands behind the first word of a line of calls.
#[derive(Drop)]
enum Calls {
    /// Not only calls between commas.
    Misshapen,
    /// Calls, of which one has an argument out of its range.
    OutOfRange,
    Are(Seq<CallKind>),
}

fn calls_of(alloc: Global, lexemes: &[Lexeme]) -> Result<Calls, AllocError>
    ensures proper { IfOk result (λ c. IfCalls c (λ v. IsTrue (are_calls v))) }
    ensures exact { IfOk result (λ c. c ≡ calls_of lexemes.now) }
{
    let Some(calls) = calls_between(alloc, lexemes)? else {
        return Ok(Calls::Misshapen);
    };
    match all_within(alloc, &calls)? {
        Some(calls) => Ok(Calls::Are(calls)),
        None => Ok(Calls::OutOfRange),
    }
}

fn before_line<'a>(calls: Calls) -> Line<'a>
    requires { IfCalls calls (λ v. IsTrue (are_calls v)) }
    ensures proper { IsTrue (is_proper (view result)) }
    ensures exact { view result ≡ calls_line Before before calls }
{
    match calls {
        Calls::Are(calls) => Line::Before(calls),
        Calls::OutOfRange => Line::Wrong(Kind::Before, Slip::Number),
        Calls::Misshapen => Line::Misshapen,
    }
}

fn thread_line<'a>(calls: Calls) -> Line<'a>
    requires { IfCalls calls (λ v. IsTrue (are_calls v)) }
    ensures proper { IsTrue (is_proper (view result)) }
    ensures exact { view result ≡ calls_line Thread thread calls }
{
    match calls {
        Calls::Are(calls) => Line::Thread(calls),
        Calls::OutOfRange => Line::Wrong(Kind::Thread, Slip::Number),
        Calls::Misshapen => Line::Misshapen,
    }
}

#[tactic(auto, unfolding(crate::specs::Reading::instruction_line))]
fn instruction_line<'a>(source: &'a [u8], lexemes: &[Lexeme]) -> Line<'a>
    ensures proper { IsTrue (is_proper (view result)) }
    ensures exact { view result ≡ instruction_line source.now lexemes.now }
{
    let Some(statement) = statement_of(lexemes) else {
        return Line::Misshapen;
    };
    let Some(form) = form_of(statement) else {
        return Line::Wrong(Kind::Instruction, Slip::Word);
    };
    let Some(instruction) = instruction_of(form) else {
        return Line::Wrong(Kind::Instruction, Slip::Number);
    };
    Line::Instruction {
        instruction: named(source, instruction),
        lacks_lock: lacks_lock(statement),
    }
}

#[tactic(auto, unfolding(crate::specs::Reading::directive_line))]
fn directive_line<'a>(
    alloc: Global,
    source: &'a [u8],
    directive: Directive,
    rest: &[Lexeme],
) -> Result<Line<'a>, AllocError>
    requires { IsTrue (list_all (has_name source.now) rest.now) }
    ensures proper { IfOk result (λ line. IsTrue (is_proper (view line))) }
    ensures exact { IfOk result (λ line. view line ≡ directive_line source.now directive rest.now) }
{
    match (directive, rest) {
        (Directive::Capacity, [Lexeme::Number(n)]) => match *n {
            Ranged::Within(n) if 1 <= n && n <= 16 => Ok(Line::Capacity(n as u8)),
            _ => Ok(Line::Wrong(Kind::Capacity, Slip::Number)),
        },
        (Directive::Mode, [Lexeme::Word(_, Meaning::Strict)]) => Ok(Line::Mode(Mode::Strict)),
        (Directive::Mode, [Lexeme::Word(_, Meaning::Weak)]) => Ok(Line::Mode(Mode::Weak)),
        (Directive::Array, [Lexeme::Word(name, _), Lexeme::Number(len)]) => {
            array_line(alloc, text_at(source, *name), *len)
        }
        (
            Directive::Array,
            [
                Lexeme::Word(name, _),
                Lexeme::Number(len),
                Lexeme::Equals,
                rest @ ..,
            ],
        ) => {
            match values_of(alloc, rest)? {
                Some(values) => values_line(alloc, text_at(source, *name), *len, &values),
                None => Ok(Line::Misshapen),
            }
        }
        (Directive::Push, []) => Ok(Line::Push),
        (Directive::Pop, []) => Ok(Line::Pop),
        (Directive::End, []) => Ok(Line::End),
        (Directive::Before, _) => Ok(before_line(calls_of(alloc, rest)?)),
        (Directive::Thread, _) => Ok(thread_line(calls_of(alloc, rest)?)),
        _ => Ok(Line::Misshapen),
    }
}

/// What a line says by itself.
pub fn line_of<'a>(
    alloc: Global,
    source: &'a [u8],
    lexemes: &[Lexeme],
) -> Result<Line<'a>, AllocError>
    requires { IsTrue (list_all (has_name source.now) lexemes.now) }
    ensures proper { IfOk result (λ line. IsTrue (is_proper (view line))) }
    ensures exact { IfOk result (λ line. view line ≡ line_of source.now lexemes.now) }
{
    match lexemes {
        [Lexeme::Directive(directive), rest @ ..] => directive_line(
            alloc, source, *directive, rest,
        ),
        [Lexeme::Word(name, _), Lexeme::Colon] => Ok(Line::Target(text_at(source, *name))),
        _ => Ok(instruction_line(source, lexemes)),
    }
}
