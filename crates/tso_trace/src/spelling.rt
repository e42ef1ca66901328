//! Labels as lines of text.

ghost use Rattle.std.specs.Prelude.{◌≡◌, ◌++◌, string_bytes, codes, IfOk, IsTrue, OnErr, OnOk};
ghost use Rattle.std.specs.Io.KnownBytes.{Appends};
ghost use Rattle.std.specs.List.{list_all};
ghost use Rattle.tso_prog.specs.Limits.{is_short_name};
ghost use Rattle.tso_trace.specs.Grammar.{access_text, answer_text, call_text, cell_text, fault_text, kind_text, line_text, lines_text};
ghost use Rattle.tso_trace.specs.Parts.{has_words};
ghost use Rattle.tso_list.specs.Beginnings.{AppendsBeginning};

use crate::cell::cell_of;
use std::alloc::{AllocError, Global};
use std::io;
use std::io::Write;
use tso_list::write_bytes;
use tso_machine::{FaultKind, Label, LabelKind};
use tso_prog::{Answer, Array, CallKind};

// Adds the name of an array, whose bytes are ASCII.
fn push_name(text: &mut String, name: &[u8]) -> Result<(), AllocError>
    ensures { IsTrue (is_short_name name.now) → OnOk result (string_bytes text.new ≡ string_bytes text.old ++ name.now) }
{
    for byte in name {
        text.push(char::from(*byte))?;
    }
    Ok(())
}

// Adds a cell as its array's name and its index.
fn push_cell(text: &mut String, arrays: &[Array], place: usize) -> Result<(), AllocError>
    ensures { IsTrue (list_all (λ a. is_short_name a.name) arrays.now) → OnOk result (string_bytes text.new ≡ string_bytes text.old ++ cell_text arrays.now place) }
{
    match cell_of(arrays, place) {
        Some(cell) => {
            push_name(text, arrays[cell.array].name.as_slice())?;
            let index = cell.index;
            write!(text, "[{index}]")
        }
        None => write!(text, "?[{place}]"),
    }
}

/// The name of a cell, `NAME[INDEX]`. A place outside memory is `?[PLACE]`.
///
/// Errors: where a growth was refused.
pub fn cell_name(alloc: Global, arrays: &[Array], place: usize) -> Result<String, AllocError>
    ensures { IsTrue (list_all (λ a. is_short_name a.name) arrays.now) → IfOk result (λ name. string_bytes name ≡ cell_text arrays.now place) }
{
    let mut name = String::new(alloc);
    push_cell(&mut name, arrays, place)?;
    Ok(name)
}

// Adds an access: its word, the cell and the value.
fn push_access(
    text: &mut String,
    arrays: &[Array],
    verb: &str,
    place: usize,
    word: u64,
) -> Result<(), AllocError>
    requires { IsTrue (list_all (λ a. is_short_name a.name) arrays.now) }
    ensures { OnOk result (string_bytes text.new ≡ string_bytes text.old ++ (verb.now ++ access_text arrays.now place word)) }
{
    text.push_str(verb)?;
    push_cell(text, arrays, place)?;
    write!(text, " = {word}")
}

fn push_answer(text: &mut String, answer: Answer) -> Result<(), AllocError>
    ensures { OnOk result (string_bytes text.new ≡ string_bytes text.old ++ (codes "return " ++ answer_text answer)) }
{
    match answer {
        Answer::Refused => text.push_str("return refused"),
        Answer::Done => text.push_str("return done"),
        Answer::Value(word) => write!(text, "return value {word}"),
    }
}

fn push_call(text: &mut String, call: CallKind) -> Result<(), AllocError>
    ensures { OnOk result (string_bytes text.new ≡ string_bytes text.old ++ (codes "call " ++ call_text call)) }
{
    match call {
        CallKind::Push(argument) => write!(text, "call push {argument}"),
        CallKind::Pop => text.push_str("call pop"),
    }
}

fn fault_text(kind: FaultKind) -> &'static str
    ensures { result.now ≡ codes "fault " ++ fault_text kind }
{
    match kind {
        FaultKind::OutOfRange => "fault range",
        FaultKind::FalseAssertion => "fault assert",
        FaultKind::BadAnswer => "fault answer",
    }
}

fn push_kind(text: &mut String, arrays: &[Array], kind: LabelKind) -> Result<(), AllocError>
    requires { IsTrue (list_all (λ a. is_short_name a.name) arrays.now) }
    ensures { OnOk result (string_bytes text.new ≡ string_bytes text.old ++ kind_text arrays.now kind) }
{
    match kind {
        LabelKind::Call(call) => push_call(text, call),
        LabelKind::Reg => text.push_str("reg"),
        LabelKind::Read { place, word } => push_access(text, arrays, "read ", place, word),
        LabelKind::Write { place, word } => push_access(text, arrays, "write ", place, word),
        LabelKind::Drain { place, word } => push_access(text, arrays, "drain ", place, word),
        LabelKind::Fence => text.push_str("fence"),
        LabelKind::Lock => text.push_str("lock"),
        LabelKind::Unlock => text.push_str("unlock"),
        LabelKind::Return(answer) => push_answer(text, answer),
        LabelKind::Fault(kind) => text.push_str(fault_text(kind)),
    }
}

/// The line of a label, without its newline.
pub fn line_of(alloc: Global, arrays: &[Array], label: Label) -> Result<String, AllocError>
    requires { IsTrue (list_all (λ a. is_short_name a.name) arrays.now) }
    ensures spelled { IfOk result (λ line. string_bytes line ≡ line_text arrays.now label) }
    ensures words { IsTrue (has_words label) }
{
    let mut text = String::new(alloc);
    let thread = label.thread;
    write!(text, "{thread} ")?;
    push_kind(&mut text, arrays, label.kind)?;
    Ok(text)
}

/// Writes the line of each label, with its newline. After an error a beginning of them has gone out, and nothing else.
pub fn print_lines<W: Write>(
    alloc: Global,
    out: &mut W,
    arrays: &[Array],
    labels: &[Label],
) -> io::Result<()>
    requires { IsTrue (list_all (λ a. is_short_name a.name) arrays.now) }
    ensures words { OnOk result (IsTrue (list_all has_words labels.now)) }
    ensures text { OnOk result (Appends (W.contents out.old) (W.contents out.new) (lines_text arrays.now labels.now)) }
    ensures beginning { OnErr result (AppendsBeginning (W.contents out.old) (W.contents out.new) (lines_text arrays.now labels.now)) }
{
    for label in labels {
        let line = line_of(alloc, arrays, *label)?;
        write_bytes(out, line.as_bytes())?;
        write_bytes(out, b"\n")?;
    }
    Ok(())
}
