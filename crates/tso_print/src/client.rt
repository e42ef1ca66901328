//! Whole clients.

ghost use Rattle.std.specs.Prelude.{◌≡◌, ◌<◌, ◌+◌, ◌++◌, ◌==◌, length, map, codes, OnOk, IfOk, IsTrue};
ghost use Rattle.std.specs.List.{list_all};
ghost use Rattle.std.specs.String.{string_bytes};
ghost use Rattle.tso_prog.specs.Limits.{is_short_name, are_arrays_below};
ghost use Rattle.tso_prog.specs.Client.{client};
ghost use Rattle.tso_print.specs.Denotes.{Denotes};
ghost use Rattle.tso_print.specs.Pieces.{spelled, text_of};
ghost use Rattle.tso_print.specs.Layout.{value_pieces, more_values, array_pieces, call_pieces, more_calls, calls_pieces, prologue_lines, thread_pieces, head_lines, procedure_text, printed};

use crate::operand::{push_name, push_number};
use crate::procedure::push_body;
use crate::words::mode_word;
use std::alloc::{AllocError, Global};
use tso_line::{CallKind, Mode};
use tso_list::Seq;
use tso_prog::{Array, Client, Procedure};

// Values, each behind a comma.
fn push_more_values(text: &mut String, values: &[u64]) -> Result<(), AllocError>
    ensures { OnOk result (string_bytes text.new ≡ string_bytes text.old ++ spelled (more_values values.now)) }
{
    for value in values {
        text.push_str(", ")?;
        push_number(text, *value)?;
    }
    Ok(())
}

fn are_zero(values: &[u64]) -> bool
    ensures { result ≡ list_all (λ w. w == 0) values.now }
{
    values.iter().all(|value| *value == 0)
}

// The values of an array, if one is not 0.
#[tactic(auto, using(crate::proofs::Joins::joins))]
fn push_values(text: &mut String, values: &[u64]) -> Result<(), AllocError>
    ensures { OnOk result (string_bytes text.new ≡ string_bytes text.old ++ spelled (value_pieces values.now)) }
{
    match values {
        [first, rest @ ..] if !are_zero(values) => {
            text.push_str(" = ")?;
            push_number(text, *first)?;
            push_more_values(text, rest)
        }
        _ => Ok(()),
    }
}

#[tactic(auto, using(crate::proofs::Joins::joins))]
fn push_array(text: &mut String, array: &Array) -> Result<(), AllocError>
    requires name { IsTrue (is_short_name array.now.name) }
    ensures { OnOk result (string_bytes text.new ≡ string_bytes text.old ++ (spelled (array_pieces array.now) ++ codes "\n")) }
{
    text.push_str(".array ")?;
    push_name(text, array.name.as_slice())?;
    text.push_str(" ")?;
    push_number(text, array.words.len() as u64)?;
    push_values(text, array.words.as_slice())?;
    text.push_str("\n")?;
    Ok(())
}

fn push_arrays(text: &mut String, arrays: &[Array]) -> Result<(), AllocError>
    requires names { IsTrue (list_all (λ a. is_short_name a.name) arrays.now) }
    ensures { OnOk result (string_bytes text.new ≡ string_bytes text.old ++ text_of (map array_pieces arrays.now)) }
{
    for array in arrays {
        push_array(text, array)?;
    }
    Ok(())
}

fn push_call(text: &mut String, call: CallKind) -> Result<(), AllocError>
    ensures { OnOk result (string_bytes text.new ≡ string_bytes text.old ++ spelled (call_pieces call)) }
{
    match call {
        CallKind::Push(value) => {
            text.push_str(" push ")?;
            push_number(text, value)
        }
        CallKind::Pop => text.push_str(" pop"),
    }
}

// Calls, each behind a comma.
fn push_more_calls(text: &mut String, calls: &[CallKind]) -> Result<(), AllocError>
    ensures { OnOk result (string_bytes text.new ≡ string_bytes text.old ++ spelled (more_calls calls.now)) }
{
    for call in calls {
        text.push_str(",")?;
        push_call(text, *call)?;
    }
    Ok(())
}

// Calls behind a directive, with the end of the line.
#[tactic(auto, using(crate::proofs::Joins::joins))]
fn push_calls(text: &mut String, directive: &str, calls: &[CallKind]) -> Result<(), AllocError>
    ensures { OnOk result (string_bytes text.new ≡ string_bytes text.old ++ (directive.now ++ (spelled (calls_pieces calls.now) ++ codes "\n"))) }
{
    text.push_str(directive)?;
    if let [first, rest @ ..] = calls {
        push_call(text, *first)?;
        push_more_calls(text, rest)?;
    }
    text.push_str("\n")?;
    Ok(())
}

fn push_prologue(text: &mut String, calls: &[CallKind]) -> Result<(), AllocError>
    ensures { OnOk result (string_bytes text.new ≡ string_bytes text.old ++ text_of (prologue_lines calls.now)) }
{
    if !calls.is_empty() {
        push_calls(text, ".before", calls)?;
    }
    Ok(())
}

fn push_threads(text: &mut String, threads: &[Seq<CallKind>]) -> Result<(), AllocError>
    ensures { OnOk result (string_bytes text.new ≡ string_bytes text.old ++ text_of (map thread_pieces threads.now)) }
{
    for calls in threads {
        push_calls(text, ".thread", calls.as_slice())?;
    }
    Ok(())
}

// The capacity and the mode.
#[tactic(auto, using(crate::proofs::Joins::joins))]
fn push_head(text: &mut String, capacity: u8, mode: Mode) -> Result<(), AllocError>
    ensures { OnOk result (string_bytes text.new ≡ string_bytes text.old ++ text_of (head_lines capacity mode)) }
{
    text.push_str(".capacity ")?;
    push_number(text, u64::from(capacity))?;
    text.push_str("\n.mode ")?;
    text.push_str(mode_word(mode))?;
    text.push_str("\n")?;
    Ok(())
}

// A procedure between its directive and its end.
#[tactic(auto, using(crate::proofs::Joins::joins))]
fn push_procedure(
    text: &mut String,
    directive: &str,
    arrays: &[Array],
    procedure: &Procedure,
) -> Result<(), AllocError>
    requires names { IsTrue (list_all (λ a. is_short_name a.name) arrays.now) }
    requires below { IsTrue (are_arrays_below (length arrays.now) procedure.now.instructions) }
    ensures { OnOk result (string_bytes text.new ≡ string_bytes text.old ++ procedure_text arrays.now directive.now procedure.now.instructions) }
{
    text.push_str(directive)?;
    text.push_str("\n")?;
    push_body(text, arrays, procedure.instructions.as_slice())?;
    text.push_str(".end\n")?;
    Ok(())
}

/// The text of a client: it denotes the client, whatever lines its instructions stand on. So `tso_prog::read` gives the
/// client back but for the lines, or wants memory.
///
/// Labels are `l` and the position of the instruction that they stand before, and stand only where they are jumped
/// to. Immediates are signed, values of arrays and arguments of calls unsigned. `Err` where a growth was refused.
#[tactic(auto, using(crate::proofs::Joins::joins), unfolding(crate::specs::Layout::printed))]
pub fn print(alloc: Global, program: &Client) -> Result<String, AllocError>
    ensures denotes { IfOk result (λ text. Denotes (string_bytes text) (client program.now)) }
    ensures exact { IfOk result (λ text. string_bytes text ≡ printed (client program.now)) }
{
    let arrays = program.arrays.as_slice();
    let mut text = String::new(alloc);
    push_head(&mut text, program.capacity, program.mode)?;
    push_arrays(&mut text, arrays)?;
    push_procedure(&mut text, ".push", arrays, &program.push)?;
    push_procedure(&mut text, ".pop", arrays, &program.pop)?;
    push_prologue(&mut text, program.prologue.as_slice())?;
    push_threads(&mut text, program.threads.as_slice())?;
    Ok(text)
}
