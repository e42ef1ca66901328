//! Procedures.

ghost use Rattle.std.specs.Prelude.{◌≡◌, ◌<◌, ◌+◌, ◌++◌, length, drop, OnOk, IsTrue};
ghost use Rattle.std.specs.List.{list_all};
ghost use Rattle.std.specs.String.{string_bytes};
ghost use Rattle.tso_prog.specs.Limits.{is_short_name, are_arrays_below, are_in_range};
ghost use Rattle.tso_print.specs.Pieces.{text_of};
ghost use Rattle.tso_print.specs.Layout.{is_jumped_to, label_lines, text_from, body_text};

use crate::instruction::{push_instruction, push_label_name};
use std::alloc::AllocError;
use tso_prog::{Array, Step};

// Whether some instruction jumps to this position.
fn is_jumped_to(steps: &[Step], at: usize) -> bool
    ensures { result ≡ is_jumped_to steps.now at }
{
    steps
        .iter()
        .any(|step| step.label().is_some_and(|target| target == at))
}

// The label at this position, where it is jumped to.
#[tactic(auto, using(crate::proofs::Joins::joins))]
fn push_label(text: &mut String, steps: &[Step], at: usize) -> Result<(), AllocError>
    ensures { OnOk result (string_bytes text.new ≡ string_bytes text.old ++ text_of (label_lines steps.now at)) }
{
    if is_jumped_to(steps, at) {
        push_label_name(text, at)?;
        text.push_str(":\n")?;
    }
    Ok(())
}

// An instruction, with the label before it.
#[tactic(auto, using(crate::proofs::Joins::joins))]
fn push_step(
    text: &mut String,
    arrays: &[Array],
    steps: &[Step],
    at: usize,
) -> Result<(), AllocError>
    requires at { at < length steps.now }
    requires names { IsTrue (list_all (λ a. is_short_name a.name) arrays.now) }
    requires below { IsTrue (are_arrays_below (length arrays.now) steps.now) }
    requires in_range { IsTrue (are_in_range steps.now) }
    ensures { OnOk result (string_bytes text.new ++ text_from arrays.now steps.now (at + 1) ≡ string_bytes text.old ++ text_from arrays.now steps.now at) }
{
    push_label(text, steps, at)?;
    push_instruction(text, arrays, steps[at])?;
    text.push_str("\n")?;
    Ok(())
}

/// The instructions of a procedure, with the labels that are jumped to.
pub fn push_body(text: &mut String, arrays: &[Array], steps: &[Step]) -> Result<(), AllocError>
    requires names { IsTrue (list_all (λ a. is_short_name a.name) arrays.now) }
    requires below { IsTrue (are_arrays_below (length arrays.now) steps.now) }
    requires in_range { IsTrue (are_in_range steps.now) }
    ensures { OnOk result (string_bytes text.new ≡ string_bytes text.old ++ body_text arrays.now steps.now) }
{
    for at in 0..steps.len() {
        push_step(text, arrays, steps, at)?;
    }
    push_label(text, steps, steps.len())
}
