//! Why a trace is refused.

use crate::lines::{put_meaning, put_number};
use crate::next::put_nexts;
use crate::page::Page;
use std::alloc::{AllocError, Global};
use tso_flow::Checked;
use tso_trace::{TraceFault, labels_of};

// The threads' next labels, where a label is no step.
fn put_no_step(
    alloc: Global,
    page: &mut Page,
    checked: &Checked,
    text: &[u8],
    label: usize,
) -> Result<(), AllocError> {
    put_number(alloc, page, text, label.saturating_add(1))?;
    let Ok(labels) = labels_of(alloc, &checked.client, text) else {
        return Ok(());
    };
    let taken = label.saturating_sub(1);
    page.say_made(format!(in alloc; "It is no step. After label {taken} come next:\n"))?;
    let before = labels.as_slice().get(..taken).unwrap_or(&[]);
    put_nexts(alloc, page, checked, before)
}

/// Says why a trace of a program is refused: the line with a mark, what each thread could have done there, and what the code means.
///
/// Errors: where a growth was refused.
pub fn put_trace(
    alloc: Global,
    page: &mut Page,
    checked: &Checked,
    text: &[u8],
    fault: &TraceFault,
) -> Result<(), AllocError> {
    match fault {
        TraceFault::NotAStep { label } => {
            put_no_step(alloc, page, checked, text, *label)?;
            put_meaning(alloc, page, "T01")
        }
        TraceFault::NoError => put_meaning(alloc, page, "T02"),
        TraceFault::Grammar { line } => {
            put_number(alloc, page, text, *line)?;
            put_meaning(alloc, page, "T03")
        }
        TraceFault::Memory => Ok(()),
    }
}
