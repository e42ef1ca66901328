//! One label of a run, with what is shown beside it.

ghost use Rattle.std.specs.Prelude.{◌≡◌, ◌+◌, slice_get, string_bytes, IfOk, IfSome, OnErr, Some};
ghost use Rattle.tso_show.specs.Moments.{IsMoment};
ghost use Rattle.tso_trace.specs.Walks.{StandsAt};

use crate::site::{Site, taker};
use crate::state::{Show, push_shown};
use crate::walk::{Walk, WalkError};
use std::alloc::Global;
use tso_machine::Label;

/// A label that was taken, the instruction that took it, and what is shown of the machine after it.
#[derive(Drop)]
pub struct Moment {
    pub label: Label,
    pub site: Option<Site>,
    /// Lines, each with its newline.
    pub shown: String,
}

/// Takes the next label of a walk, and says what is to be shown of it: nothing where none is left. What is shown is of the
/// machine after exactly that label, and the instruction is the one that its thread's frame was at before it.
///
/// Errors: `NotAStep` with the label's number where it is no step, and `Memory`.
pub fn next_moment<'a>(
    alloc: Global,
    walk: &mut Walk<'a>,
    show: Show,
) -> Result<Option<Moment>, WalkError>
    ensures moment { IfOk result (λ found. IfSome found (IsMoment show walk.old walk.new)) }
    ensures run { StandsAt walk.new }
    ensures same { (walk.new.client ≡ walk.old.client) × (walk.new.labels ≡ walk.old.labels) }
{
    let Some(label) = walk.next_label() else {
        return Ok(None);
    };
    let site = taker(&walk.checked().client, walk.machine(), label);
    let moved = walk.forward(alloc)?;
    if !moved {
        return Ok(None);
    }
    let mut shown = String::new(alloc);
    push_shown(
        alloc,
        &mut shown,
        &walk.checked().client,
        walk.machine(),
        label,
        show,
    )?;
    Ok(Some(Moment { label, site, shown }))
}
