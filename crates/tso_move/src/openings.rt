//! The opening of a call.

ghost use Rattle.std.specs.Prelude.{◌≡◌, IfOk, IfSome};
ghost use Rattle.std.specs.Option.{option_map};
ghost use Rattle.tso_crossing.specs.Moves.{goes_on};
ghost use Rattle.tso_flow.specs.Calls.{kind_of};
ghost use Rattle.tso_flow.specs.declared.location.ProcedureKind.{ProcedureKind as AProcedure};
ghost use Rattle.tso_machine.specs.Actions.{FitsAction, meaning};
ghost use Rattle.tso_machine.specs.Activations.{activation};
ghost use Rattle.tso_machine.specs.Frames.{FitsFrame, patched};
ghost use Rattle.tso_machine.specs.Programs.{program_of};
ghost use Rattle.tso_move.specs.Openings.{IsOpening};
ghost use Rattle.tso_prog.specs.Views.{call_view};

use crate::own::Own;
use std::alloc::{AllocError, Global};
use tso_compact::argument_of;
use tso_flow::{Checked, ProcedureKind};
use tso_line::CallKind;
use tso_machine::{
    Action, Entry, Frame, Patch, back_jumps, first_frame, latest, loaded, moved, next_action,
    procedure_of,
};

/// What an opening sees: which places are the thread's own, its store buffer, the oldest entry first, and memory.
#[derive(Clone, Copy)]
pub struct Sight<'a> {
    pub own: Own<'a>,
    pub buffer: &'a [Entry],
    pub memory: &'a [u64],
}

impl Sight<'_> {
    ghost use Rattle.tso_move.specs.Openings.{buffer_of, read_by};

    // What an action of an opening changes in the frame; nothing where the opening stops before it.
    fn patch_of(&self, frame: &Frame, action: Action) -> Option<Patch>
        requires { FitsAction frame.now action }
        ensures is { (name : AProcedure) → option_map (λ p. activation name (patched frame.now p)) result ≡ goes_on (read_by self.now) (buffer_of self.now) (meaning name frame.now action) }
        ensures fits { IfSome result (FitsFrame frame.now) }
    {
        match action {
            Action::Silent(patch) => Some(patch),
            Action::Load { place, to, next } if self.own.has(place) => {
                let word = self.memory.get(place).copied().unwrap_or(0);
                Some(loaded(frame, to, latest(self.buffer, place, word), next))
            }
            Action::Barrier { next } if self.buffer.is_empty() => Some(moved(frame, next)),
            _ => None,
        }
    }
}

// The frame in which a call of this kind starts.
fn start(alloc: Global, checked: &Checked, kind: CallKind) -> Result<Frame, AllocError>
    ensures { IfOk result (λ f. activation (kind_of kind) f ≡ (program_of checked.now.client).start (call_view kind)) }
{
    let procedure = procedure_of(&checked.client, ProcedureKind::from(kind));
    let jumps = back_jumps(procedure.instructions.as_slice());
    first_frame(alloc, argument_of(kind), jumps)
}

/// Where the opening of a call of this kind leads: from the call's first instruction on over register steps, fences while nothing is
/// buffered, and loads of the thread's own places.
///
/// Errors: out of memory.
pub fn opening(
    alloc: Global,
    checked: &Checked,
    sight: &Sight<'_>,
    kind: CallKind,
) -> Result<Frame, AllocError>
    ensures { IfOk result (IsOpening checked.now.client sight.now kind) }
{
    let procedure = ProcedureKind::from(kind);
    let mut frame = start(alloc, checked, kind)?;
    for _ in 0..checked.step_limit() {
        let action = next_action(&checked.client, procedure, &frame);
        match sight.patch_of(&frame, action) {
            Some(patch) => {
                let _back = frame.patch(patch);
            }
            None => return Ok(frame),
        }
    }
    Ok(frame)
}
