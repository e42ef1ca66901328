//! Ends of states in which a core's step goes first alone.

ghost use Rattle.std.specs.Prelude.{◌≡◌, IfOk};
ghost use Rattle.tso_write.specs.Cutting.{IsLoneEnd, lone_reason, reasons_but};

use std::alloc::{AllocError, Global};
use tso_choose::Choice;
use tso_compact::StepKind;
use tso_indep::Reason;
use tso_list::Short;
use tso_rec::End;
use tso_state::Actor;
use tso_store::Lone;

// The reason that such a step has against each other thread.
fn lone_reason(kind: StepKind) -> Reason
    ensures { result ≡ lone_reason kind }
{
    match kind {
        StepKind::Return => Reason::Return,
        _ => Reason::Own,
    }
}

// The reason once for each of so many threads but this one.
fn reasons_but(
    alloc: Global,
    reason: Reason,
    own: usize,
    count: usize,
) -> Result<Short<Reason, 4>, AllocError>
    ensures { IfOk result (λ given. given ≡ reasons_but reason own count) }
{
    let mut given = Short::new(alloc);
    for other in 0..count {
        if other != own {
            given.push(reason)?;
        }
    }
    Ok(given)
}

/// The end of a state of so many threads, whose lowest core with a step that goes first alone this is: that core alone is chosen, with
/// one reason against all other threads.
///
/// Errors: where a growth was refused.
pub fn lone_end(alloc: Global, lone: Lone, count: usize) -> Result<End, AllocError>
    ensures { IfOk result (IsLoneEnd lone count) }
{
    let reasons = reasons_but(alloc, lone_reason(lone.kind), lone.thread, count)?;
    let mut choices = Short::new(alloc);
    choices.push(Choice {
        actor: Actor::Exec(lone.thread),
        reasons,
    })?;
    Ok(End::Choices(choices))
}
