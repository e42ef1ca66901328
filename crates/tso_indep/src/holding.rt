//! Whether a reason holds.

ghost use Rattle.std.specs.Prelude.{◌≡◌};
ghost use Rattle.tso_compact.specs.Plans.{thread_in};
ghost use Rattle.tso_indep.specs.Reasons.{holds, is_done, is_reason};

use crate::far::{is_far_from, is_free, place_of};
use crate::reason::Reason;
use crate::still::{is_among, is_done, is_held};
use tso_compact::{StepKind, kind};
use tso_flow::Checked;
use tso_foot::Table;
use tso_machine::Entry;
use tso_state::{Actor, Core, Viewed};

/// The buffer of a thread; nothing where there is no such thread.
pub fn buffer_in<S: Viewed>(state: &S, number: usize) -> &[Entry]
    ensures { result.now ≡ (thread_in (S.state state.now) number).buffer }
{
    match state.thread(number) {
        Some(thread) => thread.buffer.as_slice(),
        None => &[],
    }
}

/// Whether a thread has finished its calls, is stopped or is cut; one that the state lacks is as one that has begun no call.
pub fn is_done_in<S: Viewed>(checked: &Checked, state: &S, number: usize) -> bool
    ensures { result ≡ is_done checked.now.client (S.state state.now) number (thread_in (S.state state.now) number).core }
{
    match state.thread(number) {
        Some(thread) => is_done(checked, state, number, &thread.core),
        None => is_done(checked, state, number, &Core::Idle),
    }
}

/// Whether the reason holds at the state, where these actors are chosen, for one of them whose step is of this kind and for
/// another thread. It takes no memory.
pub fn is_reason<S: Viewed>(
    checked: &Checked,
    table: &Table,
    state: &S,
    chosen: &[Actor],
    kind: StepKind,
    other: usize,
    reason: Reason,
) -> bool
    ensures { result ≡ is_reason checked.now.client table.now (S.state state.now) chosen.now kind other reason }
{
    match reason {
        Reason::Own => matches!(kind, StepKind::Local),
        Reason::Far => is_far_from(checked, table, state, kind, other),
        Reason::Inside => {
            is_held(checked, state, chosen, Actor::Exec(other))
                && is_held(checked, state, chosen, Actor::Drain(other))
        }
        Reason::Buffer => {
            is_among(chosen, Actor::Exec(other)) && is_free(buffer_in(state, other), place_of(kind))
        }
        Reason::Return => matches!(kind, StepKind::Return),
        Reason::NoReturn => { matches!(kind, StepKind::Call) && is_done_in(checked, state, other) }
    }
}

/// Whether the reason holds at the state, where these actors are chosen, for one of them and for another thread; where the
/// actor has no step, none does. It takes no memory.
///
/// `Own`: its step is local. `Far`: it is a load and the other thread's future writes avoid its place, or a drain or a locked
/// instruction and future reads and writes avoid it, by arrays or by cells as the table says. `Inside`: each of the other thread's two actors is chosen or has no step.
/// `Buffer`: the other thread's core is chosen, and its buffer has no entry for the step's place, if it has one. `Return`: the
/// step is a return. `NoReturn`: it begins a call, and the other thread has finished its calls, is stopped or is cut.
pub fn holds<S: Viewed>(
    checked: &Checked,
    table: &Table,
    state: &S,
    chosen: &[Actor],
    actor: Actor,
    other: usize,
    reason: Reason,
) -> bool
    ensures { result ≡ holds checked.now.client table.now (S.state state.now) chosen.now actor other reason }
{
    match kind(checked, state, actor) {
        Some(kind) => is_reason(checked, table, state, chosen, kind, other, reason),
        None => false,
    }
}
