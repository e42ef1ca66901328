//! Accesses that do not meet.

ghost use Rattle.std.specs.Prelude.{◌≡◌};
ghost use Rattle.tso_foot.specs.Ahead.{future_reads, future_writes};
ghost use Rattle.tso_indep.specs.Reasons.{has_entry, is_far, is_free, place_of};

use tso_compact::StepKind;
use tso_flow::Checked;
use tso_foot::{Table, future};
use tso_machine::Entry;
use tso_state::Viewed;

/// Whether the other thread's future avoids the step's place: its writes, of a load; reads and writes, of a drain and a locked
/// instruction. A table of arrays has a place with its whole array, and one of intervals by cells. A step without a place is far
/// from no thread, and then no future is asked for.
pub fn is_far_from<S: Viewed>(
    checked: &Checked,
    table: &Table,
    state: &S,
    kind: StepKind,
    other: usize,
) -> bool
    ensures { result ≡ is_far (future_reads checked.now.client table.now (S.state state.now) other) (future_writes checked.now.client table.now (S.state state.now) other) kind }
{
    match kind {
        StepKind::Load(place) => !future(checked, table, state, other).writes(place),
        StepKind::Drain(place) | StepKind::Locked(place) => {
            let future = future(checked, table, state, other);
            !future.reads(place) && !future.writes(place)
        }
        StepKind::Local | StepKind::Call | StepKind::Return => false,
    }
}

/// The place of memory that a step reads or writes, if there is one.
pub fn place_of(kind: StepKind) -> Option<usize>
    ensures { result ≡ place_of kind }
{
    match kind {
        StepKind::Load(place) => Some(place),
        StepKind::Drain(place) => Some(place),
        StepKind::Locked(place) => Some(place),
        _ => None,
    }
}

// Whether an entry of the buffer is for the place.
fn has_entry(buffer: &[Entry], place: usize) -> bool
    ensures { result ≡ has_entry buffer.now place }
{
    buffer.iter().any(|entry| entry.place == place)
}

/// Whether the buffer has no entry for the place, if there is one.
pub fn is_free(buffer: &[Entry], place: Option<usize>) -> bool
    ensures { result ≡ is_free buffer.now place }
{
    match place {
        Some(place) => !has_entry(buffer, place),
        None => true,
    }
}
