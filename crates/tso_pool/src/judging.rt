//! States in which no actor has a step.

ghost use Rattle.std.specs.Prelude.{IfNone, IfOk, IfSome};
ghost use Rattle.tso_rec.specs.Conditions.{HasNoStopped, IsExplained};
ghost use Rattle.tso_pool.specs.Endings.{IsBad};
ghost use Rattle.tso_rec.specs.declared.record.End.TheVariants as ends;

use std::alloc::{AllocError, Global};
use tso_fifo::{Order, linearize};
use tso_flow::Checked;
use tso_judge::has_no_stopped;
use tso_state::State;

/// The order that explains the calls of a state in which no fault has stopped a thread. `None` where a thread is stopped, or no
/// order explains the calls: then a run to this state is not good.
///
/// Errors: where a growth was refused.
pub fn judge_end(
    alloc: Global,
    checked: &Checked,
    state: &State,
) -> Result<Option<Order>, AllocError>
    ensures good { IfOk result (λ found. IfSome found (λ order. HasNoStopped state.now × IsExplained checked.now.client state.now (ends.Order order))) }
    ensures bad { IfOk result (λ found. IfNone found (IsBad checked.now.client state.now)) }
{
    if !has_no_stopped(state) {
        return Ok(None);
    }
    let client = &checked.client;
    let found = linearize(alloc, &state.history, client.mode, client.capacity as usize)?;
    Ok(found)
}
