//! Whether the runs to a state are good.

ghost use Rattle.std.specs.Prelude.{◌≡◌, true, false, IfOk, MatchBool};
ghost use Rattle.tso_search.specs.Goodness.{IsGood};
ghost use Rattle.tso_search.specs.Reached.{IsBad};
ghost use Rattle.tso_fifo.specs.Orders.{HasOrder};

use std::alloc::{AllocError, Global};
use tso_fifo::linearize;
use tso_flow::Checked;
use tso_judge::has_no_stopped;
use tso_state::State;

/// Whether an order explains the calls of the state.
pub fn has_order(alloc: Global, checked: &Checked, state: &State) -> Result<bool, AllocError>
    ensures { IfOk result (λ found. MatchBool found (HasOrder checked.now.client.mode checked.now.client.capacity state.now.history) (HasOrder checked.now.client.mode checked.now.client.capacity state.now.history → ⊥)) }
{
    let client = &checked.client;
    let order = linearize(alloc, &state.history, client.mode, client.capacity as usize)?;
    Ok(order.is_some())
}

/// Whether no fault has stopped a thread of the state, and an order explains its calls.
pub fn is_good(alloc: Global, checked: &Checked, state: &State) -> Result<bool, AllocError>
    ensures good { IfOk result (λ good. good ≡ true → IsGood checked.now.client state.now) }
    ensures bad { IfOk result (λ good. good ≡ false → IsBad checked.now.client state.now) }
{
    if !has_no_stopped(state) {
        return Ok(false);
    }
    has_order(alloc, checked, state)
}
