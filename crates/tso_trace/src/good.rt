//! Which runs are good: without a fault, and with calls that a bounded queue explains.

ghost use Rattle.std.specs.Prelude.{◌≡◌, true, false, IfOk};
ghost use Rattle.tso_trace.specs.Runs.{IsGoodRun, IsRun};

use crate::history::history_of;
use crate::run::has_fault;
use std::alloc::{AllocError, Global};
use tso_fifo::linearize;
use tso_machine::Label;
use tso_prog::Client;

/// Whether a run of the client is good: no fault stands in it, and its calls and returns have a linearization.
pub fn is_good(alloc: Global, client: &Client, labels: &[Label]) -> Result<bool, AllocError>
    requires { IsRun client.now labels.now }
    ensures good { IfOk result (λ good. good ≡ true → IsGoodRun client.now labels.now) }
    ensures errs { IfOk result (λ good. good ≡ false → IsGoodRun client.now labels.now → ⊥) }
{
    if has_fault(labels) {
        return Ok(false);
    }
    let history = history_of(alloc, client, labels)?;
    match linearize(alloc, &history, client.mode, usize::from(client.capacity))? {
        Some(_order) => Ok(true),
        None => Ok(false),
    }
}
