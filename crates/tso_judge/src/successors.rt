//! Whether the states after chosen steps have records.

ghost use Rattle.std.specs.Prelude.{◌≡◌, ◌↔◌, All, IfOk, IsTrue};
ghost use Rattle.tso_cert.specs.Lookup.{IsOrdered, tree_states};
ghost use Rattle.tso_cert.specs.Trees.{tree_of};
ghost use Rattle.tso_choose.specs.declared.choice.Choice.{Choice as AChoice};
ghost use Rattle.tso_compact.specs.Plans.{HasHistories};
ghost use Rattle.tso_rec.specs.Conditions.{IsKeptAfter};

use std::alloc::{AllocError, Global};
use tso_cert::Cert;
use tso_choose::Choice;
use tso_compact::{StepError, step};
use tso_flow::Checked;
use tso_state::{Actor, State};

// Whether a record has the state after the actor's step.
fn is_kept_after(
    alloc: Global,
    checked: &Checked,
    cert: &Cert,
    state: &State,
    actor: Actor,
) -> Result<bool, AllocError>
    requires ordered { IsOrdered (tree_of cert.now) }
    requires histories { HasHistories state.now }
    ensures { IfOk result (λ r. IsTrue r ↔ IsKeptAfter checked.now.client (tree_states (tree_of cert.now)) state.now actor) }
{
    match step(alloc, checked, state, actor) {
        Ok(after) => Ok(cert.has(&after)),
        Err(StepError::Disabled) => Ok(false),
        Err(StepError::Memory) => Err(AllocError),
    }
}

/// Whether records have the states after the steps of all chosen actors.
pub fn are_kept_after(
    alloc: Global,
    checked: &Checked,
    cert: &Cert,
    state: &State,
    choices: &[Choice],
) -> Result<bool, AllocError>
    requires ordered { IsOrdered (tree_of cert.now) }
    requires histories { HasHistories state.now }
    ensures { IfOk result (λ r. IsTrue r ↔ All (λ (x : AChoice). IsKeptAfter checked.now.client (tree_states (tree_of cert.now)) state.now x.actor) choices.now) }
{
    for k in 0..choices.len() {
        if !is_kept_after(alloc, checked, cert, state, choices[k].actor)? {
            return Ok(false);
        }
    }
    Ok(true)
}
