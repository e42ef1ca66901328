//! Whether records have what the initial state asks for, looked up in a tree by halves.

ghost use Rattle.std.specs.Prelude.{◌↔◌, IfOk, IsTrue};
ghost use Rattle.tso_cert.specs.Lookup.{IsOrdered, tree_states};
ghost use Rattle.tso_cert.specs.Trees.{tree_of};
ghost use Rattle.tso_judge.specs.Valid.{ContainsInitial, HasInitial};
ghost use Rattle.tso_rec.specs.Conditions.{IsLeast};

use std::alloc::{AllocError, Global};
use tso_cert::Cert;
use tso_flow::Checked;
use tso_judge::{Whole, is_met_from};
use tso_rec::Grain;
use tso_state::initial_state;

// Whether a record has the initial state.
fn contains_initial(alloc: Global, checked: &Checked, cert: &Cert) -> Result<bool, AllocError>
    requires { IsOrdered (tree_of cert.now) }
    ensures { IfOk result (λ r. IsTrue r ↔ ContainsInitial checked.now.client (tree_states (tree_of cert.now))) }
{
    let initial = initial_state(alloc, checked)?;
    if !cert.has(&initial) {
        return Ok(false);
    }
    Ok(true)
}

/// Whether a record has the initial state; in a certificate of crossings, the state in which the run from it stops.
///
/// Errors: where a growth was refused.
pub fn has_initial(whole: &Whole<'_>) -> Result<bool, AllocError>
    requires least { IsLeast whole.now.checked.now.client whole.now.own.now }
    requires ordered { IsOrdered (tree_of whole.now.tree.now) }
    ensures { IfOk result (λ r. IsTrue r ↔ HasInitial whole.now.checked.now.client whole.now.basis.now (tree_states (tree_of whole.now.tree.now))) }
{
    match whole.basis.grain {
        Grain::Steps => contains_initial(whole.alloc, whole.checked, whole.tree),
        Grain::Crossings => {
            let initial = initial_state(whole.alloc, whole.checked)?;
            is_met_from(whole, initial)
        }
    }
}
