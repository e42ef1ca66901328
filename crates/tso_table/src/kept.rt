//! States with the actors that lead to them.

ghost use Rattle.std.specs.Prelude.{◌≡◌, ◌<◌, ◌↔◌, ◌++◌, ◌∷◌, [], Err, IfOk};
ghost use Rattle.tso_compact.specs.Plans.{HasStep, IsStep};
ghost use Rattle.tso_compact.specs.declared.fault.StepError.TheVariants as errors;
ghost use Rattle.tso_state.specs.Actors.{number_of, thread_of};
ghost use Rattle.tso_table.specs.Leading.{IsKept};

use std::alloc::{AllocError, Global};
use tso_compact::{StepError, step};
use tso_flow::Checked;
use tso_list::Seq;
use tso_state::{Actor, State, initial_state};

/// A state, and the actors whose steps lead to it from the initial one, in their order: 2i stands for the core of thread i,
/// 2i + 1 for its buffer.
#[derive(Drop)]
pub struct Kept {
    pub state: State,
    pub actors: Seq<u8>,
}

/// The number of an actor.
pub fn number_of(actor: Actor) -> u8
    requires { thread_of actor < 8 }
    ensures { result ≡ number_of actor }
{
    match actor {
        Actor::Exec(thread) => 2 * thread as u8,
        Actor::Drain(thread) => 2 * thread as u8 + 1,
    }
}

// The numbers of these actors, and that of one more behind them, in one block.
fn led_on(alloc: Global, actors: &[u8], actor: Actor) -> Result<Seq<u8>, AllocError>
    requires { thread_of actor < 8 }
    ensures { IfOk result (λ all. all ≡ actors.now ++ number_of actor ∷ []) }
{
    let mut all = Vec::with_capacity(alloc, actors.len().saturating_add(1))?;
    all.extend_from_slice(actors)?;
    all.push(number_of(actor))?;
    Ok(Seq::from_vec(all))
}

impl Kept {
    /// The state before any step, to which no actors lead.
    ///
    /// Errors: where a growth was refused.
    pub fn initial(alloc: Global, checked: &Checked) -> Result<Kept, AllocError>
        ensures kept { IfOk result (IsKept checked.now.client) }
        ensures actors { IfOk result (λ k. k.actors ≡ []) }
    {
        let state = initial_state(alloc, checked)?;
        Ok(Kept {
            state,
            actors: Seq::new(alloc),
        })
    }

    /// The state after the actor's step, with the actors that lead to it.
    ///
    /// Errors: `Disabled` exactly where the actor has no step; `Memory` where it has one and a growth was refused.
    pub fn next(&self, alloc: Global, checked: &Checked, actor: Actor) -> Result<Kept, StepError>
        requires { IsKept checked.now.client self.now }
        ensures kept { IfOk result (IsKept checked.now.client) }
        ensures step { IfOk result (λ k. IsStep checked.now.client self.now.state actor k.state) }
        ensures actors { IfOk result (λ k. k.actors ≡ self.now.actors ++ number_of actor ∷ []) }
        ensures disabled { (result ≡ Err errors.Disabled) ↔ (HasStep checked.now.client self.now.state actor → ⊥) }
        ensures memory { result ≡ Err errors.Memory → HasStep checked.now.client self.now.state actor }
    {
        let state = step(alloc, checked, &self.state, actor)?;
        let actors = led_on(alloc, self.actors.as_slice(), actor)?;
        Ok(Kept { state, actors })
    }

    /// The same state with the same actors once more.
    ///
    /// Errors: where a growth was refused.
    pub fn copied(&self) -> Result<Kept, AllocError>
        ensures { IfOk result (λ k. k ≡ self.now) }
    {
        let state = self.state.clone()?;
        let actors = self.actors.copied()?;
        Ok(Kept { state, actors })
    }
}
