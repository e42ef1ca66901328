//! Chosen actors with their reasons.
ghost use Rattle.std.specs.Prelude.{◌≡◌};

use std::alloc::{AllocError, Global};
use std::default::MadeWith;
use tso_indep::Reason;
use tso_list::{Exact, Short};
use tso_state::Actor;

/// A chosen actor, with one reason for each other thread, in the rising order of threads. It may be made of any parts.
#[derive(PartialEq, Eq, PartialOrd, Ord, Hash, Drop)]
pub struct Choice {
    pub actor: Actor,
    pub reasons: Short<Reason, 4>,
}

/// Chosen actors, one after another.
pub type Choices = Short<Choice, 2>;

impl Clone for Choice {
    ghost is_clone = { λ choice copy. copy ≡ choice };

    fn clone(&self) -> Result<Self, AllocError> {
        let reasons = self.reasons.clone()?;
        Ok(Choice {
            actor: self.actor,
            reasons,
        })
    }
}

impl Exact for Choice {
    ghost use Rattle.tso_indep.specs.contracts.reason.ReasonExact.TheImpl.Laws.{exact-law as reason_exact};
    ghost use Rattle.tso_list.specs.Same.{same_two};
    ghost use Rattle.tso_state.specs.ActorExactness.{actor_exact};
    ghost use lib.Pointwise.{pointwise_decides};

    ghost exact = { λ a b. same_two _ _ (actor_exact a.actor b.actor) (pointwise_decides reason_exact a.reasons b.reasons)
        (λ p q i. record { actor = p i; reasons = q i }) (λ e i. (e i).actor) (λ e i. (e i).reasons) };
}

impl MadeWith<Global> for Choice {
    ghost use Rattle.std.specs.Prelude.{[]};
    ghost use Rattle.tso_state.specs.declared.actor.Actor.TheVariants.{Exec};

    ghost is_made_with = { λ choice. choice ≡ record { actor = Exec 0; reasons = [] } };

    fn made_with(alloc: Global) -> Choice {
        Choice {
            actor: Actor::Exec(0),
            reasons: Short::new(alloc),
        }
    }
}
