//! How states and actors are ordered, when they are the same, and that a copy is its source.
ghost use Rattle.std.specs.Prelude.{◌≡◌, ◌↔◌, IfOk, IsTrue};
ghost use Rattle.std.specs.Ordering.{is_eq, nat_cmp};
ghost use Rattle.std.specs.declared.cmp.Ordering.TheVariants.{Less};
ghost use Rattle.tso_state.specs.ActorOrder.{ActorsAreOrderedByNumber};
ghost use Rattle.tso_state.specs.Actors.{number_of};
ghost use Rattle.tso_state.specs.Hashes.{EqualStatesHashAlike};
ghost use Rattle.tso_state.specs.Order.{state_cmp};

use crate::actor::Actor;
use crate::state::State;
use std::alloc::AllocError;
use std::cmp::Ordering;

/// How two states are ordered: memory, threads, history, each as lists are. They are `Equal` only where they are the same.
pub fn compare(a: &State, b: &State) -> Ordering
    ensures order { result ≡ state_cmp a.now b.now }
    ensures same { IsTrue (is_eq result) ↔ (a.now ≡ b.now) }
{
    tso_list::compare(a, b)
}

/// Whether this is the order of a lesser value and a greater one.
pub fn is_less(order: Ordering) -> bool
    ensures { IsTrue result ↔ (order ≡ Less) }
{
    matches!(order, Ordering::Less)
}

/// Whether two states are the same, which is what `==` says.
pub fn is_same(a: &State, b: &State) -> bool
    ensures { IsTrue result ↔ (a.now ≡ b.now) }
{
    *a == *b
}

/// A copy of a state, which is what `clone` makes.
pub fn copy_of(state: &State) -> Result<State, AllocError>
    ensures { IfOk result (λ copy. copy ≡ state.now) }
{
    state.clone()
}

/// Equal states feed a hash alike. This function does nothing when it runs.
pub fn equal_states_hash_alike()
    ensures { EqualStatesHashAlike }
{}

/// How two actors are ordered: as their numbers, 2i for the core of thread i and 2i + 1 for its buffer.
pub fn compare_actors(a: Actor, b: Actor) -> Ordering
    ensures order { result ≡ nat_cmp (number_of a) (number_of b) }
    ensures same { IsTrue (is_eq result) ↔ (a ≡ b) }
{
    tso_list::compare(&a, &b)
}

/// Actors are ordered as their numbers are. This function does nothing when it runs.
pub fn actors_are_ordered_by_number()
    ensures { ActorsAreOrderedByNumber }
{}
