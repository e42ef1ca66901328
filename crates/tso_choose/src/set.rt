//! Sets of actors as masks.

ghost use Rattle.std.specs.Prelude.{◌≡◌, ◌<◌, ◌==◌, ◌&&◌, ◌||◌, ℕ, if◌then◌else◌};
ghost use Rattle.tso_choose.specs.Closures.{has_bit};
ghost use Rattle.tso_choose.specs.Sets.{actor_at, has};
ghost use Rattle.tso_state.specs.Actors.{is_drain, number_of, thread_of};
ghost use Rattle.tso_state.specs.declared.actor.Actor.{Actor as AnActor};

use tso_state::Actor;

/// The number of an actor, by which actors are ordered.
pub fn number_of(actor: Actor) -> usize
    requires { thread_of actor < 8 }
    ensures { result ≡ number_of actor }
{
    match actor {
        Actor::Exec(thread) => 2 * thread,
        Actor::Drain(thread) => 2 * thread + 1,
    }
}

/// The actor with this number.
pub fn actor_at(number: usize) -> Actor
    ensures { result ≡ actor_at number }
{
    if number % 2 == 0 {
        Actor::Exec(number / 2)
    } else {
        Actor::Drain(number / 2)
    }
}

/// Whether the set has this number.
pub fn has_bit(set: u16, number: usize) -> bool
    requires { number < 16 }
    ensures { result ≡ has_bit set number }
{
    set >> number & 1 == 1
}

/// The set with this number.
pub fn with_bit(set: u16, number: usize) -> u16
    requires { number < 16 }
    ensures { (k : ℕ) → has_bit result k ≡ (has_bit set k || (k == number)) }
{
    set | 1 << number
}

/// The set of a thread's two actors, or of one of them, or of none.
pub fn pair(thread: usize, core: bool, buffer: bool) -> u16
    requires { thread < 8 }
    ensures { (b : AnActor) → has result b ≡ ((thread_of b == thread) && (if is_drain b then buffer else core)) }
{
    let first = if core { with_bit(0, 2 * thread) } else { 0 };
    if buffer {
        with_bit(first, 2 * thread + 1)
    } else {
        first
    }
}
