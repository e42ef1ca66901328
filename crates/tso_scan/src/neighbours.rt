//! Whether states that were read rise.

ghost use Rattle.std.specs.Prelude.{◌≡◌, ◌↔◌, ◌-◌, ◌<◌, ◌++◌, IsTrue, List, length};
ghost use Rattle.std.specs.declared.cmp.Ordering.TheVariants.{Less};
ghost use Rattle.tso_state.specs.Rising.{IsRising};
ghost use Rattle.tso_state.specs.declared.state.State.{State as StateValue};
ghost use Rattle.tso_scan.specs.Neighbours.{RisesBetween};
ghost use Rattle.tso_keys.specs.Orders.{IsOrderOf};

use tso_state::is_less;
use tso_store::{Gathered, Rising};

// Whether a state is above the one before.
fn is_above(states: &mut Rising<'_>, number: usize) -> bool
    ensures order { IsTrue result ↔ IsOrderOf states.old (number - 1) number Less }
    ensures stays { states.new ≡ states.old }
{
    match states.compare(number.saturating_sub(1), number) {
        Some(order) => is_less(order),
        None => false,
    }
}

// Whether each state with a number from one up to another is above the one before.
fn rises_between(states: &Gathered<'_>, from: usize, to: usize) -> bool
    ensures { IsTrue result ↔ RisesBetween states.now.states from to }
{
    let mut rising = states.rising();
    for number in from..to {
        if !is_above(&mut rising, number) {
            return false;
        }
    }
    true
}

/// Whether each state is below the next one.
pub fn is_rising(states: &Gathered<'_>) -> bool
    ensures { IsTrue result ↔ IsRising states.now.states }
{
    rises_between(states, 1, states.len())
}

// Whether the state with this number is above the one before, if there is one before.
fn rises_at(states: &Gathered<'_>, number: usize) -> bool
    ensures { IsTrue result → 0 < number → IsOrderOf states.now.states (number - 1) number Less }
{
    if number == 0 {
        return true;
    }
    let mut rising = states.rising();
    is_above(&mut rising, number)
}

/// Whether states rise, of which the first so many were put before the others, where it is known whether either rise.
pub fn rise_joined(states: &Gathered<'_>, first: usize, one: bool, two: bool) -> bool
    ensures { (old others : List StateValue) → states.now.states ≡ old ++ others → first ≡ length old → (IsTrue one → IsRising old) → (IsTrue two → IsRising others) → IsTrue result → IsRising states.now.states }
{
    if !one {
        return false;
    }
    if !two {
        return false;
    }
    rises_at(states, first)
}
