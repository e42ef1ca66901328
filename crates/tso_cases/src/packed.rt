//! Records that keep what differs from the record before.

ghost use Rattle.std.specs.Prelude.{◌<◌, IfSome, length};

use std::alloc::Global;
use tso_calls::{Failure, ensure, state_after};
use tso_flow::Checked;
use tso_list::is_same;
use tso_rec::Packed;
use tso_state::State;

/// Whether the leaf has the state at this number.
pub fn has_state(leaf: &Packed, number: usize, state: &State) -> Result<(), Failure>
    requires { number < length leaf.now }
{
    let own = leaf.state(number)?;
    let is_own = is_same(&own, state);
    drop(own);
    ensure(is_own && leaf.compare(number, state).is_eq())
}

// The number of the record of this state.
fn number_of(leaf: &Packed, state: &State) -> Option<usize>
    ensures { IfSome result (λ n. n < length leaf.now) }
{
    for number in 0..leaf.len() {
        if leaf.compare(number, state).is_eq() {
            return Some(number);
        }
    }
    None
}

// Writes the number of the record of this state.
fn put_number(leaf: &Packed, state: &State, out: &mut String) -> Result<(), Failure> {
    match number_of(leaf, state) {
        Some(number) => Ok(write!(out, "{number} ")?),
        None => Ok(out.push_str("none ")?),
    }
}

/// Writes which records have these states, each told by the actors that lead to it.
pub fn put_numbers(
    alloc: Global,
    checked: &Checked,
    leaf: &Packed,
    items: &str,
    out: &mut String,
) -> Result<(), Failure> {
    for names in items.split(';') {
        let state = state_after(alloc, checked, names)?;
        let put = put_number(leaf, &state, out);
        drop(state);
        put?;
    }
    Ok(())
}
