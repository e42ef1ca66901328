//! Whether the states of a tree rise, and its forks tell where.

ghost use Rattle.std.specs.Prelude.{◌↔◌, IfOk, IsTrue};
ghost use Rattle.tso_cert.specs.Lookup.{IsOrdered, tree_states};
ghost use Rattle.tso_state.specs.Rising.{IsRising};
ghost use Rattle.tso_cert.specs.Trees.{tree_of};
ghost use Rattle.tso_check.specs.Risen.{BeginsAbove, EndsBelow, ForksLook, GoesOn, GoesOnTo, IsFirstAtLeast, IsLastBelow};
ghost use Rattle.tso_rec.specs.Records.{states_of};

use std::alloc::AllocError;
use tso_cert::Cert;
use tso_rec::Packed;
use tso_state::{State, compare, is_less};

/// What is found of states from left to right.
#[derive(Drop)]
pub enum Risen {
    /// Each is below the next, and this is the last one, if there is one.
    To(Option<State>),
    /// One is not below the next.
    Not,
}

// Whether the state may stand behind the last one.
fn may_follow(last: &Option<State>, state: &State) -> bool
    ensures { IsTrue result ↔ GoesOn last.now state.now }
{
    match last {
        Some(last) => is_less(compare(last, state)),
        None => true,
    }
}

// The states of a leaf, behind this last one.
fn leaf_rises(records: &Packed, last: Option<State>) -> Result<Risen, AllocError>
    ensures { IfOk result (GoesOnTo last (states_of records.now)) }
{
    let mut last = last;
    for k in 0..records.len() {
        let state = records.state(k)?;
        if !may_follow(&last, &state) {
            return Ok(Risen::Not);
        }
        last = Some(state);
    }
    Ok(Risen::To(last))
}

// The states of a tree, behind this last one.
fn rises(cert: &Cert, last: Option<State>) -> Result<Risen, AllocError>
    ensures { IfOk result (GoesOnTo last (tree_states (tree_of cert.now))) }
{
    match cert {
        Cert::Leaf(records) => leaf_rises(records, last),
        Cert::Fork(left, _, right) => match rises(left, last)? {
            Risen::To(last) => rises(right, last),
            Risen::Not => Ok(Risen::Not),
        },
    }
}

// Whether the states of all records rise strictly.
fn is_rising(cert: &Cert) -> Result<bool, AllocError>
    ensures { IfOk result (λ r. IsTrue r ↔ IsRising (tree_states (tree_of cert.now))) }
{
    match rises(cert, None)? {
        Risen::To(_) => Ok(true),
        Risen::Not => Ok(false),
    }
}

// Whether the last state of a leaf, if it has one, is below a state.
fn ends_leaf_below(records: &Packed, state: &State) -> bool
    ensures { IsTrue result ↔ IsLastBelow (states_of records.now) state.now }
{
    let count = records.len();
    if count == 0 {
        return true;
    }
    is_less(records.compare(count - 1, state))
}

// Whether the first state of a leaf, if it has one, is not below a state.
fn begins_leaf_above(records: &Packed, state: &State) -> bool
    ensures { IsTrue result ↔ IsFirstAtLeast (states_of records.now) state.now }
{
    if records.len() == 0 {
        return true;
    }
    !is_less(records.compare(0, state))
}

// Whether the last state of each leaf is below a state.
fn ends_below(cert: &Cert, state: &State) -> bool
    ensures { IsTrue result ↔ EndsBelow (tree_of cert.now) state.now }
{
    match cert {
        Cert::Leaf(records) => ends_leaf_below(records, state),
        Cert::Fork(left, _, right) => ends_below(left, state) & ends_below(right, state),
    }
}

// Whether the first state of each leaf is not below a state.
fn begins_above(cert: &Cert, state: &State) -> bool
    ensures { IsTrue result ↔ BeginsAbove (tree_of cert.now) state.now }
{
    match cert {
        Cert::Leaf(records) => begins_leaf_above(records, state),
        Cert::Fork(left, _, right) => begins_above(left, state) & begins_above(right, state),
    }
}

/// Whether each fork's state is above the ends of the leaves of its left half, and not above the beginnings of those of its right
/// half.
pub fn forks_look(cert: &Cert) -> bool
    ensures { IsTrue result ↔ ForksLook (tree_of cert.now) }
{
    match cert {
        Cert::Leaf(_) => true,
        Cert::Fork(left, middle, right) => {
            let halves = forks_look(left) & forks_look(right);
            halves & ends_below(left, middle) & begins_above(right, middle)
        }
    }
}

/// Whether the states of a tree's records rise strictly from left to right, and each fork's state is above those of its left
/// half and at most those of its right half.
///
/// Errors: where a growth was refused.
pub fn is_ordered(cert: &Cert) -> Result<bool, AllocError>
    ensures { IfOk result (λ r. IsTrue r ↔ IsOrdered (tree_of cert.now)) }
{
    if !is_rising(cert)? {
        return Ok(false);
    }
    Ok(forks_look(cert))
}
