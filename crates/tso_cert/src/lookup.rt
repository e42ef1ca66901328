//! How many records a tree has, and which states.
ghost use Rattle.std.specs.Prelude.{◌≡◌, ◌≤◌, ◌↔◌, Contains, IsTrue};
ghost use Rattle.tso_cert.specs.Lookup.{IsOrdered, tree_states};
ghost use Rattle.tso_state.specs.Rising.{IsBelow, IsRising};
ghost use Rattle.tso_cert.specs.Search.{IsSearchable};
ghost use Rattle.tso_cert.specs.Trees.{record_count, tree_of};
ghost use Rattle.tso_rec.specs.Records.{states_of};

use crate::cert::Cert;
use std::cmp::Ordering;
use tso_rec::Packed;
use tso_state::{State, compare};

fn is_below(a: &State, b: &State) -> bool
    ensures { IsTrue result ↔ IsBelow a.now b.now }
{
    matches!(compare(a, b), Ordering::Less)
}

// Whether a record of a leaf whose states rise has the state, by halves.
fn leaf_has(records: &Packed, state: &State) -> bool
    requires { IsRising (states_of records.now) }
    ensures { IsTrue result ↔ Contains (states_of records.now) state.now }
{
    let mut low = 0;
    let mut high = records.len();
    while low < high {
        let middle = low + (high - low) / 2;
        match records.compare(middle, state) {
            Ordering::Less => low = middle + 1,
            Ordering::Equal => return true,
            Ordering::Greater => high = middle,
        }
    }
    false
}

// Whether a record has the state, where each leaf's states rise and the forks tell which half may have it.
fn finds(cert: &Cert, state: &State) -> bool
    requires { IsSearchable (tree_of cert.now) }
    ensures { IsTrue result ↔ Contains (tree_states (tree_of cert.now)) state.now }
{
    match cert {
        Cert::Leaf(records) => leaf_has(records, state),
        Cert::Fork(left, middle, right) => {
            if is_below(state, middle) {
                finds(left, state)
            } else {
                finds(right, state)
            }
        }
    }
}

impl Cert {
    /// How many records a tree within the limits has. It takes no memory.
    pub fn len(&self) -> u64
        requires { record_count (tree_of self.now) ≤ 4194304 }
        ensures { result ≡ record_count (tree_of self.now) }
    {
        match self {
            Cert::Leaf(records) => records.len() as u64,
            Cert::Fork(left, _, right) => left.len() + right.len(),
        }
    }

    /// Whether a record has the state, in a tree whose states rise strictly and whose forks tell where. It takes no memory, and
    /// goes down by the states of forks and then by halves.
    pub fn has(&self, state: &State) -> bool
        requires { IsOrdered (tree_of self.now) }
        ensures { IsTrue result ↔ Contains (tree_states (tree_of self.now)) state.now }
    {
        finds(self, state)
    }
}
