//! Trees of records.

ghost use Rattle.std.specs.Prelude.{◌≡◌, IfOk};
ghost use Rattle.tso_cert.specs.Trees.{fork, tree_of};

use std::alloc::{AllocError, Global};
use tso_rec::Packed;
use tso_state::State;

/// A tree of records. In a valid certificate the records' states rise strictly from left to right, and a fork's state is above
/// all of its left half and at most all of its right half; a tree as such may be made of any parts.
#[derive(Drop)]
pub enum Cert {
    Leaf(Packed),
    Fork(Box<Cert>, State, Box<Cert>),
}

impl Cert {
    /// A fork of these.
    ///
    /// Errors: where a growth was refused.
    pub fn fork(alloc: Global, left: Cert, state: State, right: Cert) -> Result<Cert, AllocError>
        ensures { IfOk result (λ c. tree_of c ≡ fork (tree_of left) state (tree_of right)) }
    {
        let left = match Box::new(alloc, left) {
            Ok(left) => left,
            Err(_) => {
                drop(state);
                drop(right);
                return Err(AllocError);
            }
        };
        match Box::new(alloc, right) {
            Ok(right) => Ok(Cert::Fork(left, state, right)),
            Err(_) => {
                drop(left);
                drop(state);
                Err(AllocError)
            }
        }
    }
}
