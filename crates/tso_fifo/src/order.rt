//! What an order lists.

use tso_list::Seq;
use tso_prog::Answer;

/// A call's place in an order: call `call` of `thread`, counted from 0, with its answer.
#[derive(Clone, Copy, PartialEq, Eq, PartialOrd, Ord, Hash)]
pub struct Placed {
    pub thread: usize,
    pub call: usize,
    pub answer: Answer,
}

/// Calls one after another.
pub type Order = Seq<Placed>;
