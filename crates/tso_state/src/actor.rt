//! Who moves, in the order of their numbers: 2i for the core of thread i, 2i + 1 for its buffer.

use std::cmp::Ordering;

/// Who takes a step.
#[derive(Clone, Copy, Debug, Hash)]
pub enum Actor {
    /// The core of this thread: its next instruction, or the begin of its next call.
    Exec(usize),
    /// The buffer of this thread: its oldest entry goes to memory.
    Drain(usize),
}

impl Actor {
    ghost use Rattle.std.specs.Prelude.{◌≡◌};
    ghost use Rattle.tso_state.specs.Actors.{thread_of, is_drain};

    /// Whose actor it is.
    pub fn thread(self) -> usize
        ensures { result ≡ thread_of self }
    {
        match self {
            Actor::Exec(thread) => thread,
            Actor::Drain(thread) => thread,
        }
    }

    /// Whether it is a thread's buffer.
    pub fn is_drain(self) -> bool
        ensures { result ≡ is_drain self }
    {
        match self {
            Actor::Exec(_) => false,
            Actor::Drain(_) => true,
        }
    }
}

impl PartialEq for Actor {
    ghost use Rattle.std.specs.Prelude.{◌==◌};
    ghost use Rattle.std.proofs.Common.{rules};
    ghost use Rattle.std.specs.Bool.{beq};
    ghost use Rattle.std.specs.Cmp.Rules.{comparing};
    ghost use Rattle.std.specs.Ordering.{on, eq_of_both};
    ghost use Rattle.tso_state.specs.Actors.{thread_of, is_drain};

    ghost eq = { eq_of_both (on thread_of ◌==◌) (on is_drain beq) };

    ghost laws = { Prim.search (comparing, rules) };

    fn eq(&self, other: &Actor) -> bool {
        self.thread() == other.thread() && self.is_drain() == other.is_drain()
    }
}

impl Eq for Actor {
    ghost use Rattle.std.proofs.Common.{rules};
    ghost use Rattle.std.specs.Cmp.Rules.{comparing};

    ghost laws = { Prim.search (comparing, rules) };
}

impl Ord for Actor {
    ghost use Rattle.std.proofs.Common.{rules};
    ghost use Rattle.std.specs.Cmp.Rules.{comparing};
    ghost use Rattle.std.specs.Ordering.{nat_cmp, bool_cmp, on, then_cmp, as_partial_cmp};
    ghost use Rattle.tso_state.specs.Actors.{thread_of, is_drain};

    ghost cmp = { then_cmp (on thread_of nat_cmp) (on is_drain bool_cmp) };

    ghost total = { Prim.search (comparing, rules) };

    ghost matches_partial_cmp = { Prim.search (comparing, rules) };

    ghost matches_eq = { Prim.search (comparing, rules) };

    fn cmp(&self, other: &Actor) -> Ordering {
        let by_thread = self.thread().cmp(&other.thread());
        by_thread.then(self.is_drain().cmp(&other.is_drain()))
    }
}

impl PartialOrd for Actor {
    ghost use Rattle.std.proofs.Common.{rules};
    ghost use Rattle.std.specs.Cmp.{partial_order_from_own_ties};
    ghost use Rattle.std.specs.Cmp.Rules.{comparing};
    ghost use Rattle.std.specs.Ordering.{nat_cmp, bool_cmp, on, then_cmp, as_partial_cmp};
    ghost use Rattle.tso_state.specs.Actors.{thread_of, is_drain};

    ghost partial_cmp = { as_partial_cmp (then_cmp (on thread_of nat_cmp) (on is_drain bool_cmp)) };

    ghost laws = { partial_order_from_own_ties (Prim.search (comparing, rules)) (Prim.search (comparing, rules)) };

    fn partial_cmp(&self, other: &Actor) -> Option<Ordering> {
        Some(self.cmp(other))
    }
}
