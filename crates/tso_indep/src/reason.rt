//! Why a chosen actor's step may be taken before another thread's steps.

use std::alloc::Global;
use std::default::MadeWith;
use tso_list::Exact;

/// Why a chosen actor's step may be taken before the other thread's steps, in the order of their numbers in certificates,
/// from 0: the dependency relation of persistent choices (Godefroid, LNCS 1032, 1996) in six cases.
#[derive(Clone, Copy, Debug, PartialEq, Eq, PartialOrd, Ord, Hash)]
pub enum Reason {
    /// The step touches no memory, and begins and ends no call.
    Own,
    /// The other thread's future accesses avoid the step's place.
    Far,
    /// Each actor of the other thread is chosen, or has no step.
    Inside,
    /// The other thread's core is chosen, and its buffer has no entry for the step's place.
    Buffer,
    /// The step is a return.
    Return,
    /// The step begins a call, and the other thread returns no more.
    NoReturn,
}

impl Exact for Reason {
    ghost use Rattle.std.proofs.Common.{rules};

    ghost exact = { λ x y. Prim.search rules };
}

impl MadeWith<Global> for Reason {
    ghost use Rattle.std.specs.Prelude.{◌≡◌};
    ghost use Rattle.tso_indep.specs.declared.reason.Reason.TheVariants as reasons;

    ghost is_made_with = { λ reason. reason ≡ reasons.Own };

    fn made_with(_alloc: Global) -> Reason {
        Reason::Own
    }
}
