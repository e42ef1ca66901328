//! A call that has begun.
ghost use Rattle.std.specs.Prelude.{◌≡◌};

use std::alloc::AllocError;
use tso_line::CallKind;
use tso_list::Seq;
use tso_prog::Answer;

/// A call that has begun.
#[derive(Debug, PartialEq, Eq, PartialOrd, Ord, Hash, Drop)]
pub struct Call {
    /// What it asks for.
    pub kind: CallKind,
    /// For each thread, how many of its calls had returned when this one began; 0 where there is no item.
    pub seen: Seq<usize>,
    /// What it answered, once it has returned.
    pub answer: Option<Answer>,
}

impl Clone for Call {
    ghost is_clone = { λ call copy. copy ≡ call };

    fn clone(&self) -> Result<Self, AllocError> {
        let seen = self.seen.clone()?;
        Ok(Call {
            kind: self.kind,
            seen,
            answer: self.answer,
        })
    }
}
