//! Entries of buffers and frames whose `==` says whether they are the same.

use crate::{Entry, Frame};
use tso_list::Exact;

impl Exact for Entry {
    ghost use Rattle.std.proofs.lemmas.Bool.Decides.{Decides-eqb};
    ghost use Rattle.tso_list.specs.Same.{same_two};

    ghost exact = { λ a b. same_two _ _ (Decides-eqb a.place b.place) (Decides-eqb a.word b.word)
        (λ p q i. record { place = p i; word = q i }) (λ e i. (e i).place) (λ e i. (e i).word) };
}

impl Exact for Frame {
    ghost use Rattle.tso_machine.specs.Exactness.{frame_exact};

    ghost exact = { frame_exact };
}
