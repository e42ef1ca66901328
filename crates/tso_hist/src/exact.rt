//! Calls and histories whose `==` says whether they are the same.

use crate::{Call, History};
use tso_list::Exact;

impl Exact for Call {
    ghost use Rattle.std.proofs.Common.{rules};
    ghost use Rattle.std.proofs.lemmas.Bool.Decides.{Decides-eqb};
    ghost use Rattle.tso_list.specs.Same.{same_three, same_option};
    ghost use lib.Pointwise.{pointwise_decides};

    ghost exact = { λ a b. same_three _ _ _ (Prim.search rules) (pointwise_decides Decides-eqb a.seen b.seen) (same_option (λ x y. Prim.search rules) a.answer b.answer)
        (λ p q r i. record { kind = p i; seen = q i; answer = r i }) (λ e i. (e i).kind) (λ e i. (e i).seen) (λ e i. (e i).answer) };
}

impl Exact for History {
    ghost use Rattle.tso_hist.specs.contracts.exact.CallExact.TheImpl.Laws.{exact-law as call_exact};
    ghost use lib.Pointwise.{pointwise_decides};

    ghost exact = { pointwise_decides (pointwise_decides call_exact) };
}
