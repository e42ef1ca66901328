//! States, their parts and actors whose `==` says whether they are the same.

mod cores {
    use crate::state::Core;
    use tso_list::Exact;

    impl Exact for Core {
        ghost use Rattle.tso_state.specs.Exactness.{core_exact};

        ghost exact = { core_exact };
    }
}

mod threads {
    use crate::state::Thread;
    use tso_list::Exact;

    impl Exact for Thread {
        ghost use Rattle.tso_list.specs.Same.{same_two};
        ghost use Rattle.tso_machine.specs.contracts.exact.EntryExact.TheImpl.Laws.{exact-law as entry_exact};
        ghost use Rattle.tso_state.specs.Exactness.{core_exact};
        ghost use lib.Pointwise.{pointwise_decides};

        ghost exact = { λ a b. same_two _ _ (core_exact a.core b.core) (pointwise_decides entry_exact a.buffer b.buffer)
            (λ p q i. record { core = p i; buffer = q i }) (λ e i. (e i).core) (λ e i. (e i).buffer) };
    }
}

mod states {
    use crate::state::State;
    use tso_list::Exact;

    impl Exact for State {
        ghost use Rattle.std.proofs.lemmas.Bool.Decides.{Decides-eqb};
        ghost use Rattle.tso_hist.specs.contracts.exact.HistoryExact.TheImpl.Laws.{exact-law as history_exact};
        ghost use Rattle.tso_list.specs.Same.{same_three};
        ghost use Rattle.tso_state.specs.contracts.exact.threads.ThreadExact.TheImpl.Laws.{exact-law as thread_exact};
        ghost use lib.Pointwise.{pointwise_decides};

        ghost exact = { λ a b. same_three _ _ _ (pointwise_decides Decides-eqb a.memory b.memory) (pointwise_decides thread_exact a.threads b.threads) (history_exact a.history b.history)
            (λ p q r i. record { memory = p i; threads = q i; history = r i }) (λ e i. (e i).memory) (λ e i. (e i).threads) (λ e i. (e i).history) };
    }
}

mod actors {
    use crate::actor::Actor;
    use tso_list::Exact;

    impl Exact for Actor {
        ghost use Rattle.tso_state.specs.ActorExactness.{actor_exact};

        ghost exact = { actor_exact };
    }
}
