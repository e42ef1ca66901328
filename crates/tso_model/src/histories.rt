//! Histories and their linearizations.
//! Source: Herlihy, Wing, "Linearizability: a correctness condition for concurrent objects", TOPLAS 12(3), 1990.

ghost use Rattle.tso_model.specs.Histories.{HistoriesAreOfEvents, HistoriesTell, OrdersAreLinearizations};
ghost use Rattle.tso_model.specs.Queues.{AnswersAreQueueAnswers, QueuesAreBounded, QueuesAreFifo, StrictIsWeak, StrictQueuesAnswer, StrictQueuesAreDetermined};
ghost use Rattle.tso_model.specs.Persistence.{BeginningsAreLinearizable, OrdersServeLooser};

/// The counted history takes nothing but the calls and returns from a run's labels.
pub fn histories_are_of_events()
    ensures { HistoriesAreOfEvents }
{}

/// The counted history of a run says of kinds, answers and "before" what its events say.
pub fn histories_tell<F>()
    ensures { HistoriesTell F }
{}

/// The orders of a run's counted history are exactly the linearizations of its events.
pub fn orders_are_linearizations<F>()
    ensures { OrdersAreLinearizations F }
{}

/// What is linearizable is so at each of its beginnings.
pub fn beginnings_are_linearizable<F>()
    ensures { BeginningsAreLinearizable F }
{}

/// An order of a stricter history is one of a looser.
pub fn orders_serve_looser<F>()
    ensures { OrdersServeLooser F }
{}

/// A queue is first-in first-out: what was there and then went in is what came out and is still there.
pub fn queues_are_fifo()
    ensures { QueuesAreFifo }
{}

/// A queue never holds more than its capacity.
pub fn queues_are_bounded()
    ensures { QueuesAreBounded }
{}

/// A strict queue has but one answer to each call.
pub fn strict_queues_are_determined()
    ensures { StrictQueuesAreDetermined }
{}

/// A strict queue has an answer to each call: a push is done exactly below the capacity, and a pop gives the front.
pub fn strict_queues_answer()
    ensures { StrictQueuesAnswer }
{}

/// What a strict queue may do, a weak one may.
pub fn strict_is_weak()
    ensures { StrictIsWeak }
{}

/// A call has exactly the answers of its kind that a queue may give to it in some state.
pub fn answers_are_queue_answers()
    ensures { AnswersAreQueueAnswers }
{}
