//! What holds of all histories.

ghost use Rattle.tso_fifo.specs.Laws.{BeginningsAreLinearizable, OrdersAreDecided, OrdersAreLinearizations, OrdersOfRuns, StricterOrdersServe};

/// The orders of the history that events make, each thread calling and returning in turn, are exactly the linearizations
/// of the events.
pub fn orders_are_linearizations()
    ensures { OrdersAreLinearizations }
{}

/// The orders of the history that a run's calls and returns make are exactly the linearizations of the run's events.
pub fn orders_of_runs<F>()
    ensures { OrdersOfRuns F }
{}

/// Where the history of a list of events has an order, so has that of each beginning of the list.
pub fn beginnings_are_linearizable()
    ensures { BeginningsAreLinearizable }
{}

/// An order of a history that is at least as strict, with the same calls and answers, is one of the looser.
pub fn stricter_orders_serve()
    ensures { StricterOrdersServe }
{}

/// A history has an order or it has none.
pub fn orders_are_decided()
    ensures { OrdersAreDecided }
{}
