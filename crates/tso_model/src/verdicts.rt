//! What a certificate proves, and what a path to a bad state shows.

ghost use Rattle.tso_model.specs.Certificate.{EveryRunIsGood};
ghost use Rattle.tso_model.specs.Violations.{BadPathsAreErrors, PathsAreShown};

/// Where kept states are a certificate, every run of labels, ended or not, is good: it has no fault, and its calls and returns
/// are linearizable.
pub fn every_run_is_good<F>()
    ensures { EveryRunIsGood F }
{}

/// Each path of compact steps from the first state is shown by a run of labels, with its faults and no more orders.
pub fn paths_are_shown<F>()
    ensures { PathsAreShown F }
{}

/// A path to a state with a stopped thread or without an order is shown by a run that is not good.
pub fn bad_paths_are_errors<F>()
    ensures { BadPathsAreErrors F }
{}
