//! Runs of labels and runs of compact steps follow each other, and end alike.
//! A compact step is one instruction of a thread (a locked one with its five labels), one drain, or one call.

ghost use Rattle.tso_model.specs.Simulation.{BelongsByLabels, EndedRunsEndAlike, EndsAreEnds, RunsAreFollowed, RunsReachEnds};
ghost use Rattle.tso_model.specs.StepLabels.{ActorsAgree, StepsAreRuns, StepsGiveRuns};

/// Every run of labels from the start, ended or not, inside a locked instruction or not, is followed by compact steps with the
/// same calls and returns, to a state to which its machine belongs.
pub fn runs_are_followed<F>()
    ensures { RunsAreFollowed F }
{}

/// A machine that belongs to a compact state is its machine part, or what the first one to four labels of one locked
/// instruction make of it.
pub fn belongs_by_labels<F>()
    ensures { BelongsByLabels F }
{}

/// Each compact step is a run of labels of one thread.
pub fn steps_are_runs<F>()
    ensures { StepsAreRuns F }
{}

/// A list of compact steps is a run of labels, with the same history.
pub fn steps_give_runs<F>()
    ensures { StepsGiveRuns F }
{}

/// Where no label follows, the lock is free and no actor has a compact step.
pub fn ends_are_ends<F>()
    ensures { EndsAreEnds F }
{}

/// Every ended run is one of compact steps, with the same history and the same end.
pub fn ended_runs_end_alike<F>()
    ensures { EndedRunsEndAlike F }
{}

/// Every run goes on to an end that compact steps reach too, with the same history, where its faults show.
pub fn runs_reach_ends<F>()
    ensures { RunsReachEnds F }
{}

/// An actor has a compact step exactly where it has a label.
pub fn actors_agree<F>()
    ensures { ActorsAgree F }
{}
