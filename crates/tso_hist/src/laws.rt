//! What holds of every list of calls and returns.

ghost use Rattle.tso_hist.specs.Turns.{HistoriesTell, RunsAreInTurn};

/// Where each thread calls and returns in turn, the history that `on_call` and `on_return` make of the events has the
/// calls and answers of the events, and `precedes` says which return stands before which call.
pub fn histories_tell()
    ensures { HistoriesTell }
{}

/// The threads of a program call and return in turn, in each of its runs.
pub fn runs_are_in_turn<F>()
    ensures { RunsAreInTurn F }
{}
