//! What is known of a checked client's runs of labels and runs of compact steps. These functions do nothing when they run.

ghost use Rattle.tso_compact.specs.Laws.{EndedRunsEndAlike, InitialIsPlausible, RunsAreFollowed, RunsReachEnds, StepsGiveRuns, StepsStayPlausible, StepsStaySound};

use tso_flow::Checked;

/// Each run of labels, ended or not, is followed by compact steps.
pub fn runs_are_followed(checked: &Checked)
    ensures { RunsAreFollowed checked.now.client }
{}

/// Each run of labels goes on to an ended one, which compact steps reach too.
pub fn runs_reach_ends(checked: &Checked)
    ensures { RunsReachEnds checked.now.client }
{}

/// Each ended run of labels is one of compact steps, with the same calls and returns and the same end.
pub fn ended_runs_end_alike(checked: &Checked)
    ensures { EndedRunsEndAlike checked.now.client }
{}

/// Each list of compact steps from the initial state is a run of labels.
pub fn steps_give_runs(checked: &Checked)
    ensures { StepsGiveRuns checked.now.client }
{}

/// The state before any step is well-formed, with each running call on a path of its procedure.
pub fn initial_is_plausible(checked: &Checked)
    ensures { InitialIsPlausible checked.now.client }
{}

/// A step of a well-formed state whose running calls are on paths of their procedures leads to such a state.
pub fn steps_stay_plausible(checked: &Checked)
    ensures { StepsStayPlausible checked.now.client }
{}

/// A step of any well-formed state leads to one that is well-formed, but that a call may stand just behind its procedure.
pub fn steps_stay_sound(checked: &Checked)
    ensures { StepsStaySound checked.now.client }
{}
