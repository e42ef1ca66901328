//! What moves and crossings are good for. These functions do nothing when they run.

ghost use Rattle.tso_move.specs.Cost.{MovesCost};
ghost use Rattle.tso_move.specs.Laws.{CrossedRunsAreGood, FreeIsTheModels, InitialIsApart};

use tso_flow::Checked;

/// A free actor of a well-formed state is the model's.
pub fn free_is_the_models(checked: &Checked)
    ensures { FreeIsTheModels checked.now.client }
{}

/// At first no thread but one, or the prologue's, may still write what the openings of that one's calls may read.
pub fn initial_is_apart(checked: &Checked)
    ensures { InitialIsApart checked.now.client }
{}

/// Where states are those of a certificate of crossings, each run of the client is good.
pub fn crossed_runs_are_good(checked: &Checked)
    ensures { CrossedRunsAreGood checked.now.client }
{}

/// Each move of a well-formed state leaves fewer labels, so a run of moves ends.
pub fn moves_cost(checked: &Checked)
    ensures { MovesCost checked.now.client }
{}
