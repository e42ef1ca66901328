//! What numbers the states that steps reach have. These functions do nothing when they run.

ghost use Rattle.tso_judge.specs.Certified.{CertificatesFit};
ghost use Rattle.tso_judge.specs.Fitting.{StatesFit};
ghost use Rattle.tso_judge.specs.Words.{WordsStay};

use tso_compact::steps_give_runs;
use tso_flow::Checked;
use tso_machine::runs_are_short;

/// Each word of each state that steps reach from the initial one is one of 64 bits: of memory, registers, store buffers, calls
/// and answers.
pub fn words_stay(checked: &Checked)
    ensures { WordsStay checked.now.client }
{}

/// Each number of each well-formed state that steps reach is in the range of its spelling: positions, places and masks, counts,
/// words, and how many items a list has.
pub fn states_fit(checked: &Checked)
    ensures { StatesFit checked.now.client }
{
    steps_give_runs(checked);
    runs_are_short(checked);
    let _limit = checked.step_limit();
}

/// Each number of a certificate of a client is in the range of its spelling: of a closed table, and of a tree whose records are
/// valid and of states that steps reach, and whose forks have the states of the first records of their right halves.
pub fn certificates_fit(checked: &Checked)
    ensures { CertificatesFit checked.now.client }
{
    states_fit(checked);
}
