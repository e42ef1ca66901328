//! What is known of footprints. These functions do nothing when they run.

ghost use Rattle.tso_foot.specs.Narrower.{NarrowerForeseesNoMore};
ghost use Rattle.tso_foot.specs.Laws.{ClosedIsRanked, ClosedIsTheModels, FuturesHold, ReachedIsWithin, RunsAreForeseen, WithinIsSound};

use tso_flow::Checked;

/// Over a closed table each instruction's accesses, and all that may follow it, are in its item, where registers lie as it says.
pub fn closed_is_the_models(checked: &Checked)
    ensures { ClosedIsTheModels checked.now.client }
{}

/// Frames whose registers lie where a closed table says lead to such frames, and calls begin with them.
pub fn closed_is_ranked(checked: &Checked)
    ensures { ClosedIsRanked checked.now.client }
{}

/// A well-formed state whose running registers lie where a table says is well-formed in the model's sense, with such frames.
pub fn within_is_sound(checked: &Checked)
    ensures { WithinIsSound checked.now.client }
{}

/// At a state that steps reach, running registers lie where a closed table says.
pub fn reached_is_within(checked: &Checked)
    ensures { ReachedIsWithin checked.now.client }
{}

/// The places of `future` have all that the model says of a thread's future at a well-formed state.
pub fn futures_hold(checked: &Checked)
    ensures { FuturesHold checked.now.client }
{}

/// Where an inductive table of intervals names only arrays that a table of arrays has, a thread of a well-formed state may still
/// read and write no place by it that it may not by the other.
pub fn narrower_foresees_no_more(checked: &Checked)
    ensures { NarrowerForeseesNoMore checked.now.client }
{}

/// Over a closed table, what a thread reads and drains in any run of labels on from a well-formed state whose running registers
/// lie where the table says, also inside locked instructions, is in its future there.
pub fn runs_are_foreseen(checked: &Checked)
    ensures { RunsAreForeseen checked.now.client }
{}
