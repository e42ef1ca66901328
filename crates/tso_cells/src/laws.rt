//! What inductive tables say of runs. These functions do nothing when they run.

ghost use Rattle.tso_cells.specs.Laws.{InductiveIsClosed, InductiveIsRanked};

use tso_flow::Checked;

/// An inductive table has, at each frame whose registers lie in its intervals, all that may still be read and written from there.
pub fn inductive_is_closed(checked: &Checked)
    ensures { InductiveIsClosed checked.now.client }
{}

/// Frames whose registers lie in the intervals of an inductive table lead to such frames, and calls begin with them.
pub fn inductive_is_ranked(checked: &Checked)
    ensures { InductiveIsRanked checked.now.client }
{}
