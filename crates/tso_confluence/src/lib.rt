//! Free actors' moves in any order. Where tables are closed and steps lead to a state, free actors stay free while others move, and
//! their moves commute: so it makes no difference to where a run of free actors' moves stops which of them goes first.
//! These functions do nothing when they run.
#![tactic(auto)]

ghost use Rattle.tso_confluence.specs.Laws.{FreeMovesLead, FreeMovesMeet, FreeStaysFree, FuturesShrink, StopsStay};

use tso_flow::Checked;

/// What a thread may still read and write after a move it may read and write before it.
pub fn futures_shrink(checked: &Checked)
    ensures { FuturesShrink checked.now.client }
{}

/// Each move of a state that steps reach leads to such a state.
pub fn stops_stay(checked: &Checked)
    ensures { StopsStay checked.now.client }
{}

/// A free actor stays free while another moves.
pub fn free_stays_free(checked: &Checked)
    ensures { FreeStaysFree checked.now.client }
{}

/// The moves of two free actors lead to one state in either order.
pub fn free_moves_meet(checked: &Checked)
    ensures { FreeMovesMeet checked.now.client }
{}

/// A run that begins with the move of any free actor stops where the one does that begins with the lowest free actor's.
pub fn free_moves_lead(checked: &Checked)
    ensures { FreeMovesLead checked.now.client }
{}
