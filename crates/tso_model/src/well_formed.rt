//! Well-formed compact states: one record of all that a single state shows of having been reached.

ghost use Rattle.tso_model.specs.Persistence.{FirstIsWellFormed, StepsStayWellFormed};

/// The first state is well-formed.
pub fn first_is_well_formed<F>()
    ensures { FirstIsWellFormed F }
{}

/// Each step of a well-formed state, reached or not, leads to a well-formed one.
pub fn steps_stay_well_formed<F>()
    ensures { StepsStayWellFormed F }
{}
