//! What well-formed states are for the model. These functions do nothing when they run.

ghost use Rattle.tso_state.specs.Laws.{WellFormedIsSound, WellFormedIsTheModels};

use tso_flow::Checked;

/// A state is well-formed exactly where the model calls it well-formed, with each running call at an instruction.
pub fn well_formed_is_the_models(checked: &Checked)
    ensures { WellFormedIsTheModels checked.now.client }
{}

/// A well-formed state is one of those that the model's theorems speak of, whose frames `frames_are_ranked` is about.
pub fn well_formed_is_sound(checked: &Checked)
    ensures { WellFormedIsSound checked.now.client }
{}
