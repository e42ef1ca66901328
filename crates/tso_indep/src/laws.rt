//! What true reasons are good for. These functions do nothing when they run.

ghost use Rattle.tso_indep.specs.Laws.{TrueReasonsAreTheModels, ValidChoicesArePersistent};

use tso_flow::Checked;

/// A reason that holds at a well-formed state is the model's.
pub fn true_reasons_are_the_models(checked: &Checked)
    ensures { TrueReasonsAreTheModels checked.now.client }
{}

/// Where each chosen actor of a well-formed state, whose running registers lie where the table says, has a step and, for each
/// other thread, a reason that holds, over a closed table, the choice is persistent (Godefroid 1996): after any steps of others,
/// each chosen actor could have gone first.
pub fn valid_choices_are_persistent(checked: &Checked)
    ensures { ValidChoicesArePersistent checked.now.client }
{}
