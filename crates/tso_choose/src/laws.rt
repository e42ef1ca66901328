//! What choices are good for. These functions do nothing when they run.

ghost use Rattle.tso_choose.specs.Laws.{ChoicesAreDetermined, ChosenAreValid, ValidChoicesArePersistent};

use tso_flow::Checked;

/// What is chosen at a well-formed state are enabled actors in rising order, some where one is enabled, each with one reason
/// for each other thread that holds.
pub fn chosen_are_valid(checked: &Checked)
    ensures { ChosenAreValid checked.now.client }
{}

/// A state of a client has one choice by a table.
pub fn choices_are_determined(checked: &Checked)
    ensures { ChoicesAreDetermined checked.now.client }
{}

/// Over a closed table valid choices at a well-formed state, whose running registers lie where the table says, are persistent:
/// whatever steps others take, each chosen actor could have gone first.
pub fn valid_choices_are_persistent(checked: &Checked)
    ensures { ValidChoicesArePersistent checked.now.client }
{}
