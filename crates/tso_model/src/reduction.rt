//! Why fewer steps suffice: persistent choices.
//! Source: Godefroid, "Partial-order methods for the verification of concurrent systems", LNCS 1032, 1996.

ghost use Rattle.tso_model.specs.Futures.{RunsAreForeseen};
ghost use Rattle.tso_model.specs.Persistence.{AllEnabledIsValid, EndsAreMet, TablesHoldFutures, ThePrologueComesFirst, ValidIsPersistent};

/// Choices with valid reasons over a closed table are persistent, whatever the instructions.
pub fn valid_is_persistent<F>()
    ensures { ValidIsPersistent F }
{}

/// Where the kept states are closed under persistent choices, each end that can be reached is met by a kept one that is at
/// least as strict.
pub fn ends_are_met<F>()
    ensures { EndsAreMet F }
{}

/// Where all actors that have a step are chosen, each of them is valid.
pub fn all_enabled_is_valid<F>()
    ensures { AllEnabledIsValid F }
{}

/// Over a closed table, what it says of a thread's future holds all that the thread may read and write.
pub fn tables_hold_futures<F>()
    ensures { TablesHoldFutures F }
{}

/// What a thread reads and drains in any run on from a state is in what a closed table says of its future there.
pub fn runs_are_foreseen<F>()
    ensures { RunsAreForeseen F }
{}

/// While the prologue's thread can move, no other thread can; once it is over it never moves again.
pub fn prologue_comes_first<F>()
    ensures { ThePrologueComesFirst F }
{}
