//! The steps of the label machine: one relation, said three times, and the compact step, said twice.
//! The rules (`Labels.Rule`) are the ones to read; the table has a row for each kind of label; the offer computes.
//! Source: Sewell, Sarkar, Owens, Zappa Nardelli, Myreen, "x86-TSO: a rigorous and usable programmer's model for x86
//! multiprocessors", CACM 53(7), 2010.

ghost use Rattle.tso_model.specs.Direct.{DirectIsStep};
ghost use Rattle.tso_model.specs.LabelTable.{TableIsRules};
ghost use Rattle.tso_model.specs.Offers.{StepsAreOffers};
ghost use Rattle.tso_model.specs.Schedules.{SchedulesAreRuns};

/// The table by kinds of label and the rules are one relation.
pub fn table_is_rules<F>()
    ensures { TableIsRules F }
{}

/// A label is a step exactly where its actor offers it, with the machine that it leads to.
pub fn steps_are_offers<F>()
    ensures { StepsAreOffers F }
{}

/// The compact step as one would write it down, with no moves, is the same function.
pub fn direct_is_step<F>()
    ensures { DirectIsStep F }
{}

/// A run is determined by its schedule: labels are a run exactly where their actors, in order, take them.
pub fn schedules_are_runs<F>()
    ensures { SchedulesAreRuns F }
{}
