//! Programs that cover programs: each thread makes a beginning of the calls of a thread of its own in the other.

ghost use Rattle.tso_client.specs.Goodness.{CoveredRunsAreGood, CoversIsTransitive, LooserObjectsServe, ProgramsCoverThemselves, WeakQueuesAreLooser};
ghost use Rattle.tso_client.specs.Prologues.{ShorterProloguesDoNotServe};
ghost use Rattle.tso_client.specs.Renamings.{EventsAreRenamed, FaultsAreRenamed, LinearizationsAreRenamed, RunsAreCovered};

/// Each run of a program is, with other numbers for its threads, a run of each program that covers it.
pub fn runs_are_covered<F>()
    ensures { RunsAreCovered F }
{}

/// The history of a run with other numbers for its threads is that of the run, with other numbers.
pub fn events_are_renamed()
    ensures { EventsAreRenamed }
{}

/// The faults of a run with other numbers are those of the run, of threads with other numbers.
pub fn faults_are_renamed()
    ensures { FaultsAreRenamed }
{}

/// A run is linearizable exactly where it is so with other numbers, no two of which are one.
pub fn linearizations_are_renamed<F>()
    ensures { LinearizationsAreRenamed F }
{}

/// Where all runs of a program are good, so are all runs of each program that it covers.
pub fn covered_runs_are_good<F>()
    ensures { CoveredRunsAreGood F }
{}

/// A program covers itself.
pub fn programs_cover_themselves<F>()
    ensures { ProgramsCoverThemselves F }
{}

/// What covers a program covers all that this one covers.
pub fn covers_is_transitive<F>()
    ensures { CoversIsTransitive F }
{}

/// A run that is good for an object is good for each looser one.
pub fn looser_objects_serve()
    ensures { LooserObjectsServe }
{}

/// A weak queue is looser than each queue of no more room.
pub fn weak_queues_are_looser()
    ensures { WeakQueuesAreLooser }
{}

/// A program whose prologue makes more calls does not answer for one whose prologue makes a beginning of them.
pub fn shorter_prologues_do_not_serve()
    ensures { ShorterProloguesDoNotServe }
{}
