//! Runs in which each call begins as late as it can: a move begins a call, goes through its opening, which touches no memory, and
//! takes the step that the opening stops before, all in one. An opening may also read places that no other thread writes.
//!
//! Each law is the contract of a public function with an empty body.
#![tactic(auto)]

ghost use Rattle.tso_crossing.specs.Crossings.{EveryCrossedRunIsGood, LateEndsAreMet};
ghost use Rattle.tso_crossing.specs.Direct.{MovesAreWrittenOut};
ghost use Rattle.tso_crossing.specs.Free.{FreeIsPersistent, ValidMovesArePersistent, WholeIsPersistent};
ghost use Rattle.tso_crossing.specs.Late.{LateRunsDominate, MovesAreSteps, MovesEndAlike, OpeningsAreWhole, SilentRunsDominate};
ghost use Rattle.tso_crossing.specs.Own.{ApartIsOwn};
ghost use Rattle.tso_crossing.specs.Sample.{SampleIsCrossed, SampleIsGood};

/// A move is a step, or an opening and the step that it stops before.
pub fn moves_are_written_out<F>()
    ensures { MovesAreWrittenOut F }
{}

/// A move is a list of steps of its actor.
pub fn moves_are_steps<F>()
    ensures { MovesAreSteps F }
{}

/// A thread has no move exactly where it has no step.
pub fn moves_end_alike<F>()
    ensures { MovesEndAlike F }
{}

/// Where its bound is at least the rank, an opening ends only where it can go no further.
pub fn openings_are_whole<F>()
    ensures { OpeningsAreWhole F }
{}

/// Each end that steps reach is met by one that moves reach and that is at least as strict, where no other thread writes what a
/// thread's openings may read.
pub fn late_runs_dominate<F>()
    ensures { LateRunsDominate F }
{}

/// Where no opening reads, this holds of all states that have a history for each thread.
pub fn silent_runs_dominate<F>()
    ensures { SilentRunsDominate F }
{}

/// Where a closed table says that no other thread may still write what a thread's openings may read, none does in any run.
pub fn apart_is_own<F>()
    ensures { ApartIsOwn F }
{}

/// Valid actors are a persistent choice of moves.
pub fn valid_moves_are_persistent<F>()
    ensures { ValidMovesArePersistent F }
{}

/// A free actor is a persistent choice of moves.
pub fn free_is_persistent<F>()
    ensures { FreeIsPersistent F }
{}

/// All actors that have a move are a persistent choice of moves.
pub fn whole_is_persistent<F>()
    ensures { WholeIsPersistent F }
{}

/// Where the kept states are closed under persistent choices of moves, each end that steps reach is met by a kept one that is at
/// least as strict.
pub fn late_ends_are_met<F>()
    ensures { LateEndsAreMet F }
{}

/// Where at each kept state a free actor's move, or every move, or each of a valid choice, leads to a kept one, and kept ends are
/// good, every run of labels is good.
pub fn every_crossed_run_is_good<F>()
    ensures { EveryCrossedRunIsGood F }
{}

/// A program of one thread has a crossing: what is asked can be met.
pub fn sample_is_crossed()
    ensures { SampleIsCrossed }
{}

/// So each of its runs is good.
pub fn sample_is_good()
    ensures { SampleIsGood }
{}
