//! What holds of each machine that a run leads to.

ghost use Rattle.tso_model.specs.Faults.{FaultsStop, StopsAreFaults, StopsAreFinal};
ghost use Rattle.tso_model.specs.Invariants.{BuffersStayWithin, SectionsAreGuarded, SizesStay};

/// Memory keeps its length, and the number of threads stays.
pub fn sizes_stay<F>()
    ensures { SizesStay F }
{}

/// Each place in a buffer is inside the memory.
pub fn buffers_stay_within<F>()
    ensures { BuffersStayWithin F }
{}

/// The lock's holder is in its locked instruction, with at most that instruction's own entry in its buffer, and no other
/// thread is in one.
pub fn sections_are_guarded<F>()
    ensures { SectionsAreGuarded F }
{}

/// After a fault its thread is stopped, however the run goes on.
pub fn faults_stop<F>()
    ensures { FaultsStop F }
{}

/// A stopped thread stays stopped.
pub fn stops_are_final<F>()
    ensures { StopsAreFinal F }
{}

/// A thread that is stopped after a run from the start has a fault in it.
pub fn stops_are_faults<F>()
    ensures { StopsAreFaults F }
{}
