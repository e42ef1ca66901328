//! Instances: the theorem's premises can be met, and the machine does what x86-TSO does in the standard litmus tests.

ghost use Rattle.tso_client.specs.Litmus.{BothReadZero, FencesWaitHere, LocksHoldHere, ReturnsAreNoDrains};
ghost use Rattle.tso_client.specs.Small.{EveryPairRunIsGood, EverySmallRunIsGood};

/// A push before a pop, as a prologue, through the store buffer: eight kept states show that every run is good.
pub fn every_small_run_is_good()
    ensures { EverySmallRunIsGood }
{}

/// A push beside a pop of another thread, with no prologue: fifteen kept states, most with one actor chosen of several, show that
/// every run is good. The push returns with its store still buffered, and the pop is called before the drain.
pub fn every_pair_run_is_good()
    ensures { EveryPairRunIsGood }
{}

/// Store buffering: two threads each store and then load the other's place, and both may read 0.
pub fn both_read_zero()
    ensures { BothReadZero }
{}

/// A fence is no step while its thread's store is in the buffer, and one after the drain.
pub fn fences_wait_here()
    ensures { FencesWaitHere }
{}

/// A call may return before its store drains; a later call of another thread then reads the old word.
pub fn returns_are_no_drains()
    ensures { ReturnsAreNoDrains }
{}

/// A locked instruction is five labels, and no other thread reads between Lock and Unlock.
pub fn locks_hold_here()
    ensures { LocksHoldHere }
{}
