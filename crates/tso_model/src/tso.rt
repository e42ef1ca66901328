//! What the rules mean, in the words of x86-TSO and over whole runs.
//! Source: Sewell, Sarkar, Owens, Zappa Nardelli, Myreen, CACM 53(7), 2010.

ghost use Rattle.tso_model.specs.Meaning.{BlockedThreadsWait, BuffersAreQueues, CallsComeInOrder, CallsWaitForPrologue, FencesWait, MemoryIsStored, ReadsAreNewest};

/// Store buffers are first-in first-out: what a thread had buffered and then wrote is what it drained and still has buffered.
pub fn buffers_are_queues<F>()
    ensures { BuffersAreQueues F }
{}

/// Memory is what the drains of all threads, in their one order, make of it: total store order.
pub fn memory_is_stored<F>()
    ensures { MemoryIsStored F }
{}

/// A thread reads its own newest buffered store to the place, else memory.
pub fn reads_are_newest<F>()
    ensures { ReadsAreNewest F }
{}

/// A fence, a Lock and an Unlock wait for the own buffer to drain.
pub fn fences_wait<F>()
    ensures { FencesWait F }
{}

/// While a thread holds the lock no other reads, drains, locks or unlocks.
pub fn blocked_threads_wait<F>()
    ensures { BlockedThreadsWait F }
{}

/// The calls of a thread come in the program's order.
pub fn calls_come_in_order<F>()
    ensures { CallsComeInOrder F }
{}

/// No other thread begins a call before the prologue's thread has returned from all of its own and drained.
pub fn calls_wait_for_prologue<F>()
    ensures { CallsWaitForPrologue F }
{}
