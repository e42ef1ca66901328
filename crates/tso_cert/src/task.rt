//! Tasks that several threads do by halves.

ghost use Rattle.std.specs.Prelude.{IfOk, IfSome};
ghost use Rattle.std.specs.Thread.{IsSync};

use std::alloc::AllocError;
use std::thread;
use std::thread::Threads;

/// So many items, as states and records, one thread takes alone: to start another would take longer.
pub const ALONE: usize = 4096;

/// A task that one thread does alone, or two by halves.
pub trait Task {
    /// What the task gives.
    type Output: Send + Drop;

    // What it needs before it is begun.
    ghost is_ready: { Self → Type 0 };

    // What its output says.
    ghost is_output: { Self → Self.Output → Type 0 };

    // Which two tasks are its halves.
    ghost are_halves: { Self → Self → Self → Type 0 };

    /// The output, found by the thread that asks alone.
    ///
    /// Errors: where a growth was refused.
    fn run(&self) -> Result<Self::Output, AllocError>
        requires { is_ready self.now }
        ensures { IfOk result (is_output self.now) };

    /// The halves of the task, unless it is too small for two threads, or where they are is not known.
    fn halves(&self) -> Option<(Self, Self)>
        requires { is_ready self.now }
        ensures { IfSome result (λ h. are_halves self.now h.0 h.1 × is_ready h.0 × is_ready h.1) };

    /// The output, from those of the halves.
    ///
    /// Errors: where a growth was refused.
    fn joined(
        &self,
        left: &Self,
        right: &Self,
        first: Self::Output,
        second: Self::Output,
    ) -> Result<Self::Output, AllocError>
        requires ready { is_ready self.now }
        requires halves { are_halves self.now left.now right.now }
        requires first { is_output left.now first }
        requires second { is_output right.now second }
        ensures { IfOk result (is_output self.now) };
}

// The output of a task that so many workers do, of whom each starts those of one half of its own part.
fn by_halves<R: Threads + Sync, T: Task + Sync + Drop>(
    rt: &R,
    task: &T,
    workers: u64,
) -> Result<T::Output, AllocError>
    requires ready { T.is_ready task.now }
    ensures { IfOk result (T.is_output task.now) }
{
    if workers < 2 {
        return task.run();
    }
    match task.halves() {
        None => task.run(),
        Some((left, right)) => {
            let fewer = workers / 2;
            let more = workers - fewer;
            let (left, right) = (&left, &right);
            let (first, second) = thread::join(
                rt,
                || -> Result<T::Output, AllocError>
                    requires { IsSync R.row × IsSync T.row × T.is_ready left.now }
                    ensures { IfOk result (T.is_output left.entry.now) }
                { by_halves(rt, left, more) },
                || -> Result<T::Output, AllocError>
                    requires { IsSync R.row × IsSync T.row × T.is_ready right.now }
                    ensures { IfOk result (T.is_output right.entry.now) }
                { by_halves(rt, right, fewer) },
            );
            task.joined(left, right, first?, second?)
        }
    }
}

// The outputs of two tasks at one time: of the first by some workers, of the second by others, of whom the caller is one.
fn run_both<R: Threads + Sync, T: Task + Sync + Drop>(
    rt: &R,
    first: &T,
    some: u64,
    second: &T,
    others: u64,
) -> (Result<T::Output, AllocError>, Result<T::Output, AllocError>)
    requires first { T.is_ready first.now }
    requires second { T.is_ready second.now }
    ensures first { IfOk result.0 (T.is_output first.now) }
    ensures second { IfOk result.1 (T.is_output second.now) }
{
    thread::join(
        rt,
        || -> Result<T::Output, AllocError>
            requires { IsSync R.row × IsSync T.row × T.is_ready first.now }
            ensures { IfOk result (T.is_output first.entry.now) }
        { by_halves(rt, first, some) },
        || -> Result<T::Output, AllocError>
            requires { IsSync R.row × IsSync T.row × T.is_ready second.now }
            ensures { IfOk result (T.is_output second.entry.now) }
        { by_halves(rt, second, others) },
    )
}

// The outputs of three tasks, of which the first has so many workers, and the others share so many.
fn by_three<R: Threads + Sync, T: Task + Sync + Drop>(
    rt: &R,
    first: &T,
    alone: u64,
    left: &T,
    right: &T,
    workers: u64,
) -> (
    Result<T::Output, AllocError>,
    (Result<T::Output, AllocError>, Result<T::Output, AllocError>),
)
    requires first { T.is_ready first.now }
    requires left { T.is_ready left.now }
    requires right { T.is_ready right.now }
    ensures first { IfOk result.0 (T.is_output first.now) }
    ensures left { IfOk result.1.0 (T.is_output left.now) }
    ensures right { IfOk result.1.1 (T.is_output right.now) }
{
    thread::join(
        rt,
        || -> Result<T::Output, AllocError>
            requires { IsSync R.row × IsSync T.row × T.is_ready first.now }
            ensures { IfOk result (T.is_output first.entry.now) }
        { by_halves(rt, first, alone) },
        || -> (Result<T::Output, AllocError>, Result<T::Output, AllocError>)
            requires { IsSync R.row × IsSync T.row × T.is_ready left.now × T.is_ready right.now }
            ensures { IfOk result.0 (T.is_output left.entry.now) × IfOk result.1 (T.is_output right.entry.now) }
        { run_both(rt, left, workers - workers / 2, right, workers / 2) },
    )
}

// The outputs of the halves of a task, from those of their halves. The caller starts all threads: of those that two threads start at
// one time two may go to one processor, and wait for each other there.
fn by_quarters<R: Threads + Sync, T: Task + Sync + Drop>(
    rt: &R,
    left: &T,
    right: &T,
    low: &(T, T),
    high: &(T, T),
    workers: u64,
) -> (Result<T::Output, AllocError>, Result<T::Output, AllocError>)
    requires low { T.are_halves left.now low.now.0 low.now.1 × T.is_ready left.now × T.is_ready low.now.0 × T.is_ready low.now.1 }
    requires high { T.are_halves right.now high.now.0 high.now.1 × T.is_ready right.now × T.is_ready high.now.0 × T.is_ready high.now.1 }
    ensures left { IfOk result.0 (T.is_output left.now) }
    ensures right { IfOk result.1 (T.is_output right.now) }
{
    let fewer = workers / 2;
    let more = workers - fewer;
    let (a, b, c, d) = (&low.0, &low.1, &high.0, &high.1);
    let (first, (second, (third, fourth))) = thread::join(
        rt,
        || -> Result<T::Output, AllocError>
            requires { IsSync R.row × IsSync T.row × T.is_ready a.now }
            ensures { IfOk result (T.is_output a.entry.now) }
        { by_halves(rt, a, more - more / 2) },
        || -> (
            Result<T::Output, AllocError>,
            (Result<T::Output, AllocError>, Result<T::Output, AllocError>),
        )
            requires { IsSync R.row × IsSync T.row × T.is_ready b.now × T.is_ready c.now × T.is_ready d.now }
            ensures { IfOk result.0 (T.is_output b.entry.now) × IfOk result.1.0 (T.is_output c.entry.now) × IfOk result.1.1 (T.is_output d.entry.now) }
        { by_three(rt, b, more / 2, c, d, fewer) },
    );
    thread::join(
        rt,
        || -> Result<T::Output, AllocError>
            requires { IsSync T.row × T.is_ready left.now × T.are_halves left.now a.now b.now × IfOk first (T.is_output a.now) × IfOk second (T.is_output b.now) }
            ensures { IfOk result (T.is_output left.entry.now) }
        { joined(left, a, b, first, second) },
        || -> Result<T::Output, AllocError>
            requires { IsSync T.row × T.is_ready right.now × T.are_halves right.now c.now d.now × IfOk third (T.is_output c.now) × IfOk fourth (T.is_output d.now) }
            ensures { IfOk result (T.is_output right.entry.now) }
        { joined(right, c, d, third, fourth) },
    )
}

// The output of a task from those of its halves, where both were found.
fn joined<T: Task>(
    task: &T,
    left: &T,
    right: &T,
    first: Result<T::Output, AllocError>,
    second: Result<T::Output, AllocError>,
) -> Result<T::Output, AllocError>
    requires ready { T.is_ready task.now }
    requires halves { T.are_halves task.now left.now right.now }
    requires first { IfOk first (T.is_output left.now) }
    requires second { IfOk second (T.is_output right.now) }
    ensures { IfOk result (T.is_output task.now) }
{
    task.joined(left, right, first?, second?)
}

/// The output of a task that so many workers do. The left half has half of them, and one more of an odd number, and the right
/// half the rest; a worker alone goes on alone, and where no thread can be started for a half, this one does it.
///
/// Errors: where a growth was refused.
pub fn run_by<R: Threads + Sync, T: Task + Sync + Drop>(
    rt: &R,
    task: &T,
    workers: u64,
) -> Result<T::Output, AllocError>
    requires ready { T.is_ready task.now }
    ensures { IfOk result (T.is_output task.now) }
{
    if workers < 4 {
        return by_halves(rt, task, workers);
    }
    let Some((left, right)) = task.halves() else {
        return task.run();
    };
    let (Some(low), Some(high)) = (left.halves(), right.halves()) else {
        return by_halves(rt, task, workers);
    };
    let (first, second) = by_quarters(rt, &left, &right, &low, &high, workers);
    joined(task, &left, &right, first, second)
}
