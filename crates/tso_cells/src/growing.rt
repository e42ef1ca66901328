//! How intervals grow to hold others.

ghost use Rattle.std.specs.Prelude.{◌≡◌, ◌<◌, ◌^◌, IsTrue, length, not, slice_set};
ghost use Rattle.tso_cells.specs.Growing.{grown, interval_at, is_inside, joined, with_word};
ghost use Rattle.tso_cells.specs.Intervals.{IsInside, has};

use crate::interval::Interval;

/// How an interval grows that has to hold another one: no further than it must, or to the whole at once.
#[derive(Clone, Copy, PartialEq, Eq)]
pub enum Growth {
    Least,
    Whole,
}

/// No words. Its ends lie in those of each interval.
pub const EMPTY: Interval = Interval {
    lo: u64::MAX,
    hi: 0,
};

/// Whether the ends of one are in another.
pub fn is_inside(i: Interval, j: Interval) -> bool
    ensures is { result ≡ is_inside i j }
    ensures small { i.hi < 2 ^ 64 }
{
    j.lo <= i.lo && i.hi <= j.hi
}

/// The least interval that holds both.
pub fn joined(i: Interval, j: Interval) -> Interval
    ensures { result ≡ joined i j }
{
    Interval {
        lo: i.lo.min(j.lo),
        hi: i.hi.max(j.hi),
    }
}

/// The least interval with one word more.
pub fn with_word(interval: Interval, word: u64) -> Interval
    ensures is { result ≡ with_word interval word }
    ensures keeps { IsInside interval result }
    ensures has { IsTrue (has result word) }
{
    joined(interval, Interval::alone(word))
}

/// The interval, grown where it does not hold the other one.
pub fn grown(growth: Growth, whole: Interval, i: Interval, j: Interval) -> Interval
    ensures { result ≡ grown growth whole i j }
{
    if is_inside(j, i) {
        return i;
    }
    match growth {
        Growth::Least => joined(i, j),
        Growth::Whole => joined(i, whole),
    }
}

/// Lets the interval at a place hold another one, and says whether it grew.
pub fn grow(
    growth: Growth,
    whole: Interval,
    intervals: &mut [Interval],
    at: usize,
    other: Interval,
) -> bool
    requires { at < length intervals.old }
    ensures set { intervals.new ≡ slice_set intervals.old at (grown growth whole (interval_at intervals.old at) other) }
    ensures flag { result ≡ not (is_inside other (interval_at intervals.old at)) }
    ensures small { other.hi < 2 ^ 64 }
{
    let before = intervals[at];
    intervals[at] = grown(growth, whole, before, other);
    !is_inside(other, before)
}
