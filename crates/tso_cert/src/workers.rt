//! How many workers there are, and who watches them.
ghost use Rattle.std.specs.Prelude.{◌≡◌, ◌↔◌, ◌≤◌, IfSome, IsTrue, is_some};

use std::sync::Wait;

/// A number of workers, from 1 to 64.
#[derive(Clone, Copy, PartialEq, Eq)]
pub struct Workers {
    count: u64,
}

impl Workers {
    /// So many workers, where there are 1 to 64.
    pub fn new(count: u64) -> Option<Workers>
        ensures value { IfSome result (λ w. w.count ≡ count) }
        ensures there { IsTrue (is_some result) ↔ (1 ≤ count) × (count ≤ 64) }
    {
        if (1..=64).contains(&count) {
            Some(Workers { count })
        } else {
            None
        }
    }

    /// How many there are.
    pub fn count(self) -> u64
        ensures { result ≡ self.count }
    {
        self.count
    }
}

/// Who is told of each step of a worker.
pub trait Watch {
    /// Told before step `n`. It may wait, and changes no answer.
    fn at<R: Wait>(&self, rt: &R, n: u64);

    /// Told by a search, at each state that it leaves, how many states it has met and how many of them it has yet to leave.
    /// It changes no answer.
    fn met(&self, _found: u64, _left: u64) {}
}

/// A watch that does nothing.
#[derive(Clone, Copy)]
pub struct NoWatch;

impl Watch for NoWatch {
    fn at<R: Wait>(&self, _rt: &R, _n: u64) {}
}
