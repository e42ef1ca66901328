//! Intervals of words.

ghost use Rattle.std.specs.Prelude.{◌≡◌, ◌↔◌, IsTrue};
ghost use Rattle.tso_cells.specs.Intervals.{has, IsInside, all_words, alone, below_both, raised};

/// The words from one to another, both of them with it. Where the first is above the second there is none.
#[derive(Clone, Copy, PartialEq, Eq)]
pub struct Interval {
    pub lo: u64,
    pub hi: u64,
}

/// All words of 64 bits.
pub const ALL_WORDS: Interval = Interval {
    lo: 0,
    hi: u64::MAX,
};

impl Interval {
    /// This word alone.
    pub fn alone(word: u64) -> Interval
        ensures { result ≡ alone word }
    {
        Interval { lo: word, hi: word }
    }

    /// Whether a word is in it.
    pub fn has(self, word: u64) -> bool
        ensures { result ≡ has self word }
    {
        self.lo <= word && word <= self.hi
    }

    /// Whether its ends are in another one.
    pub fn is_inside(self, other: Interval) -> bool
        ensures { IsTrue result ↔ IsInside self other }
    {
        other.lo <= self.lo && self.hi <= other.hi
    }

    /// Where the sum of one of its words and this one lies: both ends raised, where no sum wraps, and else anywhere.
    pub fn raised(self, by: u64) -> Interval
        ensures { result ≡ raised self by }
    {
        match (self.lo.checked_add(by), self.hi.checked_add(by)) {
            (Some(lo), Some(hi)) => Interval { lo, hi },
            _ => ALL_WORDS,
        }
    }

    /// Where the bitwise and of one of its words and one of the other's lies: it is at most either of them.
    pub fn below_both(self, other: Interval) -> Interval
        ensures { result ≡ below_both self other }
    {
        Interval {
            lo: 0,
            hi: self.hi.min(other.hi),
        }
    }
}
