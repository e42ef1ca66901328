//! How many states a search may meet.

ghost use Rattle.std.specs.Prelude.{◌≡◌, ◌≤◌, ◌↔◌, IfSome, IsTrue, is_some};

/// The most states of a search, and the least limit that leaves no certificate out.
pub const MOST_STATES: u64 = 4_194_304;

/// How many states a search may meet, 1 to 4,194,304.
#[derive(Clone, Copy)]
pub struct StateLimit {
    count: u32,
    ghost within: { count ≤ 4194304 },
}

impl StateLimit {
    /// So many states, where there are 1 to 4,194,304.
    pub fn new(count: u64) -> Option<StateLimit>
        ensures value { IfSome result (λ l. l.count ≡ count) }
        ensures there { IsTrue (is_some result) ↔ (1 ≤ count) × (count ≤ 4194304) }
    {
        if (1..=MOST_STATES).contains(&count) {
            Some(StateLimit {
                count: count as u32,
            })
        } else {
            None
        }
    }

    /// How many there are.
    pub fn count(self) -> u32
        ensures value { result ≡ self.count }
        ensures within { result ≤ 4194304 }
    {
        self.count
    }
}
