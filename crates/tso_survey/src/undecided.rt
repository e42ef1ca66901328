//! Clients of which nothing follows.

ghost use Rattle.std.specs.Prelude.{◌≡◌, count_by, nat_lt};

use crate::calls::Calls;

/// Why nothing follows of a client.
#[derive(Drop)]
pub enum Why {
    /// More states can be reached than the search may meet.
    Limit,
    /// There is neither a certificate nor a trace of it.
    Missing,
    /// Its certificate or its trace is refused, and why.
    Refused(String),
}

/// A client of which nothing follows.
#[derive(Drop)]
pub struct Undecided {
    pub calls: Calls,
    /// How many calls it has.
    pub size: usize,
    pub why: Why,
}

/// How many of these clients have fewer calls than this.
pub fn count_below(undecided: &[Undecided], size: usize) -> usize
    ensures { result ≡ count_by (λ u. nat_lt u.size size) undecided.now }
{
    undecided.iter().filter(|one| one.size < size).count()
}
