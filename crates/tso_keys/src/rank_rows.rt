//! Rows of ranks, which are ordered as the states whose parts have them.
ghost use Rattle.std.specs.Prelude.{◌≡◌};
ghost use Rattle.tso_keys.specs.Orders.{rank_at, rank_of, ranks_in, row_at};

use crate::key::Key;
use crate::ranks::Ranks;

/// The ranks of a state's memory, threads and history, compared in this order.
#[derive(Clone, Copy, PartialEq, Eq, PartialOrd, Ord)]
pub struct Row {
    pub memory: u32,
    pub threads: [u32; 5],
    pub history: u32,
}

/// The rank of a number; 0 where it has none.
pub fn rank_at(ranks: &[u32], number: u32) -> u32
    ensures { result ≡ rank_at ranks.now number }
{
    ranks.get(number as usize).copied().unwrap_or(0)
}

// The rank of the number at this place.
fn rank_of(ranks: &[u32], numbers: &[u32], place: usize) -> u32
    ensures { result ≡ rank_of ranks.now numbers.now place }
{
    rank_at(ranks, numbers.get(place).copied().unwrap_or(0))
}

/// The ranks of the numbers of a row.
pub fn ranks_in(ranks: &[u32], row: &[u32; 5]) -> [u32; 5]
    ensures { result ≡ ranks_in ranks.now row.now }
{
    let numbers = row.as_slice();
    [
        rank_of(ranks, numbers, 0),
        rank_of(ranks, numbers, 1),
        rank_of(ranks, numbers, 2),
        rank_of(ranks, numbers, 3),
        rank_of(ranks, numbers, 4),
    ]
}

/// The row of a key.
pub fn row_of(ranks: &Ranks<'_>, key: &Key) -> Row
    ensures { result ≡ row_at ranks.now key.now }
{
    Row {
        memory: rank_at(ranks.memories, key.memory),
        threads: ranks_in(ranks.threads, &key.threads),
        history: rank_at(ranks.histories, key.history),
    }
}
