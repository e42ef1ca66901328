//! Parts of others, moved here, and keys by their new numbers.
ghost use Rattle.std.specs.Prelude.{◌≡◌, ◌+◌, ◌≤◌, Err, IfOk};
ghost use Rattle.tso_parts.specs.declared.refused.Refused.TheVariants as reasons;
ghost use Rattle.tso_keys.specs.Keys.{Grows, part_count};
ghost use Rattle.tso_keys.specs.Moving.{ArePartNumbersIn, moved_number, moved_at, moved_key};

use crate::key::{Key, NONE};
use crate::parts::Parts;
use std::alloc::Global;
use tso_list::Seq;
use tso_parts::Refused;

/// For each part of a store the number that it has in another.
#[derive(Drop)]
pub struct PartNumbers {
    pub memories: Seq<u32>,
    pub histories: Seq<u32>,
    pub threads: Seq<u32>,
}

/// The numbers of the parts of others, of which those that are new are moved here.
pub fn take_parts(alloc: Global, parts: &mut Parts, others: Parts) -> Result<PartNumbers, Refused>
    ensures numbers { IfOk result (ArePartNumbersIn others parts.new) }
    ensures grows { Grows parts.old parts.new }
    ensures more { part_count parts.new ≤ part_count parts.old + part_count others }
    ensures full { result ≡ Err reasons.Full → 4294967295 ≤ part_count parts.new }
{
    let Parts {
        memories,
        histories,
        threads,
    } = others;
    let memories = parts.memories.take_all(alloc, memories)?;
    let histories = parts.histories.take_all(alloc, histories)?;
    let threads = parts.threads.take_all(alloc, threads)?;
    Ok(PartNumbers {
        memories,
        histories,
        threads,
    })
}

// The new number of a part; that of nothing where it has none.
fn moved_number(numbers: &[u32], number: u32) -> u32
    ensures { result ≡ moved_number numbers.now number }
{
    numbers.get(number as usize).copied().unwrap_or(NONE)
}

// That of the part at this place of a row.
fn moved_at(numbers: &[u32], row: &[u32], place: usize) -> u32
    ensures { result ≡ moved_at numbers.now row.now place }
{
    moved_number(numbers, row.get(place).copied().unwrap_or(NONE))
}

/// The key of the same parts by their new numbers.
pub fn moved_key(numbers: &PartNumbers, key: &Key) -> Key
    ensures { result ≡ moved_key numbers.now key.now }
{
    let row = key.threads.as_slice();
    let threads = numbers.threads.as_slice();
    Key {
        memory: moved_number(numbers.memories.as_slice(), key.memory),
        history: moved_number(numbers.histories.as_slice(), key.history),
        threads: [
            moved_at(threads, row, 0),
            moved_at(threads, row, 1),
            moved_at(threads, row, 2),
            moved_at(threads, row, 3),
            moved_at(threads, row, 4),
        ],
    }
}
