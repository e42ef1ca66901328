//! The rows of all states of a store.
ghost use Rattle.std.specs.Prelude.{◌≡◌, IfOk, length, option_map, slice_get};
ghost use Rattle.tso_keys.specs.Keys.{AreKept, states_at};
ghost use Rattle.tso_keys.specs.Orders.{AreRowsOf};
ghost use Rattle.tso_prog.specs.declared.client.Client.{Client};

use crate::key::Key;
use crate::listing::history_ranks;
use crate::parts::Parts;
use crate::rank_rows::{Row, rank_at, row_of};
use crate::ranking::key_at;
use crate::ranks::{Ranks, ranks_of};
use std::alloc::{AllocError, Global};
use std::marker::Model;
use tso_parts::Pool;

/// For each state of a store its row of ranks, which is made where it is asked for. Contracts see the rows.
#[derive(Drop)]
pub struct Standings<'a> {
    keys: &'a Pool<Key>,
    memories: Vec<u32>,
    threads: Vec<u32>,
    histories: Vec<u32>,
}

impl<'a> Model for Standings<'a> {
    ghost use Rattle.std.specs.Prelude.{List, map};
    ghost use Rattle.tso_keys.specs.Orders.{row_by};
    ghost use Rattle.tso_keys.specs.declared.rank_rows.Row.{Row as RowValue};

    ghost Value = { List RowValue };

    ghost view = { λ r. map (row_by r.memories.items r.threads.items r.histories.items) r.keys.now };
}

impl<'a> Standings<'a> {
    /// How many there are.
    pub fn len(&self) -> usize
        ensures { result ≡ length self.now }
    {
        self.keys.len()
    }

    /// The row of the state with this number.
    pub fn get(&self, number: u32) -> Option<Row>
        ensures { result ≡ slice_get self.now number }
    {
        let ranks = Ranks {
            memories: self.memories.as_slice(),
            threads: self.threads.as_slice(),
            histories: self.histories.as_slice(),
        };
        match key_at(self.keys, number) {
            Some(key) => Some(row_of(&ranks, &key)),
            None => None,
        }
    }

    /// The rank of the memory of the state with this number, which its row begins with.
    pub fn memory(&self, number: u32) -> Option<u32>
        ensures { result ≡ option_map (λ row. row.memory) (slice_get self.now number) }
    {
        match self.keys.get(number) {
            Some(key) => Some(rank_at(self.memories.as_slice(), key.memory)),
            None => None,
        }
    }
}

/// The rows of ranks of all states of these keys, which are ordered as these. Each memory, thread and history is ranked among its
/// kind, histories by the ranks of their lists of calls.
///
/// Errors: where a growth was refused.
pub fn standings_of<'a>(
    alloc: Global,
    parts: &Parts,
    keys: &'a Pool<Key>,
) -> Result<Standings<'a>, AllocError>
    requires { (c : Client) × AreKept c parts.now keys.now }
    ensures { IfOk result (AreRowsOf (states_at parts.now keys.now)) }
{
    let memories = ranks_of(alloc, &parts.memories)?;
    let threads = ranks_of(alloc, &parts.threads)?;
    let histories = history_ranks(alloc, &parts.histories)?;
    Ok(Standings {
        keys,
        memories,
        threads,
        histories,
    })
}
