//! All shards, owned again.

ghost use Rattle.std.specs.Prelude.{◌≡◌, ◌+◌, ◌<◌, IfOk, map, vec_len};
ghost use Rattle.tso_table.specs.Totals.{all_entries, all_states, claims};

use std::alloc::{AllocError, Global};
use std::sync::Mutex;
use std::sync::ledger::{Ledger, Share};
use tso_table::{Budget, Search, Shard, Table, open_all, settle};

// The shards, each without its lock.
fn owned<'c, U: Search, E: Ledger>(
    alloc: Global,
    cells: Vec<Mutex<Shard<'c, U, E>>>,
) -> Result<Vec<Shard<'c, U, E>>, AllocError>
    ensures { IfOk result (λ v. vec_len v ≡ vec_len cells.entry) }
{
    let mut shards = Vec::new(alloc);
    for cell in cells {
        shards.push(cell.into_inner())?;
    }
    Ok(shards)
}

/// The tables of all shards, with all shares in one hand: the counts of their states sum to the units that the budget gave, and the
/// lengths of their logs to what the workers counted.
///
/// Errors: where a growth was refused.
pub fn gather<'c, U: Search, E: Ledger>(
    alloc: Global,
    cells: Vec<Mutex<Shard<'c, U, E>>>,
    budget: &mut Budget<U, E>,
    units: &mut Share<U>,
    calls: &mut Share<E>,
) -> Result<Vec<Table<'c>>, AllocError>
    requires all { vec_len cells ≡ 16 }
    requires units { (units.old.parts + 16 ≡ U.parts) × (0 < units.old.parts) × (units.old.amount ≡ 0) }
    requires calls { (calls.old.parts + 16 ≡ E.parts) × (0 < calls.old.parts) }
    ensures budget { budget.new ≡ budget.old }
    ensures states { IfOk result (λ tables. all_states (map claims tables.items) ≡ budget.new.given) }
    ensures entries { IfOk result (λ tables. all_entries (map claims tables.items) ≡ calls.new.amount) }
{
    let shards = owned(alloc, cells)?;
    let (tables, rests) = open_all(alloc, shards)?;
    let mut rests = rests;
    settle(budget, rests.as_mut_slice(), units, calls);
    Ok(tables)
}
