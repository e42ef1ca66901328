//! All shards: taken apart, and added up.

ghost use Rattle.std.specs.Prelude.{◌≡◌, ◌+◌, ◌*◌, ◌<◌, IfOk, length, map};
ghost use Rattle.tso_table.specs.Totals.{all_entries, all_states, allotment, claims};

use crate::budget::{ALLOTMENT, Budget};
use crate::search::Search;
use crate::shard::{Rest, Shard};
use crate::table::Table;
use std::alloc::{AllocError, Global};
use std::sync::ledger::{Ledger, Share};

/// The tables of all shards, which several threads may look at, and the rests.
///
/// Errors: where a growth was refused.
pub fn open_all<'a, U: Search, E: Ledger>(
    alloc: Global,
    shards: Vec<Shard<'a, U, E>>,
) -> Result<(Vec<Table<'a>>, Vec<Rest<U, E>>), AllocError>
    ensures tables { IfOk result (λ r. r.0.items ≡ shards.entry.items) }
    ensures rests { IfOk result (λ r. r.1.items ≡ map claims r.0.items) }
{
    let mut tables = Vec::new(alloc);
    let mut rests = Vec::new(alloc);
    for shard in shards {
        let (table, rest) = shard.open();
        tables.push(table)?;
        rests.push(rest)?;
    }
    Ok((tables, rests))
}

// The same, of any last ones of the shards: their amounts are lent to the shares, and given back.
fn settle_from<U: Ledger, E: Ledger>(
    budget: &mut Budget<U, E>,
    rests: &mut [Rest<U, E>],
    units: &mut Share<U>,
    calls: &mut Share<E>,
)
    requires units { (units.old.parts + length rests.old ≡ U.parts) × (0 < units.old.parts) }
    requires calls { (calls.old.parts + length rests.old ≡ E.parts) × (0 < calls.old.parts) }
    ensures budget { budget.new ≡ budget.old }
    ensures rests { rests.new ≡ rests.old }
    ensures units { (units.new.parts ≡ units.old.parts) × (units.new.amount ≡ units.old.amount) }
    ensures calls { (calls.new.parts ≡ calls.old.parts) × (calls.new.amount ≡ calls.old.amount) }
    ensures states { units.old.amount + all_states rests.old ≡ budget.old.given }
    ensures entries { calls.old.amount + allotment * length rests.old ≡ 16 * allotment + all_entries rests.old }
{
    let Some((first, more)) = rests.split_first_mut() else {
        budget.audit(units, calls);
        return;
    };
    let Rest {
        number: _,
        states,
        entries,
        units: own_units,
        left,
    } = first;
    let (count, unspent) = (*states as u64, ALLOTMENT - *entries);
    own_units.give(units, 1, count);
    left.give(calls, 1, unspent);
    settle_from(budget, more, units, calls);
    units.give(own_units, 1, count);
    calls.give(left, 1, unspent);
}

/// With the rests of all shards, and all shares: the counts of states of the shards sum to the units given, and the workers'
/// shares to the lengths of all logs. `units` is what the owner has beside the shards, and `calls` has all parts but the shards'.
/// This changes nothing.
pub fn settle<U: Ledger, E: Ledger>(
    budget: &mut Budget<U, E>,
    rests: &mut [Rest<U, E>],
    units: &mut Share<U>,
    calls: &mut Share<E>,
)
    requires all { length rests.old ≡ 16 }
    requires units { (units.old.parts + 16 ≡ U.parts) × (0 < units.old.parts) }
    requires calls { (calls.old.parts + 16 ≡ E.parts) × (0 < calls.old.parts) }
    ensures budget { budget.new ≡ budget.old }
    ensures rests { rests.new ≡ rests.old }
    ensures units { (units.new.parts ≡ units.old.parts) × (units.new.amount ≡ units.old.amount) }
    ensures calls { (calls.new.parts ≡ calls.old.parts) × (calls.new.amount ≡ calls.old.amount) }
    ensures states { units.old.amount + all_states rests.old ≡ budget.old.given }
    ensures entries { calls.old.amount ≡ all_entries rests.old }
{
    settle_from(budget, rests, units, calls);
}
