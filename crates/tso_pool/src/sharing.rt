//! How a state gets its number, under its shard's lock, and the budget's while it has that.

ghost use Rattle.std.specs.Prelude.{◌≡◌, ◌+◌, ◌<◌, IfErr, IfOk, IfSome, MatchOption, OnErr};
ghost use Rattle.tso_pool.specs.Endings.{IsEndedBy};
ghost use Rattle.tso_table.specs.Leading.{IsKept, shard_of};
ghost use Rattle.tso_table.specs.Sheets.{IsNewIn, IsSameButCounted};

use crate::ending::Ending;
use crate::team::Team;
use crate::ticket::Due;
use std::sync::Wait;
use std::sync::ledger::{Ledger, Share};
use tso_cert::Watch;
use tso_table::{InternError, Kept, Number, Search, Shard, shard_of};

// The number of a state in its shard, and for a new one that a ticket is due; `None` where no unit is left for it.
fn number_in<U: Search, E: Ledger, R: Wait, W: Watch>(
    team: &Team<'_, '_, U, E, R, W>,
    shard: &mut Shard<'_, U, E>,
    kept: &Kept,
    share: &mut Share<E>,
) -> Result<Option<(Number, Option<Due>)>, Ending>
    requires part { 0 < share.old.parts }
    requires client { shard.old.client ≡ team.now.checked.now.client }
    requires kept { IsKept team.now.checked.now.client kept.now }
    requires here { shard_of kept.now.state ≡ shard.old.number }
    ensures parts { share.new.parts ≡ share.old.parts }
    ensures counted { IfOk result (λ o. MatchOption o (share.new.amount ≡ share.old.amount) (λ _. share.new.amount ≡ share.old.amount + 1)) }
    ensures uncounted { OnErr result (share.new.amount ≡ share.old.amount) }
    ensures number { IfOk result (λ o. IfSome o (λ r. r.0.shard ≡ shard_of kept.now.state)) }
    ensures new { IfOk result (λ o. IfSome o (λ r. MatchOption r.1 (IsSameButCounted shard.old shard.new) (λ due. (due.ticket.number ≡ r.0) × IsNewIn shard.old shard.new kept.now))) }
    ensures ending { IfErr result (IsEndedBy team.now.checked.now.client) }
{
    let mut budget = team.budget.lock(team.rt);
    if !budget.is_for(team.limit) {
        return Err(Ending::Astray);
    }
    match shard.intern(&mut budget, kept, share) {
        Ok((number, true)) => Ok(Some((number, Some(Due::of(number))))),
        Ok((number, false)) => Ok(Some((number, None))),
        Err(InternError::Full) => Ok(None),
        Err(InternError::Memory) => Err(Ending::Memory),
    }
}

/// The number of a state, by one entry of its shard's log, and where the state is new that a ticket for it is due. `None` where it is not
/// there, and no unit is left for it.
pub fn intern<U: Search, E: Ledger, R: Wait, W: Watch>(
    team: &Team<'_, '_, U, E, R, W>,
    kept: &Kept,
    share: &mut Share<E>,
) -> Result<Option<(Number, Option<Due>)>, Ending>
    requires part { 0 < share.old.parts }
    requires kept { IsKept team.now.checked.now.client kept.now }
    ensures parts { share.new.parts ≡ share.old.parts }
    ensures counted { IfOk result (λ o. MatchOption o (share.new.amount ≡ share.old.amount) (λ _. share.new.amount ≡ share.old.amount + 1)) }
    ensures uncounted { OnErr result (share.new.amount ≡ share.old.amount) }
    ensures number { IfOk result (λ o. IfSome o (λ r. r.0.shard ≡ shard_of kept.now.state)) }
    ensures due { IfOk result (λ o. IfSome o (λ r. IfSome r.1 (λ due. due.ticket.number ≡ r.0))) }
    ensures ending { IfErr result (IsEndedBy team.now.checked.now.client) }
{
    let number = shard_of(&kept.state);
    let Some(cell) = team.shards.get(number as usize) else {
        return Err(Ending::Astray);
    };
    let mut shard = cell.lock(team.rt);
    if shard.table().number() != number {
        return Err(Ending::Astray);
    }
    shard.is_of(team.checked, team.table);
    let placed = number_in(team, &mut shard, kept, share);
    drop(shard);
    placed
}
