//! States that are claimed. What spends a claim stands here, and nothing else sees its fields.

ghost use Rattle.std.specs.Prelude.{◌≡◌, ◌+◌, ◌<◌, IfErr, IfOk, IfSome, MatchOption, OnErr, OnOk, false, true};
ghost use Rattle.tso_pool.specs.Endings.{IsEarly, IsEndedBy};
ghost use Rattle.tso_pool.specs.Numbering.{IsFinished};
ghost use Rattle.tso_pool.specs.declared.ending.Ending.TheVariants as endings;
ghost use Rattle.tso_table.specs.Ends.{AreNear, IsEnd};
ghost use Rattle.tso_table.specs.Leading.{IsKept};
ghost use Rattle.tso_table.specs.OneThread.{Call, Makes, Reply};
ghost use Rattle.tso_table.specs.Sheets.{IsKeptIn};

use crate::ending::Ending;
use crate::finished::Finished;
use crate::team::Team;
use crate::ticket::Ticket;
use std::sync::Wait;
use std::sync::ledger::{Ledger, Share};
use tso_cert::Watch;
use tso_state::State;
use tso_table::{Filed, FinishError, Kept, Near, Number, Search, Shard};

/// A state that a worker has claimed, under its number. It can be neither copied nor let go of: either its end is filed (`file`), or the
/// worker ends with it and says why.
pub struct Claim {
    number: Number,
    kept: Kept,
}

impl Claim {
    /// The state's number.
    pub fn number(&self) -> Number
        ensures { result ≡ self.now.number }
    {
        self.number
    }

    /// The state, with the actors that lead to it.
    pub fn kept(&self) -> &Kept
        ensures { result.now ≡ self.now.kept }
    {
        &self.kept
    }

    /// The worker ends for this reason, before the state is worked.
    pub fn give_up(self, ending: Ending) -> Ending
        requires { IsEarly ending }
        ensures { result ≡ ending }
    {
        let Claim {
            number: _number,
            kept: _kept,
        } = self;
        ending
    }

    /// The worker ends, since a run to this state is not good.
    pub fn into_violation(self) -> Ending
        ensures { result ≡ endings.Violation self.kept }
    {
        let Claim {
            number: _number,
            kept,
        } = self;
        Ending::Violation(kept)
    }
}

// The state of a number from its shard, where it is claimed.
fn take_from<U: Search, E: Ledger, R: Wait, W: Watch>(
    team: &Team<'_, '_, U, E, R, W>,
    shard: &mut Shard<'_, U, E>,
    number: Number,
    share: &mut Share<E>,
) -> Result<Option<Claim>, Ending>
    requires part { 0 < share.old.parts }
    requires client { shard.old.client ≡ team.now.checked.now.client }
    ensures parts { share.new.parts ≡ share.old.parts }
    ensures counted { OnOk result (share.new.amount ≡ share.old.amount + 1) }
    ensures uncounted { OnErr result (share.new.amount ≡ share.old.amount) }
    ensures claim { IfOk result (λ o. IfSome o (λ claim. (claim.number ≡ number) × IsKept team.now.checked.now.client claim.kept)) }
    ensures taken { IfOk result (λ o. MatchOption o (Makes shard.old.rows (Call.claim number.place) shard.new.rows (Reply.taken false)) (λ claim. Makes shard.old.rows (Call.claim number.place) shard.new.rows (Reply.taken true) × IsKeptIn shard.old.rows.states shard.old.actors number.place claim.kept)) }
    ensures ending { IfErr result (IsEndedBy team.now.checked.now.client) }
{
    let Some(kept) = shard.table().kept(team.alloc, number.place)? else {
        return Err(Ending::Astray);
    };
    match shard.claim(number.place, share) {
        Ok(true) => Ok(Some(Claim { number, kept })),
        Ok(false) => {
            drop(kept);
            Ok(None)
        }
        Err(_) => {
            drop(kept);
            Err(Ending::Memory)
        }
    }
}

/// The state of a ticket, claimed for the caller, by one entry of its shard's log. `None` where no state waits there.
pub fn take<U: Search, E: Ledger, R: Wait, W: Watch>(
    team: &Team<'_, '_, U, E, R, W>,
    ticket: Ticket,
    share: &mut Share<E>,
) -> Result<Option<Claim>, Ending>
    requires part { 0 < share.old.parts }
    ensures parts { share.new.parts ≡ share.old.parts }
    ensures counted { OnOk result (share.new.amount ≡ share.old.amount + 1) }
    ensures uncounted { OnErr result (share.new.amount ≡ share.old.amount) }
    ensures claim { IfOk result (λ o. IfSome o (λ claim. (claim.number ≡ ticket.number) × IsKept team.now.checked.now.client claim.kept)) }
    ensures ending { IfErr result (IsEndedBy team.now.checked.now.client) }
{
    let Some(cell) = team.shards.get(ticket.number.shard as usize) else {
        return Err(Ending::Astray);
    };
    let mut shard = cell.lock(team.rt);
    shard.is_of(team.checked, team.table);
    let taken = take_from(team, &mut shard, ticket.number, share);
    drop(shard);
    taken
}

// Files an end under the number of its state.
fn file_at<U: Search, E: Ledger, R: Wait, W: Watch>(
    team: &Team<'_, '_, U, E, R, W>,
    number: Number,
    state: &State,
    filed: Filed,
    near: &[Near],
    share: &mut Share<E>,
) -> Result<(), Ending>
    requires part { 0 < share.old.parts }
    requires end { IsEnd team.now.checked.now.client team.now.table.now state.now filed }
    requires near { AreNear team.now.checked.now.client number.shard state.now filed near.now }
    ensures parts { share.new.parts ≡ share.old.parts }
    ensures counted { OnOk result (share.new.amount ≡ share.old.amount + 1) }
    ensures uncounted { OnErr result (share.new.amount ≡ share.old.amount) }
    ensures ending { IfErr result (IsEndedBy team.now.checked.now.client) }
{
    let Some(cell) = team.shards.get(number.shard as usize) else {
        drop(filed);
        return Err(Ending::Astray);
    };
    let mut shard = cell.lock(team.rt);
    if shard.table().number() != number.shard {
        drop(shard);
        drop(filed);
        return Err(Ending::Astray);
    }
    shard.is_of(team.checked, team.table);
    let finished = shard.finish(number.place, state, filed, near, share);
    drop(shard);
    match finished {
        Ok(()) => Ok(()),
        Err(FinishError::NotReady) => Err(Ending::Astray),
        Err(FinishError::Memory) => Err(Ending::Memory),
    }
}

/// Files the end of a claimed state, by one entry of its shard's log. Where the table is not ready for it, nothing changes.
pub fn file<U: Search, E: Ledger, R: Wait, W: Watch>(
    team: &Team<'_, '_, U, E, R, W>,
    claim: Claim,
    finished: Finished,
    share: &mut Share<E>,
) -> Result<(), Ending>
    requires part { 0 < share.old.parts }
    requires finished { IsFinished team.now.checked.now.client team.now.table.now claim.number.shard claim.kept.state finished }
    ensures parts { share.new.parts ≡ share.old.parts }
    ensures counted { OnOk result (share.new.amount ≡ share.old.amount + 1) }
    ensures uncounted { OnErr result (share.new.amount ≡ share.old.amount) }
    ensures ending { IfErr result (IsEndedBy team.now.checked.now.client) }
{
    let Claim { number, kept } = claim;
    let Finished { filed, near } = finished;
    let done = file_at(team, number, &kept.state, filed, near.as_slice(), share);
    drop(near);
    drop(kept);
    done
}
