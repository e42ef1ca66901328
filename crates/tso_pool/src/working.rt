//! What one worker does.

ghost use Rattle.std.specs.Prelude.{◌≡◌, ◌+◌, ◌<◌, IfErr, IfNone, IfOk, IfSome, MatchOption, OnOk, length};
ghost use Rattle.tso_choose.specs.Choices.{AreChosen};
ghost use Rattle.tso_compact.specs.Plans.{HasStep, IsStep};
ghost use Rattle.tso_pool.specs.Endings.{IsBad, IsEndedBy, IsEndingOf};
ghost use Rattle.tso_pool.specs.Numbering.{AreNumbered, HasMoved, IsFinished, IsOfShard};
ghost use Rattle.tso_pool.specs.Seats.{IsOffered, place_of, tally_of};
ghost use Rattle.tso_rec.specs.Conditions.{IsOver};
ghost use Rattle.tso_table.specs.Leading.{IsKept, shard_of};

use crate::claim::{Claim, file, take};
use crate::ending::Ending;
use crate::finished::{Finished, Moves};
use crate::judging::judge_end;
use crate::seat::Seat;
use crate::sharing::intern;
use crate::team::Team;
use crate::ticket::{Due, Ticket, offer};
use std::alloc::AllocError;
use std::sync::Wait;
use std::sync::atomic::Ordering;
use std::sync::ledger::{Ledger, Share};
use tso_cert::Watch;
use tso_choose::{Choice, Choices, choose};
use tso_compact::StepError;
use tso_rec::End;
use tso_state::{Actor, State};
use tso_table::{Filed, Kept, Number, Numbers, Search};

/// Hands out a ticket that is due, and calls a worker that has none.
pub fn hand_out<U: Search, E: Ledger, R: Wait, W: Watch>(
    team: &Team<'_, '_, U, E, R, W>,
    seat: &mut Seat<Ticket>,
    due: Due,
) -> Result<(), AllocError>
    ensures place { place_of seat.new ≡ place_of seat.old }
    ensures offered { OnOk result (IsOffered (tally_of seat.old) (tally_of seat.new) due.ticket) }
{
    team.progress.hand_out();
    offer(seat, due)?;
    team.resting.call(team.rt);
    Ok(())
}

// The state after the actor's step.
fn step_of<U: Search, E: Ledger, R: Wait, W: Watch>(
    team: &Team<'_, '_, U, E, R, W>,
    kept: &Kept,
    actor: Actor,
) -> Result<Kept, Ending>
    requires kept { IsKept team.now.checked.now.client kept.now }
    requires step { HasStep team.now.checked.now.client kept.now.state actor }
    ensures kept { IfOk result (IsKept team.now.checked.now.client) }
    ensures step { IfOk result (λ next. IsStep team.now.checked.now.client kept.now.state actor next.state) }
    ensures ending { IfErr result (IsEndedBy team.now.checked.now.client) }
{
    match kept.next(team.alloc, team.checked, actor) {
        Ok(next) => Ok(next),
        Err(StepError::Disabled) => unreachable!(),
        Err(StepError::Memory) => Err(Ending::Memory),
    }
}

// The state with this number, if it belongs to the shard.
fn own_state(kept: Kept, number: Number, shard: u8) -> Option<State>
    requires { number.shard ≡ shard_of kept.state }
    ensures { IsOfShard shard kept.state result }
{
    let Kept {
        state,
        actors: _actors,
    } = kept;
    if number.shard == shard {
        Some(state)
    } else {
        drop(state);
        None
    }
}

// Makes the state after a chosen step known, and hands out a ticket where it is new.
fn follow<U: Search, E: Ledger, R: Wait, W: Watch>(
    team: &Team<'_, '_, U, E, R, W>,
    own: u8,
    kept: &Kept,
    actor: Actor,
    moves: &mut Moves,
    seat: &mut Seat<Ticket>,
    share: &mut Share<E>,
) -> Result<(), Ending>
    requires part { 0 < share.old.parts }
    requires kept { IsKept team.now.checked.now.client kept.now }
    requires step { HasStep team.now.checked.now.client kept.now.state actor }
    ensures parts { share.new.parts ≡ share.old.parts }
    ensures place { place_of seat.new ≡ place_of seat.old }
    ensures counted { OnOk result (share.new.amount ≡ share.old.amount + 1) }
    ensures moved { OnOk result (HasMoved team.now.checked.now.client own kept.now.state actor moves.old moves.new) }
    ensures ending { IfErr result (IsEndedBy team.now.checked.now.client) }
{
    let next = step_of(team, kept, actor)?;
    match intern(team, &next, share)? {
        None => Err(Ending::Full(next)),
        Some((number, due)) => {
            match due {
                Some(due) => hand_out(team, seat, due)?,
                None => {}
            }
            let state = own_state(next, number, own);
            moves.add(number, state)?;
            Ok(())
        }
    }
}

// The numbers of the states after all chosen steps.
fn follow_all<U: Search, E: Ledger, R: Wait, W: Watch>(
    team: &Team<'_, '_, U, E, R, W>,
    own: u8,
    kept: &Kept,
    choices: &[Choice],
    seat: &mut Seat<Ticket>,
    share: &mut Share<E>,
) -> Result<Moves, Ending>
    requires part { 0 < share.old.parts }
    requires kept { IsKept team.now.checked.now.client kept.now }
    requires chosen { AreChosen team.now.checked.now.client team.now.table.now kept.now.state choices.now }
    ensures parts { share.new.parts ≡ share.old.parts }
    ensures place { place_of seat.new ≡ place_of seat.old }
    ensures counted { OnOk result (share.new.amount ≡ share.old.amount + length choices.now) }
    ensures numbered { IfOk result (AreNumbered team.now.checked.now.client own kept.now.state choices.now) }
    ensures all { IfOk result (λ m. length m.numbers ≡ length choices.now) }
    ensures ending { IfErr result (IsEndedBy team.now.checked.now.client) }
{
    let mut moves = Moves::new(team.alloc);
    for choice in choices {
        follow(team, own, kept, choice.actor, &mut moves, seat, share)?;
    }
    Ok(moves)
}

// The end of a state with chosen actors, whose steps are followed.
fn finish_moves<U: Search, E: Ledger, R: Wait, W: Watch>(
    team: &Team<'_, '_, U, E, R, W>,
    own: u8,
    kept: &Kept,
    choices: Choices,
    seat: &mut Seat<Ticket>,
    share: &mut Share<E>,
) -> Result<Finished, Ending>
    requires part { 0 < share.old.parts }
    requires kept { IsKept team.now.checked.now.client kept.now }
    requires chosen { AreChosen team.now.checked.now.client team.now.table.now kept.now.state choices }
    requires some { 0 < length choices }
    ensures parts { share.new.parts ≡ share.old.parts }
    ensures place { place_of seat.new ≡ place_of seat.old }
    ensures finished { IfOk result (IsFinished team.now.checked.now.client team.now.table.now own kept.now.state) }
    ensures counted { IfOk result (λ f. share.new.amount ≡ share.old.amount + length f.filed.numbers) }
    ensures ending { IfErr result (IsEndedBy team.now.checked.now.client) }
{
    let moves = follow_all(team, own, kept, choices.as_slice(), seat, share)?;
    let Moves { numbers, near } = moves;
    let end = End::Choices(choices);
    let filed = Filed { end, numbers };
    Ok(Finished { filed, near })
}

// The end of a state in which no actor has a step. `None` where a run to it is not good.
fn finish_order<U: Search, E: Ledger, R: Wait, W: Watch>(
    team: &Team<'_, '_, U, E, R, W>,
    own: u8,
    kept: &Kept,
) -> Result<Option<Finished>, AllocError>
    requires kept { IsKept team.now.checked.now.client kept.now }
    requires over { IsOver team.now.checked.now.client kept.now.state }
    ensures finished { IfOk result (λ o. IfSome o (IsFinished team.now.checked.now.client team.now.table.now own kept.now.state)) }
    ensures none { IfOk result (λ o. IfSome o (λ f. length f.filed.numbers ≡ 0)) }
    ensures bad { IfOk result (λ o. IfNone o (IsBad team.now.checked.now.client kept.now.state)) }
{
    match judge_end(team.alloc, team.checked, &kept.state)? {
        Some(order) => {
            let end = End::Order(order);
            let numbers = Numbers::new(team.alloc);
            let filed = Filed { end, numbers };
            let near = Vec::new(team.alloc);
            Ok(Some(Finished { filed, near }))
        }
        None => Ok(None),
    }
}

// The end of a state, whose chosen steps are followed. `None` where a run to it is not good.
fn finish<U: Search, E: Ledger, R: Wait, W: Watch>(
    team: &Team<'_, '_, U, E, R, W>,
    own: u8,
    kept: &Kept,
    seat: &mut Seat<Ticket>,
    share: &mut Share<E>,
) -> Result<Option<Finished>, Ending>
    requires part { 0 < share.old.parts }
    requires kept { IsKept team.now.checked.now.client kept.now }
    ensures parts { share.new.parts ≡ share.old.parts }
    ensures place { place_of seat.new ≡ place_of seat.old }
    ensures finished { IfOk result (λ o. IfSome o (IsFinished team.now.checked.now.client team.now.table.now own kept.now.state)) }
    ensures counted { IfOk result (λ o. IfSome o (λ f. share.new.amount ≡ share.old.amount + length f.filed.numbers)) }
    ensures bad { IfOk result (λ o. IfNone o (IsBad team.now.checked.now.client kept.now.state)) }
    ensures ending { IfErr result (IsEndedBy team.now.checked.now.client) }
{
    let choices = choose(team.alloc, team.checked, team.table, &kept.state)?;
    if choices.is_empty() {
        drop(choices);
        let found = finish_order(team, own, kept)?;
        return Ok(found);
    }
    let finished = finish_moves(team, own, kept, choices, seat, share)?;
    Ok(Some(finished))
}

// Works a claimed state: its end is filed, or the worker ends.
fn work_claim<U: Search, E: Ledger, R: Wait, W: Watch>(
    team: &Team<'_, '_, U, E, R, W>,
    claim: Claim,
    seat: &mut Seat<Ticket>,
    share: &mut Share<E>,
) -> Result<(), Ending>
    requires part { 0 < share.old.parts }
    requires kept { IsKept team.now.checked.now.client claim.kept }
    ensures parts { share.new.parts ≡ share.old.parts }
    ensures place { place_of seat.new ≡ place_of seat.old }
    ensures counted { OnOk result (share.old.amount < share.new.amount) }
    ensures ending { IfErr result (IsEndedBy team.now.checked.now.client) }
{
    match finish(team, claim.number().shard, claim.kept(), seat, share) {
        Ok(Some(finished)) => file(team, claim, finished, share),
        Ok(None) => Err(claim.into_violation()),
        Err(ending) => Err(claim.give_up(ending)),
    }
}

// Works the state of a ticket.
fn work_ticket<U: Search, E: Ledger, R: Wait, W: Watch>(
    team: &Team<'_, '_, U, E, R, W>,
    ticket: Ticket,
    seat: &mut Seat<Ticket>,
    share: &mut Share<E>,
) -> Result<(), Ending>
    requires part { 0 < share.old.parts }
    ensures parts { share.new.parts ≡ share.old.parts }
    ensures place { place_of seat.new ≡ place_of seat.old }
    ensures counted { OnOk result (share.old.amount < share.new.amount) }
    ensures ending { IfErr result (IsEndedBy team.now.checked.now.client) }
{
    match take(team, ticket, share)? {
        Some(claim) => work_claim(team, claim, seat, share),
        None => Ok(()),
    }
}

// The next ticket, for which the worker may have to sleep. `None` where nothing is left to do, or an ending is noted.
fn next_ticket<U: Search, E: Ledger, R: Wait, W: Watch>(
    team: &Team<'_, '_, U, E, R, W>,
    seat: &mut Seat<Ticket>,
) -> Option<Ticket>
    ensures { place_of seat.new ≡ place_of seat.old }
{
    for _ in team.rt.forever() {
        if team.note.load(Ordering::SeqCst) {
            break;
        }
        if let Some(ticket) = seat.find() {
            return Some(ticket);
        }
        if team.progress.is_over() {
            break;
        }
        let seen = team.resting.announce(team.rt);
        if let Some(ticket) = seat.find() {
            team.resting.withdraw(team.rt);
            return Some(ticket);
        }
        if team.resting.rest(team.rt, seen) {
            break;
        }
    }
    None
}

// Works tickets up to an ending that is not quiet, or until none is left.
fn work_on<U: Search, E: Ledger, R: Wait, W: Watch>(
    team: &Team<'_, '_, U, E, R, W>,
    number: u64,
    seat: &mut Seat<Ticket>,
    share: &mut Share<E>,
) -> Result<(), Ending>
    requires part { 0 < share.old.parts }
    ensures place { place_of seat.new ≡ place_of seat.old }
    ensures parts { share.new.parts ≡ share.old.parts }
    ensures ending { IfErr result (IsEndedBy team.now.checked.now.client) }
{
    for _ in team.rt.forever() {
        let Some(ticket) = next_ticket(team, seat) else {
            break;
        };
        team.watch.at(team.rt, number);
        work_ticket(team, ticket, seat, share)?;
        team.progress.leave(team.watch);
    }
    Ok(())
}

// How a worker ends that has worked. An ending that is not quiet is noted, so that the others end.
fn ending_of<U: Search, E: Ledger, R: Wait, W: Watch>(
    team: &Team<'_, '_, U, E, R, W>,
    worked: Result<(), Ending>,
) -> Ending
    requires { IfErr worked (IsEndedBy team.now.checked.now.client) }
    ensures { IsEndingOf team.now.checked.now.client result }
{
    match worked {
        Ok(()) => Ending::Quiet,
        Err(ending) => {
            team.note.store(true, Ordering::SeqCst);
            ending
        }
    }
}

/// Works tickets until as many are worked as were handed out, or an ending is noted. It notes an ending of its own, and lets the
/// others end.
pub fn work<U: Search, E: Ledger, R: Wait, W: Watch>(
    team: &Team<'_, '_, U, E, R, W>,
    number: u64,
    seat: Seat<Ticket>,
    share: Share<E>,
) -> (Seat<Ticket>, Share<E>, Ending)
    requires part { 0 < share.parts }
    ensures place { place_of result.0 ≡ place_of seat }
    ensures parts { result.1.parts ≡ share.parts }
    ensures ending { IsEndingOf team.now.checked.now.client result.2 }
{
    let mut seat = seat;
    let mut share = share;
    let worked = work_on(team, number, &mut seat, &mut share);
    let ending = ending_of(team, worked);
    team.resting.end(team.rt);
    (seat, share, ending)
}
