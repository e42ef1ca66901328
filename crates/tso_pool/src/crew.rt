//! Workers in threads.

ghost use Rattle.std.specs.Prelude.{◌≡◌, ◌+◌, ◌<◌, IfOk, vec_len};

use crate::ending::Ending;
use crate::seat::Seat;
use crate::team::Team;
use crate::ticket::Ticket;
use crate::working::work;
use std::alloc::{AllocError, Global};
use std::sync::Wait;
use std::sync::ledger::{Ledger, Share};
use std::thread;
use std::thread::Threads;
use tso_cert::Watch;
use tso_table::Search;

// What a worker begins with.
#[derive(Drop)]
struct Job<E: Ledger> {
    number: u64,
    seat: Seat<Ticket>,
    share: Share<E>,
    ghost part: { share.parts ≡ 1 },
}

// What a worker leaves.
#[derive(Drop)]
struct Turn<E: Ledger> {
    share: Share<E>,
    ending: Ending,
    ghost part: { share.parts ≡ 1 },
}

// One worker, whose seat is let go.
fn turn_of<U: Search, E: Ledger, R: Wait, W: Watch>(
    team: &Team<'_, '_, U, E, R, W>,
    job: Job<E>,
) -> Turn<E> {
    let Job {
        number,
        seat,
        share,
    } = job;
    let (_seat, share, ending) = work(team, number, seat, share);
    Turn { share, ending }
}

impl<E: Ledger> Turn<E> {
    // How the worker ended; its share goes to another.
    fn close(self, share: &mut Share<E>) -> Ending
        ensures { share.new.parts ≡ share.old.parts + 1 }
    {
        let Turn { share: own, ending } = self;
        share.merge(own);
        ending
    }
}

// The first ending that is not quiet.
fn worse(first: Ending, last: Ending) -> Ending {
    match first {
        Ending::Quiet => last,
        first => first,
    }
}

// A job with a part of the share.
fn job_of<E: Ledger>(number: u64, seat: Seat<Ticket>, share: &mut Share<E>) -> Job<E>
    requires { 1 < share.old.parts }
    ensures { share.new.parts + 1 ≡ share.old.parts }
{
    let share = share.split_off(1, 0);
    Job {
        number,
        seat,
        share,
    }
}

// A job for each seat.
fn jobs_of<E: Ledger>(
    alloc: Global,
    seats: Vec<Seat<Ticket>>,
    share: &mut Share<E>,
) -> Result<Vec<Job<E>>, AllocError>
    requires { share.old.parts ≡ vec_len seats + 1 }
    ensures jobs { IfOk result (λ v. vec_len v ≡ vec_len seats) }
    ensures rest { IfOk result (λ _. share.new.parts ≡ 1) }
{
    let mut jobs = Vec::new(alloc);
    for seat in seats {
        let job = job_of(jobs.len() as u64, seat, share);
        jobs.push(job)?;
    }
    Ok(jobs)
}

// What all workers counted goes to one share; the first ending that is not quiet.
fn close_all<E: Ledger>(turns: Vec<Turn<E>>, share: &mut Share<E>) -> Ending
    ensures { share.new.parts ≡ share.old.parts + vec_len turns }
{
    let mut worst = Ending::Quiet;
    for turn in turns {
        let ending = turn.close(share);
        worst = worse(worst, ending);
    }
    worst
}

/// A worker for each seat, in a thread of its own where one can be started, and else here: the first ending that is not quiet.
/// The share has a part for each and one more, and has again what all of them counted.
///
/// Errors: where a growth was refused.
pub fn work_all<
    U: Search + Send + Sync,
    E: Ledger + Send + Sync,
    R: Threads + Wait + Sync,
    W: Watch + Sync,
>(
    rt: &R,
    team: &Team<'_, '_, U, E, R, W>,
    seats: Vec<Seat<Ticket>>,
    share: &mut Share<E>,
) -> Result<Ending, AllocError>
    requires { share.old.parts ≡ vec_len seats + 1 }
    ensures { IfOk result (λ _. share.new.parts ≡ share.old.parts) }
{
    let jobs = jobs_of(team.alloc, seats, share)?;
    let turns = thread::map_vec(rt, jobs, &|job: Job<E>| turn_of(team, job))?;
    Ok(close_all(turns, share))
}
