//! A search by several workers, from the initial state on.

ghost use Rattle.std.specs.Prelude.{◌≡◌, ◌+◌, ◌*◌, ◌<◌, ◌≤◌, IfErr, IfOk, Some, map, vec_len};
ghost use Rattle.tso_pool.specs.Endings.{IsEndedBy};
ghost use Rattle.tso_table.specs.Totals.{all_states, allotment, claims};

use crate::crew::work_all;
use crate::ending::Ending;
use crate::gathering::gather;
use crate::linking::seats;
use crate::progress::Progress;
use crate::resting::Resting;
use crate::seat::Seat;
use crate::sharing::intern;
use crate::team::Team;
use crate::ticket::{Due, Ticket};
use crate::working::hand_out;
use std::alloc::{AllocError, Global};
use std::marker::Brand;
use std::sync::atomic::AtomicBool;
use std::sync::ledger::{Blank, Ledger, Share};
use std::sync::{Mutex, Wait};
use std::thread::Threads;
use tso_cert::Watch;
use tso_flow::Checked;
use tso_foot::Table as Footprints;
use tso_table::{ALLOTMENT, Budget, Kept, SHARDS, Search, Shard, Table};

// Sixteen shards without a state, each in a lock of its own.
fn empty_shards<'c, U: Search, E: Ledger>(
    alloc: Global,
    checked: &'c Checked,
    table: &'c Footprints,
    units: &mut Share<U>,
    calls: &mut Share<E>,
) -> Result<Vec<Mutex<Shard<'c, U, E>>>, AllocError>
    requires units { (units.old.parts ≡ 17) × (units.old.amount ≡ 0) }
    requires calls { (16 < calls.old.parts) × (calls.old.amount ≡ 16 * allotment) }
    requires client { U.client ≡ Some checked.now.client }
    requires table { U.table ≡ Some table.now }
    ensures shards { IfOk result (λ v. vec_len v ≡ 16) }
    ensures units { IfOk result (λ _. (units.new.parts ≡ 1) × (units.new.amount ≡ 0)) }
    ensures calls { IfOk result (λ _. (calls.new.parts + 16 ≡ calls.old.parts) × (calls.new.amount ≡ 0)) }
{
    let mut shards = Vec::new(alloc);
    for number in 0..SHARDS {
        let unit = units.split_off(1, 0);
        let left = calls.split_off(1, ALLOTMENT);
        let shard = Shard::new(alloc, checked, table, number, number as u64, unit, left);
        shards.push(Mutex::new(shard))?;
    }
    Ok(shards)
}

// Makes the initial state known: a ticket for it is due.
fn first_due<U: Search, E: Ledger, R: Wait, W: Watch>(
    team: &Team<'_, '_, U, E, R, W>,
    share: &mut Share<E>,
) -> Result<Due, Ending>
    requires part { 0 < share.old.parts }
    ensures parts { share.new.parts ≡ share.old.parts }
    ensures ending { IfErr result (IsEndedBy team.now.checked.now.client) }
{
    let first = Kept::initial(team.alloc, team.checked)?;
    match intern(team, &first, share)? {
        Some((_number, Some(due))) => Ok(due),
        Some((_number, None)) => Err(Ending::Astray),
        None => Err(Ending::Full(first)),
    }
}

// Makes the initial state known, and hands out its ticket.
fn begin<U: Search, E: Ledger, R: Wait, W: Watch>(
    team: &Team<'_, '_, U, E, R, W>,
    seats: &mut [Seat<Ticket>],
    share: &mut Share<E>,
) -> Result<(), Ending>
    requires part { 0 < share.old.parts }
    ensures parts { share.new.parts ≡ share.old.parts }
    ensures ending { IfErr result (IsEndedBy team.now.checked.now.client) }
{
    let Some(seat) = seats.first_mut() else {
        return Err(Ending::Astray);
    };
    let due = first_due(team, share)?;
    hand_out(team, seat, due)?;
    Ok(())
}

// Lets the workers search.
fn run<U: Search + Send + Sync, E: Ledger + Send + Sync, R: Threads + Wait + Sync, W: Watch + Sync>(
    rt: &R,
    team: &Team<'_, '_, U, E, R, W>,
    seats: Vec<Seat<Ticket>>,
    share: &mut Share<E>,
) -> Result<Ending, AllocError>
    requires parts { share.old.parts ≡ vec_len seats + 1 }
    ensures parts { IfOk result (λ _. share.new.parts ≡ share.old.parts) }
{
    let mut seats = seats;
    match begin(team, seats.as_mut_slice(), share) {
        Ok(()) => work_all(rt, team, seats, share),
        Err(ending) => Ok(ending),
    }
}

// The same over these shards and this budget, with seats of their own.
fn run_over<
    'c,
    U: Search + Send + Sync,
    E: Ledger + Send + Sync,
    R: Threads + Wait + Sync,
    W: Watch + Sync,
>(
    rt: &R,
    alloc: Global,
    checked: &'c Checked,
    table: &'c Footprints,
    workers: usize,
    limit: u32,
    cells: &[Mutex<Shard<'c, U, E>>],
    budget: &Mutex<Budget<U, E>>,
    calls: &mut Share<E>,
    watch: &W,
) -> Result<Ending, AllocError>
    requires workers { (0 < workers) × (workers ≤ 64) }
    requires parts { calls.old.parts ≡ workers + 1 }
    requires client { U.client ≡ Some checked.now.client }
    requires table { U.table ≡ Some table.now }
    ensures parts { IfOk result (λ _. calls.new.parts ≡ calls.old.parts) }
{
    let seats = seats(alloc, workers)?;
    let note = AtomicBool::new(false);
    let progress = Progress::new();
    let resting = Resting::new();
    let team = Team {
        rt,
        alloc,
        checked,
        table,
        limit,
        shards: cells,
        budget,
        note: &note,
        progress: &progress,
        resting: &resting,
        watch,
    };
    run(rt, &team, seats, calls)
}

// The same, with the ledgers of units and of entries.
fn search_as<
    'c,
    U: Search + Send + Sync,
    E: Ledger + Send + Sync,
    R: Threads + Wait + Sync,
    W: Watch + Sync,
>(
    rt: &R,
    alloc: Global,
    units: Blank,
    entries: Blank,
    checked: &'c Checked,
    table: &'c Footprints,
    workers: usize,
    limit: u32,
    watch: &W,
) -> Result<(Vec<Table<'c>>, Ending), AllocError>
    requires units { (units.name ≡ U.name) × (units.parts ≡ U.parts) × (units.parts ≡ 17) }
    requires entries { (entries.name ≡ E.name) × (entries.parts ≡ E.parts) × (entries.parts ≡ 17 + workers) }
    requires workers { (0 < workers) × (workers ≤ 64) }
    requires client { U.client ≡ Some checked.now.client }
    requires table { U.table ≡ Some table.now }
    ensures few { IfOk result (λ r. all_states (map claims r.0.items) ≤ limit) }
{
    let (budget, units, calls) = Budget::<U, E>::new(limit, units, entries);
    let mut units = units;
    let mut calls = calls;
    let cells = empty_shards(alloc, checked, table, &mut units, &mut calls)?;
    let budget = Mutex::new(budget);
    let shards = cells.as_slice();
    let ended = run_over(
        rt, alloc, checked, table, workers, limit, shards, &budget, &mut calls, watch,
    );
    let mut budget = budget.into_inner();
    let ending = match ended {
        Ok(ending) => ending,
        Err(reason) => {
            drop(cells);
            return Err(reason);
        }
    };
    let tables = match gather(alloc, cells, &mut budget, &mut units, &mut calls) {
        Ok(tables) => tables,
        Err(reason) => {
            drop(ending);
            return Err(reason);
        }
    };
    if !budget.is_for(limit) {
        drop(tables);
        return Ok((Vec::new(alloc), ending));
    }
    let _given = budget.given();
    Ok((tables, ending))
}

/// Lets so many workers, from 1 to 64, search the client's states together, from the initial one on: the tables of the shards behind them, with
/// no more states than the limit, and the first ending that is not quiet. The caller works too.
///
/// Errors: where a growth was refused.
pub fn search<'c, R: Threads + Wait + Sync, W: Watch + Sync>(
    rt: &R,
    alloc: Global,
    checked: &'c Checked,
    table: &'c Footprints,
    workers: u64,
    limit: u32,
    watch: &W,
) -> Result<(Vec<Table<'c>>, Ending), AllocError>
    requires { (1 ≤ workers) × (workers ≤ 64) }
    ensures few { IfOk result (λ r. all_states (map claims r.0.items) ≤ limit) }
{
    let units = Blank::new(17);
    let entries = Blank::new(17 + workers);
    search_as::<Brand, Brand, R, W>(
        rt,
        alloc,
        units,
        entries,
        checked,
        table,
        workers as usize,
        limit,
        watch,
    )
}
