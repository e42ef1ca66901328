//! Tickets that are offered and found at seats.

ghost use Rattle.std.specs.Prelude.{◌≡◌, IfOk, OnOk};
ghost use Rattle.tso_pool.specs.Linked.{AreLinked, places};
ghost use Rattle.tso_pool.specs.Seats.{place_of};

use std::alloc::{AllocError, Global};
use std::sync::Wait;
use std::sync::atomic::{AtomicU64, Ordering};
use std::thread;
use std::thread::Threads;
use tso_calls::{Failure, behind, index_at, number_at, word};
use tso_pool::{Seat, seats, tickets_left};

// So many seats, at most 64.
fn row_of(alloc: Global, call: &str) -> Result<Vec<Seat<u64>>, Failure>
    ensures { IfOk result (λ row. AreLinked (places row.items)) }
{
    let count = index_at(call, 1)?;
    if count > 64 {
        return Err(Failure::Unreadable);
    }
    Ok(seats(alloc, count)?)
}

// Offers the tickets from the first one on, without the last one.
fn offer_all(seat: &mut Seat<u64>, first: u64, last: u64) -> Result<(), AllocError>
    ensures { place_of seat.new ≡ place_of seat.old }
{
    for ticket in first..last {
        seat.make_room()?;
        seat.offer(ticket);
    }
    Ok(())
}

// Finds all tickets: how many there are, and their sum.
fn find_all(seat: &mut Seat<u64>) -> (u64, u64) {
    let (mut count, mut sum) = (0u64, 0u64);
    for _ in 0..u64::MAX {
        let Some(ticket) = seat.find() else {
            break;
        };
        count = count.wrapping_add(1);
        sum = sum.wrapping_add(ticket);
    }
    (count, sum)
}

// Offers, finds or counts tickets at a seat: `offer 0 7 8`, `find 2`, `find_all 0`, `left 0`.
fn act(seat: &mut Seat<u64>, item: &str, out: &mut String) -> Result<(), Failure> {
    match word(item, 0) {
        "offer" => offer_all(seat, number_at(item, 2)?, number_at(item, 3)?)?,
        "find_all" => {
            let (count, sum) = find_all(seat);
            write!(out, "{count} {sum} ")?;
        }
        "left" => {
            let (count, left) = (seat.count(), seat.left());
            write!(out, "{count} {left} ")?;
        }
        _ => match seat.find() {
            Some(ticket) => write!(out, "{ticket} ")?,
            None => out.push_str("none ")?,
        },
    }
    Ok(())
}

// Goes through the items of a case.
fn put_found(row: &mut Vec<Seat<u64>>, items: &str, out: &mut String) -> Result<(), Failure> {
    for item in items.split(';') {
        let Some(seat) = row.get_mut(index_at(item, 1)?) else {
            return Err(Failure::Unreadable);
        };
        act(seat, item, out)?;
    }
    Ok(())
}

// Offers so many tickets at the first seat.
fn offer_first(row: &mut Vec<Seat<u64>>, count: u64) -> Result<(), AllocError>
    requires { AreLinked (places row.old.items) }
    ensures { OnOk result (AreLinked (places row.new.items)) }
{
    if let Some(seat) = row.first_mut() {
        offer_all(seat, 0, count)?;
    }
    Ok(())
}

// Offers so many tickets at the first of some seats, and writes how many are left once all seats are back.
fn put_left(alloc: Global, call: &str, out: &mut String) -> Result<(), Failure> {
    let mut row = row_of(alloc, call)?;
    offer_first(&mut row, number_at(call, 2)?)?;
    let left = tickets_left(row);
    Ok(write!(out, "{left}")?)
}

/// Makes calls on seats. Whether the case is one.
pub fn answer(alloc: Global, call: &str, out: &mut String) -> Result<bool, Failure> {
    match word(call, 0) {
        "tickets" => {
            let mut row = row_of(alloc, call)?;
            put_found(&mut row, behind(call, ":"), out)?;
        }
        "tickets_left" => put_left(alloc, call, out)?,
        _ => return Ok(false),
    }
    Ok(true)
}

// What workers have found together, of so many tickets.
#[derive(Drop)]
struct Found {
    tickets: u64,
    count: AtomicU64,
    sum: AtomicU64,
}

// Finds tickets until all were found.
fn work<R: Wait>(rt: &R, seat: Seat<u64>, found: &Found) -> Seat<u64> {
    let mut seat = seat;
    for _ in rt.forever() {
        match seat.find() {
            Some(ticket) => {
                found.sum.fetch_add(ticket, Ordering::SeqCst);
                found.count.fetch_add(1, Ordering::SeqCst);
            }
            None => {
                if found.count.load(Ordering::SeqCst) >= found.tickets {
                    break;
                }
                thread::yield_now();
            }
        }
    }
    seat
}

fn work_together<R: Threads + Wait + Sync>(
    rt: &R,
    first: Seat<u64>,
    second: Seat<u64>,
    found: &Found,
) -> (Seat<u64>, Seat<u64>) {
    thread::join(
        rt,
        move || work(rt, first, found),
        move || work(rt, second, found),
    )
}

/// Two workers find so many tickets of the first, each once: how many they find, and their sum.
pub fn put_found_by_two<R: Threads + Wait + Sync>(
    rt: &R,
    alloc: Global,
    call: &str,
    out: &mut String,
) -> Result<(), Failure> {
    let tickets = number_at(call, 1)?;
    let mut row = seats(alloc, 2)?;
    let (Some(second), Some(first)) = (row.pop(), row.pop()) else {
        return Err(Failure::Difference);
    };
    let mut first = first;
    offer_all(&mut first, 0, tickets)?;
    let found = Found {
        tickets,
        count: AtomicU64::new(0),
        sum: AtomicU64::new(0),
    };
    let (_first, _second) = work_together(rt, first, second, &found);
    let count = found.count.load(Ordering::SeqCst);
    let sum = found.sum.load(Ordering::SeqCst);
    write!(out, "{count} {sum}")?;
    Ok(())
}
