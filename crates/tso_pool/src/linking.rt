//! Seats that reach one another.
ghost use Rattle.std.specs.Prelude.{◌≡◌, ◌+◌, ◌++◌, ◌∷◌, [], ◌<◌, ◌≤◌, All, IfOk, OnOk, length, map, vec_len};
ghost use Rattle.tso_pool.specs.Seats.{no_tickets, place_of, tally_of};
ghost use Rattle.tso_pool.specs.Linked.{AreLinked, met_all, met_by, places, tallies};

use crate::seat::Seat;
use std::alloc::{AllocError, Global};

// Each of the two may steal from the other.
fn link<T: Copy>(one: &mut Seat<T>, other: &mut Seat<T>) -> Result<(), AllocError>
    requires { (1 < (place_of one.old).parts) × (1 < (place_of other.old).parts) }
    ensures places { OnOk result ((place_of one.new ≡ met_by (place_of other.old).deque (place_of one.old)) × (place_of other.new ≡ met_by (place_of one.old).deque (place_of other.old))) }
    ensures tallies { OnOk result ((tally_of one.new ≡ tally_of one.old) × (tally_of other.new ≡ tally_of other.old)) }
{
    one.reach(other.open()?)?;
    other.reach(one.open()?)?;
    Ok(())
}

// The newcomer and each of the others may steal from one another.
fn link_all<T: Copy>(newcomer: &mut Seat<T>, seats: &mut [Seat<T>]) -> Result<(), AllocError>
    requires newcomer { length seats.old < (place_of newcomer.old).parts }
    requires seats { All (λ p. 1 < p.parts) (places seats.old) }
    ensures newcomer { OnOk result (place_of newcomer.new ≡ met_all (places seats.old) (place_of newcomer.old)) }
    ensures seats { OnOk result (places seats.new ≡ map (met_by (place_of newcomer.old).deque) (places seats.old)) }
    ensures tallies { OnOk result ((tally_of newcomer.new ≡ tally_of newcomer.old) × (tallies seats.new ≡ tallies seats.old)) }
{
    for seat in seats.iter_mut() {
        link(newcomer, seat)?;
    }
    Ok(())
}

// One more seat, which is linked with all others.
fn add_seat<T: Copy>(alloc: Global, seats: &mut Vec<Seat<T>>) -> Result<(), AllocError>
    requires room { vec_len seats.old < 64 }
    requires linked { AreLinked (places seats.old.items) }
    ensures count { OnOk result (vec_len seats.new ≡ vec_len seats.old + 1) }
    ensures linked { OnOk result (AreLinked (places seats.new.items)) }
    ensures tallies { OnOk result (tallies seats.new.items ≡ tallies seats.old.items ++ no_tickets ∷ []) }
{
    let mut seat = Seat::new(alloc)?;
    link_all(&mut seat, seats.as_mut_slice())?;
    seats.push(seat)?;
    Ok(())
}

/// So many seats without a ticket, each of which may steal from each other. There may be 64 at most.
pub fn seats<T: Copy>(alloc: Global, count: usize) -> Result<Vec<Seat<T>>, AllocError>
    requires { count ≤ 64 }
    ensures count { IfOk result (λ v. vec_len v ≡ count) }
    ensures linked { IfOk result (λ v. AreLinked (places v.items)) }
    ensures empty { IfOk result (λ v. All (λ t. t ≡ no_tickets) (tallies v.items)) }
{
    let mut seats = Vec::new(alloc);
    for _number in 0..count {
        add_seat(alloc, &mut seats)?;
    }
    Ok(seats)
}
