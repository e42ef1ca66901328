//! Tickets.

ghost use Rattle.std.specs.Prelude.{◌≡◌, OnOk};
ghost use Rattle.tso_pool.specs.Seats.{IsOffered, place_of, tally_of};

use crate::seat::Seat;
use std::alloc::AllocError;
use tso_table::Number;

/// A ticket for a state: its number.
#[derive(Clone, Copy, PartialEq, Eq)]
pub struct Ticket {
    pub number: Number,
}

/// That a ticket of a new state is still to be handed out. It can be neither copied nor let go of: `offer` alone takes it.
pub struct Due {
    ticket: Ticket,
}

impl Due {
    /// A ticket for the state with this number is due.
    pub(crate) fn of(number: Number) -> Due
        ensures { result.ticket.number ≡ number }
    {
        let ticket = Ticket { number };
        Due { ticket }
    }
}

/// Hands out a ticket that is due: where the deque refuses it, it is on the worker's own list.
///
/// Errors: where a growth was refused. The ticket is not handed out then, and the worker has to end.
pub fn offer(seat: &mut Seat<Ticket>, due: Due) -> Result<(), AllocError>
    ensures place { place_of seat.new ≡ place_of seat.old }
    ensures offered { OnOk result (IsOffered (tally_of seat.old) (tally_of seat.new) due.ticket) }
{
    let Due { ticket } = due;
    seat.make_room()?;
    seat.offer(ticket);
    Ok(())
}
