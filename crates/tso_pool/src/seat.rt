//! What one worker holds.
ghost use Rattle.std.specs.Prelude.{◌≡◌, ◌<◌};
ghost use Rattle.crossbeam_deque.specs.Handles.{worker_flavor, worker_port, worker_view};

use crate::rule::{Counts, Deque, Gets, Pushes, Shares};
use crate::stealing::steal_in_turn;
use crate::victim::Victim;
use std::alloc::{AllocError, Global};

/// The slots of a new deque.
const SLOTS: usize = 256;

/// What one worker holds: its own deque of tickets, those of the others, from which it steals, and a list of its own for tickets
/// that the deque refuses.
#[derive(Drop)]
pub struct Seat<T> {
    own: Deque<T>,
    others: Vec<Victim<T>>,
    list: Vec<T>,
    // Where it steals first.
    turn: usize,
    ghost owner: { worker_port own ≡ 0 },
    ghost fifo: { worker_flavor own ≡ 0 },
    ghost part: { 0 < (worker_view own).parts },
}

impl<T: Copy> Seat<T> {
    ghost use Rattle.std.specs.Prelude.{IfOk};
    ghost use Rattle.tso_pool.specs.Seats.{IsNew};

    /// A seat without tickets, which reaches no other.
    pub fn new(alloc: Global) -> Result<Seat<T>, AllocError>
        ensures { IfOk result IsNew }
    {
        Ok(Seat {
            own: Deque::fifo_as(alloc, SLOTS)?,
            others: Vec::new(alloc),
            list: Vec::new(alloc),
            turn: 0,
        })
    }
}

impl<T: Copy> Seat<T> {
    ghost use Rattle.std.specs.Prelude.{◌≡◌, ◌<◌, ◌⊎◌, if◌then◌else◌, is_ok, length, IfOk, OnOk, MatchOption, List};
    ghost use Rattle.tso_pool.specs.Hands.{IsAccountOf};
    ghost use Rattle.tso_pool.specs.Seats.{FindsNone, GetsListed, GetsOwn, HasRoom, IsListed, IsPushed, IsUntouched, KeepsRoom, place_of, Steals, own_hand, gives, IsFoundToo, IsLeft, IsWayInto, reaches_too, takes_back, tally_of, with_found};
    ghost use Rattle.tso_pool.specs.Victims.{hand_of, reach_of};

    /// A way into this seat's deque, for another seat.
    pub fn open(&mut self) -> Result<Victim<T>, AllocError>
        requires { 1 < (place_of self.old).parts }
        ensures place { place_of self.new ≡ (if is_ok result then gives (place_of self.old) else place_of self.old) }
        ensures tally { tally_of self.new ≡ tally_of self.old }
        ensures opened { IfOk result (IsWayInto (place_of self.old)) }
        ensures keeps_room { KeepsRoom self.old self.new }
    {
        let thief = self.own.stealer()?;
        let pass = self.own.another::<Shares>();
        Ok(Victim::new(thief, pass))
    }

    /// From now on it steals from there, too.
    pub fn reach(&mut self, victim: Victim<T>) -> Result<(), AllocError>
        ensures place { place_of self.new ≡ (if is_ok result then reaches_too (place_of self.old) (reach_of victim) else place_of self.old) }
        ensures tally { tally_of self.new ≡ (if is_ok result then with_found (tally_of self.old) (hand_of victim).got else tally_of self.old) }
        ensures keeps_room { KeepsRoom self.old self.new }
    {
        self.others.push(victim)?;
        Ok(())
    }

    /// Makes room in the own list for a ticket that the deque may refuse.
    pub fn make_room(&mut self) -> Result<(), AllocError>
        ensures place { place_of self.new ≡ place_of self.old }
        ensures keeps_room { KeepsRoom self.old self.new }
        ensures same { IsUntouched self.old self.new }
        ensures room { OnOk result (HasRoom self.new) }
    {
        self.list.reserve(1)
    }

    /// Pushes a ticket, or puts it on the own list where the deque is full and can't grow.
    pub fn offer(&mut self, ticket: T)
        requires { HasRoom self.old }
        ensures place { place_of self.new ≡ place_of self.old }
        ensures keeps_room { KeepsRoom self.old self.new }
        ensures offered { IsPushed self.old self.new ticket ⊎ IsListed self.old self.new ticket }
    {
        if let Err(ticket) = self.own.push_as::<Pushes>(ticket) {
            self.list.push_reserved(ticket);
        }
    }

    /// A ticket of the own deque, else of the own list, else of another's deque.
    pub fn find(&mut self) -> Option<T>
        ensures place { place_of self.new ≡ place_of self.old }
        ensures keeps_room { KeepsRoom self.old self.new }
        ensures found { MatchOption result (FindsNone self.old self.new) (λ x. GetsOwn self.old self.new x ⊎ GetsListed self.old self.new x ⊎ Steals self.old self.new x) }
    {
        if let Some(ticket) = self.own.pop_as::<Gets>() {
            return Some(ticket);
        }
        if let Some(ticket) = self.list.pop() {
            return Some(ticket);
        }
        let Seat { others, turn, .. } = self;
        steal_in_turn(others, turn)
    }

    /// How many tickets the own deque held at a moment of the call, and what became of all that were pushed there.
    pub fn count(&mut self) -> usize
        ensures place { place_of self.new ≡ place_of self.old }
        ensures keeps_room { KeepsRoom self.old self.new }
        ensures same { IsUntouched self.old self.new }
        ensures account { (items : List T) × (length items ≡ result) × IsAccountOf (own_hand self.old) items }
    {
        self.own.len_as::<Counts>()
    }

    /// How many tickets are left in the own deque, as `count` says, and on the list. From 2^64 - 1 on it says that number.
    pub fn left(&mut self) -> usize
        ensures place { place_of self.new ≡ place_of self.old }
        ensures tally { tally_of self.new ≡ tally_of self.old }
        ensures left { IsLeft self.old result }
    {
        self.count().saturating_add(self.list.len())
    }

    // A way into another's deque, the last that was reached.
    pub(crate) fn let_go(&mut self) -> Victim<T>
        requires { 0 < length (place_of self.old).others }
        ensures place { place_of self.old ≡ reaches_too (place_of self.new) (reach_of result) }
        ensures tally { tally_of self.old ≡ with_found (tally_of self.new) (hand_of result).got }
    {
        self.others.pop().unwrap()
    }

    // Takes a way into its own deque back, with what was got by it.
    pub(crate) fn take_back(&mut self, victim: Victim<T>)
        requires { (reach_of victim).0 ≡ (place_of self.old).deque }
        ensures place { place_of self.new ≡ takes_back (place_of self.old) (reach_of victim).1 }
        ensures tally { IsFoundToo (tally_of self.old) (tally_of self.new) (hand_of victim).got }
    {
        self.own.absorb::<Shares>(victim.into_pass());
    }
}
