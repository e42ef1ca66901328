//! The rule of a deque of tickets: none is lost, and none is given twice.

use crossbeam_deque::protocol::{Join, Lesson, Outcome, Protocol, Split};
use crossbeam_deque::{Pass, Stealer, Worker};
use std::alloc::Global;
use std::collections::LinkedList;

/// What one party of a deque has pushed there and got from there. No value of it is made: it is what a pass knows.
///
/// A deque has 64 parts, which are shared out among its parties. Who has all of them knows what all others got.
pub struct Hand<T> {
    pub parts: u64,
    pub pushed: LinkedList<T>,
    pub got: LinkedList<T>,
}

/// The rule of a deque, which holds between any two steps: what its owner has pushed is what has been got, by the owner or by
/// others, and what the deque holds, each ticket as often as it was pushed.
pub struct Once;

impl<T> Protocol<T, Hand<T>> for Once {
    ghost use Rattle.std.specs.Prelude.{[]};
    ghost use Rattle.tso_pool.specs.Hands.{all_parts, hand, NoneIsLost};

    ghost holds = { NoneIsLost };

    ghost first = { hand all_parts [] [] };

    ghost guest = { hand 0 [] [] };
}

// The owner has pushed a ticket.
pub(crate) struct Pushes;

impl<T> Outcome<T, Hand<T>> for Pushes {
    ghost use Rattle.std.specs.Prelude.{◌≡◌, ◌++◌};
    ghost use Rattle.tso_pool.specs.Hands.{hand};

    ghost then = { λ v xs w. w ≡ hand v.parts (v.pushed ++ xs) v.got };
}

// A party has got a ticket, or the deque was empty.
pub(crate) struct Gets;

impl<T> Outcome<T, Hand<T>> for Gets {
    ghost use Rattle.std.specs.Prelude.{◌≡◌, ◌++◌};
    ghost use Rattle.tso_pool.specs.Hands.{hand, FoundNone};

    ghost then = { λ v xs w. w ≡ hand v.parts v.pushed (v.got ++ xs) };

    ghost empty = { FoundNone };
}

// What a look at a deque tells its owner: what became of the tickets that it pushed.
pub(crate) struct Counts;

impl<T> Lesson<T, Hand<T>> for Counts {
    ghost use Rattle.tso_pool.specs.Hands.{IsAccountOf};

    ghost fact = { IsAccountOf };
}

// The owner gives a part to another party, and takes it back with what that party got.
pub(crate) struct Shares;

impl<T> Split<Hand<T>> for Shares {
    ghost use Rattle.std.specs.Prelude.{◌-◌, []};
    ghost use Rattle.tso_pool.specs.Hands.{hand};

    ghost left = { λ v. hand (v.parts - 1) v.pushed v.got };

    ghost right = { λ v. hand 1 [] [] };
}

impl<T> Join<Hand<T>> for Shares {
    ghost use Rattle.std.specs.Prelude.{◌+◌, ◌++◌, []};
    ghost use Rattle.tso_pool.specs.Hands.{hand};

    ghost both = { λ v w. hand (v.parts + w.parts) v.pushed (v.got ++ w.got) };

    ghost spent = { hand 0 [] [] };
}

/// A worker's own deque of tickets.
pub(crate) type Deque<T> = Worker<T, Global, Hand<T>, Once>;

/// A handle that steals from another's deque.
pub(crate) type Thief<T> = Stealer<T, Global, Hand<T>, Once>;

/// What one party knows of a deque.
pub(crate) type Ticket<T> = Pass<T, Hand<T>>;
