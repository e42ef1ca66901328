//! Another worker's deque, to steal from.
ghost use Rattle.std.specs.Prelude.{◌≡◌, ◌<◌};
ghost use Rattle.crossbeam_deque.specs.Handles.{view, IsPassOf, stealer_deque, stealer_flavor};

use crate::rule::{Gets, Thief, Ticket};
use crossbeam_deque::Steal;

/// Another worker's deque, to steal from, and what has been got from there.
#[derive(Drop)]
pub struct Victim<T> {
    pub(crate) thief: Thief<T>,
    pub(crate) pass: Ticket<T>,
    ghost ours: { IsPassOf (stealer_deque thief) pass },
    ghost part: { 0 < (view pass).parts },
    ghost fifo: { stealer_flavor thief ≡ 0 },
}

impl<T: Copy> Victim<T> {
    ghost use Rattle.std.specs.Prelude.{◌≡◌, ◌<◌, MatchOption};
    ghost use Rattle.crossbeam_deque.specs.Handles.{view, IsPassOf, stealer_deque, stealer_flavor};
    ghost use Rattle.tso_pool.specs.Victims.{gets, hand_of, LetGo, reach_of};

    // A way into the deque of this handle, by a pass of its own.
    pub(crate) fn new(thief: Thief<T>, pass: Ticket<T>) -> Victim<T>
        requires ours { IsPassOf (stealer_deque thief) pass }
        requires part { 0 < (view pass).parts }
        requires fifo { stealer_flavor thief ≡ 0 }
        ensures { (result.thief ≡ thief) × (result.pass ≡ pass) }
    {
        Victim { thief, pass }
    }

    /// The ticket at the front of its deque, which leaves there. `None` where the deque held none at a moment of the call, or others got
    /// one meanwhile.
    pub fn steal(&mut self) -> Option<T>
        ensures same { reach_of self.new ≡ reach_of self.old }
        ensures got { MatchOption result ((hand_of self.new ≡ hand_of self.old) × LetGo self.old self.new) (λ x. hand_of self.new ≡ gets (hand_of self.old) x) }
    {
        let Victim { thief, pass, .. } = self;
        match thief.steal_as::<Gets>(pass) {
            Steal::Success(ticket) => Some(ticket),
            Steal::Empty | Steal::Retry => None,
        }
    }

    // What is known of the deque.
    pub(crate) fn into_pass(self) -> Ticket<T>
        ensures { (result ≡ self.pass) × IsPassOf (stealer_deque self.thief) result }
    {
        let Victim { thief: _, pass, .. } = self;
        pass
    }
}
