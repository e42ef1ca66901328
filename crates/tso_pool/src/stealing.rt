//! Stealing from one deque after another.
ghost use Rattle.std.specs.Prelude.{◌≡◌, MatchOption};
ghost use Rattle.tso_pool.specs.Victims.{AllLetGo, hands, IsGotAt, reaches};

use crate::victim::Victim;

// A ticket that was stolen, and from which of several deques.
#[derive(Drop)]
struct Stolen<T> {
    at: usize,
    ticket: T,
}

// The first ticket that one of them lets go.
fn steal_from<T: Copy>(victims: &mut [Victim<T>]) -> Option<Stolen<T>>
    ensures same { reaches victims.new ≡ reaches victims.old }
    ensures got { MatchOption result ((hands victims.new ≡ hands victims.old) × AllLetGo victims.old victims.new) (λ s. IsGotAt (hands victims.old) (hands victims.new) s.at s.ticket) }
{
    for (at, victim) in victims.iter_mut().enumerate() {
        if let Some(ticket) = victim.steal() {
            return Some(Stolen { at, ticket });
        }
    }
    None
}

/// A ticket of one of them. It begins with the one whose turn it is, which is then the one that had a ticket.
pub(crate) fn steal_in_turn<T: Copy>(victims: &mut [Victim<T>], turn: &mut usize) -> Option<T>
    ensures same { reaches victims.new ≡ reaches victims.old }
    ensures got { MatchOption result ((hands victims.new ≡ hands victims.old) × AllLetGo victims.old victims.new) (λ x. IsGotAt (hands victims.old) (hands victims.new) turn.new x) }
{
    let from = victims.len().min(*turn);
    let (before, after) = victims.split_at_mut(from);
    if let Some(stolen) = steal_from(after) {
        *turn = from + stolen.at;
        return Some(stolen.ticket);
    }
    let stolen = steal_from(before)?;
    *turn = stolen.at;
    Some(stolen.ticket)
}
