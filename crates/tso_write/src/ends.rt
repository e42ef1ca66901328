//! Ends of records, which share what is the same.

ghost use Rattle.std.specs.Prelude.{◌≡◌, IfOk};

use std::alloc::{AllocError, Global};
use tso_choose::Choice;
use tso_indep::Reason;
use tso_rec::{End, Shared, Shelf};
use tso_state::Actor;

// A number that the same choices have in common.
fn mark_of_choice(mark: u64, choice: &Choice) -> u64 {
    let actor = match choice.actor {
        Actor::Exec(thread) => 2 * (thread as u64 % 256),
        Actor::Drain(thread) => 2 * (thread as u64 % 256) + 1,
    };
    let reasons = choice
        .reasons
        .as_slice()
        .iter()
        .fold(actor, |mark, reason| {
            mark.wrapping_mul(7).wrapping_add(mark_of_reason(*reason))
        });
    mark.wrapping_mul(31).wrapping_add(reasons)
}

fn mark_of_reason(reason: Reason) -> u64 {
    match reason {
        Reason::Own => 0,
        Reason::Far => 1,
        Reason::Inside => 2,
        Reason::Buffer => 3,
        Reason::Return => 4,
        Reason::NoReturn => 5,
    }
}

// A number that equal ends have in common.
fn mark_of_end(end: &End) -> u64 {
    match end {
        End::Choices(choices) => choices.as_slice().iter().fold(0, mark_of_choice),
        End::Order(order) => order.len() as u64,
    }
}

/// The end, shared with an equal one that was shared before.
///
/// Errors: where a growth was refused.
pub fn share_end(alloc: Global, ends: &mut Shelf<End>, end: End) -> Result<Shared<End>, AllocError>
    ensures { IfOk result (λ shared. shared ≡ end) }
{
    let mark = mark_of_end(&end);
    ends.share(alloc, mark, end)
}
