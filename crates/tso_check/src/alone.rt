//! Ends of which what a store remembers tells that they meet K06 and K07.

ghost use Rattle.std.specs.Prelude.{◌≡◌, ◌↔◌, All, IsTrue};
ghost use Rattle.tso_check.specs.Alone.{IsSureChoice, IsSureEnd, is_sure};
ghost use Rattle.tso_indep.specs.declared.reason.Reason.{Reason as AReason};

use tso_choose::Choice;
use tso_compact::StepKind;
use tso_indep::Reason;
use tso_rec::End;
use tso_state::Actor;
use tso_store::Store;

// Whether a step of this kind has this reason against each other thread, whatever the state is.
fn is_sure(kind: StepKind, reason: Reason) -> bool
    ensures { result ≡ is_sure kind reason }
{
    match reason {
        Reason::Own => matches!(kind, StepKind::Local),
        Reason::Return => matches!(kind, StepKind::Return),
        _ => false,
    }
}

// Whether it has each of these.
fn are_sure(kind: StepKind, given: &[Reason]) -> bool
    ensures { IsTrue result ↔ All (λ (r : AReason). IsTrue (is_sure kind r)) given.now }
{
    given.iter().all(|reason| is_sure(kind, *reason))
}

// Whether a core is chosen whose step in the state with this number is remembered, with one such reason for each of so many threads
// but its own.
fn is_sure_choice(store: &Store<'_>, number: u32, count: usize, choice: &Choice) -> bool
    ensures { IsTrue result → IsSureChoice store.now.client store.now.states number count choice.now }
{
    let Actor::Exec(thread) = choice.actor else {
        return false;
    };
    let given = choice.reasons.as_slice();
    if given.len() + 1 != count {
        return false;
    }
    match store.remembered_kind(number, thread) {
        Some(kind) => are_sure(kind, given),
        None => false,
    }
}

/// Whether such a core alone is chosen in the state with this number, which has so many threads.
pub fn is_sure_end(store: &Store<'_>, number: u32, count: usize, end: &End) -> bool
    ensures { IsTrue result → IsSureEnd store.now.client store.now.states number count end.now }
{
    let End::Choices(choices) = end else {
        return false;
    };
    match choices.as_slice() {
        [choice] => is_sure_choice(store, number, count, choice),
        _ => false,
    }
}
