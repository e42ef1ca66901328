//! New states: whether the runs to them are still good.

ghost use Rattle.std.specs.Prelude.{◌≡◌, ◌↔◌, ◌<◌, true, false, IfOk, IsTrue, MatchBool, length, slice_get};
ghost use Rattle.tso_search.specs.Goodness.{AllGoodBelow, HasOrderAt, HasNoOrderAt, IsKnown, StaysExplained, is_running_if};
ghost use Rattle.tso_prog.specs.declared.client.Client.{Client};
ghost use Rattle.tso_search.specs.Reached.{IsBadAt};
ghost use Rattle.tso_search.specs.Searched.{IsGoodAt};
ghost use Rattle.tso_store.specs.Sheets.{IsKeptSuccessor};

use crate::ending::has_order;
use std::alloc::{AllocError, Global};
use tso_flow::Checked;
use tso_hist::Call;
use tso_judge::has_no_stopped;
use tso_prog::{Answer, CallKind};
use tso_state::{Actor, Core, Viewed};
use tso_store::Store;

/// How many histories are noted at the most.
const PLACES: usize = 4_096;

/// For some histories, each at the place that its mark gives it, the number of a state that has it. What is found there is only
/// a state to compare with first.
#[derive(Drop)]
pub struct Judged {
    places: Vec<u32>,
}

impl Judged {
    /// No history is noted.
    ///
    /// Errors: where a growth was refused.
    pub fn new(alloc: Global) -> Result<Judged, AllocError> {
        Ok(Judged {
            places: vec![in alloc; 0u32; PLACES]?,
        })
    }

    fn at(&self, mark: usize) -> u32 {
        self.places.get(mark).copied().unwrap_or(0)
    }

    fn note(&mut self, mark: usize, number: u32) {
        if let Some(place) = self.places.get_mut(mark) {
            *place = number;
        }
    }
}

fn mark_of_answer(answer: Option<Answer>) -> u64 {
    match answer {
        None => 1,
        Some(Answer::Refused) => 2,
        Some(Answer::Done) => 3,
        Some(Answer::Value(word)) => word.wrapping_add(4),
    }
}

// A number that the same calls have in common.
fn mark_of_call(mark: u64, call: &Call) -> u64 {
    let word = match call.kind {
        CallKind::Push(word) => word,
        CallKind::Pop => 1,
    };
    let seen = call.seen.as_slice().iter().fold(
        word,
        |mark, count| mark.wrapping_mul(5).wrapping_add(*count as u64),
    );
    mark.wrapping_mul(31)
        .wrapping_add(seen)
        .wrapping_mul(7)
        .wrapping_add(mark_of_answer(call.answer))
}

// A number below `PLACES` that the same histories have in common.
fn mark_of<S: Viewed>(state: &S) -> usize {
    let mut mark: u64 = 0;
    for thread in 0..state.history_count() {
        if let Some(calls) = state.calls(thread) {
            mark = calls.iter().fold(mark.wrapping_mul(13), mark_of_call);
        }
    }
    (mark % PLACES as u64) as usize
}

// Whether two lists of calls are the same.
fn is_same_list(a: &[Call], b: &[Call]) -> bool
    ensures { IsTrue result ↔ (a.now ≡ b.now) }
{
    a == b
}

// Whether two states have the same calls in list `thread`.
fn has_same_calls<A: Viewed, B: Viewed>(a: &A, b: &B, thread: usize) -> bool
    ensures { IsTrue result ↔ (slice_get (A.state a.now).history thread ≡ slice_get (B.state b.now).history thread) }
{
    match (a.calls(thread), b.calls(thread)) {
        (Some(x), Some(y)) => is_same_list(x, y),
        (None, None) => true,
        _ => false,
    }
}

// Whether two states have the same history.
fn has_same_history<A: Viewed, B: Viewed>(a: &A, b: &B) -> bool
    ensures { IsTrue result ↔ ((A.state a.now).history ≡ (B.state b.now).history) }
{
    if a.history_count() != b.history_count() {
        return false;
    }
    for thread in 0..a.history_count() {
        if !has_same_calls(a, b, thread) {
            return false;
        }
    }
    true
}

// Whether a call of this thread is running.
fn is_running<S: Viewed>(state: &S, number: usize) -> bool
    ensures { result ≡ is_running_if (slice_get (S.state state.now).threads number) }
{
    match state.thread(number) {
        Some(thread) => matches!(thread.core, Core::Running(_)),
        None => false,
    }
}

// Whether an order that explains the calls explains them after the actor's step, which has led to this state: one whose call is running
// then has not returned, and a call that begins is left out of the order.
fn stays_explained<S: Viewed>(after: &S, actor: Actor) -> bool
    ensures { result ≡ true → (c : Client) → StaysExplained c actor (S.state after.now) }
{
    match actor {
        Actor::Exec(number) => is_running(after, number),
        Actor::Drain(_) => true,
    }
}

// Whether the history of state `new` is that of the state that is noted at its mark.
fn is_known(store: &Store<'_>, known: u32, new: u32) -> bool
    ensures { result ≡ true → IsKnown store.now.states known new }
{
    if known >= new {
        return false;
    }
    match (store.view(known), store.view(new)) {
        (Some(known), Some(new)) => has_same_history(&known, &new),
        _ => false,
    }
}

// Whether an order explains the calls of state `new`; if so its history is noted.
fn is_explained(
    alloc: Global,
    checked: &Checked,
    store: &Store<'_>,
    judged: &mut Judged,
    new: u32,
) -> Result<bool, AllocError>
    requires there { new < length store.now.states }
    requires below { AllGoodBelow checked.now.client store.now.states new }
    ensures { IfOk result (λ explained. MatchBool explained (HasOrderAt checked.now.client store.now.states new) (HasNoOrderAt checked.now.client store.now.states new)) }
{
    let Some(view) = store.view(new) else {
        unreachable!()
    };
    let mark = mark_of(&view);
    if is_known(store, judged.at(mark), new) {
        return Ok(true);
    }
    let Some(state) = store.state(alloc, new)? else {
        unreachable!()
    };
    let explained = has_order(alloc, checked, &state)?;
    if explained {
        judged.note(mark, new);
    }
    Ok(explained)
}

/// Whether the runs to state `new` are good, which the actor's step from state `number` has led to, where those to all states with
/// lower numbers are: no fault has stopped a thread, and an order explains the calls. Where no call returns they stay explained; a
/// history is judged once, as long as it is noted.
///
/// Errors: where a growth was refused.
pub fn is_new_good(
    alloc: Global,
    checked: &Checked,
    store: &Store<'_>,
    judged: &mut Judged,
    number: u32,
    actor: Actor,
    new: u32,
) -> Result<bool, AllocError>
    requires next { IsKeptSuccessor checked.now.client store.now.states number actor new }
    requires earlier { number < new }
    requires below { AllGoodBelow checked.now.client store.now.states new }
    ensures { IfOk result (λ good. MatchBool good (IsGoodAt checked.now.client store.now.states new) (IsBadAt checked.now.client store.now.states new)) }
{
    let Some(after) = store.view(new) else {
        unreachable!()
    };
    if !has_no_stopped(&after) {
        return Ok(false);
    }
    if stays_explained(&after, actor) {
        return Ok(true);
    }
    is_explained(alloc, checked, store, judged, new)
}

/// Whether the runs to state `new`, in which a run of free actors' moves has stopped, are good, where those to all states with lower
/// numbers are. So it is for the states on the way there: a stopped thread stays so, and what an order explains it explains before.
///
/// Errors: where a growth was refused.
pub fn is_stop_good(
    alloc: Global,
    checked: &Checked,
    store: &Store<'_>,
    judged: &mut Judged,
    new: u32,
) -> Result<bool, AllocError>
    requires there { new < length store.now.states }
    requires below { AllGoodBelow checked.now.client store.now.states new }
    ensures { IfOk result (λ good. MatchBool good (IsGoodAt checked.now.client store.now.states new) (IsBadAt checked.now.client store.now.states new)) }
{
    let Some(stop) = store.view(new) else {
        unreachable!()
    };
    if !has_no_stopped(&stop) {
        return Ok(false);
    }
    is_explained(alloc, checked, store, judged, new)
}
