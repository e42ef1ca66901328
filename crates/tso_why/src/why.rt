//! Why the calls of a run have no order, in a sentence.

ghost use Rattle.std.specs.Prelude.{◌≡◌, ◌-◌, count_by, find};
ghost use Rattle.std.specs.List.{list_all};
ghost use Rattle.tso_why.specs.Whys.{answered, end_of, has_put, has_room, is_done, is_later, is_left, is_left_word, is_over, is_passed, is_pop, is_refusal, is_surplus, is_word, least_takes, leaves, left_for, may_put, may_take, most_puts, not_empty, not_full, overfull, overtaken, passed_by, puts, refused_wrongly, surplus, surplus_call, takes, took, value_of, cause_of, word_of};

use crate::call::{Returned, TimedCall};
use tso_line::{CallKind, Mode};
use tso_prog::Answer;

/// Why the calls of a run have no order.
#[derive(Clone, Copy, PartialEq, Eq)]
pub enum Cause {
    /// More pops took the word than pushes can have put it.
    Surplus {
        word: u64,
        taken: usize,
        put: usize,
    },
    /// The pop was refused, though the push had returned before, and its word was in the queue.
    NotEmpty {
        pop: TimedCall,
        push: TimedCall,
    },
    /// The pop took its word before that of this push, which had returned before the other's push began.
    Overtaken {
        pop: TimedCall,
        push: TimedCall,
    },
    /// The queue had more items than its capacity.
    Overfull {
        items: usize,
        capacity: usize,
    },
    /// The push was refused, though no more than so many items were in the queue.
    NotFull {
        push: TimedCall,
        items: usize,
        capacity: usize,
    },
}

pub(crate) fn answered(returns: Option<Returned>) -> Option<Answer>
    ensures { result ≡ answered returns }
{
    match returns {
        Some(returned) => Some(returned.answer),
        None => None,
    }
}

// Whether it has returned before the label.
fn is_over(label: usize, returns: Option<Returned>) -> bool
    ensures { result ≡ is_over label returns }
{
    match returns {
        Some(returned) => returned.label < label,
        None => false,
    }
}

/// The number of the label at which a call returns, from 1, and 0 where it is pending.
pub fn end_of(returns: Option<Returned>) -> usize
    ensures { result ≡ end_of returns }
{
    match returns {
        Some(returned) => returned.label,
        None => 0,
    }
}

fn is_pop(kind: CallKind) -> bool
    ensures { result ≡ is_pop kind }
{
    matches!(kind, CallKind::Pop)
}

fn word_of(kind: CallKind) -> Option<u64>
    ensures { result ≡ word_of kind }
{
    match kind {
        CallKind::Push(word) => Some(word),
        CallKind::Pop => None,
    }
}

fn is_refusal(answer: Option<Answer>) -> bool
    ensures { result ≡ is_refusal answer }
{
    matches!(answer, Some(Answer::Refused))
}

fn is_done(answer: Option<Answer>) -> bool
    ensures { result ≡ is_done answer }
{
    matches!(answer, Some(Answer::Done))
}

pub(crate) fn value_of(answer: Option<Answer>) -> Option<u64>
    ensures { result ≡ value_of answer }
{
    match answer {
        Some(Answer::Value(word)) => Some(word),
        _ => None,
    }
}

fn is_word(word: u64, other: Option<u64>) -> bool
    ensures { result ≡ is_word word other }
{
    match other {
        Some(other) => other == word,
        None => false,
    }
}

// A push of this word that was not refused.
fn may_put(word: u64, call: TimedCall) -> bool
    ensures { result ≡ may_put word call }
{
    is_word(word, word_of(call.kind)) && !is_refusal(answered(call.returns))
}

// A pop that took this word.
fn took(word: u64, call: TimedCall) -> bool
    ensures { result ≡ took word call }
{
    is_word(word, value_of(answered(call.returns)))
}

// A pop that began before the label, and took this word, or is pending and may have.
fn may_take(word: u64, label: usize, call: TimedCall) -> bool
    ensures { result ≡ may_take word label call }
{
    is_pop(call.kind) && call.begins < label && (took(word, call) || call.returns.is_none())
}

fn leaves(word: u64, label: usize, call: TimedCall) -> bool
    ensures { result ≡ leaves word label call }
{
    !may_take(word, label, call)
}

// A push that was done before the label.
fn has_put(label: usize, call: TimedCall) -> bool
    ensures { result ≡ has_put label call }
{
    is_done(answered(call.returns)) && is_over(label, call.returns)
}

fn count_put(calls: &[TimedCall], word: u64) -> usize
    ensures { result ≡ count_by (may_put word) calls.now }
{
    calls.iter().filter(|call| may_put(word, **call)).count()
}

fn count_taken(calls: &[TimedCall], word: u64) -> usize
    ensures { result ≡ count_by (took word) calls.now }
{
    calls.iter().filter(|call| took(word, **call)).count()
}

fn is_surplus(calls: &[TimedCall], value: Option<u64>) -> bool
    ensures { result ≡ is_surplus calls.now value }
{
    match value {
        Some(word) => count_put(calls, word) < count_taken(calls, word),
        None => false,
    }
}

// A call that took such a word.
fn surplus_call(calls: &[TimedCall]) -> Option<TimedCall>
    ensures { result ≡ surplus_call calls.now }
{
    for call in calls {
        if is_surplus(calls, value_of(answered(call.returns))) {
            return Some(*call);
        }
    }
    None
}

// A word that more pops took than pushes can have put it.
fn surplus(calls: &[TimedCall]) -> Option<Cause>
    ensures { result ≡ surplus calls.now }
{
    let call = surplus_call(calls)?;
    let word = value_of(answered(call.returns))?;
    Some(Cause::Surplus {
        word,
        taken: count_taken(calls, word),
        put: count_put(calls, word),
    })
}

// How many pushes are done.
fn puts(calls: &[TimedCall]) -> usize
    ensures { result ≡ puts calls.now }
{
    calls
        .iter()
        .filter(|call| is_done(answered(call.returns)))
        .count()
}

// How many pops were not refused.
fn takes(calls: &[TimedCall]) -> usize
    ensures { result ≡ takes calls.now }
{
    calls
        .iter()
        .filter(|call| is_pop(call.kind) && !is_refusal(answered(call.returns)))
        .count()
}

// More items than the capacity.
fn overfull(calls: &[TimedCall], capacity: usize) -> Option<Cause>
    ensures { result ≡ overfull capacity calls.now }
{
    let items = puts(calls).saturating_sub(takes(calls));
    if capacity < items {
        Some(Cause::Overfull { items, capacity })
    } else {
        None
    }
}

fn all_leave(calls: &[TimedCall], label: usize, word: u64) -> bool
    ensures { result ≡ list_all (leaves word label) calls.now }
{
    calls.iter().all(|call| leaves(word, label, *call))
}

// Whether no pop that began before the label may have taken the word.
fn is_left_word(calls: &[TimedCall], label: usize, word: Option<u64>) -> bool
    ensures { result ≡ is_left_word calls.now label word }
{
    match word {
        Some(word) => all_leave(calls, label, word),
        None => false,
    }
}

fn is_left(calls: &[TimedCall], pop: TimedCall, push: TimedCall) -> bool
    ensures { result ≡ is_left calls.now pop push }
{
    has_put(pop.begins, push) && is_left_word(calls, end_of(pop.returns), word_of(push.kind))
}

fn first_left(calls: &[TimedCall], pop: TimedCall) -> Option<TimedCall>
    ensures { result ≡ find (is_left calls.now pop) calls.now }
{
    for push in calls {
        if is_left(calls, pop, *push) {
            return Some(*push);
        }
    }
    None
}

// The push of a word that was in the queue while this pop was refused.
fn left_for(calls: &[TimedCall], pop: TimedCall) -> Option<TimedCall>
    ensures { result ≡ left_for calls.now pop }
{
    if is_pop(pop.kind) && is_refusal(answered(pop.returns)) {
        first_left(calls, pop)
    } else {
        None
    }
}

// A pop that was refused though the queue was not empty, and such a push.
fn not_empty(calls: &[TimedCall]) -> Option<Cause>
    ensures { result ≡ not_empty calls.now calls.now }
{
    for pop in calls {
        if let Some(push) = left_for(calls, *pop) {
            return Some(Cause::NotEmpty { pop: *pop, push });
        }
    }
    None
}

fn is_later(word: u64, label: usize, call: TimedCall) -> bool
    ensures { result ≡ is_later word label call }
{
    !may_put(word, call) || label < call.begins
}

// Whether no push of the word began before the label.
fn are_later(calls: &[TimedCall], label: usize, word: u64) -> bool
    ensures { result ≡ list_all (is_later word label) calls.now }
{
    calls.iter().all(|call| is_later(word, label, *call))
}

// Whether the push was done before any push of the value began, and its word was left for longer than the pop took.
fn is_passed(calls: &[TimedCall], pop: TimedCall, value: Option<u64>, push: TimedCall) -> bool
    ensures { result ≡ is_passed calls.now pop value push }
{
    match value {
        Some(word) => {
            is_done(answered(push.returns))
                && are_later(calls, end_of(push.returns), word)
                && is_left_word(calls, end_of(pop.returns), word_of(push.kind))
        }
        None => false,
    }
}

// The push that this pop's value has overtaken.
fn passed_by(calls: &[TimedCall], pop: TimedCall) -> Option<TimedCall>
    ensures { result ≡ passed_by calls.now pop }
{
    for push in calls {
        if is_passed(calls, pop, value_of(answered(pop.returns)), *push) {
            return Some(*push);
        }
    }
    None
}

// A pop whose value came out before one that was put before it, and the push of that.
fn overtaken(calls: &[TimedCall]) -> Option<Cause>
    ensures { result ≡ overtaken calls.now calls.now }
{
    for pop in calls {
        if let Some(push) = passed_by(calls, *pop) {
            return Some(Cause::Overtaken { pop: *pop, push });
        }
    }
    None
}

// How many pushes can have put an item before the end of this one.
fn most_puts(calls: &[TimedCall], push: TimedCall) -> usize
    ensures { result ≡ most_puts push calls.now }
{
    let label = end_of(push.returns);
    calls
        .iter()
        .filter(|call| {
            !is_pop(call.kind) && !is_refusal(answered(call.returns)) && call.begins < label
        })
        .count()
}

// How many pops had taken an item before this push began.
fn least_takes(calls: &[TimedCall], push: TimedCall) -> usize
    ensures { result ≡ least_takes push calls.now }
{
    calls
        .iter()
        .filter(|call| {
            value_of(answered(call.returns)).is_some() && is_over(push.begins, call.returns)
        })
        .count()
}

fn most_items(calls: &[TimedCall], push: TimedCall) -> usize
    ensures { result ≡ most_puts push calls.now - least_takes push calls.now }
{
    most_puts(calls, push).saturating_sub(least_takes(calls, push))
}

fn has_room(calls: &[TimedCall], capacity: usize, push: TimedCall) -> bool
    ensures { result ≡ has_room capacity calls.now push }
{
    !is_pop(push.kind) && is_refusal(answered(push.returns)) && most_items(calls, push) < capacity
}

// A push that was refused though the queue was not full.
fn refused_push(calls: &[TimedCall], capacity: usize) -> Option<TimedCall>
    ensures { result ≡ find (has_room capacity calls.now) calls.now }
{
    for push in calls {
        if has_room(calls, capacity, *push) {
            return Some(*push);
        }
    }
    None
}

fn not_full(calls: &[TimedCall], capacity: usize) -> Option<Cause>
    ensures { result ≡ not_full capacity calls.now }
{
    let push = refused_push(calls, capacity)?;
    Some(Cause::NotFull {
        push,
        items: most_items(calls, push),
        capacity,
    })
}

// A refusal that says in strict mode what was not so.
fn refused_wrongly(calls: &[TimedCall], mode: Mode, capacity: usize) -> Option<Cause>
    ensures { result ≡ refused_wrongly mode capacity calls.now }
{
    match mode {
        Mode::Strict => match not_empty(calls) {
            Some(cause) => Some(cause),
            None => not_full(calls, capacity),
        },
        Mode::Weak => None,
    }
}

/// Why these calls of a queue have no order, if it can be said in a sentence: the first of these that holds: a word came out
/// more often than it was put; more items than the capacity; a value came out before one that was put before it; and in strict
/// mode, a refusal where the queue was not empty or not full.
pub fn cause_of(calls: &[TimedCall], mode: Mode, capacity: usize) -> Option<Cause>
    ensures { result ≡ cause_of mode capacity calls.now }
{
    if let Some(cause) = surplus(calls) {
        return Some(cause);
    }
    if let Some(cause) = overfull(calls, capacity) {
        return Some(cause);
    }
    match overtaken(calls) {
        Some(cause) => Some(cause),
        None => refused_wrongly(calls, mode, capacity),
    }
}
