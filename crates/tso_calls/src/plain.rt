//! The search beside a plain one, on all histories of at most four calls in two threads, where thread 0 calls first: every
//! precedence, each thread popping or pushing one of two words in turn, with every answer of a few.

use crate::failure::{Failure, ensure};
use crate::input::{call_kind_at, index_at, word};
use std::alloc::{AllocError, Global};
use tso_fifo::{is_linearization, linearize};
use tso_hist::{Call, History};
use tso_line::{CallKind, Mode};
use tso_prog::Answer;

const ANSWERS: [Answer; 4] = [
    Answer::Refused,
    Answer::Done,
    Answer::Value(1),
    Answer::Value(2),
];

/// A queue under test.
#[derive(Clone, Copy)]
struct Rule {
    mode: Mode,
    capacity: usize,
}

// A call of an order, by its thread and number.
#[derive(Clone, Copy)]
struct Listed {
    thread: usize,
    call: usize,
}

// What the queue holds after the call, if it may answer so.
fn step(
    alloc: Global,
    rule: Rule,
    items: &[u64],
    kind: CallKind,
    answer: Answer,
) -> Result<Option<Vec<u64>>, AllocError> {
    let mut after = Vec::from_slice(alloc, items)?;
    let may_refuse = match (rule.mode, kind) {
        (Mode::Weak, _) => true,
        (Mode::Strict, CallKind::Push(_)) => items.len() == rule.capacity,
        (Mode::Strict, CallKind::Pop) => items.is_empty(),
    };
    match (kind, answer) {
        (_, Answer::Refused) if may_refuse => Ok(Some(after)),
        (CallKind::Push(word), Answer::Done) if items.len() < rule.capacity => {
            after.push(word)?;
            Ok(Some(after))
        }
        (CallKind::Pop, Answer::Value(word)) if items.first().copied() == Some(word) => {
            after.remove(0);
            Ok(Some(after))
        }
        _ => Ok(None),
    }
}

// The call may stand behind these, and is none of them.
fn may_follow(history: &History, listed: &[Listed], next: Listed) -> bool {
    for earlier in listed {
        if earlier.thread == next.thread && earlier.call == next.call {
            return false;
        }
        if history.precedes(next.thread, next.call, earlier.thread, earlier.call) {
            return false;
        }
    }
    true
}

// Each call that has returned is among these.
fn has_all_returned(history: &History, listed: &[Listed]) -> bool {
    for (thread, calls) in history.threads().iter().enumerate() {
        for (number, call) in calls.as_slice().iter().enumerate() {
            let is_listed = listed
                .iter()
                .any(|l| l.thread == thread && l.call == number);
            if call.answer.is_some() && !is_listed {
                return false;
            }
        }
    }
    true
}

// Some further calls, each tried with each answer, complete the order.
fn has_order(
    alloc: Global,
    history: &History,
    rule: Rule,
    listed: &[Listed],
    items: &[u64],
    depth: u8,
) -> Result<bool, AllocError> {
    if has_all_returned(history, listed) {
        return Ok(true);
    }
    if depth == 0 {
        return Ok(false);
    }
    for (thread, calls) in history.threads().iter().enumerate() {
        for (number, call) in calls.as_slice().iter().enumerate() {
            let next = Listed {
                thread,
                call: number,
            };
            if !may_follow(history, listed, next) {
                continue;
            }
            for answer in ANSWERS {
                if call.answer.is_some() && call.answer != Some(answer) {
                    continue;
                }
                let Some(after) = step(alloc, rule, items, call.kind, answer)? else {
                    continue;
                };
                let mut more = Vec::from_slice(alloc, listed)?;
                more.push(next)?;
                if has_order(
                    alloc,
                    history,
                    rule,
                    more.as_slice(),
                    after.as_slice(),
                    depth - 1,
                )? {
                    return Ok(true);
                }
            }
        }
    }
    Ok(false)
}

/// The last event: what another thread's next one can be exchanged with is seen in one order alone.
#[derive(Clone, Copy)]
enum Last {
    Call(usize),
    Return(usize),
}

// The answers that a call of this kind is tried with.
fn answers_of(kind: CallKind) -> &'static [Answer] {
    match kind {
        CallKind::Push(_) => &[Answer::Refused, Answer::Done],
        CallKind::Pop => &[Answer::Refused, Answer::Value(1), Answer::Value(2)],
    }
}

// Whether the thread's last call, of this kind, is pending.
fn pending_kind(calls: &[Call]) -> Option<CallKind> {
    let call = calls.last()?;
    match call.answer {
        Some(_) => None,
        None => Some(call.kind),
    }
}

// What the thread pushes next: thread 0 begins with 1, thread 1 with 2, and then they take turns.
fn word_of(thread: usize, calls: &[Call]) -> u64 {
    if calls.len() % 2 == thread % 2 { 1 } else { 2 }
}

// Compares the searches on this history.
fn compare_one(alloc: Global, rule: Rule, history: &History) -> Result<(), Failure> {
    let is_expected = has_order(alloc, history, rule, &[], &[], 4)?;
    let found = linearize(alloc, history, rule.mode, rule.capacity)?;
    ensure(found.is_some() == is_expected)?;
    match found {
        Some(order) => ensure(is_linearization(history, rule.mode, rule.capacity, &order)),
        None => Ok(()),
    }
}

// The history with one more call.
fn with_call(history: &History, thread: usize, kind: CallKind) -> Result<History, AllocError> {
    let mut more = history.clone()?;
    match more.on_call(thread, kind) {
        Ok(()) => Ok(more),
        Err(reason) => {
            drop(more);
            Err(reason)
        }
    }
}

// Compares the searches on this history, and on all that further events make of it. How many histories there are.
fn compare(
    alloc: Global,
    rule: Rule,
    history: &History,
    last: Last,
    calls_left: u8,
    events_left: u8,
) -> Result<u64, Failure> {
    compare_one(alloc, rule, history)?;
    let mut count = 1u64;
    if events_left == 0 {
        return Ok(count);
    }
    for (thread, calls) in history.threads().iter().enumerate() {
        if let Some(kind) = pending_kind(calls.as_slice()) {
            if let Last::Return(other) = last {
                if thread < other {
                    continue;
                }
            }
            for answer in answers_of(kind) {
                let mut more = history.clone()?;
                more.on_return(thread, *answer);
                let next = Last::Return(thread);
                let found = compare(alloc, rule, &more, next, calls_left, events_left - 1);
                drop(more);
                count = count.saturating_add(found?);
            }
        } else if calls_left > 0 {
            if let Last::Call(other) = last {
                if thread < other {
                    continue;
                }
            }
            for kind in [
                CallKind::Push(word_of(thread, calls.as_slice())),
                CallKind::Pop,
            ] {
                let more = with_call(history, thread, kind)?;
                let next = Last::Call(thread);
                let found = compare(alloc, rule, &more, next, calls_left - 1, events_left - 1);
                drop(more);
                count = count.saturating_add(found?);
            }
        }
    }
    Ok(count)
}

// The queue that a case names.
fn rule_of(call: &str) -> Result<Rule, Failure> {
    let mode = match word(call, 1) {
        "strict" => Mode::Strict,
        _ => Mode::Weak,
    };
    let capacity = index_at(call, 2)?;
    Ok(Rule { mode, capacity })
}

/// Compares the searches on all histories whose first call, of thread 0, is that of the case, and writes how many there are.
/// Whether the case is one.
pub fn answer(alloc: Global, call: &str, out: &mut String) -> Result<bool, Failure> {
    if word(call, 0) != "all_histories" {
        return Ok(false);
    }
    let rule = rule_of(call)?;
    let mut history = History::new(alloc, 2)?;
    history.on_call(0, call_kind_at(call, 3)?)?;
    let count = compare(alloc, rule, &history, Last::Call(0), 3, 7)?;
    write!(out, "{count} histories")?;
    Ok(true)
}
