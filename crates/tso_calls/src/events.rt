//! Histories, made of calls and returns one after another, and their orders.

use crate::failure::{Failure, ensure};
use crate::input::{answer_at, before, behind, call_kind_at, index_at, word};
use std::alloc::Global;
use tso_fifo::{Order, Placed, is_linearization, linearize};
use tso_hist::{Call, History};
use tso_prog::Mode;

// Takes a call or a return of a thread: `0 push 7`, `1 pop`, `0 done`, `1 value 7`, `1 refused`.
fn take_event(history: &mut History, event: &str) -> Result<(), Failure> {
    let thread = index_at(event, 0)?;
    match word(event, 1) {
        "push" | "pop" => history.on_call(thread, call_kind_at(event, 1)?)?,
        _ => history.on_return(thread, answer_at(event, 1)?),
    }
    Ok(())
}

// The history of so many threads, after these calls and returns.
fn history_of(alloc: Global, threads: usize, events: &str) -> Result<History, Failure> {
    let mut history = History::new(alloc, threads)?;
    for event in events.split(';') {
        if word(event, 0) != "" {
            take_event(&mut history, event)?;
        }
    }
    Ok(history)
}

// An item of an order: the thread, the number of its call, and the answer.
fn placed_of(item: &str) -> Result<Placed, Failure> {
    Ok(Placed {
        thread: index_at(item, 0)?,
        call: index_at(item, 1)?,
        answer: answer_at(item, 2)?,
    })
}

/// The order of these items.
pub fn order_of(alloc: Global, text: &str) -> Result<Order, Failure> {
    let mut order = Order::new(alloc);
    for item in text.split(';') {
        if word(item, 0) != "" {
            order.push(placed_of(item)?)?;
        }
    }
    Ok(order)
}

// The mode that a case names.
fn mode_of(call: &str) -> Mode {
    match word(call, 1) {
        "strict" => Mode::Strict,
        _ => Mode::Weak,
    }
}

// The order that is found, if one is. It is a linearization.
fn found(alloc: Global, history: &History, call: &str) -> Result<Option<Order>, Failure> {
    let (mode, capacity) = (mode_of(call), index_at(call, 2)?);
    let found = linearize(alloc, history, mode, capacity)?;
    if let Some(order) = &found {
        ensure(is_linearization(history, mode, capacity, order))?;
    }
    Ok(found)
}

// Writes the order that is found.
fn put_found(
    alloc: Global,
    history: &History,
    call: &str,
    out: &mut String,
) -> Result<(), Failure> {
    match found(alloc, history, call)? {
        None => out.push_str("none")?,
        Some(order) => {
            for placed in order.as_slice() {
                let Placed {
                    thread,
                    call,
                    answer,
                } = *placed;
                write!(out, "{thread} {call} {answer:?}; ")?;
            }
        }
    }
    Ok(())
}

// Whether an order is found.
fn put_has_order(
    alloc: Global,
    history: &History,
    call: &str,
    out: &mut String,
) -> Result<(), Failure> {
    let is_so = found(alloc, history, call)?.is_some();
    Ok(write!(out, "{is_so}")?)
}

// Whether a list of calls is a linearization.
fn put_is_order(
    alloc: Global,
    history: &History,
    call: &str,
    out: &mut String,
) -> Result<(), Failure> {
    let order = order_of(alloc, behind(call, " / "))?;
    let is_so = is_linearization(history, mode_of(call), index_at(call, 2)?, &order);
    write!(out, "{is_so}")?;
    Ok(())
}

// Whether one call is before another: the thread and the number of each.
fn put_precedes(history: &History, pair: &str, out: &mut String) -> Result<(), Failure> {
    let (thread, call) = (index_at(pair, 0)?, index_at(pair, 1)?);
    let is_so = history.precedes(thread, call, index_at(pair, 2)?, index_at(pair, 3)?);
    write!(out, "{is_so}")?;
    Ok(())
}

// Writes the calls of a thread.
fn put_calls(calls: &[Call], out: &mut String) -> Result<(), Failure> {
    for call in calls {
        let (kind, seen, answer) = (call.kind, call.seen.as_slice(), call.answer);
        write!(out, "{kind:?} seen {seen:?} {answer:?}; ")?;
    }
    Ok(())
}

// Writes the calls of all threads.
fn put_history(history: &History, out: &mut String) -> Result<(), Failure> {
    for calls in history.threads() {
        out.push_str("| ")?;
        put_calls(calls.as_slice(), out)?;
    }
    Ok(())
}

// What is asked of a history.
fn ask(alloc: Global, history: &History, call: &str, out: &mut String) -> Result<(), Failure> {
    match word(call, 0) {
        "linearize" => put_found(alloc, history, call, out)?,
        "has_order" => put_has_order(alloc, history, call, out)?,
        "is_linearization" => put_is_order(alloc, history, call, out)?,
        "precedes" => put_precedes(history, behind(call, " / "), out)?,
        _ => put_history(history, out)?,
    }
    Ok(())
}

/// Makes a call on a history. Whether the case is one.
pub fn answer(alloc: Global, call: &str, out: &mut String) -> Result<bool, Failure> {
    let threads = match word(call, 0) {
        "linearize" | "has_order" | "is_linearization" => index_at(before(call, ":"), 3)?,
        "precedes" | "history" => index_at(before(call, ":"), 1)?,
        _ => return Ok(false),
    };
    let events = before(behind(call, ":"), " / ");
    let history = history_of(alloc, threads, events)?;
    ask(alloc, &history, call, out)?;
    Ok(true)
}
