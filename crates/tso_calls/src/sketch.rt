//! States as texts: the words of memory, and then each thread behind a bar. A thread is told by items with `;` between them: `at 1
//! taken 1` or `stopped`, `store 1 9` for each entry of its buffer, and its calls, as `push 7 seen 0 2 pending` and `pop seen 0 0
//! value 3`. One with the item `unlisted` has no list of calls.

use crate::arithmetic::flags_in;
use crate::failure::Failure;
use crate::input::{answer_at, behind, call_kind_at, has_word, index_at, number_at, word};
use std::alloc::Global;
use tso_hist::{Call, History};
use tso_list::Seq;
use tso_machine::{Entry, Frame};
use tso_state::{Core, State, Thread};

// The numbers at the front of a text.
fn numbers_of(alloc: Global, text: &str) -> Result<Vec<u64>, Failure> {
    let mut numbers = Vec::new(alloc);
    for word in text.split_whitespace() {
        match word.parse::<u64>() {
            Ok(number) => numbers.push(number)?,
            Err(_) => break,
        }
    }
    Ok(numbers)
}

// The counts of jumps back that an item names.
fn taken_in(alloc: Global, item: &str) -> Result<Seq<u8>, Failure> {
    let mut taken = Seq::new(alloc);
    for number in &numbers_of(alloc, behind(item, "taken"))? {
        match u8::try_from(*number) {
            Ok(count) => taken.push(count)?,
            Err(_) => return Err(Failure::Unreadable),
        }
    }
    Ok(taken)
}

// A call that is at this position.
fn frame_of(alloc: Global, item: &str) -> Result<Frame, Failure> {
    let taken = taken_in(alloc, item)?;
    Ok(Frame {
        pc: index_at(item, 1)?,
        registers: [0; 15],
        flags: flags_in(item),
        taken,
    })
}

// What each thread has seen of others, as a call says it.
fn seen_in(alloc: Global, item: &str) -> Result<Seq<usize>, Failure> {
    let mut seen = Seq::new(alloc);
    for number in &numbers_of(alloc, behind(item, "seen"))? {
        seen.push(*number as usize)?;
    }
    Ok(seen)
}

// A call with what it has seen and its answer, the last of its words.
fn call_of(alloc: Global, item: &str) -> Result<Call, Failure> {
    let seen = seen_in(alloc, item)?;
    let kind = call_kind_at(item, 0)?;
    let last = if has_word(item, "value") { 2 } else { 1 };
    let count = item.split_whitespace().count();
    let answer = if has_word(item, "pending") {
        None
    } else {
        Some(answer_at(item, count.saturating_sub(last))?)
    };
    Ok(Call { kind, seen, answer })
}

// The calls of a thread.
fn calls_of(alloc: Global, thread: &str) -> Result<Seq<Call>, Failure> {
    let mut calls = Seq::new(alloc);
    for item in thread.split(';') {
        if has_word(item, "seen") {
            calls.push(call_of(alloc, item)?)?;
        }
    }
    Ok(calls)
}

// What a thread does.
fn core_of(alloc: Global, thread: &str) -> Result<Core, Failure> {
    for item in thread.split(';') {
        match word(item, 0) {
            "at" => return Ok(Core::Running(frame_of(alloc, item)?)),
            "stopped" => return Ok(Core::Stopped),
            _ => {}
        }
    }
    Ok(Core::Idle)
}

// The entries of a thread's buffer.
fn buffer_of(alloc: Global, thread: &str) -> Result<Seq<Entry>, Failure> {
    let mut buffer = Seq::new(alloc);
    for item in thread.split(';') {
        if word(item, 0) == "store" {
            buffer.push(Entry {
                place: index_at(item, 1)?,
                word: number_at(item, 2)?,
            })?;
        }
    }
    Ok(buffer)
}

// The threads behind the bars.
fn threads_of(alloc: Global, text: &str) -> Result<Seq<Thread>, Failure> {
    let mut threads = Seq::new(alloc);
    for thread in text.split('|') {
        let core = core_of(alloc, thread)?;
        let buffer = buffer_of(alloc, thread)?;
        threads.push(Thread { core, buffer })?;
    }
    Ok(threads)
}

// The lists of calls behind the bars.
fn lists_of(alloc: Global, text: &str) -> Result<Seq<Seq<Call>>, Failure> {
    let mut lists = Seq::new(alloc);
    for thread in text.split('|') {
        if !has_word(thread, "unlisted") {
            lists.push(calls_of(alloc, thread)?)?;
        }
    }
    Ok(lists)
}

/// The state that a text tells.
pub fn state_of(alloc: Global, text: &str) -> Result<State, Failure> {
    let words = numbers_of(alloc, text)?;
    let memory = Seq::from_vec(words);
    let (threads, lists) = match text.split_once('|') {
        Some((_, rest)) => (threads_of(alloc, rest)?, lists_of(alloc, rest)?),
        None => (Seq::new(alloc), Seq::new(alloc)),
    };
    Ok(State {
        memory,
        threads,
        history: History::from_threads(lists),
    })
}
