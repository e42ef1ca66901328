//! Calls, and why they have no order, in words.

use crate::call::TimedCall;
use crate::why::{Cause, answered, end_of, value_of};
use std::fmt;
use tso_line::CallKind;
use tso_prog::Answer;

/// A call by what it asks for.
#[derive(Clone, Copy)]
pub struct Asked(pub CallKind);

impl fmt::Display for Asked {
    fn fmt<W: fmt::Write>(&self, f: &mut fmt::Formatter<W>) -> fmt::Result {
        match self.0 {
            CallKind::Push(word) => write!(f, "push {word}"),
            CallKind::Pop => f.write_str("pop"),
        }
    }
}

/// An answer, as a trace has it.
#[derive(Clone, Copy)]
pub struct Answered(pub Answer);

impl fmt::Display for Answered {
    fn fmt<W: fmt::Write>(&self, f: &mut fmt::Formatter<W>) -> fmt::Result {
        match self.0 {
            Answer::Refused => f.write_str("refused"),
            Answer::Done => f.write_str("done"),
            Answer::Value(word) => write!(f, "value {word}"),
        }
    }
}

impl fmt::Display for TimedCall {
    fn fmt<W: fmt::Write>(&self, f: &mut fmt::Formatter<W>) -> fmt::Result {
        let thread = self.thread;
        let asked = Asked(self.kind);
        let begins = self.begins;
        match self.returns {
            Some(returned) => {
                let label = returned.label;
                let answer = Answered(returned.answer);
                write!(
                    f,
                    "thread {thread} {asked}: {answer}, labels {begins} to {label}"
                )
            }
            None => write!(f, "thread {thread} {asked}: pending, from label {begins}"),
        }
    }
}

fn write_not_empty<W: fmt::Write>(
    f: &mut fmt::Formatter<W>,
    pop: TimedCall,
    push: TimedCall,
) -> fmt::Result {
    let (thread, other) = (pop.thread, push.thread);
    let (asked, label) = (Asked(push.kind), end_of(push.returns));
    write!(
        f,
        "pop of thread {thread} was refused, though the queue was not empty: {asked} of thread {other} had returned before (label {label})"
    )
}

fn write_overtaken<W: fmt::Write>(
    f: &mut fmt::Formatter<W>,
    pop: TimedCall,
    push: TimedCall,
) -> fmt::Result {
    let word = value_of(answered(pop.returns)).unwrap_or(0);
    let other = push.thread;
    let (asked, label) = (Asked(push.kind), end_of(push.returns));
    write!(
        f,
        "value {word} came out before that of {asked}: this push of thread {other} had returned (label {label}) before push {word} began"
    )
}

fn write_not_full<W: fmt::Write>(
    f: &mut fmt::Formatter<W>,
    push: TimedCall,
    items: usize,
    capacity: usize,
) -> fmt::Result {
    let (thread, asked) = (push.thread, Asked(push.kind));
    write!(
        f,
        "{asked} of thread {thread} was refused, though the queue of {capacity} was not full: it had at most {items}"
    )
}

impl fmt::Display for Cause {
    fn fmt<W: fmt::Write>(&self, f: &mut fmt::Formatter<W>) -> fmt::Result {
        match *self {
            Cause::Surplus { word, put: 0, .. } => write!(f, "value {word} was never pushed"),
            Cause::Surplus { word, taken, put } => write!(
                f,
                "value {word} came out more often than it was pushed: {taken} and {put}"
            ),
            Cause::NotEmpty { pop, push } => write_not_empty(f, pop, push),
            Cause::Overtaken { pop, push } => write_overtaken(f, pop, push),
            Cause::Overfull { items, capacity } => {
                write!(f, "{items} items in a queue of {capacity}")
            }
            Cause::NotFull {
                push,
                items,
                capacity,
            } => write_not_full(f, push, items, capacity),
        }
    }
}
