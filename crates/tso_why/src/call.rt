//! The calls of a run, in time.

ghost use Rattle.std.specs.Prelude.{◌≡◌, ◌≤◌, ◌++◌, drop, length, IfOk};
ghost use Rattle.tso_why.specs.Calls.{answer_in, calls_from, returned_in};

use std::alloc::{AllocError, Global};
use tso_line::CallKind;
use tso_machine::{Label, LabelKind};
use tso_prog::Answer;

/// How a call returns.
#[derive(Clone, Copy, PartialEq, Eq)]
pub struct Returned {
    /// The number of the label at which it returns, from 1.
    pub label: usize,
    pub answer: Answer,
}

/// A call of a run: from which label to which it lasts.
#[derive(Clone, Copy, PartialEq, Eq)]
pub struct TimedCall {
    pub thread: usize,
    pub kind: CallKind,
    /// The number of the label at which it begins, from 1.
    pub begins: usize,
    /// Nothing where it is pending at the end.
    pub returns: Option<Returned>,
}

// The answer, where the label is a return of the thread.
fn answer_in(label: Label, thread: usize) -> Option<Answer>
    ensures { result ≡ answer_in thread label }
{
    match label.kind {
        LabelKind::Return(answer) if label.thread == thread => Some(answer),
        _ => None,
    }
}

// The first return of the thread behind so many labels.
fn returned_in(labels: &[Label], behind: usize, thread: usize) -> Option<Returned>
    requires { behind ≤ length labels.now }
    ensures { result ≡ returned_in thread behind (drop behind labels.now) }
{
    for at in behind..labels.len() {
        if let Some(answer) = answer_in(labels[at], thread) {
            return Some(Returned {
                label: at + 1,
                answer,
            });
        }
    }
    None
}

/// The calls of a run in the order in which they begin, each with the first return of its thread behind its beginning.
///
/// Errors: where a growth was refused.
pub fn calls_in(alloc: Global, labels: &[Label]) -> Result<Vec<TimedCall>, AllocError>
    ensures { IfOk result (λ calls. calls.items ≡ calls_from 0 labels.now) }
{
    let mut calls = Vec::new(alloc);
    for (at, label) in labels.iter().enumerate() {
        let thread = label.thread;
        if let LabelKind::Call(kind) = label.kind {
            calls.push(TimedCall {
                thread,
                kind,
                begins: at + 1,
                returns: returned_in(labels, at + 1, thread),
            })?;
        }
    }
    Ok(calls)
}
