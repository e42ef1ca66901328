//! Why a thread of a run stops, in a sentence.

ghost use Rattle.std.specs.Prelude.{◌≡◌, ◌<◌, length, IfSome};
ghost use Rattle.tso_machine.specs.Places.{index_register};

use crate::site::taker;
use crate::walk::Walk;
use std::fmt;
use tso_line::{CallKind, condition_word};
use tso_machine::{Core, Frame, Label, LabelKind, Machine, procedure_of};
use tso_prog::{Address, Client, Instruction, Register, Step};
use tso_why::Asked;
use tso_word::Condition;

/// Which word of an array an instruction asks for: a whole number, that of a register and a displacement.
#[derive(Clone, Copy, PartialEq, Eq)]
enum Index {
    /// This one.
    Word(u64),
    /// So many below 0.
    Below(u64),
    /// The sum of these two, which has more than 64 bits.
    Beyond(u64, u64),
}

impl fmt::Display for Index {
    fn fmt<W: fmt::Write>(&self, f: &mut fmt::Formatter<W>) -> fmt::Result {
        match *self {
            Index::Word(word) => write!(f, "{word}"),
            Index::Below(below) => write!(f, "-{below}"),
            Index::Beyond(word, more) => write!(f, "{word} + {more}"),
        }
    }
}

/// What an instruction does that stops its thread.
#[derive(Clone, Copy)]
enum Reason<'a> {
    /// It asks for a word that the array of this name, which has so many, does not have.
    Range {
        index: Index,
        name: &'a str,
        words: usize,
    },
    /// It asserts a condition that does not hold.
    Assertion(Condition),
    /// It returns with this word in rax.
    Answer(u64),
}

impl<'a> fmt::Display for Reason<'a> {
    fn fmt<W: fmt::Write>(&self, f: &mut fmt::Formatter<W>) -> fmt::Result {
        match *self {
            Reason::Range { index, name, words } => {
                write!(
                    f,
                    "word {index} of {name} is asked for, which has {words} (0"
                )?;
                match words.saturating_sub(1) {
                    0 => f.write_str(")"),
                    last => write!(f, " to {last})"),
                }
            }
            Reason::Assertion(condition) => {
                let word = condition_word(condition);
                write!(f, "the assertion {word} is false")
            }
            Reason::Answer(word) => {
                write!(f, "it answers with {word} in rax, where 0 or 1 is wanted")
            }
        }
    }
}

/// A thread that stops: in which call, at which label and line, and why.
#[derive(Clone, Copy)]
pub struct Stop<'a> {
    call: CallKind,
    thread: usize,
    /// The number of the label, from 1.
    label: usize,
    line: u32,
    reason: Reason<'a>,
}

/// As `push 2 of thread 1 stops at label 35, line 26: the assertion e is false`.
impl<'a> fmt::Display for Stop<'a> {
    fn fmt<W: fmt::Write>(&self, f: &mut fmt::Formatter<W>) -> fmt::Result {
        let asked = Asked(self.call);
        let (thread, label, line) = (self.thread, self.label, self.line);
        let reason = self.reason;
        write!(
            f,
            "{asked} of thread {thread} stops at label {label}, line {line}: {reason}"
        )
    }
}

/// How many labels stand before the first with which a thread stops, if one does.
pub fn before_stop(labels: &[Label]) -> Option<usize>
    ensures { IfSome result (λ before. before < length labels.now) }
{
    labels
        .iter()
        .position(|label| matches!(label.kind, LabelKind::Fault(_)))
}

// The call of a thread that began last.
fn last_call(labels: &[Label], thread: usize) -> Option<CallKind> {
    let mut last = None;
    for label in labels {
        match label.kind {
            LabelKind::Call(call) if label.thread == thread => last = Some(call),
            _ => {}
        }
    }
    last
}

// The word of an index register, 0 where there is none.
fn index_word(frame: &Frame, index: Option<Register>) -> u64
    ensures { result ≡ index_register frame.now index }
{
    match index {
        Some(register) => frame.register(register),
        None => 0,
    }
}

// The sum of the two.
fn index_of(word: u64, offset: i64) -> Index {
    match word.checked_add_signed(offset) {
        Some(index) => Index::Word(index),
        None => {
            if offset < 0 {
                Index::Below(offset.unsigned_abs().saturating_sub(word))
            } else {
                Index::Beyond(word, offset.unsigned_abs())
            }
        }
    }
}

fn range_of<'a>(client: &'a Client, frame: &Frame, address: Address<usize>) -> Option<Reason<'a>> {
    let array = client.arrays.get(address.array)?;
    Some(Reason::Range {
        index: index_of(index_word(frame, address.index), address.offset),
        name: std::str::from_utf8(array.name.as_slice()).unwrap_or(""),
        words: array.words.len(),
    })
}

// Why an instruction stops its thread, if it is one that can.
fn reason_of<'a>(client: &'a Client, frame: &Frame, step: Step) -> Option<Reason<'a>> {
    match step {
        Instruction::Load { from, .. } => range_of(client, frame, from),
        Instruction::Store { to, .. } => range_of(client, frame, to),
        Instruction::Locked { cell, .. } => range_of(client, frame, cell),
        Instruction::Assert(condition) => Some(Reason::Assertion(condition)),
        Instruction::Return => Some(Reason::Answer(frame.register(Register::Rax))),
        _ => None,
    }
}

// Why the next instruction of a thread stops it, if it is one that can.
fn reason_in<'a>(client: &'a Client, machine: &Machine, thread: usize) -> Option<Reason<'a>> {
    let thread = machine.threads.get(thread)?;
    let Core::Running(running) = &thread.core else {
        return None;
    };
    let steps = procedure_of(client, running.procedure)
        .instructions
        .as_slice();
    let step = steps.get(running.frame.pc).copied()?;
    reason_of(client, &running.frame, step)
}

/// Why a thread stops with this label behind those that a walk has taken.
pub fn stop_of<'a>(client: &'a Client, walk: &Walk<'_>, label: Label) -> Option<Stop<'a>> {
    let site = taker(client, walk.machine(), label)?;
    Some(Stop {
        call: last_call(walk.taken(), label.thread)?,
        thread: label.thread,
        label: walk.position().saturating_add(1),
        line: site.line,
        reason: reason_in(client, walk.machine(), label.thread)?,
    })
}
