//! Labels as texts: a thread, and what it does: `0 call push 7`, `1 call pop`, `0 reg`, `0 read 1 7`, `0 write 1 7`, `0 drain 1 7`,
//! `0 fence`, `0 lock`, `0 unlock`, `0 return done`, `0 fault assert`. A place is its number in memory.

use crate::failure::Failure;
use crate::input::{answer_at, call_kind_at, index_at, number_at, word};
use std::alloc::Global;
use tso_machine::{FaultKind, Label, LabelKind};

// The place of an access, and the word.
fn access_of(text: &str) -> Result<(usize, u64), Failure> {
    Ok((index_at(text, 2)?, number_at(text, 3)?))
}

// An access.
fn accessing(text: &str) -> Result<LabelKind, Failure> {
    let (place, value) = access_of(text)?;
    match word(text, 1) {
        "read" => Ok(LabelKind::Read { place, word: value }),
        "write" => Ok(LabelKind::Write { place, word: value }),
        "drain" => Ok(LabelKind::Drain { place, word: value }),
        _ => Err(Failure::Unreadable),
    }
}

// A fault.
fn fault_of(text: &str) -> Result<FaultKind, Failure> {
    match word(text, 2) {
        "range" => Ok(FaultKind::OutOfRange),
        "assert" => Ok(FaultKind::FalseAssertion),
        "answer" => Ok(FaultKind::BadAnswer),
        _ => Err(Failure::Unreadable),
    }
}

// What a label says that its thread does.
fn kind_of(text: &str) -> Result<LabelKind, Failure> {
    match word(text, 1) {
        "call" => Ok(LabelKind::Call(call_kind_at(text, 2)?)),
        "reg" => Ok(LabelKind::Reg),
        "fence" => Ok(LabelKind::Fence),
        "lock" => Ok(LabelKind::Lock),
        "unlock" => Ok(LabelKind::Unlock),
        "return" => Ok(LabelKind::Return(answer_at(text, 2)?)),
        "fault" => Ok(LabelKind::Fault(fault_of(text)?)),
        _ => accessing(text),
    }
}

// A label.
fn label_of(text: &str) -> Result<Label, Failure> {
    let thread = index_at(text, 0)?;
    let kind = kind_of(text)?;
    Ok(Label { thread, kind })
}

/// The labels of a text, with `;` between them.
pub fn labels_of(alloc: Global, text: &str) -> Result<Vec<Label>, Failure> {
    let mut labels = Vec::new(alloc);
    for item in text.split(';') {
        if word(item, 0) != "" {
            labels.push(label_of(item)?)?;
        }
    }
    Ok(labels)
}
