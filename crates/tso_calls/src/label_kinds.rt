//! The kinds of labels that are tried.

use std::alloc::{AllocError, Global};
use tso_machine::{FaultKind, LabelKind};
use tso_prog::{Answer, CallKind};

/// The words that are tried: 0 to 9, and the greatest.
const WORDS: [u64; 11] = [0, 1, 2, 3, 4, 5, 6, 7, 8, 9, 0xffff_ffff_ffff_ffff];

/// The kinds without a word.
const PLAIN: [LabelKind; 10] = [
    LabelKind::Call(CallKind::Pop),
    LabelKind::Reg,
    LabelKind::Fence,
    LabelKind::Lock,
    LabelKind::Unlock,
    LabelKind::Return(Answer::Refused),
    LabelKind::Return(Answer::Done),
    LabelKind::Fault(FaultKind::OutOfRange),
    LabelKind::Fault(FaultKind::FalseAssertion),
    LabelKind::Fault(FaultKind::BadAnswer),
];

// Adds the kinds with this word.
fn push_kinds(kinds: &mut Vec<LabelKind>, places: usize, word: u64) -> Result<(), AllocError> {
    kinds.push(LabelKind::Call(CallKind::Push(word)))?;
    kinds.push(LabelKind::Return(Answer::Value(word)))?;
    for place in 0..places {
        kinds.push(LabelKind::Read { place, word })?;
        kinds.push(LabelKind::Write { place, word })?;
        kinds.push(LabelKind::Drain { place, word })?;
    }
    Ok(())
}

/// Each kind of label over so many places and the words.
pub fn all_kinds(alloc: Global, places: usize) -> Result<Vec<LabelKind>, AllocError> {
    let mut kinds = Vec::from_slice(alloc, &PLAIN)?;
    for word in WORDS {
        push_kinds(&mut kinds, places, word)?;
    }
    Ok(kinds)
}
