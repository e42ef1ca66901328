//! What loads and locked instructions make of a frame, and the newest word of a store buffer.

ghost use Rattle.std.specs.Prelude.{◌≡◌, map, drop, None};
ghost use Rattle.tso_machine.specs.Frames.{patched};
ghost use Rattle.tso_machine.specs.Instructions.{at_position, with_register, exchanged, new_word};
ghost use Rattle.tso_machine.specs.Machines.{entry_view};
ghost use Rattle.tso_model.specs.States.{latest};

use crate::buffer::Entry;
use crate::frame::{Frame, Patch};
use tso_line::{LockedOperation, Register};

/// The newest word for a place among these entries, the oldest first, else this word.
pub fn latest(entries: &[Entry], place: usize, word: u64) -> u64
    ensures { result ≡ latest (map entry_view entries.now) place word }
{
    let mut seen = word;
    for entry in entries {
        if entry.place == place {
            seen = entry.word;
        }
    }
    seen
}

/// The patch of a load: the position of the next instruction, and a word in a register.
pub fn loaded(frame: &Frame, to: Register, word: u64, next: usize) -> Patch
    ensures after { patched frame.now result ≡ at_position next (with_register to word frame.now) }
    ensures taken { result.taken ≡ None }
{
    Patch {
        pc: next,
        register: Some((to, word)),
        flags: frame.flags,
        taken: None,
    }
}

/// The patch of an instruction that changes the position alone.
pub fn moved(frame: &Frame, next: usize) -> Patch
    ensures after { patched frame.now result ≡ at_position next frame.now }
    ensures taken { result.taken ≡ None }
{
    Patch {
        pc: next,
        register: None,
        flags: frame.flags,
        taken: None,
    }
}

/// The patch of a locked instruction that has read this word.
pub fn exchanged(
    frame: &Frame,
    operation: LockedOperation,
    register: Register,
    old: u64,
    next: usize,
) -> Patch
    ensures after { patched frame.now result ≡ at_position next (exchanged operation register frame.now old) }
    ensures taken { result.taken ≡ None }
{
    let plain = loaded(frame, register, old, next);
    match operation {
        LockedOperation::Exchange => plain,
        LockedOperation::CompareExchange => {
            let expected = frame.register(Register::Rax);
            let (_, flags) = tso_word::sub(expected, old);
            Patch {
                pc: next,
                register: if expected == old {
                    None
                } else {
                    Some((Register::Rax, old))
                },
                flags,
                taken: None,
            }
        }
        LockedOperation::ExchangeAdd => {
            let (_, flags) = tso_word::add(old, frame.register(register));
            Patch { flags, ..plain }
        }
    }
}

/// The word that a locked instruction writes where it has read the old one.
pub fn new_word(frame: &Frame, operation: LockedOperation, register: Register, old: u64) -> u64
    ensures { result ≡ new_word operation register frame.now old }
{
    let word = frame.register(register);
    match operation {
        LockedOperation::Exchange => word,
        LockedOperation::CompareExchange => {
            if frame.register(Register::Rax) == old {
                word
            } else {
                old
            }
        }
        LockedOperation::ExchangeAdd => tso_word::add(old, word).0,
    }
}
