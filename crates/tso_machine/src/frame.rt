//! What a running thread knows of itself.

ghost use Rattle.std.specs.Prelude.{◌≡◌, ◌<◌, length, slice_set};
ghost use Rattle.tso_flow.specs.Accesses.{register_number};
ghost use Rattle.tso_machine.specs.Registers.{registers_after, IsCountOf, taken_after};

use std::alloc::AllocError;
use tso_line::{Register, Source};
use tso_list::Seq;
use tso_word::Flags;

/// Position, registers, flags and counts of a running procedure.
#[derive(Debug, PartialEq, Eq, PartialOrd, Ord, Hash, Drop)]
pub struct Frame {
    /// The position of the next instruction, from 0.
    pub pc: usize,
    /// The words of the registers, in the order of `Register`.
    pub registers: [u64; 15],
    pub flags: Flags,
    /// How often each back jump of the procedure was taken in this call, in the order of instructions.
    pub taken: Seq<u8>,
}

impl Clone for Frame {
    ghost is_clone = { λ frame copy. copy ≡ frame };

    fn clone(&self) -> Result<Self, AllocError> {
        let taken = self.taken.clone()?;
        Ok(Frame {
            pc: self.pc,
            registers: self.registers,
            flags: self.flags,
            taken,
        })
    }
}

/// What a step changes in a frame: the position and the flags, and perhaps one register and one count.
#[derive(Clone, Copy, PartialEq, Eq)]
pub struct Patch {
    pub pc: usize,
    pub register: Option<(Register, u64)>,
    pub flags: Flags,
    /// The number of a back jump, and its count.
    pub taken: Option<(usize, u8)>,
}

impl Frame {
    ghost use Rattle.tso_machine.specs.Frames.{register_of, value_of, patched, FitsFrame};

    /// The word of a register.
    pub fn register(&self, register: Register) -> u64
        ensures { result ≡ register_of self.now register }
    {
        self.registers[register_number(register)]
    }

    /// The word of a register or an immediate.
    pub fn value(&self, source: Source) -> u64
        ensures { result ≡ value_of self.now source }
    {
        match source {
            Source::Register(register) => self.register(register),
            Source::Word(word) => word,
        }
    }

    /// Changes the frame, and gives the patch that changes it back.
    pub fn patch(&mut self, patch: Patch) -> Patch
        requires { FitsFrame self.old patch }
        ensures after { self.new ≡ patched self.old patch }
        ensures back { patched self.new result ≡ self.old }
        ensures fits { FitsFrame self.new result }
    {
        let register = write_register(&mut self.registers, patch.register);
        let taken = write_count(&mut self.taken, patch.taken);
        let back = Patch {
            pc: self.pc,
            register,
            flags: self.flags,
            taken,
        };
        self.pc = patch.pc;
        self.flags = patch.flags;
        back
    }
}

// Puts a word into a register, and gives the one that was there.
fn write_register(
    registers: &mut [u64; 15],
    write: Option<(Register, u64)>,
) -> Option<(Register, u64)>
    ensures after { registers.new ≡ registers_after registers.old write }
    ensures back { registers_after registers.new result ≡ registers.old }
{
    let (register, word) = write?;
    let old = replace_word(registers, register_number(register), word);
    Some((register, old))
}

// Puts a word at an index, and gives the one that was there.
fn replace_word(words: &mut [u64], index: usize, word: u64) -> u64
    requires { index < length words.old }
    ensures after { words.new ≡ slice_set words.old index word }
    ensures back { slice_set words.new index result ≡ words.old }
{
    let old = words[index];
    words[index] = word;
    old
}

// Sets a count, and gives what it was.
fn write_count(taken: &mut Seq<u8>, write: Option<(usize, u8)>) -> Option<(usize, u8)>
    requires { IsCountOf taken.old write }
    ensures after { taken.new ≡ taken_after taken.old write }
    ensures back { taken_after taken.new result ≡ taken.old }
    ensures fits { IsCountOf taken.new result }
{
    let (jump, count) = write?;
    let old = taken.as_slice()[jump];
    *taken.at_mut(jump) = count;
    Some((jump, old))
}

/// The number of a register in the order of `Register`.
pub fn register_number(register: Register) -> usize
    ensures is { result ≡ register_number register }
    ensures below { result < 15 }
{
    register as usize
}
