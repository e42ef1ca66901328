//! Threads after a step, which are not made.
ghost use Rattle.std.specs.Prelude.{◌≡◌, ◌↔◌, ℕ, IsTrue};
ghost use Rattle.tso_compact.specs.Motions.{Fits, GoesOn, thread_after};
ghost use Rattle.tso_machine.specs.Changes.{first_frame};
ghost use Rattle.tso_machine.specs.Frames.{FitsFrame, patched};
ghost use Rattle.tso_machine.specs.Registers.{registers_after};
ghost use Rattle.tso_state.specs.declared.state.Core.{Core as CoreValue};
ghost use Rattle.tso_store.specs.Likes.{core_of, counts_of, frame_of, thread_of};

use std::hash::{Hash, Hasher};
use tso_compact::{Motion, argument_of, patch_after};
use tso_line::Register;
use tso_list::{Seq, is_same};
use tso_machine::{Entry, Frame, Patch};
use tso_parts::{Like, Repeated, Spliced};
use tso_state::{Core, Thread};
use tso_word::Flags;

/// Counts of back jumps that are not made.
#[derive(Drop)]
pub enum Counts<'a> {
    /// Those of a frame, with perhaps another one.
    Kept(Spliced<'a, u8, u8>),
    /// None was taken.
    Zeros(Repeated<u8>),
}

/// A frame that is not made.
#[derive(Drop)]
pub struct FrameAfter<'a> {
    pc: usize,
    registers: [u64; 15],
    flags: Flags,
    taken: Counts<'a>,
}

/// A core that is not made.
#[derive(Drop)]
pub enum CoreAfter<'a> {
    /// This one.
    Same(&'a Core),
    Idle,
    Running(FrameAfter<'a>),
    Stopped,
}

/// A thread that is not made.
#[derive(Drop)]
pub struct ThreadAfter<'a> {
    core: CoreAfter<'a>,
    buffer: Spliced<'a, Entry, Entry>,
}

impl<'a> Like<Seq<u8>> for Counts<'a> {
    ghost value = { counts_of };

    fn feed<H: Hasher>(&self, state: &mut H) {
        match self {
            Counts::Kept(counts) => counts.feed(state),
            Counts::Zeros(zeros) => zeros.feed(state),
        }
    }

    fn is(&self, item: &Seq<u8>) -> bool {
        match self {
            Counts::Kept(counts) => counts.is(item),
            Counts::Zeros(zeros) => zeros.is(item),
        }
    }
}

impl<'a> Like<Frame> for FrameAfter<'a> {
    ghost value = { frame_of };

    fn feed<H: Hasher>(&self, state: &mut H) {
        self.pc.hash(state);
        self.registers.hash(state);
        self.flags.hash(state);
        self.taken.feed(state);
    }

    fn is(&self, item: &Frame) -> bool {
        self.pc == item.pc
            && self.registers == item.registers
            && self.flags == item.flags
            && self.taken.is(&item.taken)
    }
}

impl<'a> Like<Core> for CoreAfter<'a> {
    ghost value = { core_of };

    fn feed<H: Hasher>(&self, state: &mut H) {
        match self {
            CoreAfter::Same(core) => core.hash(state),
            CoreAfter::Idle => Core::Idle.hash(state),
            CoreAfter::Running(frame) => {
                state.write_isize(1);
                frame.feed(state);
            }
            CoreAfter::Stopped => Core::Stopped.hash(state),
        }
    }

    fn is(&self, item: &Core) -> bool {
        match self {
            CoreAfter::Same(core) => is_same(*core, item),
            CoreAfter::Idle => matches!(item, Core::Idle),
            CoreAfter::Running(frame) => match item {
                Core::Running(other) => frame.is(other),
                _ => false,
            },
            CoreAfter::Stopped => matches!(item, Core::Stopped),
        }
    }
}

impl<'a> Like<Thread> for ThreadAfter<'a> {
    ghost value = { thread_of };

    fn feed<H: Hasher>(&self, state: &mut H) {
        self.core.feed(state);
        self.buffer.feed(state);
    }

    fn is(&self, item: &Thread) -> bool {
        self.core.is(&item.core) && self.buffer.is(&item.buffer)
    }
}

// The registers with perhaps another word in one of them.
fn registers_after(registers: &[u64; 15], write: Option<(Register, u64)>) -> [u64; 15]
    ensures { result ≡ registers_after registers.now write }
{
    let mut after = *registers;
    if let Some((register, word)) = write {
        after[register as usize] = word;
    }
    after
}

// The frame with a patch.
fn patched(frame: &Frame, patch: Patch) -> FrameAfter<'_>
    ensures { frame_of result ≡ patched frame.now patch }
{
    let taken = frame.taken.as_slice();
    let counts = match patch.taken {
        Some((jump, count)) => Spliced::with(taken, jump, count),
        None => Spliced::same(taken),
    };
    FrameAfter {
        pc: patch.pc,
        registers: registers_after(&frame.registers, patch.register),
        flags: patch.flags,
        taken: Counts::Kept(counts),
    }
}

// The frame in which a call starts.
fn first_frame(argument: u64, jumps: usize) -> FrameAfter<'static>
    ensures { frame_of result ≡ first_frame argument jumps }
{
    FrameAfter {
        pc: 0,
        registers: registers_after(&[0; 15], Some((Register::Rdi, argument))),
        flags: Flags {
            of: false,
            sf: false,
            cf: false,
            zf: false,
        },
        taken: Counts::Zeros(Repeated {
            item: 0,
            count: jumps,
        }),
    }
}

// The core of a running call after an instruction that goes on in it.
fn running_after(thread: &Thread, motion: Motion, word: u64) -> CoreAfter<'_>
    requires fits { Fits thread.now motion }
    requires goes_on { GoesOn motion }
    ensures { core_of result ≡ (thread_after thread.now motion word).core }
{
    match &thread.core {
        Core::Running(frame) => {
            match patch_after(frame, thread.buffer.as_slice(), motion, word) {
                Some(patch) => CoreAfter::Running(patched(frame, patch)),
                None => unreachable!(),
            }
        }
        _ => unreachable!(),
    }
}

// The core after a step that has read this word.
fn core_after(thread: &Thread, motion: Motion, word: u64) -> CoreAfter<'_>
    requires { Fits thread.now motion }
    ensures { core_of result ≡ (thread_after thread.now motion word).core }
{
    match motion {
        Motion::Begin { kind, jumps } => {
            CoreAfter::Running(first_frame(argument_of(kind), jumps))
        }
        Motion::Return(_) => CoreAfter::Idle,
        Motion::Stop(_) => CoreAfter::Stopped,
        Motion::Drain(_) => CoreAfter::Same(&thread.core),
        _ => running_after(thread, motion, word),
    }
}

// The buffer after a step.
fn buffer_after(buffer: &[Entry], motion: Motion) -> Spliced<'_, Entry, Entry>
    ensures { (core : CoreValue) (word : ℕ) → result ≡ (thread_after (record { core = core; buffer = buffer.now }) motion word).buffer }
{
    match motion {
        Motion::Store { entry, .. } => Spliced::longer(buffer, entry),
        Motion::Drain(_) => match buffer {
            [] => Spliced::same(buffer),
            [_, rest @ ..] => Spliced::same(rest),
        },
        _ => Spliced::same(buffer),
    }
}

/// The thread after a step that has read this word. It takes no memory.
pub fn thread_after(thread: &Thread, motion: Motion, word: u64) -> ThreadAfter<'_>
    requires { Fits thread.now motion }
    ensures { thread_of result ≡ thread_after thread.now motion word }
{
    ThreadAfter {
        core: core_after(thread, motion, word),
        buffer: buffer_after(thread.buffer.as_slice(), motion),
    }
}
