//! What a step makes of its thread and of memory.

ghost use Rattle.std.specs.Prelude.{◌≡◌, ◌↔◌, ℕ, List, IfOk, IfSome, IsSome};
ghost use Rattle.tso_compact.specs.Clauses.{IsWrittenBy};
ghost use Rattle.tso_compact.specs.Motions.{running_thread, argument_of, locked_word, thread_after, access_of, memory_with, Fits, GoesOn};
ghost use Rattle.tso_compact.specs.declared.motion.Motion.TheVariants as motions;
ghost use Rattle.tso_machine.specs.Frames.{patched, FitsFrame};
ghost use Rattle.tso_model.specs.Steps.{word_read, memory_after};
ghost use Rattle.tso_state.specs.declared.state.Core.TheVariants as cores;
ghost use Rattle.tso_state.specs.declared.state.Core.{Core as ACore};
ghost use Rattle.tso_state.specs.declared.state.Thread.{Thread as AThread};

use crate::motion::Motion;
use std::alloc::{AllocError, Global};
use tso_line::{LockedOperation, Register};
use tso_list::Seq;
use tso_machine::{Entry, Frame, Patch, exchanged, first_frame, latest, loaded, moved, new_word};
use tso_prog::CallKind;
use tso_state::{Core, Thread};

/// The word of memory that a step reads; 0 where it reads none.
pub fn word_read(memory: &[u64], motion: Motion) -> u64
    ensures { (t : AThread) → result ≡ word_read memory.now (access_of t motion) }
{
    match motion {
        Motion::Load { place, .. } | Motion::Locked { place, .. } => {
            memory.get(place).copied().unwrap_or(0)
        }
        _ => 0,
    }
}

/// The word that a locked instruction of a thread writes where it has read the old one.
pub fn locked_word(thread: &Thread, operation: LockedOperation, register: Register, old: u64) -> u64
    ensures { result ≡ locked_word thread.now.core operation register old }
{
    match &thread.core {
        Core::Running(frame) => new_word(frame, operation, register, old),
        Core::Idle | Core::Stopped => old,
    }
}

/// What a step that has read this word writes to memory.
pub fn written(thread: &Thread, motion: Motion, word: u64) -> Option<Entry>
    ensures { IsWrittenBy thread.now motion word result }
{
    match motion {
        Motion::Drain(entry) => Some(entry),
        Motion::Locked {
            place,
            operation,
            register,
            ..
        } => Some(Entry {
            place,
            word: locked_word(thread, operation, register, word),
        }),
        _ => None,
    }
}

/// What a running call's instruction that has read this word changes in its frame, if it is one that goes on in it.
pub fn patch_after(frame: &Frame, buffer: &[Entry], motion: Motion, word: u64) -> Option<Patch>
    requires { Fits (running_thread frame.now buffer.now) motion }
    ensures is { IfSome result (λ p. (thread_after (running_thread frame.now buffer.now) motion word).core ≡ cores.Running (patched frame.now p)) }
    ensures fits { IfSome result (FitsFrame frame.now) }
    ensures some { IsSome result ↔ GoesOn motion }
{
    match motion {
        Motion::Run(patch) => Some(patch),
        Motion::Pass { next } | Motion::Store { next, .. } => Some(moved(frame, next)),
        Motion::Load { place, to, next } => {
            Some(loaded(frame, to, latest(buffer, place, word), next))
        }
        Motion::Locked {
            operation,
            register,
            next,
            ..
        } => Some(exchanged(frame, operation, register, word, next)),
        _ => None,
    }
}

// The core after a step that has read this word.
fn core_after(alloc: Global, thread: &Thread, motion: Motion, word: u64) -> Result<Core, AllocError>
    requires { Fits thread.now motion }
    ensures { IfOk result (λ core. core ≡ (thread_after thread.now motion word).core) }
{
    match motion {
        Motion::Begin { kind, jumps } => {
            let frame = first_frame(alloc, argument_of(kind), jumps)?;
            Ok(Core::Running(frame))
        }
        Motion::Return(_) => Ok(Core::Idle),
        Motion::Stop(_) => Ok(Core::Stopped),
        Motion::Drain(_) => thread.core.clone(),
        _ => running_after(thread, motion, word),
    }
}

/// The word that a push begins with in RDI; 0 for a pop.
pub fn argument_of(kind: CallKind) -> u64
    ensures { result ≡ argument_of kind }
{
    match kind {
        CallKind::Push(argument) => argument,
        CallKind::Pop => 0,
    }
}

// The core of a running call after an instruction that goes on in it.
fn running_after(thread: &Thread, motion: Motion, word: u64) -> Result<Core, AllocError>
    requires fits { Fits thread.now motion }
    requires goes_on { GoesOn motion }
    ensures { IfOk result (λ core. core ≡ (thread_after thread.now motion word).core) }
{
    match &thread.core {
        Core::Running(frame) => {
            match patch_after(frame, thread.buffer.as_slice(), motion, word) {
                Some(patch) => {
                    let mut after = frame.clone()?;
                    let _ = after.patch(patch);
                    Ok(Core::Running(after))
                }
                None => unreachable!(),
            }
        }
        _ => unreachable!(),
    }
}

// The buffer after a step.
fn buffer_after(alloc: Global, buffer: &[Entry], motion: Motion) -> Result<Seq<Entry>, AllocError>
    ensures { (core : ACore) (word : ℕ) → IfOk result (λ b. b ≡ (thread_after (record { core = core; buffer = buffer.now }) motion word).buffer) }
{
    match motion {
        Motion::Store { entry, .. } => {
            let mut entries = Vec::with_capacity(alloc, buffer.len() + 1)?;
            entries.extend_from_slice(buffer)?;
            entries.push(entry)?;
            Ok(Seq::from_vec(entries))
        }
        Motion::Drain(_) => match buffer {
            [] => Ok(Seq::new(alloc)),
            [_, rest @ ..] => Seq::from_slice(alloc, rest),
        },
        _ => Seq::from_slice(alloc, buffer),
    }
}

/// The thread after a step that has read this word. Nothing but the thread is copied.
pub fn thread_after(
    alloc: Global,
    thread: &Thread,
    motion: Motion,
    word: u64,
) -> Result<Thread, AllocError>
    requires { Fits thread.now motion }
    ensures { IfOk result (λ t. t ≡ thread_after thread.now motion word) }
{
    let core = core_after(alloc, thread, motion, word)?;
    let buffer = buffer_after(alloc, thread.buffer.as_slice(), motion)?;
    Ok(Thread { core, buffer })
}
