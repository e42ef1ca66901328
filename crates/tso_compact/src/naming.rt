//! The labels of a step, in the label machine's words.

ghost use Rattle.std.specs.Prelude.{◌≡◌, ◌↔◌, ◌∷◌, [], ◌<◌, length, IfOk, Err};
ghost use Rattle.tso_compact.specs.Clauses.{labels_named};
ghost use Rattle.tso_compact.specs.Motions.{access_of, label_at, labels_of_motion, locked_labels};
ghost use Rattle.tso_compact.specs.Plans.{thread_in, HasHistories, HasStep, IsLabelled, IsRunOfStep};
ghost use Rattle.tso_model.specs.Steps.{word_read};
ghost use Rattle.tso_compact.specs.declared.fault.StepError.TheVariants as errors;

use crate::effect::{locked_word, word_read};
use crate::fault::StepError;
use crate::motion::Motion;
use crate::plan::planned;
use std::alloc::{AllocError, Global};
use tso_flow::Checked;
use tso_machine::{Entry, Label, LabelKind, latest};
use tso_state::{Actor, State, Thread};

// One label.
fn single(alloc: Global, thread: usize, kind: LabelKind) -> Result<Vec<Label>, AllocError>
    ensures { IfOk result (λ ls. ls.items ≡ label_at thread kind ∷ []) }
{
    let labels = vec![in alloc; Label { thread, kind }]?;
    Ok(labels)
}

// The labels of a locked instruction that reads the old word and writes the new one.
fn locked_labels(
    alloc: Global,
    thread: usize,
    place: usize,
    old: u64,
    new: u64,
) -> Result<Vec<Label>, AllocError>
    ensures { IfOk result (λ ls. ls.items ≡ locked_labels thread place old new) }
{
    let labels = vec![in alloc;
        Label {
            thread,
            kind: LabelKind::Lock
        },
        Label {
            thread,
            kind: LabelKind::Read { place, word: old }
        },
        Label {
            thread,
            kind: LabelKind::Write { place, word: new }
        },
        Label {
            thread,
            kind: LabelKind::Drain { place, word: new }
        },
        Label {
            thread,
            kind: LabelKind::Unlock
        },
    ]?;
    Ok(labels)
}

// The labels of the step of a thread that has read this word in memory.
fn labels_of_motion(
    alloc: Global,
    number: usize,
    thread: &Thread,
    motion: Motion,
    word: u64,
) -> Result<Vec<Label>, AllocError>
    ensures { IfOk result (λ ls. ls.items ≡ labels_of_motion word number thread.now motion) }
{
    match motion {
        Motion::Run(_) => single(alloc, number, LabelKind::Reg),
        Motion::Pass { .. } => single(alloc, number, LabelKind::Fence),
        Motion::Load { place, .. } => {
            let word = latest(thread.buffer.as_slice(), place, word);
            single(alloc, number, LabelKind::Read { place, word })
        }
        Motion::Store { entry, .. } => {
            let Entry { place, word } = entry;
            single(alloc, number, LabelKind::Write { place, word })
        }
        Motion::Locked {
            place,
            operation,
            register,
            ..
        } => {
            let new = locked_word(thread, operation, register, word);
            locked_labels(alloc, number, place, word, new)
        }
        Motion::Begin { kind, .. } => single(alloc, number, LabelKind::Call(kind)),
        Motion::Return(answer) => single(alloc, number, LabelKind::Return(answer)),
        Motion::Stop(fault) => single(alloc, number, LabelKind::Fault(fault)),
        Motion::Drain(entry) => {
            let Entry { place, word } = entry;
            single(alloc, number, LabelKind::Drain { place, word })
        }
    }
}

// The labels of the step of thread `number`.
fn named(
    alloc: Global,
    state: &State,
    number: usize,
    motion: Motion,
) -> Result<Vec<Label>, AllocError>
    requires { number < length state.now.threads }
    ensures { IfOk result (λ ls. ls.items ≡ labels_named state.now number motion) }
{
    let thread = &state.threads.as_slice()[number];
    let word = word_read(state.memory.as_slice(), motion);
    labels_of_motion(alloc, number, thread, motion, word)
}

/// The labels of the actor's step, in order: the five of a locked instruction, or one.
///
/// Errors: `Disabled` exactly where the actor has no step; `Memory` where it has one and a growth was refused.
pub fn labels(
    alloc: Global,
    checked: &Checked,
    state: &State,
    actor: Actor,
) -> Result<Vec<Label>, StepError>
    ensures ok { IfOk result (λ ls. IsLabelled checked.now.client state.now actor ls.items) }
    ensures run { HasHistories state.now → IfOk result (λ ls. IsRunOfStep checked.now.client state.now actor ls.items) }
    ensures disabled { (result ≡ Err errors.Disabled) ↔ (HasStep checked.now.client state.now actor → ⊥) }
    ensures memory { result ≡ Err errors.Memory → HasStep checked.now.client state.now actor }
{
    match planned(&checked.client, state, actor) {
        Some(motion) => { Ok(named(alloc, state, actor.thread(), motion)?) }
        None => Err(StepError::Disabled),
    }
}
