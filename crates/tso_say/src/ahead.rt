//! What each thread of a machine has next.

ghost use Rattle.std.specs.Prelude.{◌≡◌, Ok, true, false, IfOk, IfSome};
ghost use Rattle.tso_say.specs.Ahead.{IsAhead};
ghost use Rattle.tso_machine.specs.Machines.{label_of, machine_of};
ghost use Rattle.tso_machine.specs.Programs.{program_of};
ghost use Rattle.tso_machine.specs.Stepping.{IsNoStep, IsStep};

use std::alloc::{AllocError, Global};
use tso_flow::Checked;
use tso_machine::{
    Action, ApplyError, Core, Label, LabelKind, Machine, Running, Stage, Thread, apply, calls_of,
    new_word, next_action, next_call, undo, word_seen,
};
use tso_prog::Client;

/// What a thread has next.
#[derive(Clone, Copy, PartialEq, Eq)]
pub enum Next {
    /// This label, which is a step now.
    Step(LabelKind),
    /// This label, which is no step yet: its store buffer has to be empty first, or another thread's lock given back.
    Later(LabelKind),
    /// No step any more: its call would take a jump back once more than its bound.
    Cut,
    /// No step any more: a fault has stopped it.
    Stopped,
    /// No call before the calls of `.before` have returned and their stores are in memory.
    Waiting,
    /// No call is left.
    Over,
}

// Whether the label is a step of the machine, which is the same afterwards.
fn is_step(
    alloc: Global,
    checked: &Checked,
    machine: &mut Machine,
    label: Label,
) -> Result<bool, AllocError>
    ensures yes { result ≡ Ok true → IsStep (program_of checked.now.client) (machine_of machine.old) (label_of label) }
    ensures no { result ≡ Ok false → IsNoStep (program_of checked.now.client) (machine_of machine.old) (label_of label) }
    ensures same { machine.new ≡ machine.old }
{
    match apply(alloc, checked, machine, label) {
        Ok(back) => {
            undo(machine, back);
            Ok(true)
        }
        Err(ApplyError::NotAStep) => Ok(false),
        Err(ApplyError::Memory) => Err(AllocError),
    }
}

// The label that this action has outside a locked instruction.
fn label_of_action(machine: &Machine, thread: &Thread, action: Action) -> Option<LabelKind> {
    match action {
        Action::Silent(_) => Some(LabelKind::Reg),
        Action::Store { place, word, .. } => Some(LabelKind::Write { place, word }),
        Action::Return(answer) => Some(LabelKind::Return(answer)),
        Action::Fault(kind) => Some(LabelKind::Fault(kind)),
        Action::Load { place, .. } => Some(LabelKind::Read {
            place,
            word: word_seen(&thread.buffer, machine.memory.as_slice(), place),
        }),
        Action::Barrier { .. } => Some(LabelKind::Fence),
        Action::Locked { .. } => Some(LabelKind::Lock),
        Action::Cut => None,
    }
}

// The label that a thread has next in a locked instruction.
fn locked_label(
    machine: &Machine,
    thread: &Thread,
    running: &Running,
    action: Action,
) -> Option<LabelKind> {
    let Action::Locked {
        place,
        operation,
        register,
        ..
    } = action
    else {
        return None;
    };
    match running.stage {
        Stage::Outside => Some(LabelKind::Lock),
        Stage::HasLock => Some(LabelKind::Read {
            place,
            word: word_seen(&thread.buffer, machine.memory.as_slice(), place),
        }),
        Stage::HasRead(old) => Some(LabelKind::Write {
            place,
            word: new_word(&running.frame, operation, register, old),
        }),
        Stage::HasWritten(_) => Some(LabelKind::Unlock),
    }
}

// The label that a running call has next, or none where it is cut.
fn running_label(
    client: &Client,
    machine: &Machine,
    thread: &Thread,
    running: &Running,
) -> Option<LabelKind> {
    let action = next_action(client, running.procedure, &running.frame);
    match running.stage {
        Stage::Outside => label_of_action(machine, thread, action),
        _ => locked_label(machine, thread, running, action),
    }
}

// What an idle thread has next, as a label that may be no step yet.
fn idle_said(client: &Client, machine: &Machine, number: usize, thread: &Thread) -> Next {
    match next_call(client, machine, number, thread.begun) {
        Some(call) => Next::Later(LabelKind::Call(call)),
        None if thread.begun < calls_of(client, number).len() => Next::Waiting,
        None => Next::Over,
    }
}

// What the core of a thread has next, as a label that may be no step yet.
fn core_said(client: &Client, machine: &Machine, number: usize, thread: &Thread) -> Next {
    match &thread.core {
        Core::Idle => idle_said(client, machine, number, thread),
        Core::Running(running) => match running_label(client, machine, thread, running) {
            Some(kind) => Next::Later(kind),
            None => Next::Cut,
        },
        Core::Stopped => Next::Stopped,
    }
}

// What is ahead, where a label that is a step now is told from one that is none yet.
fn tried(
    alloc: Global,
    checked: &Checked,
    machine: &mut Machine,
    thread: usize,
    kind: LabelKind,
) -> Result<Next, AllocError>
    ensures is { IfOk result (λ a. IsAhead checked.now.client machine.old thread a) }
    ensures same { machine.new ≡ machine.old }
{
    if is_step(alloc, checked, machine, Label { thread, kind })? {
        Ok(Next::Step(kind))
    } else {
        Ok(Next::Later(kind))
    }
}

/// What the core of a thread has next, or none where the machine has no such thread.
///
/// Errors: where a growth was refused.
pub fn core_next(
    alloc: Global,
    checked: &Checked,
    machine: &mut Machine,
    number: usize,
) -> Result<Option<Next>, AllocError>
    ensures is { IfOk result (λ found. IfSome found (IsAhead checked.now.client machine.old number)) }
    ensures same { machine.new ≡ machine.old }
{
    let Some(thread) = machine.threads.get(number) else {
        return Ok(None);
    };
    match core_said(&checked.client, machine, number, thread) {
        Next::Step(kind) | Next::Later(kind) => {
            Ok(Some(tried(alloc, checked, machine, number, kind)?))
        }
        other => Ok(Some(other)),
    }
}

/// The drain that the store buffer of a thread has next, or none where it is empty or the machine has no such thread.
///
/// Errors: where a growth was refused.
pub fn buffer_next(
    alloc: Global,
    checked: &Checked,
    machine: &mut Machine,
    number: usize,
) -> Result<Option<Next>, AllocError>
    ensures is { IfOk result (λ found. IfSome found (IsAhead checked.now.client machine.old number)) }
    ensures same { machine.new ≡ machine.old }
{
    let Some(thread) = machine.threads.get(number) else {
        return Ok(None);
    };
    let Some(entry) = thread.buffer.live().first() else {
        return Ok(None);
    };
    let kind = LabelKind::Drain {
        place: entry.place,
        word: entry.word,
    };
    Ok(Some(tried(alloc, checked, machine, number, kind)?))
}
