//! The label that a thread has next, one of its core and one of its buffer.

ghost use Rattle.std.specs.Prelude.{◌≡◌, ◌+◌, ◌<◌, ◌^◌, length, map, drop, slice_get, slice_index_or, slice_index, Some, None, [], IfSome, true, false};
ghost use Rattle.std.specs.Option.{option_map};
ghost use Rattle.tso_prog.specs.Views.{call_view};
ghost use Rattle.tso_machine.specs.Activations.{Activation, activation};
ghost use Rattle.tso_machine.specs.Actions.{meaning, FitsAction};
ghost use Rattle.tso_machine.specs.Changes.{FitsChange};
ghost use Rattle.tso_machine.specs.Instructions.{next_action, at_position, with_register, exchanged, new_word};
ghost use Rattle.tso_machine.specs.Frames.{patched};
ghost use Rattle.tso_machine.specs.Machines.{buffer_view, core_view, entry_view, machine_of, stage_view, thread_view};
ghost use Rattle.tso_machine.specs.Offers.{begin_of, next_idle, next_in, next_inside, next_of_buffer, next_of_core, next_outside, next_running};
ghost use Rattle.tso_machine.specs.declared.label.LabelKind.TheVariants as kinds;
ghost use Rattle.tso_machine.specs.Programs.{calls_of, jump_count, program_of};
ghost use Rattle.tso_model.specs.Labels.{next_call_in, is_over_in};
ghost use Rattle.tso_machine.specs.declared.machine.Core.TheVariants as cores;
ghost use Rattle.tso_machine.specs.declared.machine.Stage.TheVariants as stages;
ghost use Rattle.tso_model.specs.Offers as model;
ghost use Rattle.tso_model.specs.States.{word_seen, latest};

use crate::access::{exchanged, latest, loaded, moved, new_word};
use crate::action::{Action, back_jumps, next_action, procedure_of};
use crate::buffer::{Buffer, Entry};
use crate::calls::next_call;
use crate::change::Change;
use crate::label::LabelKind;
use crate::machine::{Core, Machine, Running, Stage, Thread};
use tso_flow::ProcedureKind;
use tso_line::{LockedOperation, Register};
use tso_prog::{CallKind, Client};

/// A label's kind, and what its step changes in its thread.
#[derive(Clone, Copy, PartialEq, Eq)]
pub struct Offer {
    pub kind: LabelKind,
    pub change: Change,
}

/// The word that a thread reads at a place: the newest one in its own buffer, else memory's.
pub fn word_seen(buffer: &Buffer, memory: &[u64], place: usize) -> u64
    ensures { result ≡ word_seen (buffer_view buffer.now) memory.now place }
{
    latest(
        buffer.live(),
        place,
        memory.get(place).copied().unwrap_or(0),
    )
}

// The offer, if no other thread holds the lock.
fn if_unblocked(lock: Option<usize>, thread: usize, offer: Offer) -> Option<Offer>
    ensures is { (f : Offer → model.Next Activation) → option_map f result ≡ model.if_unblocked lock thread (f offer) }
    ensures same { IfSome result (λ o. o ≡ offer) }
{
    match lock {
        Some(holder) if holder != thread => None,
        _ => Some(offer),
    }
}

// The offer, if nothing is buffered.
fn if_empty(buffer: &Buffer, offer: Offer) -> Option<Offer>
    ensures is { (f : Offer → model.Next Activation) → option_map f result ≡ model.if_empty (buffer_view buffer.now) (Some (f offer)) }
    ensures same { IfSome result (λ o. o ≡ offer) }
{
    if buffer.live().is_empty() {
        Some(offer)
    } else {
        None
    }
}

// What follows where the thread is in no locked instruction.
#[tactic(auto, using(crate::proofs::Views::threads_view, crate::proofs::Views::entries_view))]
fn outside_offer(
    machine: &Machine,
    number: usize,
    thread: &Thread,
    running: &Running,
    action: Action,
) -> Option<Offer>
    requires core { thread.now.core ≡ cores.Running running.now }
    requires stage { running.now.stage ≡ stages.Outside }
    requires fits { FitsAction running.now.frame action }
    ensures is { next_in machine.now number thread.now result ≡ next_outside machine.now number thread.now running.now action }
    ensures fits { IfSome result (λ o. FitsChange thread.now o.change) }
{
    match action {
        Action::Silent(patch) => Some(Offer {
            kind: LabelKind::Reg,
            change: Change::Run(patch),
        }),
        Action::Store { place, word, next } => Some(Offer {
            kind: LabelKind::Write { place, word },
            change: Change::Store {
                entry: Entry { place, word },
                next,
            },
        }),
        Action::Return(answer) => Some(Offer {
            kind: LabelKind::Return(answer),
            change: Change::Return,
        }),
        Action::Fault(kind) => Some(Offer {
            kind: LabelKind::Fault(kind),
            change: Change::Stop,
        }),
        Action::Load { place, to, next } => {
            let word = word_seen(&thread.buffer, machine.memory.as_slice(), place);
            let offer = Offer {
                kind: LabelKind::Read { place, word },
                change: Change::Run(loaded(&running.frame, to, word, next)),
            };
            if_unblocked(machine.lock, number, offer)
        }
        Action::Barrier { next } => {
            let offer = Offer {
                kind: LabelKind::Fence,
                change: Change::Run(moved(&running.frame, next)),
            };
            if_empty(&thread.buffer, offer)
        }
        Action::Locked { .. } => {
            let offer = Offer {
                kind: LabelKind::Lock,
                change: Change::Go(Stage::HasLock),
            };
            match machine.lock {
                Some(_) => None,
                None => if_empty(&thread.buffer, offer),
            }
        }
        Action::Cut => None,
    }
}

// The offer, if nothing is buffered and this thread holds the lock.
fn if_drained_holder(
    buffer: &Buffer,
    lock: Option<usize>,
    thread: usize,
    offer: Offer,
) -> Option<Offer>
    ensures is { (f : Offer → model.Next Activation) → option_map f result ≡ model.if_empty (buffer_view buffer.now) (model.if_held lock thread (f offer)) }
    ensures same { IfSome result (λ o. o ≡ offer) }
{
    match lock {
        Some(holder) if holder == thread => if_empty(buffer, offer),
        _ => None,
    }
}

/// An instruction that locks: its place, what it does with it, and the position of the next instruction.
#[derive(Clone, Copy, PartialEq, Eq)]
struct LockedAction {
    place: usize,
    operation: LockedOperation,
    register: Register,
    next: usize,
}

// What follows where the thread is in a locked instruction.
#[tactic(auto, using(crate::proofs::Views::threads_view, crate::proofs::Views::entries_view))]
fn locked_offer(
    machine: &Machine,
    number: usize,
    thread: &Thread,
    running: &Running,
    action: LockedAction,
) -> Option<Offer>
    requires { thread.now.core ≡ cores.Running running.now }
    ensures is { next_in machine.now number thread.now result ≡ next_inside machine.now number thread.now running.now action }
    ensures fits { IfSome result (λ o. FitsChange thread.now o.change) }
{
    match running.stage {
        Stage::Outside => None,
        Stage::HasLock => {
            let word = word_seen(&thread.buffer, machine.memory.as_slice(), action.place);
            let offer = Offer {
                kind: LabelKind::Read {
                    place: action.place,
                    word,
                },
                change: Change::Go(Stage::HasRead(word)),
            };
            if_unblocked(machine.lock, number, offer)
        }
        Stage::HasRead(old) => {
            let entry = Entry {
                place: action.place,
                word: new_word(&running.frame, action.operation, action.register, old),
            };
            Some(Offer {
                kind: LabelKind::Write {
                    place: entry.place,
                    word: entry.word,
                },
                change: Change::WriteLocked { old, entry },
            })
        }
        Stage::HasWritten(old) => {
            let patch = exchanged(
                &running.frame,
                action.operation,
                action.register,
                old,
                action.next,
            );
            let offer = Offer {
                kind: LabelKind::Unlock,
                change: Change::Unlock(patch),
            };
            if_drained_holder(&thread.buffer, machine.lock, number, offer)
        }
    }
}

// What follows where the thread runs a call.
fn running_offer(
    client: &Client,
    machine: &Machine,
    number: usize,
    thread: &Thread,
    running: &Running,
) -> Option<Offer>
    requires { thread.now.core ≡ cores.Running running.now }
    ensures is { next_in machine.now number thread.now result ≡ next_running client.now machine.now number thread.now running.now }
    ensures fits { IfSome result (λ o. FitsChange thread.now o.change) }
{
    let action = next_action(client, running.procedure, &running.frame);
    if let Stage::Outside = running.stage {
        return outside_offer(machine, number, thread, running, action);
    }
    match action {
        Action::Locked {
            place,
            operation,
            register,
            next,
        } => {
            let action = LockedAction {
                place,
                operation,
                register,
                next,
            };
            locked_offer(machine, number, thread, running, action)
        }
        _ => None,
    }
}

// A call of this kind.
fn begin(client: &Client, kind: CallKind) -> Offer
    ensures kind { result.kind ≡ kinds.Call kind }
    ensures change { result.change ≡ begin_of client.now kind }
{
    let (procedure, argument) = match kind {
        CallKind::Push(argument) => (ProcedureKind::Push, argument),
        CallKind::Pop => (ProcedureKind::Pop, 0),
    };
    let jumps = back_jumps(procedure_of(client, procedure).instructions.as_slice());
    Offer {
        kind: LabelKind::Call(kind),
        change: Change::Begin {
            procedure,
            argument,
            jumps,
        },
    }
}

// What follows where the thread is idle.
#[tactic(auto, using(crate::proofs::Views::begun_view))]
fn idle_offer(client: &Client, machine: &Machine, number: usize, thread: &Thread) -> Option<Offer>
    requires { thread.now.core ≡ cores.Idle }
    ensures is { next_in machine.now number thread.now result ≡ next_idle client.now machine.now number thread.now }
    ensures fits { IfSome result (λ o. FitsChange thread.now o.change) }
{
    match next_call(client, machine, number, thread.begun) {
        Some(kind) => Some(begin(client, kind)),
        None => None,
    }
}

/// The label that a thread's core has next.
pub fn core_offer(
    client: &Client,
    machine: &Machine,
    number: usize,
    thread: &Thread,
) -> Option<Offer>
    ensures is { next_in machine.now number thread.now result ≡ next_of_core client.now machine.now number thread.now }
    ensures fits { IfSome result (λ o. FitsChange thread.now o.change) }
{
    match &thread.core {
        Core::Idle => idle_offer(client, machine, number, thread),
        Core::Running(running) => running_offer(client, machine, number, thread, running),
        Core::Stopped => None,
    }
}

/// The label that a thread's buffer has next: the drain of its oldest entry.
#[tactic(auto, using(crate::proofs::Views::threads_view, crate::proofs::Views::drained_view))]
pub fn buffer_offer(machine: &Machine, number: usize, thread: &Thread) -> Option<Offer>
    ensures is { next_in machine.now number thread.now result ≡ next_of_buffer machine.now number thread.now }
    ensures fits { IfSome result (λ o. FitsChange thread.now o.change) }
{
    let entry = thread.buffer.live().first()?;
    let offer = Offer {
        kind: LabelKind::Drain {
            place: entry.place,
            word: entry.word,
        },
        change: Change::Drain,
    };
    if_unblocked(machine.lock, number, offer)
}
