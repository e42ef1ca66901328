//! Steps of the machine by labels, forwards and back.

ghost use Rattle.std.specs.Prelude.{◌≡◌, ◌<◌, length, slice_get, Some, IfSome, IfNone, OnOk, OnErr, IfOk, Err};
ghost use Rattle.std.specs.Option.{option_map};
ghost use Rattle.tso_machine.specs.Changes.{thread_after, FitsChange};
ghost use Rattle.tso_machine.specs.Machines.{label_of, machine_of};
ghost use Rattle.tso_machine.specs.Offers.{memory_after, lock_after, next_in, next_of_actor, Performs};
ghost use Rattle.tso_machine.specs.Programs.{program_of};
ghost use Rattle.tso_machine.specs.Stepping.{is_drain, IsNoStep, IsOffered, IsStep};
ghost use Rattle.tso_model.specs.Labels.{Step};
ghost use Rattle.tso_model.specs.Offers.{actor_of, offer};
ghost use Rattle.tso_machine.specs.declared.step.ApplyError.TheVariants.{Memory};
ghost use Rattle.tso_machine.specs.Undone.{memory_before, undone, FitsUndo, IsWordOf, Undoes};
ghost use Rattle.tso_machine.specs.declared.machine.Thread.{Thread as AThread};
ghost use Rattle.tso_machine.specs.declared.machine.Machine.{Machine as AMachine};

use crate::back::Undo;
use crate::label::{Label, LabelKind};
use crate::machine::{Machine, Thread};
use crate::offer::{Offer, buffer_offer, core_offer};
use std::alloc::{AllocError, Global};
use thiserror::Error;
use tso_flow::Checked;
use tso_list::{Seq, is_same};
use tso_prog::Client;

// Writes memory where the step is a drain, and gives what was there.
fn write_memory(memory: &mut Seq<u64>, kind: LabelKind) -> Option<(usize, u64)>
    ensures after { memory.new ≡ memory_after kind memory.old }
    ensures back { memory_before memory.new result ≡ memory.old }
    ensures fits { IsWordOf memory.new result }
{
    match kind {
        LabelKind::Drain { place, word } => {
            if place >= memory.len() {
                return None;
            }
            let old = memory.as_slice()[place];
            *memory.at_mut(place) = word;
            Some((place, old))
        }
        _ => None,
    }
}

// Who holds the lock after a step.
fn lock_after(kind: LabelKind, thread: usize, lock: Option<usize>) -> Option<usize>
    ensures { result ≡ lock_after kind thread lock }
{
    match kind {
        LabelKind::Lock => Some(thread),
        LabelKind::Unlock => None,
        _ => lock,
    }
}

// Makes the step that a thread offers. Want of memory leaves the machine as it was.
fn perform(
    alloc: Global,
    machine: &mut Machine,
    number: usize,
    offer: Offer,
) -> Result<Undo, AllocError>
    requires there { number < length machine.old.threads }
    requires fits { (t : AThread) → slice_get machine.old.threads number ≡ Some t → FitsChange t offer.change }
    ensures after { OnOk result (Performs machine.old number offer machine.new) }
    ensures err { OnErr result (machine.new ≡ machine.old) }
    ensures back { IfOk result (λ u. Undoes u machine.new machine.old) }
{
    let back = machine.threads.at_mut(number).change(alloc, offer.change)?;
    let memory = write_memory(&mut machine.memory, offer.kind);
    let lock = machine.lock;
    machine.lock = lock_after(offer.kind, number, lock);
    Ok(Undo {
        thread: number,
        memory,
        lock,
        back,
    })
}

// Whether it is a drain.
fn is_drain(kind: LabelKind) -> bool
    ensures { result ≡ is_drain kind }
{
    matches!(kind, LabelKind::Drain { .. })
}

// What the thread that a label names has next, of its buffer where the label is a drain, else of its core.
fn next_offer(client: &Client, machine: &Machine, label: Label, thread: &Thread) -> Option<Offer>
    requires { slice_get machine.now.threads label.thread ≡ Some thread.now }
    ensures is { next_in machine.now label.thread thread.now result ≡ next_of_actor client.now machine.now label }
    ensures fits { IfSome result (λ o. FitsChange thread.now o.change) }
{
    if is_drain(label.kind) {
        buffer_offer(machine, label.thread, thread)
    } else {
        core_offer(client, machine, label.thread, thread)
    }
}

// The step of a label, if it is one.
fn offered(client: &Client, machine: &Machine, label: Label) -> Option<Offer>
    ensures step { IfSome result (λ o. IsOffered (program_of client.now) machine.now label o) }
    ensures none { IfNone result (IsNoStep (program_of client.now) (machine_of machine.now) (label_of label)) }
{
    let thread = machine.threads.get(label.thread)?;
    let offer = next_offer(client, machine, label, thread)?;
    if is_same(&offer.kind, &label.kind) {
        Some(offer)
    } else {
        None
    }
}

/// Why a label is not applied. The machine is then as it was.
#[derive(Debug, PartialEq, Eq, Drop, Error)]
pub enum ApplyError {
    /// The machine has no such step.
    #[error("the label is no step")]
    NotAStep,
    /// A growth was refused.
    #[error("out of memory")]
    Memory,
}

impl From<AllocError> for ApplyError {
    ghost from_gives = { λ _ e. e ≡ Memory };

    fn from(_e: AllocError) -> ApplyError {
        ApplyError::Memory
    }
}

/// Takes the step of a label: exactly the steps of the x86-TSO machine (Sewell and others 2010) within loop bounds
/// succeed, with its machine afterwards.
///
/// Errors: `NotAStep` exactly where the machine has no step of this label; `Memory` where it has one, and a growth that the
/// step needs was refused. Both leave the machine as it was. The machine has to come from `initial` of the same client for the step to be one of its runs.
pub fn apply(
    alloc: Global,
    checked: &Checked,
    machine: &mut Machine,
    label: Label,
) -> Result<Undo, ApplyError>
    ensures step { OnOk result (Step (program_of checked.now.client) (machine_of machine.old) (label_of label) (machine_of machine.new)) }
    ensures refused { result ≡ Err ApplyError.NotAStep → IsNoStep (program_of checked.now.client) (machine_of machine.old) (label_of label) }
    ensures memory { result ≡ Err ApplyError.Memory → IsStep (program_of checked.now.client) (machine_of machine.old) (label_of label) }
    ensures err { OnErr result (machine.new ≡ machine.old) }
    ensures back { IfOk result (λ u. Undoes u machine.new machine.old) }
{
    match offered(&checked.client, machine, label) {
        Some(offer) => Ok(perform(alloc, machine, label.thread, offer)?),
        None => Err(ApplyError::NotAStep),
    }
}

/// Takes the last step back, given what `apply` answered for it. It takes no memory.
pub fn undo(machine: &mut Machine, undo: Undo)
    requires { FitsUndo machine.old undo }
    ensures is { machine.new ≡ undone machine.old undo }
    ensures before { (before : AMachine) → Undoes undo machine.old before → machine.new ≡ before }
{
    machine.threads.at_mut(undo.thread).change_back(undo.back);
    machine.lock = undo.lock;
    if let Some((place, word)) = undo.memory {
        *machine.memory.at_mut(place) = word;
    }
}
