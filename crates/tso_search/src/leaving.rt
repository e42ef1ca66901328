//! Labels of a run with some left out.

ghost use Rattle.std.specs.Prelude.{◌≡◌, ◌≤◌, IfOk, length};

use std::alloc::{AllocError, Global};
use tso_machine::{Label, LabelKind};

/// The labels but for some of a thread's own: `count` from number `from` on, by the thread's order.
///
/// Errors: out of memory.
pub fn without(
    alloc: Global,
    labels: &[Label],
    thread: usize,
    from: usize,
    count: usize,
) -> Result<Vec<Label>, AllocError>
    ensures { IfOk result (λ rest. length rest.items ≤ length labels.now) }
{
    let mut rest = Vec::new(alloc);
    let mut own: usize = 0;
    for label in labels {
        let is_out = label.thread == thread && own >= from && own - from < count;
        if label.thread == thread {
            own = own.saturating_add(1);
        }
        if !is_out {
            rest.push(*label)?;
        }
    }
    Ok(rest)
}

/// The first labels, so many.
///
/// Errors: out of memory.
pub fn beginning(alloc: Global, labels: &[Label], count: usize) -> Result<Vec<Label>, AllocError>
    ensures { IfOk result (λ begun. length begun.items ≤ length labels.now) }
{
    let count = count.min(labels.len());
    Ok(Vec::from_slice(alloc, &labels[..count])?)
}

// What a thread has done so far: how many calls it has begun, and how many stores it has made and drained.
#[derive(Clone, Copy)]
struct Done {
    calls: usize,
    stores: usize,
    drains: usize,
}

const NOTHING: Done = Done {
    calls: 0,
    stores: 0,
    drains: 0,
};

// What a thread has done after one more label.
fn after(done: Done, kind: LabelKind) -> Done {
    let Done {
        calls,
        stores,
        drains,
    } = done;
    match kind {
        LabelKind::Call(_) => Done {
            calls: calls.saturating_add(1),
            stores,
            drains,
        },
        LabelKind::Write { .. } => Done {
            calls,
            stores: stores.saturating_add(1),
            drains,
        },
        LabelKind::Drain { .. } => Done {
            calls,
            stores,
            drains: drains.saturating_add(1),
        },
        _ => done,
    }
}

// How many stores a thread makes in its first calls, so many.
fn stores_of_first(labels: &[Label], thread: usize, calls: usize) -> usize {
    let mut done = NOTHING;
    for label in labels {
        if label.thread == thread {
            let next = after(done, label.kind);
            if next.calls > calls {
                break;
            }
            done = next;
        }
    }
    done.stores
}

/// The labels but for those of one call of a thread, its number from 1: from its beginning up to the next call, with the drains of
/// its stores, wherever they stand, and without the drains of stores of earlier calls.
///
/// Errors: out of memory.
pub fn without_call(
    alloc: Global,
    labels: &[Label],
    thread: usize,
    call: usize,
) -> Result<Vec<Label>, AllocError>
    ensures { IfOk result (λ rest. length rest.items ≤ length labels.now) }
{
    let first = stores_of_first(labels, thread, call.saturating_sub(1));
    let behind = stores_of_first(labels, thread, call);
    let mut rest = Vec::new(alloc);
    let mut done = NOTHING;
    for label in labels {
        let mut is_out = false;
        if label.thread == thread {
            let next = after(done, label.kind);
            is_out = match label.kind {
                LabelKind::Drain { .. } => done.drains >= first && done.drains < behind,
                _ => next.calls == call,
            };
            done = next;
        }
        if !is_out {
            rest.push(*label)?;
        }
    }
    Ok(rest)
}

/// How many labels a thread has.
pub fn own_count(labels: &[Label], thread: usize) -> usize {
    labels.iter().filter(|label| label.thread == thread).count()
}

/// How many calls a thread begins.
pub fn call_count(labels: &[Label], thread: usize) -> usize {
    labels
        .iter()
        .filter(|label| label.thread == thread && matches!(label.kind, LabelKind::Call(_)))
        .count()
}
