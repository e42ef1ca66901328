//! The positions that control can come to.

ghost use Rattle.std.specs.Prelude.{◌≡◌, ◌+◌, ◌<◌, ◌≤◌, ◌↔◌, ◌⊎◌, ℕ, true, false, length, IfOk, IsTrue, Some};
ghost use Rattle.tso_flow.specs.Paths.{next_of, target_of, is_at, goes_on, goes_on_from, leaves, Reaches};
ghost use Rattle.tso_flow.specs.Marks.{is_marked, unmarked, Keeps, AllReached, IsClosed, HasSuccessors, MarksSuccessors};

use crate::access;
use crate::location::Location;
use std::alloc::{AllocError, Global};
use tso_line::Instruction;
use tso_prog::Step;

/// The position after the instruction at `i`, where that is one of its successors.
pub fn next_position(step: Step, i: usize) -> Option<usize>
    requires { i < usize.MAX }
    ensures { result ≡ next_of step i }
{
    match step {
        Instruction::Jump { when: None, .. } | Instruction::Return => None,
        _ => Some(i + 1),
    }
}

/// Where the instruction can jump to.
pub fn jump_target(step: Step) -> Option<usize>
    ensures { result ≡ target_of step }
{
    match step {
        Instruction::Jump { target, .. } => Some(target),
        _ => None,
    }
}

// Whether the instruction leaves unwritten what is looked for, if anything is.
fn leaves(tracked: Option<Location>, step: Step) -> bool
    ensures { result ≡ leaves tracked step }
{
    match tracked {
        Some(location) => !access::writes(step, location),
        None => true,
    }
}

// Marks a position, if it is within, and says whether it was not marked before.
fn mark(marks: &mut [bool], position: usize) -> bool
    ensures keeps { Keeps marks.old marks.new }
    ensures only { (k : ℕ) → is_marked marks.new k ≡ true → (is_marked marks.old k ≡ true) ⊎ (k ≡ position) }
    ensures new { result ≡ true → unmarked marks.new < unmarked marks.old }
    ensures old { result ≡ false → (marks.new ≡ marks.old) × (position < length marks.old → is_marked marks.old position ≡ true) }
{
    let is_new = position < marks.len() && !marks[position];
    if is_new {
        marks[position] = true;
    }
    is_new
}

// The same where there may be no position.
fn mark_some(marks: &mut [bool], position: Option<usize>) -> bool
    ensures keeps { Keeps marks.old marks.new }
    ensures only { (k : ℕ) → is_marked marks.new k ≡ true → (is_marked marks.old k ≡ true) ⊎ (is_at position k ≡ true) }
    ensures new { result ≡ true → unmarked marks.new < unmarked marks.old }
    ensures old { result ≡ false → (marks.new ≡ marks.old) × ((k : ℕ) → is_at position k ≡ true → k < length marks.old → is_marked marks.old k ≡ true) }
{
    match position {
        Some(position) => mark(marks, position),
        None => false,
    }
}

// Marks the successors of the instruction at `i`, and says whether one was not marked before.
fn mark_successors(marks: &mut [bool], i: usize, step: Step) -> bool
    requires { i < length marks.old }
    ensures keeps { Keeps marks.old marks.new }
    ensures only { (k : ℕ) → is_marked marks.new k ≡ true → (is_marked marks.old k ≡ true) ⊎ (goes_on step i k ≡ true) }
    ensures new { result ≡ true → unmarked marks.new < unmarked marks.old }
    ensures old { result ≡ false → (marks.new ≡ marks.old) × ((k : ℕ) → goes_on step i k ≡ true → k < length marks.old → is_marked marks.old k ≡ true) }
{
    let one = mark_some(marks, next_position(step, i));
    let other = mark_some(marks, jump_target(step));
    one || other
}

// The same for a position that may not be marked, or whose instruction may write what is looked for.
fn advance(marks: &mut [bool], i: usize, step: Step, tracked: Option<Location>) -> bool
    requires { i < length marks.old }
    ensures keeps { Keeps marks.old marks.new }
    ensures only { MarksSuccessors tracked step i marks.old marks.new }
    ensures new { result ≡ true → unmarked marks.new < unmarked marks.old }
    ensures old { result ≡ false → (marks.new ≡ marks.old) × HasSuccessors tracked step i marks.old }
{
    marks[i] && leaves(tracked, step) && mark_successors(marks, i, step)
}

// Marks the successors of each marked instruction that leaves unwritten what is looked for, and says whether one was not marked before.
fn spread(marks: &mut [bool], steps: &[Step], tracked: Option<Location>) -> bool
    requires same { length marks.old ≡ length steps.now }
    requires reached { AllReached tracked steps.now marks.old }
    ensures keeps { Keeps marks.old marks.new }
    ensures reached { AllReached tracked steps.now marks.new }
    ensures new { result ≡ true → unmarked marks.new < unmarked marks.old }
    ensures closed { result ≡ false → IsClosed tracked steps.now marks.new (length steps.now) }
{
    let mut grown = false;
    for i in 0..steps.len() {
        let step = steps[i];
        if advance(marks, i, step, tracked) {
            grown = true;
        }
    }
    grown
}

// Whether control can come to each position, on a path that writes nowhere before what is looked for.
pub(crate) fn reached(
    alloc: Global,
    steps: &[Step],
    tracked: Option<Location>,
) -> Result<Vec<bool>, AllocError>
    ensures same { IfOk result (λ v. length v.items ≡ length steps.now) }
    ensures exact { IfOk result (λ v. (k : ℕ) → k < length steps.now → (is_marked v.items k ≡ true) ↔ Reaches tracked steps.now k) }
{
    let mut marks = vec![in alloc; false; steps.len()]?;
    if !marks.is_empty() {
        marks[0] = true;
    }
    'grow: loop {
        if !spread(&mut marks, steps, tracked) {
            break;
        }
    }
    Ok(marks)
}
