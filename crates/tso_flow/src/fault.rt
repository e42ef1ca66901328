//! The first fault of a client's control flow.

ghost use Rattle.std.specs.Prelude.{◌≡◌, ◌+◌, ◌<◌, ◌≤◌, ◌↔◌, ℕ, true, length, IfOk, IsTrue, Some, None, slice_get};
ghost use Rattle.tso_flow.specs.Paths.{goes_on, Reaches};
ghost use Rattle.tso_flow.specs.Marks.{is_marked};
ghost use Rattle.tso_flow.specs.Faults.{is_back_without_bound, is_forward_with_bound, FaultIn, HasFault, IsFirst, is_no_later};
ghost use Rattle.tso_flow.specs.First.{earlier, is_past, goes_past, shape_code, ShapeIn, ReadIn, ReadOf, AreExact};

use crate::location::{LOCATIONS, Location, ProcedureKind};
use crate::{access, path};
use std::alloc::{AllocError, Global};
use tso_line::Instruction;
use tso_prog::{Client, Code, Fault, Procedure, Step};

#[tactic(auto, unfolding(crate::specs::Faults::is_no_later))]
// Whether the first of two faults stands on an earlier line, or on the same with no greater number.
fn is_no_later(a: Fault, b: Fault) -> bool
    ensures { result ≡ is_no_later a b }
{
    a.line < b.line || a.line == b.line && a.code.number() <= b.code.number()
}

// The first of two faults, if there is one.
fn earlier(a: Option<Fault>, b: Option<Fault>) -> Option<Fault>
    ensures { result ≡ earlier a b }
{
    match (a, b) {
        (Some(x), Some(y)) => Some(if is_no_later(x, y) { x } else { y }),
        (None, other) | (other, None) => other,
    }
}

fn is_past(length: usize, position: Option<usize>) -> bool
    ensures { result ≡ is_past length position }
{
    position.is_some_and(|position| length <= position)
}

// Whether control goes on from the instruction at `i` to where none stands.
#[tactic(auto, unfolding(crate::specs::First::goes_past))]
fn goes_past(length: usize, i: usize, step: Step) -> bool
    requires { i < length }
    ensures { result ≡ goes_past length i step }
{
    is_past(length, path::next_position(step, i)) || is_past(length, path::jump_target(step))
}

fn is_back_without_bound(i: usize, step: Step) -> bool
    ensures { result ≡ is_back_without_bound i step }
{
    match step {
        Instruction::Jump { target, bound, .. } => target <= i && bound.is_none(),
        _ => false,
    }
}

fn is_forward_with_bound(i: usize, step: Step) -> bool
    ensures { result ≡ is_forward_with_bound i step }
{
    match step {
        Instruction::Jump { target, bound, .. } => i < target && bound.is_some(),
        _ => false,
    }
}

// The first fault of the instruction at `i` but for what it reads, if control can come there or not.
#[tactic(auto, unfolding(crate::specs::First::shape_code))]
fn shape_code(length: usize, i: usize, step: Step, is_reached: bool) -> Option<Code>
    requires { i < length }
    ensures { result ≡ shape_code length i step is_reached }
{
    if is_reached && goes_past(length, i, step) {
        Some(Code::E11)
    } else if is_back_without_bound(i, step) {
        Some(Code::E12)
    } else if is_forward_with_bound(i, step) {
        Some(Code::E13)
    } else {
        None
    }
}

// The first fault but for what the instructions read, where the marks say where control can come.
fn first_shape(steps: &[Step], lines: &[u32], marks: &[bool]) -> Option<Fault>
    requires lines { length lines.now ≡ length steps.now }
    requires marks { length marks.now ≡ length steps.now }
    requires exact { AreExact None steps.now marks.now }
    ensures { IsFirst (ShapeIn steps.now lines.now (length steps.now)) result }
{
    let mut first = None;
    for i in 0..steps.len() {
        let (step, is_reached) = (steps[i], marks[i]);
        if let Some(code) = shape_code(steps.len(), i, step, is_reached) {
            let line = lines[i];
            first = earlier(first, Some(Fault { code, line }));
        }
    }
    first
}

// The first instruction that reads this register or flag, where the marks say where control can come while nothing writes it.
fn first_read(
    kind: ProcedureKind,
    steps: &[Step],
    lines: &[u32],
    location: Location,
    marks: &[bool],
) -> Option<Fault>
    requires lines { length lines.now ≡ length steps.now }
    requires marks { length marks.now ≡ length steps.now }
    requires exact { AreExact (Some location) steps.now marks.now }
    ensures { IsFirst (ReadIn kind steps.now lines.now location (length steps.now)) result }
{
    let mut first = None;
    for i in 0..steps.len() {
        let (step, is_reached) = (steps[i], marks[i]);
        if is_reached && access::reads(kind, step, location) {
            let (code, line) = (Code::E14, lines[i]);
            first = earlier(first, Some(Fault { code, line }));
        }
    }
    first
}

// The first instruction that reads one of these registers and flags where some path has not written it.
fn first_unwritten(
    alloc: Global,
    kind: ProcedureKind,
    steps: &[Step],
    lines: &[u32],
    locations: &[Location],
) -> Result<Option<Fault>, AllocError>
    requires { length lines.now ≡ length steps.now }
    ensures { IfOk result (λ first. IsFirst (ReadOf kind steps.now lines.now locations.now (length locations.now)) first) }
{
    let mut first = None;
    for i in 0..locations.len() {
        let location = locations[i];
        if !access::is_given(kind, location) {
            let marks = path::reached(alloc, steps, Some(location))?;
            first = earlier(first, first_read(kind, steps, lines, location, &marks));
        }
    }
    Ok(first)
}

// The first fault of a procedure.
fn first_in(
    alloc: Global,
    kind: ProcedureKind,
    procedure: &Procedure,
) -> Result<Option<Fault>, AllocError>
    ensures { IfOk result (λ first. IsFirst (FaultIn kind procedure.now) first) }
{
    let steps = procedure.instructions.as_slice();
    let lines = procedure.lines.as_slice();
    let marks = path::reached(alloc, steps, None)?;
    let shape = first_shape(steps, lines, &marks);
    Ok(earlier(
        shape,
        first_unwritten(alloc, kind, steps, lines, &LOCATIONS)?,
    ))
}

// The first fault of a client.
pub(crate) fn first_fault(alloc: Global, client: &Client) -> Result<Option<Fault>, AllocError>
    ensures { IfOk result (λ first. IsFirst (HasFault client.now) first) }
{
    let push = first_in(alloc, ProcedureKind::Push, &client.push)?;
    let pop = first_in(alloc, ProcedureKind::Pop, &client.pop)?;
    Ok(earlier(push, pop))
}
