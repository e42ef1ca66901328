//! Paths of control on which nothing writes a register or flag.

ghost use Rattle.std.specs.Prelude.{◌≡◌, ◌<◌, true, Some, IfOk, IfSome};
ghost use Rattle.tso_flow.specs.Paths.{goes_on, is_at, is_edge, Path};

use std::alloc::{AllocError, Global};
use tso_flow::{Location, jump_target, next_position, writes};
use tso_prog::Step;

fn is_at(position: Option<usize>, there: usize) -> bool
    ensures { result ≡ is_at position there }
{
    position.is_some_and(|position| position == there)
}

// Whether control goes on from the instruction at `i` to `j`.
#[tactic(auto, unfolding(tso_flow::specs::Paths::goes_on))]
fn goes_on(step: Step, i: usize, j: usize) -> bool
    requires { i < usize.MAX }
    ensures { result ≡ goes_on step i j }
{
    is_at(next_position(step, i), j) || is_at(jump_target(step), j)
}

// Whether control goes on from `i` to `j`, and the instruction at `i` leaves the register or flag unwritten.
fn is_edge(steps: &[Step], location: Location, i: usize, j: usize) -> bool
    ensures { result ≡ is_edge (Some location) steps.now i j }
{
    if i >= steps.len() {
        return false;
    }
    let step = steps[i];
    !writes(step, location) && goes_on(step, i, j)
}

/// Whether control goes from the first instruction along these positions to the one at `to`, and nothing writes the register
/// or flag before it.
pub fn leads(steps: &[Step], location: Location, path: &[usize], to: usize) -> bool
    ensures { result ≡ true → Path (Some location) steps.now 0 path.now to }
{
    let mut at = 0;
    for next in path {
        if !is_edge(steps, location, at, *next) {
            return false;
        }
        at = *next;
    }
    at == to
}

// Notes that control comes to a position from another, where it had not come there before.
fn come(
    before: &mut [Option<usize>],
    queue: &mut Vec<usize>,
    from: usize,
    position: Option<usize>,
) -> Result<(), AllocError> {
    let Some(position) = position else {
        return Ok(());
    };
    if position < before.len() && before[position].is_none() {
        before[position] = Some(from);
        queue.push(position)?;
    }
    Ok(())
}

// For each position how control comes to it first: the position before it. None where it does not come, or only over an
// instruction that writes the register or flag.
fn ways(
    alloc: Global,
    steps: &[Step],
    location: Location,
) -> Result<Vec<Option<usize>>, AllocError> {
    let mut before = vec![in alloc; None; steps.len()]?;
    let mut queue = Vec::new(alloc);
    come(&mut before, &mut queue, 0, Some(0))?;
    for head in 0..steps.len() {
        let Some(at) = queue.as_slice().get(head).copied() else {
            break;
        };
        if at < steps.len() && !writes(steps[at], location) {
            let step = steps[at];
            come(&mut before, &mut queue, at, next_position(step, at))?;
            come(&mut before, &mut queue, at, jump_target(step))?;
        }
    }
    Ok(before)
}

// The positions behind the first on the way to this one.
fn way_to(alloc: Global, before: &[Option<usize>], to: usize) -> Result<Vec<usize>, AllocError> {
    let mut way = Vec::new(alloc);
    let mut at = to;
    for _ in 0..before.len() {
        if at == 0 {
            break;
        }
        way.push(at)?;
        at = match before.get(at).copied() {
            Some(Some(from)) => from,
            _ => 0,
        };
    }
    way.reverse();
    Ok(way)
}

/// A shortest way for control from the first instruction to the one at `to`, by the positions behind the first, where nothing
/// writes the register or flag before it.
///
/// Errors: where a growth was refused.
pub fn path(
    alloc: Global,
    steps: &[Step],
    location: Location,
    to: usize,
) -> Result<Option<Vec<usize>>, AllocError>
    ensures { IfOk result (λ found. IfSome found (λ path. Path (Some location) steps.now 0 path.items to)) }
{
    let before = ways(alloc, steps, location)?;
    let way = way_to(alloc, &before, to)?;
    if leads(steps, location, &way, to) {
        Ok(Some(way))
    } else {
        Ok(None)
    }
}
