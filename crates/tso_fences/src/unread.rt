//! Registers whose values nothing reads any more.

use std::alloc::{AllocError, Global};
use tso_flow::{LOCATIONS, Location, ProcedureKind, jump_target, next_position, reads, writes};
use tso_line::Register;
use tso_prog::{Procedure, Step};

/// Positions to which control comes from an instruction, as far as they were found.
#[derive(Drop)]
struct Walk {
    // Whether a position was found.
    found: Vec<bool>,
    // Those that were found and not yet looked at.
    open: Vec<usize>,
}

impl Walk {
    // One that has found nothing of so many positions.
    fn new(alloc: Global, count: usize) -> Result<Walk, AllocError> {
        Ok(Walk {
            found: vec![in alloc; false; count]?,
            open: Vec::new(alloc),
        })
    }

    // Takes a position in, if there is one that was not found before.
    fn reach(&mut self, position: Option<usize>) -> Result<(), AllocError> {
        let Some(position) = position else {
            return Ok(());
        };
        if position < self.found.len() && !self.found[position] {
            self.found[position] = true;
            self.open.push(position)?;
        }
        Ok(())
    }

    // Takes in where control goes from an instruction.
    fn go_on(&mut self, step: Step, position: usize) -> Result<(), AllocError> {
        if position < usize::MAX {
            self.reach(next_position(step, position))?;
        }
        self.reach(jump_target(step))
    }
}

/// Whether the value that a register or flag has behind an instruction may be read: on some way from there nothing writes it
/// before.
///
/// Errors: where a growth was refused.
pub fn is_read_behind(
    alloc: Global,
    kind: ProcedureKind,
    steps: &[Step],
    position: usize,
    location: Location,
) -> Result<bool, AllocError> {
    let mut walk = Walk::new(alloc, steps.len())?;
    if let Some(step) = steps.get(position) {
        walk.go_on(*step, position)?;
    }
    for _ in 0..steps.len() {
        let Some(at) = walk.open.pop() else {
            return Ok(false);
        };
        let Some(step) = steps.get(at).copied() else {
            return Ok(true);
        };
        if reads(kind, step, location) {
            return Ok(true);
        }
        if !writes(step, location) {
            walk.go_on(step, at)?;
        }
    }
    Ok(!walk.open.is_empty())
}

// Whether a register is free behind an instruction: nothing reads what it holds there, nor does the instruction name it.
fn is_free(
    alloc: Global,
    kind: ProcedureKind,
    steps: &[Step],
    position: usize,
    location: Location,
) -> Result<bool, AllocError> {
    let Some(step) = steps.get(position).copied() else {
        return Ok(false);
    };
    if reads(kind, step, location) || writes(step, location) {
        return Ok(false);
    }
    Ok(!is_read_behind(alloc, kind, steps, position, location)?)
}

/// A register that the instruction at a position does not name, and whose value behind it nothing reads, if there is one.
///
/// Errors: where a growth was refused.
pub fn free_register(
    alloc: Global,
    kind: ProcedureKind,
    procedure: &Procedure,
    position: usize,
) -> Result<Option<Register>, AllocError> {
    let steps = procedure.instructions.as_slice();
    for location in LOCATIONS {
        if let Location::Register(register) = location {
            if is_free(alloc, kind, steps, position, location)? {
                return Ok(Some(register));
            }
        }
    }
    Ok(None)
}
