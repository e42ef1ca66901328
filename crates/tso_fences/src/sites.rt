//! Instructions of a client that are asked about.

use std::alloc::{AllocError, Global};
use std::fmt;
use tso_flow::ProcedureKind;
use tso_prog::{Client, Instruction, LockedOperation, Procedure, Step};

/// What an instruction is that can be taken back.
#[derive(Clone, Copy, PartialEq, Eq)]
pub enum Form {
    Fence,
    Locked(LockedOperation),
}

/// As a program text has it.
impl fmt::Display for Form {
    fn fmt<W: fmt::Write>(&self, f: &mut fmt::Formatter<W>) -> fmt::Result {
        match self {
            Form::Fence => write!(f, "mfence"),
            Form::Locked(LockedOperation::Exchange) => write!(f, "xchg"),
            Form::Locked(LockedOperation::CompareExchange) => write!(f, "lock cmpxchg"),
            Form::Locked(LockedOperation::ExchangeAdd) => write!(f, "lock xadd"),
        }
    }
}

/// An instruction that can be taken back.
#[derive(Clone, Copy)]
pub struct Site {
    pub kind: ProcedureKind,
    /// Where it stands among the instructions of its procedure.
    pub position: usize,
    /// Its line, from 1.
    pub line: usize,
    pub form: Form,
}

/// The two kinds of procedures, in the order in which a text has them.
pub const KINDS: [ProcedureKind; 2] = [ProcedureKind::Push, ProcedureKind::Pop];

/// The procedure of a kind.
pub fn procedure_of(client: &Client, kind: ProcedureKind) -> &Procedure {
    match kind {
        ProcedureKind::Push => &client.push,
        ProcedureKind::Pop => &client.pop,
    }
}

// What an instruction is, if it can be taken back.
fn form_of(step: Step) -> Option<Form> {
    match step {
        Instruction::Fence => Some(Form::Fence),
        Instruction::Locked { operation, .. } => Some(Form::Locked(operation)),
        _ => None,
    }
}

// The line of an instruction, from 1.
fn line_at(procedure: &Procedure, position: usize) -> usize {
    match procedure.lines.get(position) {
        Some(line) => *line as usize,
        None => 0,
    }
}

// Puts the instructions of a procedure at the end that can be taken back.
fn put_sites(
    sites: &mut Vec<Site>,
    procedure: &Procedure,
    kind: ProcedureKind,
) -> Result<(), AllocError> {
    for (position, step) in procedure.instructions.as_slice().iter().enumerate() {
        if let Some(form) = form_of(*step) {
            let line = line_at(procedure, position);
            sites.push(Site {
                kind,
                position,
                line,
                form,
            })?;
        }
    }
    Ok(())
}

/// The instructions of a client that can be taken back, in the order of their lines.
///
/// Errors: where a growth was refused.
pub fn sites_of(alloc: Global, client: &Client) -> Result<Vec<Site>, AllocError> {
    let mut sites = Vec::new(alloc);
    for kind in KINDS {
        put_sites(&mut sites, procedure_of(client, kind), kind)?;
    }
    Ok(sites)
}

// Puts the lines of a procedure's stores at the end behind which an instruction comes.
fn put_stores(lines: &mut Vec<usize>, procedure: &Procedure) -> Result<(), AllocError> {
    let steps = procedure.instructions.as_slice();
    let before_last = steps.len().saturating_sub(1);
    for (position, step) in steps.iter().take(before_last).enumerate() {
        if matches!(step, Instruction::Store { .. }) {
            lines.push(line_at(procedure, position))?;
        }
    }
    Ok(())
}

/// The lines of a client's stores behind which an instruction comes, in rising order.
///
/// Errors: where a growth was refused.
pub fn stores_of(alloc: Global, client: &Client) -> Result<Vec<usize>, AllocError> {
    let mut lines = Vec::new(alloc);
    put_stores(&mut lines, &client.push)?;
    put_stores(&mut lines, &client.pop)?;
    Ok(lines)
}
