//! Changes of a text, one at a time.

use crate::clients::Company;
use crate::lines::{replaced, with_behind};
use crate::plain::{Locked, add_lines, cell_text, compare_lines, new_label, one_line, store_line};
use crate::sites::{Form, KINDS, Site, procedure_of};
use crate::unread::{free_register, is_read_behind};
use std::alloc::{AllocError, Global};
use std::fmt;
use tso_flow::{Location, ProcedureKind};
use tso_front::{Failure, fault_of};
use tso_list::Seq;
use tso_prog::{Address, Client, Code, Instruction, LockedOperation, Procedure, Register, Step};

/// A change of a text.
#[derive(Drop)]
pub enum Change {
    /// What stands on this line is taken back.
    Back { line: usize, form: Form },
    /// A fence stands behind each of the stores on these lines.
    Behind(Vec<usize>),
}

/// Lines by their numbers: `line 12`; `lines 9, 14`.
#[derive(Clone, Copy)]
pub struct Lines<'a>(pub &'a [usize]);

impl fmt::Display for Lines<'_> {
    fn fmt<W: fmt::Write>(&self, f: &mut fmt::Formatter<W>) -> fmt::Result {
        let s = if self.0.len() == 1 { "" } else { "s" };
        write!(f, "line{s}")?;
        let mut between = " ";
        for number in self.0 {
            write!(f, "{between}{number}")?;
            between = ", ";
        }
        Ok(())
    }
}

/// As a line of the answer begins: `line 12: mfence`; `lines 9, 14: mfence behind each`.
impl fmt::Display for Change {
    fn fmt<W: fmt::Write>(&self, f: &mut fmt::Formatter<W>) -> fmt::Result {
        match self {
            Change::Back { line, form } => write!(f, "line {line}: {form}"),
            Change::Behind(lines) => {
                let each = if lines.len() == 1 { "it" } else { "each" };
                let lines = Lines(lines);
                write!(f, "{lines}: mfence behind {each}")
            }
        }
    }
}

/// Why a change is not tried.
#[derive(Clone, Copy, PartialEq, Eq)]
pub enum Reason {
    /// The plain form of an exchange does not give the old value, which is read.
    OldIsRead,
    /// Another thread can write the array between the load and the store of a plain form.
    IsShared,
    /// The plain form wants one more register.
    NoRegister,
    /// The plain form changes the register before the cell is stored, which has it as its index.
    OwnIndex,
    /// The text with the change is refused with this code.
    Refused(Code),
}

/// As it is said behind `not tried: `.
impl fmt::Display for Reason {
    fn fmt<W: fmt::Write>(&self, f: &mut fmt::Formatter<W>) -> fmt::Result {
        match self {
            Reason::OldIsRead => write!(f, "its old value is read"),
            Reason::IsShared => write!(f, "another thread writes its array"),
            Reason::NoRegister => write!(f, "no register is free"),
            Reason::OwnIndex => write!(f, "its register is its index"),
            Reason::Refused(code) => write!(f, "the text would be refused with {code}"),
        }
    }
}

/// A text with a change, or why there is none.
#[derive(Drop)]
pub enum Attempt {
    Text(Vec<u8>),
    Untried(Reason),
}

/// The lines in place of an instruction, or why there are none.
#[derive(Drop)]
enum Plain {
    Lines(Vec<Seq<u8>>),
    Not(Reason),
}

/// A text that is changed, its client, and which of its procedures can run beside which.
#[derive(Clone, Copy)]
pub struct Author<'a> {
    pub text: &'a [u8],
    pub client: &'a Client,
    pub company: Company,
}

// Whether an instruction writes an array.
fn writes_array(step: Step, array: usize) -> bool {
    match step {
        Instruction::Store { to, .. } => to.array == array,
        Instruction::Locked { cell, .. } => cell.array == array,
        _ => false,
    }
}

// Whether a procedure writes an array.
fn procedure_writes(procedure: &Procedure, array: usize) -> bool {
    procedure
        .instructions
        .as_slice()
        .iter()
        .any(|step| writes_array(*step, array))
}

// Whether another thread can write an array while a call of a kind runs.
fn is_shared(author: &Author<'_>, kind: ProcedureKind, array: usize) -> bool {
    for other in KINDS {
        let procedure = procedure_of(author.client, other);
        if author.company.has(kind, other) && procedure_writes(procedure, array) {
            return true;
        }
    }
    false
}

// A store in place of an exchange.
fn stored(
    alloc: Global,
    steps: &[Step],
    site: &Site,
    locked: &Locked,
) -> Result<Plain, AllocError> {
    let location = Location::Register(locked.register);
    if is_read_behind(alloc, site.kind, steps, site.position, location)? {
        return Ok(Plain::Not(Reason::OldIsRead));
    }
    Ok(Plain::Lines(store_line(alloc, locked)?))
}

// A load and a store in place of what is locked by a prefix.
fn loaded_and_stored(
    alloc: Global,
    author: &Author<'_>,
    site: &Site,
    locked: &Locked,
    adds: bool,
) -> Result<Plain, AllocError> {
    let procedure = procedure_of(author.client, site.kind);
    let Some(free) = free_register(alloc, site.kind, procedure, site.position)? else {
        return Ok(Plain::Not(Reason::NoRegister));
    };
    let lines = if adds {
        add_lines(alloc, locked, free)?
    } else {
        let label = new_label(alloc, author.text)?;
        compare_lines(alloc, locked, free, label.as_str())?
    };
    Ok(Plain::Lines(lines))
}

// The plain form of a locked instruction.
fn unlocked(
    alloc: Global,
    author: &Author<'_>,
    site: &Site,
    operation: LockedOperation,
    address: Address<usize>,
    register: Register,
) -> Result<Plain, AllocError> {
    let locked = Locked {
        cell: cell_text(alloc, author.client, &address)?,
        register,
    };
    let adds = operation == LockedOperation::ExchangeAdd;
    if operation == LockedOperation::Exchange {
        let procedure = procedure_of(author.client, site.kind);
        stored(alloc, procedure.instructions.as_slice(), site, &locked)
    } else if is_shared(author, site.kind, address.array) {
        Ok(Plain::Not(Reason::IsShared))
    } else if adds && address.index == Some(register) {
        Ok(Plain::Not(Reason::OwnIndex))
    } else {
        loaded_and_stored(alloc, author, site, &locked, adds)
    }
}

// The plain form of an instruction.
fn plain_form(alloc: Global, author: &Author<'_>, site: &Site) -> Result<Plain, AllocError> {
    let procedure = procedure_of(author.client, site.kind);
    match procedure.instructions.get(site.position).copied() {
        Some(
            Instruction::Locked {
                operation,
                cell,
                register,
            },
        ) => unlocked(alloc, author, site, operation, cell, register),
        _ => {
            let line = String::from_str(alloc, "nop")?;
            Ok(Plain::Lines(one_line(alloc, line)?))
        }
    }
}

// The text, if it is not refused.
fn attempted(alloc: Global, text: Vec<u8>) -> Result<Attempt, Failure> {
    match fault_of(alloc, &text)? {
        Some(fault) => Ok(Attempt::Untried(Reason::Refused(fault.code))),
        None => Ok(Attempt::Text(text)),
    }
}

/// The text in which an instruction is taken back to its plain form.
///
/// Errors: `Memory`.
pub fn taken_back(alloc: Global, author: &Author<'_>, site: &Site) -> Result<Attempt, Failure> {
    match plain_form(alloc, author, site)? {
        Plain::Lines(lines) => attempted(alloc, replaced(alloc, author.text, site.line, &lines)?),
        Plain::Not(reason) => Ok(Attempt::Untried(reason)),
    }
}

/// The text in which a fence stands behind each of these lines, which rise.
///
/// Errors: `Memory`.
pub fn fenced(alloc: Global, text: &[u8], lines: &[usize]) -> Result<Attempt, Failure> {
    attempted(alloc, with_behind(alloc, text, lines, b"mfence")?)
}
