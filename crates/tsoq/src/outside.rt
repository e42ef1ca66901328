//! Which register of a record's state lies outside of its interval.

use std::alloc::{AllocError, Global};
use std::fmt;
use tso_cells::{Interval, IntervalTable, register_number, registers_at};
use tso_cert::{Cert, decode};
use tso_flow::{LOCATIONS, Location, ProcedureKind};
use tso_foot::Table;
use tso_line::register_word;
use tso_machine::Frame;
use tso_prog::Register;
use tso_rec::Packed;
use tso_state::{Core, State, Viewed};

/// A register of a thread whose word is not in the interval that the table has at the thread's next instruction.
#[derive(Clone, Copy)]
pub struct Outside {
    thread: usize,
    procedure: ProcedureKind,
    position: usize,
    register: Register,
    word: u64,
    interval: Interval,
}

// The procedure as program texts name it.
fn procedure_word(procedure: ProcedureKind) -> &'static str {
    match procedure {
        ProcedureKind::Push => "push",
        ProcedureKind::Pop => "pop",
    }
}

impl fmt::Display for Outside {
    fn fmt<W: fmt::Write>(&self, f: &mut fmt::Formatter<W>) -> fmt::Result {
        let (thread, position, word) = (self.thread, self.position, self.word);
        let (procedure, register) = (procedure_word(self.procedure), register_word(self.register));
        let Interval { lo, hi } = self.interval;
        writeln!(
            f,
            "Thread {thread} is before instruction {position} of {procedure}, with {word} in {register}, where the table has {lo} to {hi}."
        )
    }
}

// The first register of a frame whose word is not in the interval of its place.
fn register_outside(intervals: &[Interval; 15], frame: &Frame) -> Option<Register> {
    for location in LOCATIONS {
        if let Location::Register(register) = location {
            let interval = intervals[register_number(register)];
            if !interval.has(frame.register(register)) {
                return Some(register);
            }
        }
    }
    None
}

// The first register of a thread that lies outside of its interval, if one does.
fn thread_outside(table: &IntervalTable, state: &State, thread: usize) -> Option<Outside> {
    let Core::Running(frame) = &state.thread(thread)?.core else {
        return None;
    };
    let procedure = state.procedure(thread);
    let intervals = registers_at(table.items(procedure), frame.pc);
    let register = register_outside(&intervals, frame)?;
    Some(Outside {
        thread,
        procedure,
        position: frame.pc,
        register,
        word: frame.register(register),
        interval: intervals[register_number(register)],
    })
}

// That of the first thread that has one.
fn state_outside(table: &IntervalTable, state: &State) -> Option<Outside> {
    for thread in 0..state.thread_count() {
        if let Some(outside) = thread_outside(table, state, thread) {
            return Some(outside);
        }
    }
    None
}

// The state of a leaf's record behind so many, or how many are still to come.
fn state_of_leaf(records: &Packed, left: &mut u64) -> Result<Option<State>, AllocError> {
    let count = records.len() as u64;
    if *left < count {
        let state = records.state(*left as usize)?;
        return Ok(Some(state));
    }
    *left -= count;
    Ok(None)
}

// The same of a tree's record.
fn state_of_tree(cert: &Cert, left: &mut u64) -> Result<Option<State>, AllocError> {
    match cert {
        Cert::Leaf(records) => state_of_leaf(records, left),
        Cert::Fork(first, _, second) => match state_of_tree(first, left)? {
            Some(state) => Ok(Some(state)),
            None => state_of_tree(second, left),
        },
    }
}

// That of the state of a record, where the table has intervals.
fn record_outside(table: &Table, cert: &Cert, number: u64) -> Result<Option<Outside>, AllocError> {
    let Table::Intervals(table) = table else {
        return Ok(None);
    };
    let mut left = number;
    match state_of_tree(cert, &mut left)? {
        Some(state) => Ok(state_outside(table, &state)),
        None => Ok(None),
    }
}

/// The first register of a running thread that lies outside of its interval in the state of a record, by the numbers of threads and
/// then of registers; none where the bytes are no certificate, or it has no such record.
///
/// Errors: where a growth was refused.
pub fn outside_at(alloc: Global, cert: &[u8], number: u64) -> Result<Option<Outside>, AllocError> {
    match decode(alloc, cert) {
        Ok((basis, cert)) => record_outside(&basis.table, &cert, number),
        Err(_) => Ok(None),
    }
}
