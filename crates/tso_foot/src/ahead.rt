//! Which places a thread of a state may still read and write.

ghost use Rattle.std.specs.Prelude.{◌≡◌};
ghost use Rattle.tso_foot.specs.Ahead.{ahead_has, buffer_has, calls_have, cells_at, core_has, is_buffered, item_has, may_read, may_write};

use crate::masks::{Masks, has_place};
use tso_cells::{Cells, IntervalTable, has_cell};
use tso_flow::ProcedureKind;
use tso_line::CallKind;
use tso_machine::Entry;
use tso_prog::Array;
use tso_state::{Core, Thread};

/// What is done with memory.
#[derive(Clone, Copy)]
pub enum Access {
    Read,
    Write,
}

/// Arrays that may still be read and written.
#[derive(Clone, Copy)]
pub struct ArraysAhead<'a> {
    pub arrays: &'a [Array],
    pub masks: Masks,
}

/// A thread, its calls to come, and the cells that a table has at its position and at first instructions.
#[derive(Clone, Copy)]
pub struct CellsAhead<'a> {
    pub arrays: &'a [Array],
    pub table: &'a IntervalTable,
    pub procedure: ProcedureKind,
    pub calls: &'a [CallKind],
    pub thread: &'a Thread,
}

/// The places that a thread of a state may still read, and those that it may still write to memory.
#[derive(Clone, Copy)]
pub enum Future<'a> {
    Nothing,
    Arrays(ArraysAhead<'a>),
    Cells(CellsAhead<'a>),
}

// The cells of the item at a position; none behind the last item.
fn cells_at(
    access: Access,
    table: &IntervalTable,
    procedure: ProcedureKind,
    position: usize,
) -> &[Cells]
    ensures { result.now ≡ cells_at access table.now procedure position }
{
    match table.items(procedure).get(position) {
        Some(item) => match access {
            Access::Read => item.reads.as_slice(),
            Access::Write => item.writes.as_slice(),
        },
        None => &[],
    }
}

// Whether an entry that waits in a buffer is for the place.
fn is_buffered(buffer: &[Entry], place: usize) -> bool
    ensures { result ≡ is_buffered buffer.now place }
{
    buffer.iter().any(|entry| entry.place == place)
}

impl CellsAhead<'_> {
    // Whether the item at a position has the place.
    fn item_has(
        &self,
        access: Access,
        procedure: ProcedureKind,
        position: usize,
        place: usize,
    ) -> bool
        ensures { result ≡ item_has access self.now.arrays.now self.now.table.now procedure position place }
    {
        has_cell(
            self.arrays,
            cells_at(access, self.table, procedure, position),
            place,
        )
    }

    // Whether the first item of a call to come has the place.
    fn calls_have(&self, access: Access, place: usize) -> bool
        ensures { result ≡ calls_have access self.now.arrays.now self.now.table.now self.now.calls.now place }
    {
        self.calls.iter().any(|call| self.item_has(access, ProcedureKind::from(*call), 0, place))
    }

    // Whether the core may still access the place.
    fn core_has(&self, access: Access, place: usize) -> bool
        ensures { result ≡ core_has access self.now.arrays.now self.now.table.now self.now.procedure self.now.calls.now self.now.thread.now.core place }
    {
        match &self.thread.core {
            Core::Idle => self.calls_have(access, place),
            Core::Running(frame) => {
                self.item_has(access, self.procedure, frame.pc, place)
                    || self.calls_have(access, place)
            }
            Core::Stopped => false,
        }
    }

    // Whether an entry that waits in the buffer is written to the place.
    fn buffer_has(&self, access: Access, place: usize) -> bool
        ensures { result ≡ buffer_has access self.now.thread.now.buffer place }
    {
        match access {
            Access::Read => false,
            Access::Write => is_buffered(self.thread.buffer.as_slice(), place),
        }
    }

    fn has(&self, access: Access, place: usize) -> bool
        ensures { result ≡ ahead_has access self.now place }
    {
        self.core_has(access, place) || self.buffer_has(access, place)
    }
}

impl Future<'_> {
    /// Whether the place may still be read. It takes no memory.
    pub fn reads(&self, place: usize) -> bool
        ensures { result ≡ may_read self.now place }
    {
        match self {
            Future::Nothing => false,
            Future::Arrays(ahead) => has_place(ahead.arrays, ahead.masks.reads, place),
            Future::Cells(ahead) => ahead.has(Access::Read, place),
        }
    }

    /// Whether the place may still be written, by a buffered entry that drains too. It takes no memory.
    pub fn writes(&self, place: usize) -> bool
        ensures { result ≡ may_write self.now place }
    {
        match self {
            Future::Nothing => false,
            Future::Arrays(ahead) => has_place(ahead.arrays, ahead.masks.writes, place),
            Future::Cells(ahead) => ahead.has(Access::Write, place),
        }
    }
}
