//! Which arrays a thread of a state may still read and write.

ghost use Rattle.std.specs.Prelude.{◌≡◌, ◌≤◌, length};
ghost use Rattle.std.proofs.Common.{drop};
ghost use Rattle.tso_foot.specs.Closed.{items_of};
ghost use Rattle.tso_foot.specs.Futures.{buffer_mask, calls_masks, core_masks, future_masks};
ghost use Rattle.tso_foot.specs.Masks.{masks_at};
ghost use Rattle.tso_machine.specs.Programs.{calls_in};

use crate::masks::{Masks, place_mask};
use crate::table::ArrayTable;
use tso_flow::{Checked, ProcedureKind};
use tso_line::CallKind;
use tso_machine::{Entry, calls_of};
use tso_prog::{Array, Client};
use tso_state::{Core, Thread, Viewed};

impl ArrayTable {
    /// The items of a procedure.
    pub fn items(&self, procedure: ProcedureKind) -> &[Masks]
        ensures { result.now ≡ items_of self.now procedure }
    {
        match procedure {
            ProcedureKind::Push => self.push.as_slice(),
            ProcedureKind::Pop => self.pop.as_slice(),
        }
    }

    /// The masks at a position of a procedure; none behind its last item.
    pub fn masks(&self, procedure: ProcedureKind, position: usize) -> Masks
        ensures { result ≡ masks_at (items_of self.now procedure) position }
    {
        let items = self.items(procedure);
        if position < items.len() {
            items[position]
        } else {
            Masks::NONE
        }
    }

    /// What these calls may read and write, from their first instructions on. It takes no memory.
    pub fn calls_masks(&self, calls: &[CallKind]) -> Masks
        ensures { result ≡ calls_masks self.now calls.now }
    {
        calls.iter().fold(Masks::NONE, |masks, call| {
            masks.union(self.masks(ProcedureKind::from(*call), 0))
        })
    }
}

// The arrays that buffered entries go to.
fn buffer_mask(arrays: &[Array], buffer: &[Entry]) -> u16
    requires { length arrays.now ≤ 16 }
    ensures { result ≡ buffer_mask arrays.now buffer.now }
{
    buffer
        .iter()
        .fold(0, |mask, entry| mask | place_mask(arrays, entry.place))
}

// What a core may still read and write, which runs this procedure and has these calls still to begin.
fn core_masks(
    table: &ArrayTable,
    procedure: ProcedureKind,
    calls: &[CallKind],
    core: &Core,
) -> Masks
    ensures { result ≡ core_masks table.now procedure calls.now core.now }
{
    match core {
        Core::Idle => table.calls_masks(calls),
        Core::Running(frame) => table
            .masks(procedure, frame.pc)
            .union(table.calls_masks(calls)),
        Core::Stopped => Masks::NONE,
    }
}

// The client's calls of a thread that have not begun, where so many have.
pub(crate) fn calls_left(client: &Client, thread: usize, begun: usize) -> &[CallKind]
    ensures { result.now ≡ drop begun (calls_in client.now.threads client.now.prologue thread) }
{
    let calls = calls_of(client, thread);
    if begun <= calls.len() {
        &calls[begun..]
    } else {
        &[]
    }
}

// The arrays that a thread of the state may still read, and those that it may still write to memory: from the position of
// its running call on, in its calls to come, and to the writes those in its buffer; of a stopped or finished thread those
// in its buffer alone.
pub(crate) fn array_future<S: Viewed>(
    checked: &Checked,
    table: &ArrayTable,
    state: &S,
    thread: usize,
) -> Masks
    ensures { result ≡ future_masks checked.now.client table.now (S.state state.now) thread }
{
    let client = &checked.client;
    match state.thread(thread) {
        Some(own) => {
            let calls = calls_left(client, thread, state.begun(thread));
            let core = core_masks(table, state.procedure(thread), calls, &own.core);
            core.union(Masks {
                reads: 0,
                writes: buffer_mask(client.arrays.as_slice(), own.buffer.as_slice()),
            })
        }
        None => Masks::NONE,
    }
}
