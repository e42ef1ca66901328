//! Which places are a thread's own.

ghost use Rattle.std.specs.Prelude.{◌≡◌};
ghost use Rattle.tso_move.specs.Own.{is_own, written_beside, written_but, written_by};

use tso_flow::Checked;
use tso_foot::{ArrayTable, has_place};
use tso_line::CallKind;
use tso_list::Seq;
use tso_prog::Array;

/// Which places are a thread's own: those in none of the arrays that another thread may write.
#[derive(Clone, Copy)]
pub struct Own<'a> {
    arrays: &'a [Array],
    // Bit k for array k.
    written: u16,
}

// The arrays that the calls of these threads may write.
fn written_by(table: &ArrayTable, threads: &[Seq<CallKind>]) -> u16
    ensures { result ≡ written_by table.now threads.now }
{
    match threads {
        [] => 0,
        [calls, rest @ ..] => table.calls_masks(calls.as_slice()).writes | written_by(table, rest),
    }
}

// The arrays that the calls of these threads but one may write.
fn written_but(table: &ArrayTable, thread: usize, threads: &[Seq<CallKind>]) -> u16
    ensures { result ≡ written_but table.now thread threads.now }
{
    match threads {
        [] => 0,
        [_, rest @ ..] if thread == 0 => written_by(table, rest),
        [calls, rest @ ..] => {
            table.calls_masks(calls.as_slice()).writes | written_but(table, thread - 1, rest)
        }
    }
}

impl<'a> Own<'a> {
    /// The places of a thread's own, by the least table of arrays: those in arrays that no call of another thread writes, but for the
    /// prologue's.
    pub fn of_thread(checked: &'a Checked, table: &ArrayTable, thread: usize) -> Own<'a>
        ensures arrays { result.arrays.now ≡ checked.now.client.arrays }
        ensures written { result.written ≡ written_beside checked.now.client table.now thread }
    {
        let client = &checked.client;
        Own {
            arrays: client.arrays.as_slice(),
            written: written_but(table, thread, client.threads.as_slice()),
        }
    }

    /// Whether this place is the thread's own. It takes no memory.
    pub fn has(&self, place: usize) -> bool
        ensures { result ≡ is_own self.now.arrays.now self.now.written place }
    {
        !has_place(self.arrays, self.written, place)
    }
}
