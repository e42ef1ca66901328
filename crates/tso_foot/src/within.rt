//! Whether running registers lie where a table says.

ghost use Rattle.std.specs.Prelude.{◌≡◌, ◌↔◌, IsTrue};
ghost use Rattle.tso_foot.specs.Within.{IsWithin, ThreadLies, core_lies};

use crate::table::Table;
use tso_cells::lies;
use tso_flow::ProcedureKind;
use tso_state::{Core, Viewed};

/// Whether the registers of a core that runs this procedure lie in the table's intervals at its position. A core that does not
/// run has none, and a table of arrays says nothing of registers.
pub fn core_lies(table: &Table, procedure: ProcedureKind, core: &Core) -> bool
    ensures { result ≡ core_lies table.now procedure core.now }
{
    match (table, core) {
        (Table::Intervals(table), Core::Running(frame)) => lies(table, procedure, frame),
        _ => true,
    }
}

// Whether those of a thread do.
fn thread_lies<S: Viewed>(table: &Table, state: &S, number: usize) -> bool
    ensures { IsTrue result ↔ ThreadLies table.now (S.state state.now) number }
{
    match state.thread(number) {
        Some(thread) => { core_lies(table, state.procedure(number), &thread.core) }
        None => true,
    }
}

/// Whether the registers of each running thread lie in the table's intervals at its position. It takes no memory.
pub fn is_within<S: Viewed>(table: &Table, state: &S) -> bool
    ensures { IsTrue result ↔ IsWithin table.now (S.state state.now) }
{
    if let Table::Arrays(_) = table {
        return true;
    }
    for number in 0..state.thread_count() {
        if !thread_lies(table, state, number) {
            return false;
        }
    }
    true
}
