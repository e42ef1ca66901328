//! What calls begin with.

ghost use Rattle.std.specs.Prelude.{◌≡◌, ℕ, List, IsTrue, Some, slice_get};
ghost use Rattle.tso_flow.specs.Calls.{calls_of_client};
ghost use Rattle.tso_cells.specs.Intervals.{IsInside, has};
ghost use Rattle.tso_line.specs.declared.instruction.CallKind.{CallKind as ACallKind};
ghost use Rattle.tso_line.specs.declared.instruction.CallKind.TheVariants.{Push};
ghost use Rattle.tso_cells.specs.Starts.{HasArguments, entry_row};

use crate::growing::with_word;
use crate::interval::Interval;
use crate::moving::register_number;
use crate::rows::Row;
use tso_line::{CallKind, Register};
use tso_list::Seq;
use tso_prog::Client;

// The interval with the argument that a call pushes, if it pushes one.
fn with_argument(interval: Interval, call: CallKind) -> Interval
    ensures keeps { IsInside interval result }
    ensures has { (v : ℕ) → call ≡ Push v → IsTrue (has result v) }
{
    match call {
        CallKind::Push(argument) => with_word(interval, argument),
        CallKind::Pop => interval,
    }
}

// The interval with the arguments that these calls push.
fn with_arguments(interval: Interval, calls: &[CallKind]) -> Interval
    ensures keeps { IsInside interval result }
    ensures has { HasArguments result calls.now }
{
    let mut all = interval;
    for n in 0..calls.len() {
        all = with_argument(all, calls[n]);
    }
    all
}

// The interval with the arguments that each of these lists of calls pushes.
fn with_threads(interval: Interval, threads: &[Seq<CallKind>]) -> Interval
    ensures keeps { IsInside interval result }
    ensures has { (i : ℕ) (calls : List ACallKind) → slice_get threads.now i ≡ Some calls → HasArguments result calls }
{
    let mut all = interval;
    for i in 0..threads.len() {
        all = with_arguments(all, threads[i].as_slice());
    }
    all
}

/// 0 and the arguments that the client pushes, in the prologue too.
pub fn argument_interval(client: &Client) -> Interval
    ensures zero { IsTrue (has result 0) }
    ensures has { (i : ℕ) (calls : List ACallKind) → slice_get (calls_of_client client.now) i ≡ Some calls → HasArguments result calls }
{
    let threads = with_threads(Interval::alone(0), client.threads.as_slice());
    with_arguments(threads, client.prologue.as_slice())
}

/// What a call begins with: 0 in each register, but this interval in RDI.
pub fn entry_row(argument: Interval) -> Row
    ensures { result ≡ entry_row argument }
{
    let mut row = [Interval::alone(0); 15];
    row[register_number(Register::Rdi)] = argument;
    row
}
