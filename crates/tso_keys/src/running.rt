//! Which calls threads are in, and how many they have begun, by the numbers of histories.

ghost use Rattle.std.specs.Prelude.{◌≡◌, ◌<◌, ◌≤◌, IfSome, OnOk, Some, [], length, slice_get, slice_index_or};
ghost use Rattle.tso_keys.specs.Running.{AreRunning, IsRemembered, IsRunningOf, count_in, procedure_in};

use std::alloc::AllocError;
use tso_flow::ProcedureKind;
use tso_hist::History;
use tso_list::Seq;
use tso_parts::Catalog;
use tso_state::{begun_calls, running_procedure};

/// For each thread of a history the procedure that its last call runs, and how many of its calls have begun, as far as a byte counts.
#[derive(Clone, Copy)]
pub struct Running {
    pub procedures: [ProcedureKind; 5],
    pub begun: [u8; 5],
}

// The procedure that the last call of this thread runs; a pop where there is none.
fn procedure_in(history: &History, thread: usize) -> ProcedureKind
    ensures { result ≡ procedure_in history.now thread }
{
    running_procedure(begun_calls(history, thread))
}

// How many calls of this thread have begun; 255 where there are more.
fn count_in(history: &History, thread: usize) -> u8
    ensures { result ≡ count_in history.now thread }
{
    u8::try_from(begun_calls(history, thread).len()).unwrap_or(u8::MAX)
}

// What runs by this history.
fn running_in(history: &History) -> Running
    ensures { IsRunningOf history.now result }
{
    Running {
        procedures: [
            procedure_in(history, 0),
            procedure_in(history, 1),
            procedure_in(history, 2),
            procedure_in(history, 3),
            procedure_in(history, 4),
        ],
        begun: [
            count_in(history, 0),
            count_in(history, 1),
            count_in(history, 2),
            count_in(history, 3),
            count_in(history, 4),
        ],
    }
}

/// Remembers what runs by each history of which it is not known.
///
/// Errors: where a growth was refused.
pub fn learn_running(
    histories: &Catalog<History>,
    running: &mut Seq<Running>,
) -> Result<(), AllocError>
    requires { AreRunning histories.now running.old }
    ensures known { AreRunning histories.now running.new }
    ensures all { OnOk result (length histories.now ≤ length running.new) }
{
    for number in running.len()..histories.len() {
        let Some(history) = histories.values().get(number) else {
            unreachable!();
        };
        running.push(running_in(history))?;
    }
    Ok(())
}

// The procedure of this thread, of which there may be none.
fn procedure_of(running: Running, thread: usize) -> Option<ProcedureKind>
    ensures { result ≡ slice_get running.procedures thread }
{
    running.procedures.as_slice().get(thread).copied()
}

// How many calls of this thread have begun, if a byte tells it.
fn count_of(running: Running, thread: usize) -> Option<usize>
    ensures { IfSome result (λ n. (slice_get running.begun thread ≡ Some n) × (n < 255)) }
{
    let count = running.begun.as_slice().get(thread).copied()?;
    if count < u8::MAX {
        Some(count as usize)
    } else {
        None
    }
}

/// The procedure that the last call of a thread runs in the history with this number. What is remembered of it tells it, so that the
/// history is not looked at, or else the history does.
pub fn procedure_by(
    running: &Seq<Running>,
    number: u32,
    history: &History,
    thread: usize,
) -> ProcedureKind
    requires { IsRemembered history.now running.now number }
    ensures { result ≡ procedure_in history.now thread }
{
    if let Some(found) = running.get(number as usize) {
        if let Some(procedure) = procedure_of(*found, thread) {
            return procedure;
        }
    }
    procedure_in(history, thread)
}

/// How many calls of a thread have begun in the history with this number. What is remembered of it tells it, or else the history does.
pub fn begun_by(running: &Seq<Running>, number: u32, history: &History, thread: usize) -> usize
    requires { IsRemembered history.now running.now number }
    ensures { result ≡ length (slice_index_or history.now thread []) }
{
    if let Some(found) = running.get(number as usize) {
        if let Some(count) = count_of(*found, thread) {
            return count;
        }
    }
    begun_calls(history, thread).len()
}

/// The procedure that the last call of a thread runs in a kept history.
pub fn procedure_at(
    histories: &Catalog<History>,
    running: &Seq<Running>,
    number: u32,
    thread: usize,
) -> ProcedureKind
    requires kept { slice_get histories.now number ≡ Some (slice_index_or histories.now number []) }
    requires running { AreRunning histories.now running.now }
    ensures { result ≡ procedure_in (slice_index_or histories.now number []) thread }
{
    match histories.get(number) {
        Some(history) => procedure_by(running, number, history, thread),
        None => ProcedureKind::Pop,
    }
}
