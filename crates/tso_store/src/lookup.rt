//! Parts after a step, looked up without being made.
ghost use Rattle.std.specs.Prelude.{◌≡◌, [], Some, slice_get, slice_index_or};
ghost use Rattle.tso_compact.specs.Motions.{memory_with};
ghost use Rattle.tso_store.specs.Remembered.{FitsAt};
ghost use Rattle.tso_store.specs.Seeking.{IsHistorySought, IsSought, IsThreadSought};

use crate::history_after::history_after;
use crate::thread_after::thread_after;
use tso_compact::Motion;
use tso_hist::History;
use tso_keys::find_near;
use tso_list::Seq;
use tso_machine::Entry;
use tso_parts::{Catalog, Spliced};
use tso_state::Thread;

// The memory with an entry written.
fn written(memory: &Seq<u64>, entry: Entry) -> Spliced<'_, u64, u64>
    ensures { result ≡ memory_with memory.now (Some entry) }
{
    Spliced::with(memory.as_slice(), entry.place, entry.word)
}

/// The number of the memory after an entry is written, if there is one. It is looked for at the number `near` first.
pub fn find_memory(
    memories: &Catalog<Seq<u64>>,
    number: u32,
    entry: Option<Entry>,
    near: u32,
) -> Option<u32>
    requires { slice_get memories.now number ≡ Some (slice_index_or memories.now number []) }
    ensures { IsSought memories.now (memory_with (slice_index_or memories.now number []) entry) result }
{
    let Some(entry) = entry else {
        return Some(number);
    };
    match memories.get(number) {
        Some(memory) => find_near(memories, near, &written(memory, entry)),
        None => None,
    }
}

// The number of the history with what the step of a thread writes into it.
fn find_logged(
    histories: &Catalog<History>,
    number: u32,
    thread: usize,
    motion: Motion,
    near: u32,
) -> Option<u32>
    requires { slice_get histories.now number ≡ Some (slice_index_or histories.now number []) }
    ensures { IsHistorySought (slice_index_or histories.now number []) thread motion histories.now result }
{
    match histories.get(number) {
        Some(history) => find_near(histories, near, &history_after(history, thread, motion)),
        None => None,
    }
}

/// The number of the history with what the step of a thread writes into it. It is looked for at the number `near` first.
pub fn find_history(
    histories: &Catalog<History>,
    number: u32,
    thread: usize,
    motion: Motion,
    near: u32,
) -> Option<u32>
    requires { slice_get histories.now number ≡ Some (slice_index_or histories.now number []) }
    ensures { IsHistorySought (slice_index_or histories.now number []) thread motion histories.now result }
{
    match motion {
        Motion::Begin { .. } | Motion::Return(_) => {
            find_logged(histories, number, thread, motion, near)
        }
        _ => Some(number),
    }
}

/// The number of the thread after a step that has read this word. It is looked for at the number `near` first.
pub fn find_thread(
    threads: &Catalog<Thread>,
    number: u32,
    motion: Motion,
    word: u64,
    near: u32,
) -> Option<u32>
    requires { FitsAt threads.now number motion }
    ensures { IsThreadSought threads.now number motion word result }
{
    match threads.get(number) {
        Some(thread) => find_near(threads, near, &thread_after(thread, motion, word)),
        None => None,
    }
}
