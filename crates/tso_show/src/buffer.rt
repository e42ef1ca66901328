//! Memory and store buffers, as text.

ghost use Rattle.std.specs.Prelude.{◌≡◌, ◌++◌, codes, string_bytes, IsTrue, OnOk};
ghost use Rattle.std.specs.List.{flat_map, list_all, list_any};
ghost use Rattle.tso_prog.specs.Limits.{is_short_name};
ghost use Rattle.tso_show.specs.Buffers.{entry_text, holder_text, holders_text, holds, live_text, newest, origin_text, reads_own, words_text};

use std::alloc::{AllocError, Global};
use tso_machine::{Entry, Machine, Thread, latest};
use tso_prog::Array;
use tso_trace::cell_name;

// Adds a cell and its word.
#[tactic(auto, using(crate::proofs::Joins::joins))]
fn push_entry(
    alloc: Global,
    text: &mut String,
    arrays: &[Array],
    place: usize,
    word: u64,
) -> Result<(), AllocError>
    requires names { IsTrue (list_all (λ a. is_short_name a.name) arrays.now) }
    ensures { OnOk result (string_bytes text.new ≡ string_bytes text.old ++ entry_text arrays.now place word) }
{
    let cell = cell_name(alloc, arrays, place)?;
    text.push_str("  ")?;
    text.push_str(cell.as_str())?;
    write!(text, " = {word}")
}

/// Adds each word of memory behind its cell's name and two spaces, as `  n[0] = 5`.
///
/// Errors: where a growth was refused.
#[tactic(auto, using(crate::proofs::Joins::joins))]
pub fn push_memory(
    alloc: Global,
    text: &mut String,
    arrays: &[Array],
    words: &[u64],
) -> Result<(), AllocError>
    requires names { IsTrue (list_all (λ a. is_short_name a.name) arrays.now) }
    ensures { OnOk result (string_bytes text.new ≡ string_bytes text.old ++ words_text arrays.now 0 words.now) }
{
    for (place, word) in words.iter().enumerate() {
        push_entry(alloc, text, arrays, place, *word)?;
    }
    Ok(())
}

// Adds each entry behind its cell's name, the oldest first.
#[tactic(auto, using(crate::proofs::Joins::joins))]
fn push_entries(
    alloc: Global,
    text: &mut String,
    arrays: &[Array],
    entries: &[Entry],
) -> Result<(), AllocError>
    requires names { IsTrue (list_all (λ a. is_short_name a.name) arrays.now) }
    ensures { OnOk result (string_bytes text.new ≡ string_bytes text.old ++ flat_map (λ e. entry_text arrays.now e.place e.word) entries.now) }
{
    for entry in entries {
        push_entry(alloc, text, arrays, entry.place, entry.word)?;
    }
    Ok(())
}

/// Adds the entries of a store buffer that are not yet in memory, the oldest first, each behind two spaces, or `  empty`.
///
/// Errors: where a growth was refused.
pub fn push_buffer(
    alloc: Global,
    text: &mut String,
    arrays: &[Array],
    thread: &Thread,
) -> Result<(), AllocError>
    requires names { IsTrue (list_all (λ a. is_short_name a.name) arrays.now) }
    ensures { OnOk result (string_bytes text.new ≡ string_bytes text.old ++ live_text arrays.now thread.now.buffer.live) }
{
    let live = thread.buffer.live();
    if live.is_empty() {
        text.push_str("  empty")
    } else {
        push_entries(alloc, text, arrays, live)
    }
}

// Whether the buffer has an entry for the place.
fn holds(thread: &Thread, place: usize) -> bool
    ensures { result ≡ holds place thread.now }
{
    thread
        .buffer
        .live()
        .iter()
        .any(|entry| entry.place == place)
}

// The newest word for a place in the buffer, 0 where it has none.
fn newest(thread: &Thread, place: usize) -> u64
    ensures { result ≡ newest place thread.now }
{
    latest(thread.buffer.live(), place, 0)
}

// Adds what another thread than the reader has for the place in its buffer.
#[tactic(auto, using(crate::proofs::Joins::joins))]
fn push_holder(
    text: &mut String,
    reader: usize,
    place: usize,
    number: usize,
    thread: &Thread,
) -> Result<(), AllocError>
    ensures { OnOk result (string_bytes text.new ≡ string_bytes text.old ++ holder_text reader place number thread.now) }
{
    if number == reader || !holds(thread, place) {
        return Ok(());
    }
    let word = newest(thread, place);
    write!(text, ", while {word} is in the buffer of thread {number}")
}

#[tactic(auto, using(crate::proofs::Joins::joins))]
fn push_holders(
    text: &mut String,
    reader: usize,
    place: usize,
    threads: &[Thread],
) -> Result<(), AllocError>
    ensures { OnOk result (string_bytes text.new ≡ string_bytes text.old ++ holders_text reader place 0 threads.now) }
{
    for (number, thread) in threads.iter().enumerate() {
        push_holder(text, reader, place, number, thread)?;
    }
    Ok(())
}

fn reads_own(machine: &Machine, reader: usize, place: usize) -> bool
    ensures { result ≡ reads_own machine.now reader place }
{
    match machine.threads.get(reader) {
        Some(thread) => holds(thread, place),
        None => false,
    }
}

/// Adds where a read of the place by this thread finds its word: in the thread's own store buffer or in memory; and which
/// other threads have a store to the place in their buffers, which the reader does not see.
///
/// Errors: where a growth was refused.
#[tactic(auto, using(crate::proofs::Joins::joins))]
pub fn push_origin(
    text: &mut String,
    machine: &Machine,
    reader: usize,
    place: usize,
) -> Result<(), AllocError>
    ensures { OnOk result (string_bytes text.new ≡ string_bytes text.old ++ origin_text machine.now reader place) }
{
    if reads_own(machine, reader, place) {
        text.push_str("from its own buffer")?;
    } else {
        text.push_str("from memory")?;
    }
    push_holders(text, reader, place, machine.threads.as_slice())
}
