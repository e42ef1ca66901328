//! States as data: arrays of numbers and texts, as JSON has them. Each array begins with a 0, so that each item has a comma
//! before it. Words are texts, since a script's numbers are not exact beyond 53 bits.

ghost use Rattle.std.specs.Prelude.{◌≡◌, ◌++◌, codes, string_bytes, OnOk};
ghost use Rattle.std.specs.List.{flat_map};
ghost use Rattle.tso_page.specs.Data.{core_data, entry_data, site_line, state_data, thread_data, word_data};

use std::alloc::AllocError;
use tso_machine::{Core, Entry, Machine, Thread};
use tso_prog::Client;
use tso_show::{Site, core_site, push_frame};

fn push_word(data: &mut String, word: u64) -> Result<(), AllocError>
    ensures { OnOk result (string_bytes data.new ≡ string_bytes data.old ++ word_data word) }
{
    write!(data, ",\"{word}\"")
}

#[tactic(auto, using(crate::proofs::Joins::joins))]
fn push_words(data: &mut String, words: &[u64]) -> Result<(), AllocError>
    ensures { OnOk result (string_bytes data.new ≡ string_bytes data.old ++ flat_map word_data words.now) }
{
    for word in words {
        push_word(data, *word)?;
    }
    Ok(())
}

fn push_entry(data: &mut String, entry: Entry) -> Result<(), AllocError>
    ensures { OnOk result (string_bytes data.new ≡ string_bytes data.old ++ entry_data entry) }
{
    let place = entry.place;
    let word = entry.word;
    write!(data, ",[{place},\"{word}\"]")
}

#[tactic(auto, using(crate::proofs::Joins::joins))]
fn push_entries(data: &mut String, entries: &[Entry]) -> Result<(), AllocError>
    ensures { OnOk result (string_bytes data.new ≡ string_bytes data.old ++ flat_map entry_data entries.now) }
{
    for entry in entries {
        push_entry(data, *entry)?;
    }
    Ok(())
}

// The registers and flags of a running call.
fn push_core(data: &mut String, client: &Client, core: &Core) -> Result<(), AllocError>
    ensures { OnOk result (string_bytes data.new ≡ string_bytes data.old ++ core_data client.now core.now) }
{
    match core {
        Core::Running(running) => push_frame(data, client, running),
        Core::Idle | Core::Stopped => Ok(()),
    }
}

/// The number of an instruction's line, 0 where there is no instruction.
pub fn site_line(site: Option<Site>) -> u32
    ensures { result ≡ site_line site }
{
    match site {
        Some(site) => site.line,
        None => 0,
    }
}

// The line of a thread's next instruction, its store buffer, and its registers and flags.
#[tactic(auto, using(crate::proofs::Joins::joins))]
fn push_thread(data: &mut String, client: &Client, thread: &Thread) -> Result<(), AllocError>
    ensures { OnOk result (string_bytes data.new ≡ string_bytes data.old ++ thread_data client.now thread.now) }
{
    let line = site_line(core_site(client, &thread.core));
    write!(data, ",[{line},[0")?;
    push_entries(data, thread.buffer.live())?;
    data.push_str("],\"")?;
    push_core(data, client, &thread.core)?;
    data.push_str("\"]")?;
    Ok(())
}

#[tactic(auto, using(crate::proofs::Joins::joins))]
fn push_threads(data: &mut String, client: &Client, threads: &[Thread]) -> Result<(), AllocError>
    ensures { OnOk result (string_bytes data.new ≡ string_bytes data.old ++ flat_map (thread_data client.now) threads.now) }
{
    for thread in threads {
        push_thread(data, client, thread)?;
    }
    Ok(())
}

/// Adds the state of a machine: its memory, and of each thread the line of its next instruction, its store buffer, and its
/// registers and flags.
///
/// Errors: where a growth was refused.
#[tactic(auto, using(crate::proofs::Joins::joins))]
pub fn push_state_data(
    data: &mut String,
    client: &Client,
    machine: &Machine,
) -> Result<(), AllocError>
    ensures { OnOk result (string_bytes data.new ≡ string_bytes data.old ++ state_data client.now machine.now) }
{
    data.push_str("[[0")?;
    push_words(data, machine.memory.as_slice())?;
    data.push_str("]")?;
    push_threads(data, client, machine.threads.as_slice())?;
    data.push_str("]")?;
    Ok(())
}
