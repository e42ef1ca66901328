//! What is shown of the machine after a label.

ghost use Rattle.std.specs.Prelude.{◌≡◌, ◌++◌, codes, string_bytes, option_copied, IsTrue, OnOk};
ghost use Rattle.std.specs.List.{list_all};
ghost use Rattle.tso_prog.specs.Limits.{is_short_name};
ghost use Rattle.tso_show.specs.States.{buffer_line, buffer_lines, buffers_shown, buffers_text, core_line, read_line, registers_line, registers_shown, shown_text};

use crate::buffer::{push_buffer, push_memory, push_origin};
use crate::frame::push_frame;
use std::alloc::{AllocError, Global};
use tso_machine::{Core, Label, LabelKind, Machine, Thread};
use tso_prog::{Array, Client};

/// What is shown of a run beside its labels.
#[derive(Clone, Copy, PartialEq, Eq)]
pub struct Show {
    /// The instruction that takes each label, with its line of the text.
    pub source: bool,
    /// The registers and flags of the label's thread after it.
    pub registers: bool,
    /// Memory and all store buffers after it, and where a read found its word.
    pub buffers: bool,
}

// Adds a line of the registers and flags of a running call.
fn push_core(text: &mut String, client: &Client, core: &Core) -> Result<(), AllocError>
    ensures { OnOk result (string_bytes text.new ≡ string_bytes text.old ++ core_line client.now core.now) }
{
    match core {
        Core::Running(running) => {
            text.push_str("       registers")?;
            push_frame(text, client, running)?;
            text.push_str("\n")?;
            Ok(())
        }
        Core::Idle | Core::Stopped => Ok(()),
    }
}

// The same of a thread.
fn push_registers(
    text: &mut String,
    client: &Client,
    machine: &Machine,
    thread: usize,
) -> Result<(), AllocError>
    ensures { OnOk result (string_bytes text.new ≡ string_bytes text.old ++ registers_line client.now machine.now thread) }
{
    match machine.threads.get(thread) {
        Some(thread) => push_core(text, client, &thread.core),
        None => Ok(()),
    }
}

// Adds a line that says where a read found its word.
fn push_read(
    text: &mut String,
    machine: &Machine,
    thread: usize,
    kind: LabelKind,
) -> Result<(), AllocError>
    ensures { OnOk result (string_bytes text.new ≡ string_bytes text.old ++ read_line machine.now thread kind) }
{
    match kind {
        LabelKind::Read { place, .. } => {
            text.push_str("       read ")?;
            push_origin(text, machine, thread, place)?;
            text.push_str("\n")?;
            Ok(())
        }
        _ => Ok(()),
    }
}

// Adds a line of a thread's store buffer.
#[tactic(auto, using(crate::proofs::Joins::joins))]
fn push_buffer_line(
    alloc: Global,
    text: &mut String,
    arrays: &[Array],
    number: usize,
    thread: &Thread,
) -> Result<(), AllocError>
    requires names { IsTrue (list_all (λ a. is_short_name a.name) arrays.now) }
    ensures { OnOk result (string_bytes text.new ≡ string_bytes text.old ++ buffer_line arrays.now number thread.now) }
{
    write!(text, "       buffer {number}")?;
    push_buffer(alloc, text, arrays, thread)?;
    text.push_str("\n")
}

#[tactic(auto, using(crate::proofs::Joins::joins))]
fn push_buffer_lines(
    alloc: Global,
    text: &mut String,
    arrays: &[Array],
    threads: &[Thread],
) -> Result<(), AllocError>
    requires names { IsTrue (list_all (λ a. is_short_name a.name) arrays.now) }
    ensures { OnOk result (string_bytes text.new ≡ string_bytes text.old ++ buffer_lines arrays.now 0 threads.now) }
{
    for (number, thread) in threads.iter().enumerate() {
        push_buffer_line(alloc, text, arrays, number, thread)?;
    }
    Ok(())
}

// Adds a line of memory, and one of each store buffer.
#[tactic(auto, using(crate::proofs::Joins::joins))]
fn push_buffers(
    alloc: Global,
    text: &mut String,
    arrays: &[Array],
    machine: &Machine,
) -> Result<(), AllocError>
    requires names { IsTrue (list_all (λ a. is_short_name a.name) arrays.now) }
    ensures { OnOk result (string_bytes text.new ≡ string_bytes text.old ++ buffers_text arrays.now machine.now) }
{
    text.push_str("       memory  ")?;
    push_memory(alloc, text, arrays, machine.memory.as_slice())?;
    text.push_str("\n")?;
    push_buffer_lines(alloc, text, arrays, machine.threads.as_slice())?;
    Ok(())
}

fn push_registers_if(
    text: &mut String,
    client: &Client,
    machine: &Machine,
    thread: usize,
    show: Show,
) -> Result<(), AllocError>
    ensures { OnOk result (string_bytes text.new ≡ string_bytes text.old ++ registers_shown show client.now machine.now thread) }
{
    if show.registers {
        push_registers(text, client, machine, thread)
    } else {
        Ok(())
    }
}

fn push_buffers_if(
    alloc: Global,
    text: &mut String,
    arrays: &[Array],
    machine: &Machine,
    label: Label,
    show: Show,
) -> Result<(), AllocError>
    requires names { IsTrue (list_all (λ a. is_short_name a.name) arrays.now) }
    ensures { OnOk result (string_bytes text.new ≡ string_bytes text.old ++ buffers_shown show arrays.now machine.now label) }
{
    if !show.buffers {
        return Ok(());
    }
    push_read(text, machine, label.thread, label.kind)?;
    push_buffers(alloc, text, arrays, machine)?;
    Ok(())
}

/// Adds what is shown of the machine after a label, each thing on lines of its own.
///
/// Errors: where a growth was refused.
pub fn push_shown(
    alloc: Global,
    text: &mut String,
    client: &Client,
    machine: &Machine,
    label: Label,
    show: Show,
) -> Result<(), AllocError>
    ensures { OnOk result (string_bytes text.new ≡ string_bytes text.old ++ shown_text show client.now machine.now label) }
{
    push_registers_if(text, client, machine, label.thread, show)?;
    push_buffers_if(alloc, text, client.arrays.as_slice(), machine, label, show)?;
    Ok(())
}
