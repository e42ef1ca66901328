//! Labels that are taken by the machine of a program, one after another, and taken back.

ghost use Rattle.std.specs.Prelude.{◌≡◌, OnOk};

use crate::arithmetic::put_flags;
use crate::failure::{Failure, ensure};
use crate::input::{before, behind, word};
use crate::labels::labels_of;
use std::alloc::{AllocError, Global};
use tso_flow::Checked;
use tso_machine::{ApplyError, Core, Label, Machine, Running, Thread, apply, initial, undo};

// How far labels are taken.
#[derive(Clone, Copy)]
struct Walked {
    // How many of them are steps.
    taken: usize,
    // How many of some others are steps after the last one. None where a label is no step.
    others: Option<usize>,
}

fn shown(alloc: Global, machine: &Machine) -> Result<String, AllocError> {
    format!(in alloc; "{machine:?}")
}

// Whether the label is a step now. The machine is then as it was.
fn is_step(
    alloc: Global,
    checked: &Checked,
    machine: &mut Machine,
    label: Label,
) -> Result<bool, Failure>
    ensures { machine.new ≡ machine.old }
{
    match apply(alloc, checked, machine, label) {
        Ok(back) => {
            undo(machine, back);
            Ok(true)
        }
        Err(ApplyError::NotAStep) => Ok(false),
        Err(ApplyError::Memory) => Err(Failure::Memory),
    }
}

// How many of these labels are steps now.
fn count_steps(
    alloc: Global,
    checked: &Checked,
    machine: &mut Machine,
    labels: &[Label],
) -> Result<usize, Failure>
    ensures { OnOk result (machine.new ≡ machine.old) }
{
    let Some((label, rest)) = labels.split_first() else {
        return Ok(0);
    };
    let is_one = is_step(alloc, checked, machine, *label)?;
    let count = count_steps(alloc, checked, machine, rest)?;
    if is_one {
        Ok(count.saturating_add(1))
    } else {
        Ok(count)
    }
}

// Takes these labels one after the other, tries others after them, and takes all back: what the machine shows is then as before.
fn walk(
    alloc: Global,
    checked: &Checked,
    machine: &mut Machine,
    labels: &[Label],
    others: &[Label],
) -> Result<Walked, Failure>
    ensures { OnOk result (machine.new ≡ machine.old) }
{
    let Some((label, rest)) = labels.split_first() else {
        let count = count_steps(alloc, checked, machine, others)?;
        return Ok(Walked {
            taken: 0,
            others: Some(count),
        });
    };
    let front = shown(alloc, machine)?;
    let back = match apply(alloc, checked, machine, *label) {
        Ok(back) => back,
        Err(ApplyError::NotAStep) => {
            return Ok(Walked {
                taken: 0,
                others: None,
            });
        }
        Err(ApplyError::Memory) => return Err(Failure::Memory),
    };
    let walked = walk(alloc, checked, machine, rest, others)?;
    undo(machine, back);
    ensure(shown(alloc, machine)?.as_str() == front.as_str())?;
    Ok(Walked {
        taken: walked.taken.saturating_add(1),
        others: walked.others,
    })
}

// Takes labels from the start on, and tries others after them.
fn walk_from_start(
    alloc: Global,
    checked: &Checked,
    labels: &[Label],
    others: &[Label],
) -> Result<Walked, Failure> {
    let mut machine = initial(alloc, checked)?;
    let walked = walk(alloc, checked, &mut machine, labels, others);
    drop(machine);
    walked
}

// Takes the labels of a case, and tries those behind the bar.
fn put_walk(alloc: Global, checked: &Checked, call: &str, out: &mut String) -> Result<(), Failure> {
    let text = behind(call, ":");
    let labels = labels_of(alloc, before(text, " / "))?;
    let others = labels_of(alloc, behind(text, " / "))?;
    let Walked { taken, others } = walk_from_start(alloc, checked, &labels, &others)?;
    match others {
        None => write!(out, "no step at {taken}")?,
        Some(count) => write!(out, "applied, {count} after")?,
    }
    Ok(())
}

// Takes labels, and goes back no more.
fn take_all(
    alloc: Global,
    checked: &Checked,
    machine: &mut Machine,
    labels: &[Label],
) -> Result<(), Failure> {
    for label in labels {
        let _back = apply(alloc, checked, machine, *label)?;
    }
    Ok(())
}

// Writes the position, the registers and the flags of a call.
fn put_running(running: &Running, out: &mut String) -> Result<(), AllocError> {
    let (position, registers) = (running.frame.pc, running.frame.registers);
    write!(out, "at {position} {registers:?} ")?;
    put_flags(out, running.frame.flags)
}

// Writes what a thread does, and what is in its buffer.
fn put_thread(thread: &Thread, out: &mut String) -> Result<(), AllocError> {
    let begun = thread.begun;
    write!(out, " | {begun} begun, ")?;
    match &thread.core {
        Core::Idle => out.push_str("idle")?,
        Core::Stopped => out.push_str("stopped")?,
        Core::Running(running) => put_running(running, out)?,
    }
    let waiting = thread.buffer.live().len();
    write!(out, ", {waiting} stores wait")
}

// Writes the machine.
fn put_machine(machine: &Machine, out: &mut String) -> Result<(), AllocError> {
    let (memory, lock) = (machine.memory.as_slice(), machine.lock);
    write!(out, "{memory:?} {lock:?}")?;
    for thread in machine.threads.as_slice() {
        put_thread(thread, out)?;
    }
    Ok(())
}

// Writes the machine after these labels.
fn put_behind(
    alloc: Global,
    checked: &Checked,
    machine: &mut Machine,
    labels: &[Label],
    out: &mut String,
) -> Result<(), Failure> {
    take_all(alloc, checked, machine, labels)?;
    put_machine(machine, out)?;
    Ok(())
}

// Writes the machine after the labels of a case.
fn put_after(
    alloc: Global,
    checked: &Checked,
    call: &str,
    out: &mut String,
) -> Result<(), Failure> {
    let labels = labels_of(alloc, behind(call, ":"))?;
    let mut machine = initial(alloc, checked)?;
    let put = put_behind(alloc, checked, &mut machine, &labels, out);
    drop(machine);
    put
}

/// Makes a call on the machine of a client. Whether the case is one.
pub fn answer(
    alloc: Global,
    checked: &Checked,
    call: &str,
    out: &mut String,
) -> Result<bool, Failure> {
    match word(call, 0) {
        "apply" => put_walk(alloc, checked, call, out)?,
        "machine" => put_after(alloc, checked, call, out)?,
        _ => return Ok(false),
    }
    Ok(true)
}
