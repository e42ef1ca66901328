//! Walks along a trace, forwards and back.

ghost use Rattle.std.specs.Prelude.{◌≡◌, ◌+◌, ◌<◌, ◌≤◌, length, slice_get, vec_len, vec_capacity, ◌++◌, ◌∷◌, [], IfOk, OnErr, Ok, true, false};
ghost use Rattle.tso_trace.specs.Walks.{IsAt};

use crate::trace::Trace;
use std::alloc::{AllocError, Global};
use std::marker::Model;
use tso_machine::{ApplyError, Label, Machine, Undo, apply, initial, undo};

/// A place in a trace: so many of its labels are taken, and the machine is the one after them.
#[derive(Drop)]
pub struct Cursor<'a> {
    trace: &'a Trace,
    machine: Machine,
    undos: Vec<Undo>,
}

impl<'a> Model for Cursor<'a> {
    ghost use Rattle.std.specs.Prelude.{length};
    ghost use Rattle.tso_trace.specs.Walks.{IsAt, Shown};

    ghost Value = { Shown };

    ghost view = { λ c. record { client = c.trace.now.checked.client; labels = c.trace.now.labels; position = length c.undos.items; machine = c.machine } };

    ghost invariant = { λ c. IsAt c.trace.now.checked.client c.trace.now.labels c.undos.items c.machine };
}

// Adds a way back, for which there is room.
fn keep(undos: &mut Vec<Undo>, back: Undo)
    requires { vec_len undos.old < vec_capacity undos.old }
    ensures items { undos.new.items ≡ undos.old.items ++ back ∷ [] }
    ensures len { vec_len undos.new ≡ vec_len undos.old + 1 }
{
    undos.push(back).unwrap();
}

// The label behind those that are taken.
fn label_at(trace: &Trace, undos: &Vec<Undo>) -> Option<Label>
    ensures { result ≡ slice_get trace.now.labels (length undos.now.items) }
{
    trace.labels.get(undos.as_slice().len()).copied()
}

// Takes the next label's step, if there is a next label.
fn step_on(
    alloc: Global,
    trace: &Trace,
    machine: &mut Machine,
    undos: &mut Vec<Undo>,
) -> Result<bool, AllocError>
    requires { IsAt trace.now.checked.client trace.now.labels undos.old.items machine.old }
    ensures at { IsAt trace.now.checked.client trace.now.labels undos.new.items machine.new }
    ensures moved { result ≡ Ok true → (vec_len undos.old < length trace.now.labels) × (vec_len undos.new ≡ vec_len undos.old + 1) }
    ensures stayed { result ≡ Ok false → (undos.new.items ≡ undos.old.items) × (machine.new ≡ machine.old) }
    ensures end { result ≡ Ok false → length undos.old.items ≡ length trace.now.labels }
    ensures err { OnErr result ((undos.new.items ≡ undos.old.items) × (machine.new ≡ machine.old)) }
{
    let Some(label) = label_at(trace, undos) else {
        return Ok(false);
    };
    undos.reserve(1)?;
    match apply(alloc, &trace.checked, machine, label) {
        Ok(back) => {
            keep(undos, back);
            Ok(true)
        }
        Err(ApplyError::NotAStep) => unreachable!(),
        Err(ApplyError::Memory) => Err(AllocError),
    }
}

// Takes the last step back, if there is one.
fn step_back(machine: &mut Machine, undos: &mut Vec<Undo>, trace: &Trace) -> bool
    requires { IsAt trace.now.checked.client trace.now.labels undos.old.items machine.old }
    ensures at { IsAt trace.now.checked.client trace.now.labels undos.new.items machine.new }
    ensures moved { result ≡ true → vec_len undos.new + 1 ≡ vec_len undos.old }
    ensures stayed { result ≡ false → (vec_len undos.old ≡ 0) × (undos.new.items ≡ undos.old.items) × (machine.new ≡ machine.old) }
{
    match undos.pop() {
        Some(back) => {
            undo(machine, back);
            true
        }
        None => false,
    }
}

impl<'a> Cursor<'a> {
    ghost use Rattle.tso_trace.specs.Walks.{Shown, StandsAt};

    /// The cursor before the first label of a trace.
    ///
    /// Errors: where a growth was refused.
    pub fn new(alloc: Global, trace: &'a Trace) -> Result<Cursor<'a>, AllocError>
        ensures start { IfOk result (λ c. (c.client ≡ trace.entry.now.checked.client) × (c.labels ≡ trace.entry.now.labels) × (c.position ≡ 0)) }
        ensures run { IfOk result StandsAt }
    {
        let machine = initial(alloc, &trace.checked)?;
        Ok(Cursor {
            trace,
            machine,
            undos: Vec::new(alloc),
        })
    }

    /// How many labels are taken.
    pub fn position(&self) -> usize
        ensures is { result ≡ self.now.position }
        ensures within { self.now.position ≤ length self.now.labels }
    {
        self.undos.len()
    }

    /// The machine after the labels that are taken.
    pub fn machine(&self) -> &Machine
        ensures is { result.now ≡ self.now.machine }
        ensures run { StandsAt self.now }
    {
        &self.machine
    }

    /// Takes the next label. It answers false, and stays, where none is left.
    ///
    /// Errors: where a growth was refused; the cursor then stays.
    pub fn forward(&mut self) -> Result<bool, AllocError>
        ensures moved { result ≡ Ok true → (self.old.position < length self.old.labels) × (self.new.position ≡ self.old.position + 1) }
        ensures stayed { result ≡ Ok false → self.new ≡ self.old }
        ensures end { result ≡ Ok false → self.old.position ≡ length self.old.labels }
        ensures err { OnErr result (self.new ≡ self.old) }
        ensures run { StandsAt self.new }
        ensures same { (self.new.client ≡ self.old.client) × (self.new.labels ≡ self.old.labels) }
    {
        let alloc = *self.undos.allocator();
        step_on(alloc, self.trace, &mut self.machine, &mut self.undos)
    }

    /// Takes the last label back. It answers false, and stays, at the start. It takes no memory.
    pub fn back(&mut self) -> bool
        ensures moved { result ≡ true → self.new.position + 1 ≡ self.old.position }
        ensures stayed { result ≡ false → (self.old.position ≡ 0) × (self.new ≡ self.old) }
        ensures run { StandsAt self.new }
        ensures same { (self.new.client ≡ self.old.client) × (self.new.labels ≡ self.old.labels) }
    {
        step_back(&mut self.machine, &mut self.undos, self.trace)
    }
}
