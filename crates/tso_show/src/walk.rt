//! Walks along labels, of which it is not yet known that they are steps.

ghost use Rattle.std.specs.Prelude.{◌≡◌, ◌+◌, ◌<◌, ◌≤◌, length, take, slice_get, Ok, Err, true, false, IfOk, OnErr};
ghost use Rattle.tso_show.specs.Walks.{IsOn};
ghost use Rattle.tso_show.specs.declared.walk.WalkError.TheVariants.{Memory};

use std::alloc::{AllocError, Global};
use std::marker::Model;
use thiserror::Error;
use tso_flow::Checked;
use tso_machine::{ApplyError, Label, Machine, apply, initial};

/// Why a walk stays where it is.
#[derive(Debug, PartialEq, Eq, Drop, Error)]
pub enum WalkError {
    /// The label of this number, from 1, is no step after those before it.
    #[error("label {label} is no step")]
    NotAStep { label: usize },
    /// A growth was refused.
    #[error("out of memory")]
    Memory,
}

impl From<AllocError> for WalkError {
    ghost from_gives = { λ _ e. e ≡ Memory };

    fn from(_e: AllocError) -> WalkError {
        WalkError::Memory
    }
}

/// A place among labels: so many are taken, and the machine is the one after them.
#[derive(Drop)]
pub struct Walk<'a> {
    checked: &'a Checked,
    labels: &'a [Label],
    position: usize,
    machine: Machine,
}

impl<'a> Model for Walk<'a> {
    ghost use Rattle.tso_show.specs.Walks.{IsOn};
    ghost use Rattle.tso_trace.specs.Walks.{Shown};

    ghost Value = { Shown };

    ghost view = { λ w. record { client = w.checked.now.client; labels = w.labels.now; position = w.position; machine = w.machine } };

    ghost invariant = { λ w. IsOn w.checked.now.client w.labels.now w.position w.machine };
}

fn label_at(labels: &[Label], position: usize) -> Option<Label>
    ensures { result ≡ slice_get labels.now position }
{
    labels.get(position).copied()
}

// Takes a label's step, which stands behind so many others.
fn step_on(
    alloc: Global,
    checked: &Checked,
    labels: &[Label],
    position: usize,
    machine: &mut Machine,
) -> Result<bool, WalkError>
    requires { IsOn checked.now.client labels.now position machine.old }
    ensures moved { result ≡ Ok true → (position < length labels.now) × IsOn checked.now.client labels.now (position + 1) machine.new }
    ensures stayed { result ≡ Ok false → machine.new ≡ machine.old }
    ensures end { result ≡ Ok false → position ≡ length labels.now }
    ensures err { OnErr result (machine.new ≡ machine.old) }
{
    let Some(label) = label_at(labels, position) else {
        return Ok(false);
    };
    match apply(alloc, checked, machine, label) {
        Ok(_undo) => Ok(true),
        Err(ApplyError::NotAStep) => Err(WalkError::NotAStep {
            label: position + 1,
        }),
        Err(ApplyError::Memory) => Err(WalkError::Memory),
    }
}

impl<'a> Walk<'a> {
    ghost use Rattle.tso_trace.specs.Runs.{IsRun};
    ghost use Rattle.tso_trace.specs.Walks.{Shown, StandsAt};

    /// The walk before the first of these labels.
    ///
    /// Errors: where a growth was refused.
    pub fn new(
        alloc: Global,
        checked: &'a Checked,
        labels: &'a [Label],
    ) -> Result<Walk<'a>, AllocError>
        ensures start { IfOk result (λ w. (w.client ≡ checked.entry.now.client) × (w.labels ≡ labels.entry.now) × (w.position ≡ 0)) }
        ensures run { IfOk result StandsAt }
    {
        let machine = initial(alloc, checked)?;
        Ok(Walk {
            checked,
            labels,
            position: 0,
            machine,
        })
    }

    /// How many labels are taken.
    pub fn position(&self) -> usize
        ensures is { result ≡ self.now.position }
        ensures within { self.now.position ≤ length self.now.labels }
    {
        self.position
    }

    /// The machine after the labels that are taken.
    pub fn machine(&self) -> &Machine
        ensures is { result.now ≡ self.now.machine }
        ensures run { StandsAt self.now }
    {
        &self.machine
    }

    /// What the labels are of.
    pub fn checked(&self) -> &Checked
        ensures { result.now.client ≡ self.now.client }
    {
        self.checked
    }

    /// The labels that are taken: they are a run.
    pub fn taken(&self) -> &[Label]
        ensures is { result.now ≡ take self.now.position self.now.labels }
        ensures run { IsRun self.now.client result.now }
    {
        &self.labels[..self.position]
    }

    /// The label behind those that are taken, if there is one.
    pub fn next_label(&self) -> Option<Label>
        ensures is { result ≡ slice_get self.now.labels self.now.position }
        ensures run { StandsAt self.now }
    {
        label_at(self.labels, self.position)
    }

    /// Takes the next label. It answers false, and stays, where none is left.
    ///
    /// Errors: `NotAStep` with the label's number where it is no step, and `Memory`; the walk then stays.
    pub fn forward(&mut self, alloc: Global) -> Result<bool, WalkError>
        ensures moved { result ≡ Ok true → (self.old.position < length self.old.labels) × (self.new.position ≡ self.old.position + 1) }
        ensures stayed { result ≡ Ok false → self.new ≡ self.old }
        ensures end { result ≡ Ok false → self.old.position ≡ length self.old.labels }
        ensures err { OnErr result (self.new ≡ self.old) }
        ensures run { StandsAt self.new }
        ensures same { (self.new.client ≡ self.old.client) × (self.new.labels ≡ self.old.labels) }
    {
        let moved = step_on(
            alloc,
            self.checked,
            self.labels,
            self.position,
            &mut self.machine,
        )?;
        if moved {
            self.position += 1;
        }
        Ok(moved)
    }

    /// The walk behind all of these labels.
    ///
    /// Errors: `NotAStep` with the number of the first label that is no step, and `Memory`.
    pub fn to_end(
        alloc: Global,
        checked: &'a Checked,
        labels: &'a [Label],
    ) -> Result<Walk<'a>, WalkError>
        ensures end { IfOk result (λ w. (w.client ≡ checked.entry.now.client) × (w.labels ≡ labels.entry.now) × (w.position ≡ length labels.entry.now)) }
        ensures run { IfOk result StandsAt }
    {
        let mut walk = Walk::new(alloc, checked, labels)?;
        for _ in 0..labels.len() {
            walk.forward(alloc)?;
        }
        Ok(walk)
    }
}
