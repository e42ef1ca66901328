//! The walk over all runs.

use crate::failure::Failure;
use crate::label_kinds::all_kinds;
use crate::reached::Reached;
use std::alloc::{AllocError, Global};
use std::collections::HashSet;
use tso_flow::Checked;
use tso_machine::{Label, LabelKind, thread_count};

/// What was met.
#[derive(Clone, Copy)]
pub struct Met {
    /// How many states, with their histories.
    pub states: usize,
    /// Whether a run has a fault, or calls that no order explains.
    pub is_bad: bool,
}

// The walk so far: the states that were met, by their keys, a run to each, and whether one of the runs is not good.
#[derive(Drop)]
struct Walk {
    keys: HashSet<String>,
    runs: Vec<Vec<Label>>,
    is_bad: bool,
}

// The key of what no label leads to.
fn first_key(alloc: Global, checked: &Checked) -> Result<String, AllocError> {
    let reached = Reached::first(alloc, checked)?;
    let key = reached.key(alloc);
    drop(reached);
    key
}

// How many places memory has.
fn place_count(alloc: Global, checked: &Checked) -> Result<usize, AllocError> {
    let reached = Reached::first(alloc, checked)?;
    let count = reached.machine.memory.len();
    drop(reached);
    Ok(count)
}

impl Walk {
    fn first(alloc: Global, checked: &Checked) -> Result<Walk, Failure> {
        let key = first_key(alloc, checked)?;
        let mut keys = HashSet::new(alloc);
        keys.insert(key)?;
        let mut runs = Vec::new(alloc);
        runs.push(Vec::new(alloc))?;
        Ok(Walk {
            keys,
            runs,
            is_bad: false,
        })
    }

    // Keeps a run, with its last label apart, where it leads to a new state.
    fn keep(
        &mut self,
        alloc: Global,
        checked: &Checked,
        labels: &[Label],
        last: Label,
        reached: &Reached,
    ) -> Result<(), Failure> {
        if !self.keys.insert(reached.key(alloc)?)? {
            return Ok(());
        }
        if matches!(last.kind, LabelKind::Fault(_)) || !reached.has_order(alloc, checked)? {
            self.is_bad = true;
        }
        let mut run = Vec::from_slice(alloc, labels)?;
        run.push(last)?;
        self.runs.push(run)?;
        Ok(())
    }

    // Tries a label behind a run, which leads here.
    fn try_label(
        &mut self,
        alloc: Global,
        checked: &Checked,
        labels: &[Label],
        last: Label,
        reached: &mut Reached,
    ) -> Result<(), Failure> {
        match reached.take(alloc, checked, last) {
            Ok(()) => {
                self.keep(alloc, checked, labels, last, reached)?;
                *reached = Reached::after(alloc, checked, labels)?;
                Ok(())
            }
            Err(Failure::Difference) => Ok(()),
            Err(failure) => Err(failure),
        }
    }

    // Tries labels of these kinds, of a thread, behind a run, which leads here.
    fn try_kinds(
        &mut self,
        alloc: Global,
        checked: &Checked,
        labels: &[Label],
        thread: usize,
        kinds: &[LabelKind],
        reached: &mut Reached,
    ) -> Result<(), Failure> {
        for kind in kinds {
            let kind = *kind;
            let last = Label { thread, kind };
            self.try_label(alloc, checked, labels, last, reached)?;
        }
        Ok(())
    }

    // Tries each kind of label of a thread behind a run.
    fn go_on(
        &mut self,
        alloc: Global,
        checked: &Checked,
        labels: &[Label],
        thread: usize,
        kinds: &[LabelKind],
    ) -> Result<(), Failure> {
        let mut reached = Reached::after(alloc, checked, labels)?;
        let tried = self.try_kinds(alloc, checked, labels, thread, kinds, &mut reached);
        drop(reached);
        tried
    }

    // Goes on behind each run.
    fn go_over(&mut self, alloc: Global, checked: &Checked) -> Result<(), Failure> {
        let kinds = all_kinds(alloc, place_count(alloc, checked)?)?;
        for number in 0..usize::MAX {
            let Some(labels) = self.run(number)? else {
                break;
            };
            for thread in 0..thread_count(&checked.client) {
                self.go_on(alloc, checked, &labels, thread, &kinds)?;
            }
        }
        Ok(())
    }

    // The run to the state of this number.
    fn run(&self, number: usize) -> Result<Option<Vec<Label>>, Failure> {
        match self.runs.get(number) {
            Some(labels) => Ok(Some(labels.clone()?)),
            None => Ok(None),
        }
    }
}

/// Goes over all states that runs lead to, with their histories.
pub fn all_runs(alloc: Global, checked: &Checked) -> Result<Met, Failure> {
    let mut walk = Walk::first(alloc, checked)?;
    let gone = walk.go_over(alloc, checked);
    let met = Met {
        states: walk.runs.len(),
        is_bad: walk.is_bad,
    };
    drop(walk);
    gone?;
    Ok(met)
}
