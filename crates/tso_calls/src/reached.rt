//! What a run leads to: a machine, and the history of its calls.

use crate::failure::Failure;
use std::alloc::{AllocError, Global};
use tso_fifo::linearize;
use tso_flow::Checked;
use tso_hist::History;
use tso_machine::{Label, LabelKind, Machine, apply, initial, thread_count};

/// What a run leads to.
#[derive(Drop)]
pub struct Reached {
    pub machine: Machine,
    pub history: History,
}

impl Reached {
    /// Before any label.
    pub fn first(alloc: Global, checked: &Checked) -> Result<Reached, AllocError> {
        let history = History::new(alloc, thread_count(&checked.client))?;
        match initial(alloc, checked) {
            Ok(machine) => Ok(Reached { machine, history }),
            Err(reason) => {
                drop(history);
                Err(reason)
            }
        }
    }

    /// Takes a label.
    ///
    /// Errors: `Difference` where the machine has no such step, and nothing has changed then.
    pub fn take(&mut self, alloc: Global, checked: &Checked, label: Label) -> Result<(), Failure> {
        let _undo = apply(alloc, checked, &mut self.machine, label)?;
        match label.kind {
            LabelKind::Call(kind) => self.history.on_call(label.thread, kind)?,
            LabelKind::Return(answer) => self.history.on_return(label.thread, answer),
            _ => {}
        }
        Ok(())
    }

    /// After these labels.
    pub fn after(alloc: Global, checked: &Checked, labels: &[Label]) -> Result<Reached, Failure> {
        let mut reached = Reached::first(alloc, checked)?;
        match reached.take_all(alloc, checked, labels) {
            Ok(()) => Ok(reached),
            Err(failure) => {
                drop(reached);
                Err(failure)
            }
        }
    }

    // Takes these labels.
    fn take_all(
        &mut self,
        alloc: Global,
        checked: &Checked,
        labels: &[Label],
    ) -> Result<(), Failure> {
        for label in labels {
            self.take(alloc, checked, *label)?;
        }
        Ok(())
    }

    /// Whether an order explains the calls.
    pub fn has_order(&self, alloc: Global, checked: &Checked) -> Result<bool, AllocError> {
        let client = &checked.client;
        let order = linearize(alloc, &self.history, client.mode, client.capacity as usize)?;
        Ok(order.is_some())
    }

    /// A text by which two are told apart: all that steps to come, and orders, look at.
    pub fn key(&self, alloc: Global) -> Result<String, AllocError> {
        let mut key = String::new(alloc);
        write!(key, "{:?}", self.machine.memory)?;
        write!(key, "{:?}", self.machine.lock)?;
        for thread in self.machine.threads.as_slice() {
            let begun = thread.begun;
            write!(key, "{begun}")?;
            write!(key, "{:?}", thread.core)?;
            write!(key, "{:?}", thread.buffer.live())?;
        }
        write!(key, "{:?}", self.history)?;
        Ok(key)
    }
}
