//! The shortest trace so far.

ghost use Rattle.std.specs.Prelude.{◌≡◌, ◌≤◌, length};

use std::alloc::{AllocError, Global};
use tso_flow::Checked;
use tso_machine::Label;
use tso_trace::{Trace, TraceFault};

/// How many labels all tries have together.
const LABELS: usize = 200_000;

/// A trace, and how many labels further tries may have.
#[derive(Drop)]
pub struct Shortest {
    pub trace: Trace,
    pub left: usize,
}

impl Shortest {
    ghost use Rattle.tso_search.specs.Shortening.{IsShorter, IsTraceOf};

    /// This trace, and the labels for all tries.
    pub fn new(trace: Trace) -> Shortest
        ensures { result.trace ≡ trace }
    {
        Shortest {
            trace,
            left: LABELS,
        }
    }

    /// Takes these labels in place of the trace, if they are a run that is not good. Whether it did so.
    ///
    /// Errors: out of memory.
    pub fn take(
        &mut self,
        alloc: Global,
        checked: &Checked,
        labels: Vec<Label>,
    ) -> Result<bool, AllocError>
        requires trace { IsTraceOf checked.now.client self.old.trace }
        requires fewer { length labels.items ≤ length self.old.trace.labels }
        ensures { IsShorter checked.now.client self.old.trace self.new.trace }
    {
        if labels.len() > self.left {
            self.left = 0;
            return Ok(false);
        }
        self.left -= labels.len();
        match Trace::from_labels(alloc, checked, labels) {
            Ok(trace) => {
                self.trace = trace;
                Ok(true)
            }
            Err(TraceFault::Memory) => Err(AllocError),
            Err(_) => Ok(false),
        }
    }
}
