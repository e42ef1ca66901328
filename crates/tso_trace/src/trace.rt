//! Traces.

ghost use Rattle.std.specs.Prelude.{◌≡◌, ◌<◌, ◌≤◌, ◌-◌, length, map, slice_get, string_bytes, IfOk, IfErr, IfSome, IsTrue, OnErr, OnOk};
ghost use Rattle.std.specs.List.{list_all};
ghost use Rattle.std.specs.Io.KnownBytes.{Appends};
ghost use Rattle.tso_trace.specs.Grammar.{is_proper, line_text, trace_text, IsReadFault, IsTextOf};
ghost use Rattle.tso_machine.specs.Machines.{label_of};
ghost use Rattle.tso_model.specs.Events.{events_of};
ghost use Rattle.tso_model.specs.Linear.{IsLinearizable};
ghost use Rattle.tso_trace.specs.Runs.{first_fault, queue_of, violation_of, IsErrorTrace, IsTraceFault};
ghost use Rattle.tso_trace.specs.declared.trace.Violation.TheVariants.{NoOrder};
ghost use Rattle.tso_list.specs.Beginnings.{AppendsBeginning};

use crate::fault::TraceFault;
use crate::good::is_good;
use crate::grammar::{HEADER, labels_of};
use crate::run::{first_fault, take_steps};
use crate::spelling::{line_of, print_lines};
use std::alloc::{AllocError, Global};
use std::io;
use std::io::Write;
use tso_flow::Checked;
use tso_list::{Seq, write_bytes};
use tso_machine::Label;

/// What is wrong with a run.
#[derive(Clone, Copy, Debug, PartialEq, Eq)]
pub enum Violation {
    /// This thread is the first that faults.
    Fault(usize),
    /// No order of the run's calls is allowed.
    NoOrder,
}

/// A run of a client that errs: labels that are steps one after the other, in which a thread faults or whose calls and
/// returns have no linearization.
#[derive(Drop)]
pub struct Trace {
    pub checked: Checked,
    pub labels: Seq<Label>,
    ghost erring: { ∥ IsErrorTrace checked.client labels ∥₁ },
}

impl Trace {
    /// The trace of these labels.
    ///
    /// Errors: `NotAStep` with the first label that is no step; `NoError` where all are steps and the run is good; `Memory`,
    /// which an empty list does not meet.
    pub fn from_labels(
        alloc: Global,
        checked: &Checked,
        labels: Vec<Label>,
    ) -> Result<Trace, TraceFault>
        ensures ok { IfOk result (λ t. (t.checked.client ≡ checked.now.client) × (t.labels ≡ labels.items)) }
        ensures erring { IfOk result (λ t. ∥ IsErrorTrace checked.now.client t.labels ∥₁) }
        ensures refused { IfErr result (IsTraceFault checked.now.client labels.items) }
    {
        if labels.is_empty() {
            return Err(TraceFault::NoError);
        }
        take_steps(alloc, checked, &labels)?;
        if is_good(alloc, &checked.client, &labels)? {
            return Err(TraceFault::NoError);
        }
        Ok(Trace {
            checked: checked.copied(alloc)?,
            labels: Seq::from_vec(labels),
        })
    }

    /// The trace of a text.
    ///
    /// Errors: `Grammar` at the earliest line that is not of the grammar, before all others, `Memory` too; then as
    /// `from_labels`.
    pub fn read(alloc: Global, checked: &Checked, text: &[u8]) -> Result<Trace, TraceFault>
        ensures client { IfOk result (λ t. t.checked.client ≡ checked.now.client) }
        ensures labels { IfOk result (λ t. IsTextOf checked.now.client.arrays text.now t.labels) }
        ensures erring { IfOk result (λ t. ∥ IsErrorTrace checked.now.client t.labels ∥₁) }
        ensures refused { IfErr result (IsReadFault checked.now.client text.now) }
    {
        let labels = labels_of(alloc, &checked.client, text)?;
        Trace::from_labels(alloc, checked, labels)
    }

    /// The line of label `number`, from 1, without its newline.
    pub fn line(&self, number: usize) -> Result<String, AllocError>
        requires above { 0 < number }
        requires there { number ≤ length self.now.labels }
        ensures { IfOk result (λ line. IfSome (slice_get self.now.labels (number - 1)) (λ l. string_bytes line ≡ line_text self.now.checked.client.arrays l)) }
    {
        line_of(
            self.labels.allocator(),
            self.checked.client.arrays.as_slice(),
            self.labels.as_slice()[number - 1],
        )
    }

    /// Writes the text of the trace.
    ///
    /// Errors: the first failure of a write, and where a growth was refused. A beginning of the text has gone out then,
    /// perhaps nothing of it, and nothing else.
    pub fn print<W: Write>(&self, out: &mut W) -> io::Result<()>
        ensures proper { OnOk result (IsTrue (list_all (is_proper self.now.checked.client.arrays) self.now.labels)) }
        ensures text { OnOk result (Appends (W.contents out.old) (W.contents out.new) (trace_text self.now.checked.client.arrays self.now.labels)) }
        ensures beginning { OnErr result (AppendsBeginning (W.contents out.old) (W.contents out.new) (trace_text self.now.checked.client.arrays self.now.labels)) }
    {
        write_bytes(out, HEADER)?;
        print_lines(
            self.labels.allocator(),
            out,
            self.checked.client.arrays.as_slice(),
            self.labels.as_slice(),
        )
    }

    /// What is wrong with the run: its first fault, or that no order of its calls is allowed.
    pub fn violation(&self) -> Violation
        ensures is { result ≡ violation_of (first_fault self.now.labels) }
        ensures no_order { result ≡ NoOrder → IsLinearizable (queue_of self.now.checked.client) (events_of (map label_of self.now.labels)) → ⊥ }
    {
        match first_fault(self.labels.as_slice()) {
            Some(thread) => Violation::Fault(thread),
            None => Violation::NoOrder,
        }
    }
}
