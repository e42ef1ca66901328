//! Runs that a text spells, whether something is wrong in them or not.

ghost use Rattle.std.specs.Prelude.{◌≡◌, IfErr, IfOk};
ghost use Rattle.tso_show.specs.Replayed.{labels_in, IsReplayed};
ghost use Rattle.tso_trace.specs.Grammar.{IsReadFault};
ghost use Rattle.tso_trace.specs.declared.fault.TraceFault.TheVariants.{NoError};

use std::alloc::Global;
use tso_flow::Checked;
use tso_machine::Label;
use tso_prog::Client;
use tso_trace::{Trace, TraceFault, Violation, labels_of};

/// A run that a text spells.
#[derive(Drop)]
pub enum Replayed {
    /// One in which something is wrong.
    Erring(Trace),
    /// One whose labels are all steps, and which is good.
    Good(Vec<Label>),
}

impl Replayed {
    ghost use Rattle.tso_show.specs.Replayed.{labels_in};

    /// Its labels.
    pub fn labels(&self) -> &[Label]
        ensures { result.now ≡ labels_in self.now }
    {
        match self {
            Replayed::Erring(trace) => trace.labels.as_slice(),
            Replayed::Good(labels) => labels.as_slice(),
        }
    }

    /// What is wrong with it, if something is.
    pub fn violation(&self) -> Option<Violation> {
        match self {
            Replayed::Erring(trace) => Some(trace.violation()),
            Replayed::Good(_) => None,
        }
    }
}

// The run of a text that is no trace because nothing is wrong in it.
fn good_run(alloc: Global, client: &Client, text: &[u8]) -> Result<Replayed, TraceFault>
    requires { IsReadFault client.now text.now NoError }
    ensures ok { IfOk result (IsReplayed client.now text.now) }
    ensures refused { IfErr result (IsReadFault client.now text.now) }
{
    match labels_of(alloc, client, text) {
        Ok(labels) => Ok(Replayed::Good(labels)),
        Err(fault) => Err(fault),
    }
}

/// The run of a text: an error trace, or a run that is good.
///
/// Errors: as those of `Trace::read`; that a run is good is none.
pub fn read_run(alloc: Global, checked: &Checked, text: &[u8]) -> Result<Replayed, TraceFault>
    ensures ok { IfOk result (IsReplayed checked.now.client text.now) }
    ensures refused { IfErr result (IsReadFault checked.now.client text.now) }
{
    match Trace::read(alloc, checked, text) {
        Ok(trace) => Ok(Replayed::Erring(trace)),
        Err(TraceFault::NoError) => good_run(alloc, &checked.client, text),
        Err(fault) => Err(fault),
    }
}
