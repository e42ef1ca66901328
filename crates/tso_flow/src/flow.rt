//! Clients whose control flow is sound.

ghost use Rattle.std.specs.Prelude.{◌≡◌, IfOk, IfErr};
ghost use Rattle.tso_flow.specs.Calls.{procedure_of_kind, step_limit};
ghost use Rattle.tso_flow.specs.Laws.{StaysWithin, HasBounds, ReadsWritten};
ghost use Rattle.tso_flow.specs.Faults.{HasNoFault};
ghost use Rattle.tso_flow.specs.First.{IsRefusal};
ghost use Rattle.tso_flow.specs.declared.flow.FlowError.TheVariants.{Memory};

use crate::fault::first_fault;
use crate::limit;
use crate::location::ProcedureKind;
use std::alloc::{AllocError, Global};
use thiserror::Error;
use tso_prog::{Client, Fault};

/// A client in which no fault of control flow stands: control never runs past a procedure's end, each jump back has
/// a bound and no jump forward has one, and no path reads a register or a flag before it writes it.
#[derive(Drop)]
pub struct Checked {
    pub client: Client,
    ghost no_fault: { HasNoFault client },
}

/// Why a client is not checked.
#[derive(Debug, PartialEq, Eq, Drop, Error)]
pub enum FlowError {
    /// The first fault of the client: the earliest line wins, and then the lowest number, from E11 to E14.
    #[error("the control flow of line {} is refused", .0.line)]
    Refused(Fault),
    #[error("memory ran out")]
    Memory,
}

impl From<AllocError> for FlowError {
    ghost from_gives = { λ _ e. e ≡ Memory };

    fn from(_e: AllocError) -> FlowError {
        FlowError::Memory
    }
}

/// The client, if no fault of control flow stands in it, or else the first fault: E11 at an instruction that control can come
/// to and goes on from past the procedure's end, E12 at a jump back without bound, E13 at a jump forward with a bound, E14 at an
/// instruction that reads a register or a flag which some path from the first instruction has not written before.
/// Paths follow each jump whatever its bound. A push begins with RDI written, a pop with nothing.
pub fn check(alloc: Global, client: Client) -> Result<Checked, FlowError>
    ensures same { IfOk result (λ checked. checked.client ≡ client) }
    ensures sound { IfOk result (λ checked. HasNoFault client) }
    ensures refused { IfErr result (λ e. IsRefusal client e) }
{
    match first_fault(alloc, &client)? {
        Some(fault) => Err(FlowError::Refused(fault)),
        None => Ok(Checked { client }),
    }
}

impl Checked {
    /// How many steps a run of the client can take at most: over all calls, the prologue's too, the sum of
    /// `5 * n * (1 + b) + 2`, where the call's procedure has `n` instructions and the sum of its bounds is `b`.
    pub fn step_limit(&self) -> u64
        ensures { result ≡ step_limit self.now.client }
    {
        limit::step_limit(&self.client)
    }

    /// What is known of each procedure: control that comes from its first instruction stays within it, exactly the jumps
    /// back have a bound, and nothing is read on a path that has not written it. This does nothing when it runs.
    pub fn flow_is_sound(&self, kind: ProcedureKind)
        ensures within { StaysWithin (procedure_of_kind self.now.client kind) }
        ensures bounds { HasBounds (procedure_of_kind self.now.client kind) }
        ensures written { ReadsWritten kind (procedure_of_kind self.now.client kind) }
    {}
}
