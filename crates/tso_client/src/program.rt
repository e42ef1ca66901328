//! Clients of whole program texts.

ghost use Rattle.std.specs.Prelude.{IfOk, IfErr};
ghost use Rattle.tso_client.specs.Headline.{DenotesChecked};
ghost use Rattle.tso_client.specs.Programs.{IsNoVerdict};

use crate::error::CheckError;
use std::alloc::Global;
use tso_flow::{Checked, FlowError};
use tso_prog::ReadError;

/// The checked client that a program text denotes.
///
/// Errors: the text's first fault; where it has none, the first of its control flow; `Memory`.
pub fn checked_of(alloc: Global, text: &[u8]) -> Result<Checked, CheckError>
    ensures denoted { IfOk result (λ c. DenotesChecked text.now c.client) }
    ensures refused { IfErr result (λ e. IsNoVerdict text.now e) }
{
    let client = match tso_prog::read(alloc, text) {
        Ok(client) => client,
        Err(ReadError::Refused(fault)) => return Err(CheckError::Program(fault)),
        Err(ReadError::Memory) => return Err(CheckError::Memory),
    };
    match tso_flow::check(alloc, client) {
        Ok(checked) => Ok(checked),
        Err(FlowError::Refused(fault)) => Err(CheckError::Program(fault)),
        Err(FlowError::Memory) => Err(CheckError::Memory),
    }
}
