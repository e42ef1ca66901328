//! Which call a case is.

use crate::failure::Failure;
use crate::{actors, arithmetic, cursors, events, machine, plain, states};
use std::alloc::Global;
use tso_flow::Checked;

/// Makes a call that needs no client, if the case is one, and writes what it finds. Whether it is one.
///
/// Errors: `Memory`; `Difference` where answers that should agree do not; `Unreadable`.
pub fn answer(alloc: Global, call: &str, out: &mut String) -> Result<bool, Failure> {
    if arithmetic::answer(call, out)? {
        return Ok(true);
    }
    if events::answer(alloc, call, out)? {
        return Ok(true);
    }
    if states::answer(alloc, call, out)? {
        return Ok(true);
    }
    plain::answer(alloc, call, out)
}

/// Makes a call on a client, if the case is one, and writes what it finds. Whether it is one.
///
/// Errors: as of `answer`.
pub fn answer_of_client(
    alloc: Global,
    checked: &Checked,
    call: &str,
    out: &mut String,
) -> Result<bool, Failure> {
    if machine::answer(alloc, checked, call, out)? {
        return Ok(true);
    }
    if states::answer_of_client(alloc, checked, call, out)? {
        return Ok(true);
    }
    if actors::answer(alloc, checked, call, out)? {
        return Ok(true);
    }
    cursors::answer(alloc, checked, call, out)
}
