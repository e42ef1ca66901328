//! What `parse` prints.

ghost use Rattle.std.specs.Prelude.{IfOk};
ghost use Rattle.std.specs.String.{string_bytes};
ghost use Rattle.tsoq.specs.Parsed.{IsParsed};

use std::alloc::Global;
use tso_client::checked_of;
use tso_front::Failure;
use tso_say::parsed;

/// What `parse` prints of a program text.
///
/// Errors: `Program` with the first fault of the text; `Memory`.
pub fn parse(alloc: Global, program: &[u8], prints: bool) -> Result<String, Failure>
    ensures { IfOk result (λ text. IsParsed program.now prints (string_bytes text)) }
{
    let checked = checked_of(alloc, program)?;
    Ok(parsed(alloc, &checked, prints)?)
}
