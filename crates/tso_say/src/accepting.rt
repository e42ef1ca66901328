//! What is said of a program that is accepted.

ghost use Rattle.std.specs.Prelude.{◌≡◌, IfOk};
ghost use Rattle.std.specs.String.{string_bytes};
ghost use Rattle.tso_say.specs.Pages.{limit_text, parsed_text};

use std::alloc::{AllocError, Global};
use tso_flow::Checked;
use tso_print::print;

// That a client is accepted, and how many labels its runs have at most.
fn accepted(alloc: Global, checked: &Checked) -> Result<String, AllocError>
    ensures { IfOk result (λ text. string_bytes text ≡ limit_text checked.now.client) }
{
    let limit = checked.step_limit();
    format!(in alloc; "accepted\nstep_limit: {limit}\n")
}

/// What `parse` prints of a client: that it is accepted, and how many labels its runs have at most; or its canonical text alone, if
/// that is asked for.
///
/// Errors: out of memory.
pub fn parsed(alloc: Global, checked: &Checked, prints: bool) -> Result<String, AllocError>
    ensures { IfOk result (λ text. string_bytes text ≡ parsed_text prints checked.now.client) }
{
    if prints {
        print(alloc, &checked.client)
    } else {
        accepted(alloc, checked)
    }
}
