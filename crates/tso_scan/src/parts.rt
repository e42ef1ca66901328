//! Texts that lie in several parts, one behind another.
ghost use Rattle.std.specs.Prelude.{◌≡◌, IfOk};
ghost use Rattle.tso_scan.specs.Parts.{text_of};

use std::alloc::{AllocError, Global};
use tso_list::Seq;

/// A text in one part, where it lies in several.
///
/// Errors: where a growth was refused.
pub fn put_together(alloc: Global, first: &[u8], more: &[Seq<u8>]) -> Result<Vec<u8>, AllocError>
    ensures { IfOk result (λ all. all.items ≡ text_of first.now more.now) }
{
    let mut all = Vec::from_slice(alloc, first)?;
    for part in more {
        all.extend_from_slice(part.as_slice())?;
    }
    Ok(all)
}
