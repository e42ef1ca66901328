//! Parts of a file, and where they begin.

ghost use Rattle.std.specs.Prelude.{◌≡◌, IfOk, IfSome, None, Ok};
ghost use Rattle.tso_load.specs.Spans.{AreOfWhole, BeginAt, RiseFrom};

use crate::source::Opened;
use std::alloc::{AllocError, Global};
use tso_front::Failure;
use tso_scan::seam_in;

/// So many bytes of a file from a place on, or fewer where it ends before.
#[derive(Clone, Copy)]
pub struct Span {
    pub start: u64,
    pub most: usize,
}

// So many bytes are looked at at once for where a part may begin.
const WINDOW: usize = 262_144;

// And so many of them once more with those behind them, so that a place that stands at the end of one is seen in the next.
const OVERLAP: usize = 32_768;

/// Where a part of a file is looked for: from one place up to another.
#[derive(Clone, Copy)]
pub struct Stretch {
    pub from: u64,
    pub to: u64,
    /// How many forks the tree has on the way to its first leaf that the part is to begin with.
    pub forks: usize,
}

/// Where in a file a part may begin, if it is found.
///
/// Errors: those of `Opened::read`.
pub fn seam_from(
    opened: &Opened,
    alloc: Global,
    path: &str,
    stretch: Stretch,
) -> Result<Option<u64>, Failure> {
    let stride = (WINDOW - OVERLAP) as u64;
    let last = stretch.to.saturating_sub(stretch.from) / stride;
    for turn in 0..=last {
        let start = stretch.from.saturating_add(turn.saturating_mul(stride));
        let most = WINDOW;
        let bytes = opened.read(alloc, path, start, most)?;
        let found = seam_in(alloc, bytes.as_slice(), stretch.forks);
        drop(bytes);
        if let Some(place) = found {
            return Ok(Some(start.saturating_add(place as u64)));
        }
    }
    Ok(None)
}

/// The parts of a file that begin where these were found, the first at its front. `None` exactly where one was not found, or does not
/// stand behind those before it.
///
/// Errors: where a growth was refused.
pub fn spans_of(alloc: Global, seams: &[Option<u64>]) -> Result<Option<Vec<Span>>, AllocError>
    ensures whole { IfOk result (λ found. IfSome found (λ spans. AreOfWhole spans.items)) }
    ensures seams { IfOk result (λ found. IfSome found (λ spans. BeginAt seams.now spans.items)) }
    ensures rise { IfOk result (λ found. IfSome found (λ _. RiseFrom 0 seams.now)) }
    ensures none { result ≡ Ok None → RiseFrom 0 seams.now → ⊥ }
{
    let mut spans = Vec::new(alloc);
    let mut start = 0;
    for seam in seams {
        match *seam {
            Some(next) if next > start => {
                let most = (next - start) as usize;
                spans.push(Span { start, most })?;
                start = next;
            }
            _ => {
                return Ok(None);
            }
        }
    }
    let most = usize::MAX;
    spans.push(Span { start, most })?;
    Ok(Some(spans))
}
