//! Fences that are needed, or would help, by searches.

use crate::people::{tell_variant, tell_violated};
use crate::survey::Searcher;
use std::sync::Wait;
use std::thread::Threads;
use tso_fences::{Wrong, fences};
use tso_front::{Failure, Session};
use tso_request::{FenceSearch, Form};

// Says in words why a run of a client is not good with the text as it stands.
fn tell_wrong<R: Threads + Wait + Sync, S: Session>(
    rt: &R,
    session: &mut S,
    text: &[u8],
    asked: &FenceSearch<'_>,
    wrong: &Wrong,
) {
    let (program, limit) = (asked.fences.program, asked.limit);
    match wrong {
        Wrong::Own => tell_violated(rt, session, text, limit, program, &asked.fences.variant),
        Wrong::Of(calls) => {
            let mode = asked.fences.survey.and_then(|asking| asking.mode);
            let variant = calls.variant(mode);
            tell_variant(rt, session, text, limit, program, variant);
        }
    }
}

/// Says which fences are needed, or would help, and gives the status. Where it is to be said in words, and a run of a client is not
/// good with the text as it stands, it says why.
///
/// Errors: those of `tso_fences::fences`; `CannotPrint`.
pub fn run_fences<R: Threads + Wait + Sync, S: Session>(
    rt: &R,
    session: &mut S,
    text: &[u8],
    asked: &FenceSearch<'_>,
    verbose: bool,
) -> Result<u8, Failure> {
    let searcher = Searcher {
        workers: asked.workers,
        limit: asked.limit,
        folder: None,
        counts: false,
        form: Form::Crossings,
    };
    let fenced = fences(rt, &searcher, session, text, &asked.fences)?;
    if let (true, Some(wrong)) = (verbose, &fenced.wrong) {
        session.flush()?;
        tell_wrong(rt, session, text, asked, wrong);
    }
    Ok(fenced.status)
}
