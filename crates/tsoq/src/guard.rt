//! That no command writes over a file that it reads.

use tso_front::{Failure, Session, both_apart, written_apart};
use tso_replay::Replay;
use tso_request::{Asked, Search, Upgrading};

fn guard_search<S: Session>(session: &mut S, asked: &Search<'_>) -> Result<(), Failure> {
    written_apart(session, asked.cert, asked.program)?;
    written_apart(session, asked.trace, asked.program)?;
    both_apart(session, asked.cert, asked.trace)
}

fn guard_upgrade<S: Session>(session: &mut S, asked: &Upgrading<'_>) -> Result<(), Failure> {
    written_apart(session, Some(asked.out), asked.program)?;
    written_apart(session, Some(asked.out), asked.cert)
}

fn guard_replay<S: Session>(session: &mut S, asked: &Replay<'_>) -> Result<(), Failure> {
    written_apart(session, asked.html, asked.program)?;
    written_apart(session, asked.html, asked.trace)
}

/// That none of the files that a command writes is one that it reads, or the other one that it writes. A survey looks at each file before it
/// writes it.
///
/// Errors: `Usage` where one is; `Memory`.
pub fn guard<S: Session>(session: &mut S, asked: &Asked<'_>) -> Result<(), Failure> {
    match asked {
        Asked::Verify(asked) => guard_search(session, asked),
        Asked::Upgrade(asked) => guard_upgrade(session, asked),
        Asked::Replay(asked) => guard_replay(session, asked),
        Asked::Check(_)
        | Asked::Coverage(_)
        | Asked::Survey(_)
        | Asked::Fences(_)
        | Asked::Parse(_)
        | Asked::Help(_)
        | Asked::Explain(_) => Ok(()),
    }
}
