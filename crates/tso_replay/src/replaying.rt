//! The replay of a trace, as a command.

ghost use Rattle.std.specs.Prelude.{◌≡◌, IfOk};

use crate::asked::Replay;
use crate::cause::tell_cause;
use crate::objects::print_objects;
use crate::page::write_page;
use crate::show::{print_run, run_of};
use tso_client::checked_of;
use tso_flow::Checked;
use tso_front::{Failure, STREAM, Session};
use tso_show::Replayed;

// A trace text has at most 64 MiB, so one byte more shows that it is too long.
const TRACE_BYTES: usize = 64 * 1024 * 1024;

/// What was read of the files that a command names.
#[derive(Drop)]
pub struct Texts {
    pub program: Vec<u8>,
    /// The trace of a replay.
    pub trace: Vec<u8>,
}

// Prints a run, but where its page goes to standard output.
fn put_run<S: Session>(
    session: &mut S,
    checked: &Checked,
    program: &[u8],
    run: &Replayed,
    asked: &Replay<'_>,
) -> Result<(), Failure> {
    if asked.html == Some(STREAM) {
        return Ok(());
    }
    if asked.json {
        return print_objects(session, checked, run, asked);
    }
    print_run(session, checked, program, run, asked)
}

// Prints what is asked of a run. The page is written first: where a file fails, nothing was printed.
fn put_replayed<S: Session>(
    session: &mut S,
    checked: &Checked,
    program: &[u8],
    run: &Replayed,
    asked: &Replay<'_>,
    verbose: bool,
) -> Result<(), Failure> {
    write_page(session, checked, program, run, asked)?;
    put_run(session, checked, program, run, asked)?;
    if let (true, Replayed::Erring(trace)) = (verbose, run) {
        session.flush()?;
        tell_cause(session, trace);
    }
    Ok(())
}

// The same of a trace of this client.
fn replay_by<S: Session>(
    session: &mut S,
    checked: &Checked,
    texts: &Texts,
    asked: &Replay<'_>,
    verbose: bool,
) -> Result<(), Failure> {
    let alloc = session.alloc();
    let run = run_of(alloc, checked, &texts.trace, TRACE_BYTES, asked.partial)?;
    let done = put_replayed(session, checked, &texts.program, &run, asked, verbose);
    drop(run);
    done
}

/// Reads the program and the trace of a replay, whose bytes `texts` then has as far as they were read, and does what is asked of the
/// run; where it is to be said in words, it says behind that why the run is not good. It gives the status, which is 0.
///
/// Errors: `CannotRead`; `Program` with the first fault of the text; `Trace` with why the trace is refused; `Usage` where the words
/// for other calls are none, or more is asked for than objects of JSON say; `CannotWrite` where the page failed; `CannotPrint`;
/// `Memory`.
pub fn run_replay<S: Session>(
    session: &mut S,
    texts: &mut Texts,
    asked: &Replay<'_>,
    verbose: bool,
) -> Result<u8, Failure>
    ensures { IfOk result (λ status. status ≡ 0) }
{
    texts.program = session.read_variant(asked.program, &asked.variant)?;
    texts.trace = session.read(asked.trace, TRACE_BYTES + 1)?;
    let checked = checked_of(session.alloc(), &texts.program)?;
    let done = replay_by(session, &checked, texts, asked, verbose);
    drop(checked);
    done?;
    Ok(0)
}
