//! Clients that are decided by what lies in a folder, of which nothing is trusted.

ghost use Rattle.tso_client.specs.Headline.{IsVerified};

use crate::fact::Facts;
use std::alloc::{AllocError, Global};
use std::sync::Wait;
use std::thread::Threads;
use tso_cert::{Cert, NoWatch, Workers, decode};
use tso_check::{Verdict, check_with};
use tso_client::checked_of;
use tso_flow::Checked;
use tso_front::{Failure, Kind, Session};
use tso_load::read_certificate;
use tso_rec::Basis;
use tso_survey::{Accepted, Calls, Decided, Finder, Finding, Shown};
use tso_trace::{Trace, TraceFault};

/// A trace text has at most 64 MiB.
const TRACE_BYTES: usize = 64 * 1024 * 1024;

/// Decides clients by the certificates and traces that a folder has, and trusts none of them.
#[derive(Clone, Copy)]
pub struct Collector<'a> {
    pub folder: &'a str,
    /// How many workers check a certificate.
    pub workers: Workers,
    /// Whether it is counted what the records of accepted certificates show.
    pub counts: bool,
}

/// A file of a client.
#[derive(Drop)]
enum Filed {
    /// The folder has none.
    Absent,
    Read(Vec<u8>),
    /// It gives no bytes, and why.
    Refused(String),
}

/// Which files of a client there may be.
#[derive(Clone, Copy, PartialEq, Eq)]
enum Ending {
    Cert,
    Trace,
}

impl Ending {
    fn word(self) -> &'static str {
        match self {
            Ending::Cert => "cert",
            Ending::Trace => "trace",
        }
    }
}

// The bytes of a file of this kind.
fn read_file<S: Session>(session: &mut S, path: &str, ending: Ending) -> Result<Vec<u8>, Failure> {
    match ending {
        Ending::Cert => read_certificate(session, path),
        Ending::Trace => session.read(path, TRACE_BYTES),
    }
}

// The bytes of an ordinary file at this path, whose name in the folder is this.
fn read_ordinary<S: Session>(
    session: &mut S,
    path: &str,
    name: &str,
    ending: Ending,
) -> Result<Filed, Failure> {
    match read_file(session, path, ending) {
        Ok(bytes) => Ok(Filed::Read(bytes)),
        Err(Failure::Memory) => Err(Failure::Memory),
        Err(_) => Ok(Filed::Refused(format!(in session.alloc(); "cannot read {name}")?)),
    }
}

// A file of a client, if the folder has it. Only an ordinary file is read.
fn file_of<S: Session>(
    session: &mut S,
    folder: &str,
    calls: &Calls,
    ending: Ending,
) -> Result<Filed, Failure> {
    let alloc = session.alloc();
    let (name, word) = (calls.name(alloc)?, ending.word());
    let name = format!(in alloc; "{name}.{word}")?;
    let path = format!(in alloc; "{folder}/{name}")?;
    match session.look_at(path.as_str()) {
        Kind::Absent => Ok(Filed::Absent),
        Kind::File => read_ordinary(session, path.as_str(), name.as_str(), ending),
        Kind::Folder | Kind::Special => {
            Ok(Filed::Refused(format!(in alloc; "{name} is no ordinary file")?))
        }
    }
}

// A text that was verified.
fn verified_text(alloc: Global, text: &[u8]) -> Result<Accepted, Failure>
    requires { IsVerified text.now }
{
    let copy = Vec::from_slice(alloc, text)?;
    let checked = checked_of(alloc, text)?;
    Ok(Accepted::verified(copy, checked))
}

// What a certificate of a client shows.
fn counted_of(
    alloc: Global,
    checked: &Checked,
    basis: &Basis,
    cert: &Cert,
) -> Result<Shown, AllocError> {
    let facts = Facts::counted(alloc, checked, basis.grain, &basis.table, cert)?;
    facts.shown(alloc)
}

// The same of the bytes of an accepted certificate, which can be read.
fn shown_of(alloc: Global, text: &[u8], bytes: &[u8]) -> Result<Shown, Failure> {
    let checked = checked_of(alloc, text)?;
    let shown = match decode(alloc, bytes) {
        Ok((basis, cert)) => {
            let shown = counted_of(alloc, &checked, &basis, &cert);
            drop(basis);
            drop(cert);
            shown
        }
        Err(_) => Err(AllocError),
    };
    drop(checked);
    Ok(shown?)
}

// What a certificate says of a text.
fn by_certificate<R: Threads + Wait + Sync>(
    rt: &R,
    alloc: Global,
    text: &[u8],
    cert: &[u8],
    workers: Workers,
) -> Result<Decided, Failure> {
    let verdict = check_with(rt, alloc, text, cert, workers, &NoWatch)?;
    match verdict {
        Verdict::Accepted => Ok(Decided::Accepted {
            client: verified_text(alloc, text)?,
            records: None,
        }),
        Verdict::Rejected { .. } => Ok(Decided::Refused(verdict.to_string(alloc)?)),
    }
}

// What is said of a client by its trace.
fn violated_by(trace: Trace) -> Decided {
    let (violation, labels) = (trace.violation(), trace.labels.len());
    drop(trace);
    Decided::Violated { violation, labels }
}

// What a trace says of a client.
fn traced(alloc: Global, checked: &Checked, trace: &[u8]) -> Result<Decided, Failure> {
    match Trace::read(alloc, checked, trace) {
        Ok(trace) => Ok(violated_by(trace)),
        Err(TraceFault::Memory) => Err(Failure::Memory),
        Err(fault) => Ok(Decided::Refused(fault.to_string(alloc)?)),
    }
}

// What a trace says of a text.
fn by_trace(alloc: Global, text: &[u8], trace: &[u8]) -> Result<Decided, Failure> {
    let checked = checked_of(alloc, text)?;
    let decided = traced(alloc, &checked, trace);
    drop(checked);
    decided
}

impl<'a> Collector<'a> {
    // What a certificate that was read says of a client.
    fn certified<R: Threads + Wait + Sync>(
        &self,
        rt: &R,
        alloc: Global,
        text: &[u8],
        cert: &[u8],
    ) -> Result<Finding, Failure> {
        let decided = by_certificate(rt, alloc, text, cert, self.workers)?;
        let mut finding = Finding::plain(decided);
        if let (true, Decided::Accepted { .. }) = (self.counts, &finding.decided) {
            finding.shown = Some(shown_of(alloc, text, cert)?);
        }
        Ok(finding)
    }

    // What the certificate of a client says, if the folder has one.
    fn by_cert<R: Threads + Wait + Sync, S: Session>(
        &self,
        rt: &R,
        session: &mut S,
        calls: &Calls,
        text: &[u8],
    ) -> Result<Finding, Failure> {
        match file_of(session, self.folder, calls, Ending::Cert)? {
            Filed::Absent => Ok(Finding::plain(Decided::Missing)),
            Filed::Read(cert) => self.certified(rt, session.alloc(), text, &cert),
            Filed::Refused(why) => Ok(Finding::plain(Decided::Refused(why))),
        }
    }

    // What the trace of a client says, if the folder has one.
    fn by_trace<S: Session>(
        &self,
        session: &mut S,
        calls: &Calls,
        text: &[u8],
    ) -> Result<Decided, Failure> {
        match file_of(session, self.folder, calls, Ending::Trace)? {
            Filed::Absent => Ok(Decided::Missing),
            Filed::Read(trace) => by_trace(session.alloc(), text, &trace),
            Filed::Refused(why) => Ok(Decided::Refused(why)),
        }
    }

    // What the trace of a client says, whose certificate says nothing: a trace that replays counts beside a certificate that is refused.
    fn by_other<S: Session>(
        &self,
        session: &mut S,
        calls: &Calls,
        text: &[u8],
        finding: Finding,
    ) -> Result<Finding, Failure> {
        let decided = self.by_trace(session, calls, text)?;
        match (&finding.decided, &decided) {
            (Decided::Missing, _) | (_, Decided::Violated { .. }) => Ok(Finding::plain(decided)),
            _ => Ok(finding),
        }
    }

    /// What the folder says of a client: by its certificate, where that is accepted, or else by its trace.
    ///
    /// Errors: `Program` with the first fault of the text; `Memory`.
    pub fn decided<R: Threads + Wait + Sync, S: Session>(
        &self,
        rt: &R,
        session: &mut S,
        calls: &Calls,
        text: &[u8],
    ) -> Result<Finding, Failure> {
        let finding = self.by_cert(rt, session, calls, text)?;
        match &finding.decided {
            Decided::Accepted { .. } => Ok(finding),
            _ => self.by_other(session, calls, text, finding),
        }
    }

    /// The same, if a certificate or a trace of the client is there and is accepted.
    ///
    /// Errors: those of `decided`.
    pub fn kept<R: Threads + Wait + Sync, S: Session>(
        &self,
        rt: &R,
        session: &mut S,
        calls: &Calls,
        text: &[u8],
    ) -> Result<Option<Finding>, Failure> {
        let finding = self.decided(rt, session, calls, text)?;
        match &finding.decided {
            Decided::Accepted { .. } | Decided::Violated { .. } => Ok(Some(finding)),
            _ => Ok(None),
        }
    }
}

impl<'a> Finder for Collector<'a> {
    fn width(&self) -> usize {
        1
    }

    fn find<R: Threads + Wait + Sync, S: Session>(
        &self,
        rt: &R,
        session: &mut S,
        calls: &[Calls],
        texts: &[Vec<u8>],
    ) -> Result<Vec<Finding>, Failure> {
        let mut findings = Vec::new(session.alloc());
        for (number, calls) in calls.iter().enumerate() {
            let Some(text) = texts.get(number) else {
                break;
            };
            findings.push(self.decided(rt, session, calls, text)?)?;
        }
        Ok(findings)
    }
}
