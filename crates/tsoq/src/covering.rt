//! A certificate is checked first, and its records are counted where it is accepted.

ghost use Rattle.std.specs.Prelude.{◌≡◌, Ok};
ghost use Rattle.tso_client.specs.Headline.{IsVerified};
ghost use Rattle.tso_check.specs.declared.verdict.Verdict.TheVariants as verdicts;

use crate::people::tell_outside;
use std::alloc::Global;
use std::sync::Wait;
use std::thread::Threads;
use tso_cert::decode;
use tso_check::Verdict;
use tso_client::checked_of;
use tso_flow::Checked;
use tso_front::{Failure, Session, misused};
use tso_load::read_certificate;
use tso_request::Covering;
use tso_verdict::{Check, Facts, facts_object, listed, marked, put_verdict, told, verdict_on};

const PLAIN: &str = "--json has the marks of all lines, and goes without --source\n";

// What the records of a certificate of this client show.
fn facts_with(alloc: Global, checked: &Checked, cert: &[u8]) -> Result<Facts, Failure> {
    match decode(alloc, cert) {
        Ok((basis, cert)) => {
            let facts = Facts::counted(alloc, checked, basis.grain, &basis.table, &cert);
            drop(basis);
            drop(cert);
            Ok(facts?)
        }
        Err(_) => Err(Failure::Memory),
    }
}

// What the records of an accepted certificate show. Such a certificate is read, and its program too, so nothing but memory can be
// wanting.
fn facts_of(alloc: Global, program: &[u8], cert: &[u8]) -> Result<Facts, Failure> {
    let checked = checked_of(alloc, program)?;
    let facts = facts_with(alloc, &checked, cert);
    drop(checked);
    facts
}

// Prints what the records show.
fn put_facts<S: Session>(
    session: &mut S,
    program: &[u8],
    facts: &Facts,
    asked: &Covering<'_>,
) -> Result<(), Failure> {
    if asked.check.json {
        let object = facts_object(session.alloc(), facts)?;
        return session.print_object(&object);
    }
    let list = listed(session.alloc(), facts)?;
    let text = if asked.source {
        marked(session.alloc(), program, facts)?
    } else {
        Vec::new(session.alloc())
    };
    session.print(list.as_str())?;
    session.print_bytes(&text)
}

/// Decides a certificate for a program text. Where it is refused, prints the verdict; where it is accepted, what its records show. It
/// gives the verdict.
///
/// Errors: `Usage` where an object of JSON and the program's text are asked for together; `CannotRead`; `Program` with the first
/// fault of the text; `CannotPrint`; `Memory`.
pub fn cover<R: Threads + Wait + Sync, S: Session>(
    rt: &R,
    session: &mut S,
    program: &[u8],
    asked: &Covering<'_>,
) -> Result<Verdict, Failure>
    ensures headline { result ≡ Ok verdicts.Accepted → IsVerified program.now }
{
    if asked.check.json && asked.source {
        return Err(misused(session.alloc(), PLAIN));
    }
    let cert = read_certificate(session, asked.check.cert)?;
    let verdict = verdict_on(rt, session.alloc(), program, &cert, asked.check.workers)?;
    match verdict {
        Verdict::Accepted => {
            let facts = facts_of(session.alloc(), program, &cert)?;
            put_facts(session, program, &facts, asked)?;
        }
        Verdict::Rejected { .. } => put_verdict(session, verdict, asked.check.json)?,
    }
    Ok(verdict)
}

// Says in words what the records of an accepted certificate show. Where memory is wanting nothing is said.
fn tell<S: Session>(session: &mut S, program: &[u8], cert: &[u8]) {
    if let Ok(facts) = facts_of(session.alloc(), program, cert) {
        if let Ok(text) = told(session.alloc(), &facts) {
            session.note(text.as_bytes());
        }
    }
}

/// Decides a certificate for a program text as `tso_verdict::check_bytes` does, prints the verdict and gives it. Where it is accepted, it
/// says on standard error what its records show, and where a register lies outside of its interval, which one.
///
/// Errors: those of `check_bytes`.
pub fn check_told<R: Threads + Wait + Sync, S: Session>(
    rt: &R,
    session: &mut S,
    program: &[u8],
    asked: &Check<'_>,
) -> Result<Verdict, Failure>
    ensures headline { result ≡ Ok verdicts.Accepted → IsVerified program.now }
{
    let cert = read_certificate(session, asked.cert)?;
    let verdict = verdict_on(rt, session.alloc(), program, &cert, asked.workers)?;
    put_verdict(session, verdict, asked.json)?;
    match verdict {
        Verdict::Accepted => tell(session, program, &cert),
        Verdict::Rejected { .. } => tell_outside(session, verdict, &cert),
    }
    Ok(verdict)
}
