//! What is found of the clients that are asked about.

use crate::clients::{Clients, Surveyed};
use crate::ruling::{Ruling, Standing, standing_of};
use std::alloc::{AllocError, Global};
use std::sync::Wait;
use std::thread::Threads;
use tso_front::{Failure, Session};
use tso_survey::{Calls, Decided, Finder, Finding};

// Calls that say nothing.
fn no_calls(alloc: Global) -> Calls {
    Calls {
        before: String::new(alloc),
        client: String::new(alloc),
    }
}

// Calls that say nothing, as many as there are texts.
fn no_calls_of(alloc: Global, texts: &[Vec<u8>]) -> Result<Vec<Calls>, AllocError> {
    let mut calls = Vec::new(alloc);
    for _ in texts {
        calls.push(no_calls(alloc))?;
    }
    Ok(calls)
}

// What is found of the own client of each of these texts.
fn rule_own<R: Threads + Wait + Sync, D: Finder, S: Session>(
    rt: &R,
    finder: &D,
    session: &mut S,
    texts: &[Vec<u8>],
) -> Result<Vec<Ruling>, Failure> {
    let alloc = session.alloc();
    let calls = no_calls_of(alloc, texts)?;
    let mut rulings = Vec::new(alloc);
    for finding in finder.find(rt, session, &calls, texts)? {
        rulings.push(Ruling::Own(finding.decided))?;
    }
    Ok(rulings)
}

// Where the first client stands of which this is found.
fn place_of(findings: &[Finding], standing: Standing) -> Option<usize> {
    findings
        .iter()
        .position(|finding| standing_of(&finding.decided) == standing)
}

// Where the first client stands that has a run that is not good; where none has, the first of which nothing follows.
fn place_of_worst(findings: &[Finding]) -> Option<usize> {
    match place_of(findings, Standing::Wrong) {
        Some(place) => Some(place),
        None => place_of(findings, Standing::Open),
    }
}

// What is found of that client, if there is one.
fn worst(calls: &[Calls], mut findings: Vec<Finding>) -> Result<Option<Ruling>, AllocError> {
    let Some(place) = place_of_worst(&findings) else {
        return Ok(None);
    };
    if place >= findings.len() || place >= calls.len() {
        return Ok(None);
    }
    let calls = calls[place].copied()?;
    Ok(Some(Ruling::One {
        calls,
        decided: findings.swap_remove(place).decided,
    }))
}

// What is found of these clients of a survey, if not each is accepted.
fn rule_some<R: Threads + Wait + Sync, D: Finder, S: Session>(
    rt: &R,
    finder: &D,
    session: &mut S,
    surveyed: &Surveyed<'_>,
    text: &[u8],
    calls: &[Calls],
) -> Result<Option<Ruling>, Failure> {
    let alloc = session.alloc();
    let texts = surveyed.texts(alloc, text, calls)?;
    let findings = finder.find(rt, session, calls, &texts)?;
    Ok(worst(calls, findings)?)
}

// Whether the second is to stand: where a client has a run that is not good, or nothing stood against the first.
fn is_worse(first: &Ruling, second: &Ruling) -> bool {
    first.standing() == Standing::Right || second.standing() == Standing::Wrong
}

// The one of two that is to stand.
fn worse(first: Ruling, second: Ruling) -> Ruling {
    if is_worse(&first, &second) {
        drop(first);
        second
    } else {
        drop(second);
        first
    }
}

// The same, where there is a second.
fn worse_of(first: Ruling, second: Option<Ruling>) -> Ruling {
    match second {
        Some(second) => worse(first, second),
        None => first,
    }
}

// What is found of the clients of a survey, up to one that has a run that is not good.
fn rule_surveyed<R: Threads + Wait + Sync, D: Finder, S: Session>(
    rt: &R,
    finder: &D,
    session: &mut S,
    surveyed: &Surveyed<'_>,
    text: &[u8],
) -> Result<Ruling, Failure> {
    let mut ruling = Ruling::Each(surveyed.calls.len());
    for calls in surveyed.calls.chunks(finder.width().max(1)) {
        match rule_some(rt, finder, session, surveyed, text, calls) {
            Ok(worst) => ruling = worse_of(ruling, worst),
            Err(failure) => {
                drop(ruling);
                return Err(failure);
            }
        }
        if ruling.standing() == Standing::Wrong {
            break;
        }
    }
    Ok(ruling)
}

// The same with each of these texts.
fn rule_each<R: Threads + Wait + Sync, D: Finder, S: Session>(
    rt: &R,
    finder: &D,
    session: &mut S,
    surveyed: &Surveyed<'_>,
    texts: &[Vec<u8>],
) -> Result<Vec<Ruling>, Failure> {
    let mut rulings = Vec::new(session.alloc());
    for text in texts {
        rulings.push(rule_surveyed(rt, finder, session, surveyed, text)?)?;
    }
    Ok(rulings)
}

/// What is found of the clients with each of these texts, in their order.
///
/// Errors: those of the finder.
pub fn rule<R: Threads + Wait + Sync, D: Finder, S: Session>(
    rt: &R,
    finder: &D,
    session: &mut S,
    clients: &Clients<'_>,
    texts: &[Vec<u8>],
) -> Result<Vec<Ruling>, Failure> {
    match clients {
        Clients::Own => rule_own(rt, finder, session, texts),
        Clients::Surveyed(surveyed) => rule_each(rt, finder, session, surveyed, texts),
    }
}

/// What is found of them with one text.
///
/// Errors: those of the finder.
pub fn rule_one<R: Threads + Wait + Sync, D: Finder, S: Session>(
    rt: &R,
    finder: &D,
    session: &mut S,
    clients: &Clients<'_>,
    text: &[u8],
) -> Result<Ruling, Failure> {
    let alloc = session.alloc();
    let mut texts = Vec::new(alloc);
    texts.push(Vec::from_slice(alloc, text)?)?;
    let mut rulings = rule(rt, finder, session, clients, &texts)?;
    match rulings.pop() {
        Some(ruling) => Ok(ruling),
        None => Ok(Ruling::Own(Decided::Missing)),
    }
}

/// How many texts are decided before their lines are printed.
pub fn width_of<D: Finder>(finder: &D, clients: &Clients<'_>) -> usize {
    match clients {
        Clients::Own => finder.width().max(1),
        Clients::Surveyed(_) => 1,
    }
}
