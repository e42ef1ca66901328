//! Which fences and locked instructions are needed, or which fences would help.

use crate::changes::{Author, Change, Reason};
use crate::clients::{Clients, clients_of};
use crate::deciding::{rule, rule_one, width_of};
use crate::ruling::{Ruling, Standing};
use crate::saying::{say_tried, say_unchanged, say_untried};
use crate::sets::{MOST_SETS, count_of, empty, longer};
use crate::sites::{sites_of, stores_of};
use crate::tally::{Tally, end_fenced, end_open, end_taken_back};
use crate::trials::Trials;
use crate::words::Fences;
use std::alloc::{AllocError, Global};
use std::sync::Wait;
use std::thread::Threads;
use tso_client::checked_of;
use tso_front::{Failure, Session, misused};
use tso_prog::Client;
use tso_survey::{Calls, Decided, Finder};

// Says what a change comes to that was tried, and counts it.
fn put_tried<S: Session>(
    session: &mut S,
    json: bool,
    tally: &mut Tally,
    change: &Change,
    ruling: &Ruling,
) -> Result<(), Failure> {
    say_tried(session, json, change, ruling)?;
    tally.note(change, ruling.standing())?;
    Ok(())
}

// Says what each of these changes comes to, or why it is not tried, and counts them.
fn put_all<S: Session>(
    session: &mut S,
    json: bool,
    tally: &mut Tally,
    changes: &[(Change, Option<Reason>)],
    rulings: &[Ruling],
) -> Result<(), Failure> {
    let mut number = 0usize;
    for (change, untried) in changes {
        if let Some(reason) = untried {
            say_untried(session, json, change, *reason)?;
            tally.note_untried();
        } else if let Some(ruling) = rulings.get(number) {
            put_tried(session, json, tally, change, ruling)?;
            number = number.saturating_add(1);
        }
    }
    Ok(())
}

// Decides changes, says what each comes to, and counts them.
fn settle<R: Threads + Wait + Sync, D: Finder, S: Session>(
    rt: &R,
    finder: &D,
    session: &mut S,
    clients: &Clients<'_>,
    asked: &Fences<'_>,
    tally: &mut Tally,
    trials: &Trials,
) -> Result<(), Failure> {
    let rulings = rule(rt, finder, session, clients, &trials.texts)?;
    put_all(session, asked.json, tally, &trials.changes, &rulings)
}

// Takes back one instruction after the other, and says which are needed.
fn take_back<R: Threads + Wait + Sync, D: Finder, S: Session>(
    rt: &R,
    finder: &D,
    session: &mut S,
    clients: &Clients<'_>,
    asked: &Fences<'_>,
    author: &Author<'_>,
) -> Result<u8, Failure> {
    let alloc = session.alloc();
    let mut tally = Tally::new(alloc);
    let sites = sites_of(alloc, author.client)?;
    for sites in sites.chunks(width_of(finder, clients).max(1)) {
        let trials = Trials::back(alloc, author, sites)?;
        settle(rt, finder, session, clients, asked, &mut tally, &trials)?;
    }
    end_taken_back(session, asked.json, clients, &tally)
}

// Tries sets of one size, but for those in which one stands that is right.
fn add_sets<R: Threads + Wait + Sync, D: Finder, S: Session>(
    rt: &R,
    finder: &D,
    session: &mut S,
    clients: &Clients<'_>,
    asked: &Fences<'_>,
    tally: &mut Tally,
    text: &[u8],
    sets: &[Vec<usize>],
) -> Result<(), Failure> {
    for sets in sets.chunks(width_of(finder, clients).max(1)) {
        let trials = Trials::behind(session.alloc(), text, sets, &tally.right)?;
        settle(rt, finder, session, clients, asked, tally, &trials)?;
    }
    Ok(())
}

// Tries sets of fences, the smallest first, and says which make the text right.
fn add<R: Threads + Wait + Sync, D: Finder, S: Session>(
    rt: &R,
    finder: &D,
    session: &mut S,
    clients: &Clients<'_>,
    asked: &Fences<'_>,
    text: &[u8],
    lines: &[usize],
) -> Result<u8, Failure> {
    let alloc = session.alloc();
    let mut tally = Tally::new(alloc);
    let mut sets = empty(alloc)?;
    for _ in 0..asked.add {
        sets = longer(alloc, lines, &sets)?;
        add_sets(rt, finder, session, clients, asked, &mut tally, text, &sets)?;
    }
    end_fenced(session, asked.json, clients, &tally, asked.add)
}

// The lines of the stores, if their sets are not too many.
fn stores_within(
    alloc: Global,
    author: &Author<'_>,
    asked: &Fences<'_>,
) -> Result<Vec<usize>, Failure> {
    let lines = stores_of(alloc, author.client)?;
    let (stores, most) = (lines.len(), asked.add);
    let count = count_of(stores, most);
    if count > MOST_SETS {
        let text = format!(in alloc;
            "there are {count} sets of at most {most} of {stores} fences, and {MOST_SETS} are tried at most\n"
        )?;
        return Err(misused(alloc, text.as_str()));
    }
    Ok(lines)
}

// Asks what the standing of the text as it stands leaves to ask.
fn go_on<R: Threads + Wait + Sync, D: Finder, S: Session>(
    rt: &R,
    finder: &D,
    session: &mut S,
    clients: &Clients<'_>,
    asked: &Fences<'_>,
    author: &Author<'_>,
    ruling: &Ruling,
) -> Result<u8, Failure> {
    match ruling.standing() {
        Standing::Right => {
            say_unchanged(session, asked.json, ruling)?;
            take_back(rt, finder, session, clients, asked, author)
        }
        Standing::Wrong => {
            let lines = stores_within(session.alloc(), author, asked)?;
            say_unchanged(session, asked.json, ruling)?;
            add(rt, finder, session, clients, asked, author.text, &lines)
        }
        Standing::Open => {
            say_unchanged(session, asked.json, ruling)?;
            end_open(session, asked.json, clients)
        }
    }
}

/// Which client has a run that is not good, with the text as it stands.
#[derive(Drop)]
pub enum Wrong {
    /// That of the text.
    Own,
    /// The one with these calls, of a survey.
    Of(Calls),
}

/// What was said of fences.
#[derive(Drop)]
pub struct Fenced {
    /// The status with which the process is to end.
    pub status: u8,
    /// Which client has a run that is not good, with the text as it stands, if one was found.
    pub wrong: Option<Wrong>,
}

// Which client a ruling says has a run that is not good, if it says so.
fn wrong_of(ruling: &Ruling) -> Result<Option<Wrong>, AllocError> {
    match ruling {
        Ruling::Own(Decided::Violated { .. }) => Ok(Some(Wrong::Own)),
        Ruling::One {
            calls,
            decided: Decided::Violated { .. },
        } => Ok(Some(Wrong::Of(calls.copied()?))),
        _ => Ok(None),
    }
}

// Asks what a ruling leaves to ask, and says which client is not right as the text stands.
fn conclude<R: Threads + Wait + Sync, D: Finder, S: Session>(
    rt: &R,
    finder: &D,
    session: &mut S,
    clients: &Clients<'_>,
    asked: &Fences<'_>,
    author: &Author<'_>,
    ruling: &Ruling,
) -> Result<Fenced, Failure> {
    let status = go_on(rt, finder, session, clients, asked, author, ruling)?;
    Ok(Fenced {
        status,
        wrong: wrong_of(ruling)?,
    })
}

// The same of the client of the text, once it is known which clients are asked about.
fn ask<R: Threads + Wait + Sync, D: Finder, S: Session>(
    rt: &R,
    finder: &D,
    session: &mut S,
    text: &[u8],
    asked: &Fences<'_>,
    client: &Client,
    clients: &Clients<'_>,
) -> Result<Fenced, Failure> {
    let author = Author {
        text,
        client,
        company: clients.company(client),
    };
    let ruling = rule_one(rt, finder, session, clients, text)?;
    let fenced = conclude(rt, finder, session, clients, asked, &author, &ruling);
    drop(ruling);
    fenced
}

// The same of the client of the text.
fn ask_of<R: Threads + Wait + Sync, D: Finder, S: Session>(
    rt: &R,
    finder: &D,
    session: &mut S,
    text: &[u8],
    asked: &Fences<'_>,
    client: &Client,
) -> Result<Fenced, Failure> {
    let clients = clients_of(session.alloc(), &asked.survey)?;
    ask(rt, finder, session, text, asked, client, &clients)
}

/// Says of an accepted client which of its fences and locked instructions it needs, and of one that is not accepted which fences
/// would make it right; a line for each change that is tried, and a last one that says what follows.
///
/// Errors: `Program` with the first fault of the text; `Usage` where there are too many sets of fences, or too many clients of a
/// survey; `CannotPrint`; `Memory`.
pub fn fences<R: Threads + Wait + Sync, D: Finder, S: Session>(
    rt: &R,
    finder: &D,
    session: &mut S,
    text: &[u8],
    asked: &Fences<'_>,
) -> Result<Fenced, Failure> {
    let checked = checked_of(session.alloc(), text)?;
    let asked = ask_of(rt, finder, session, text, asked, &checked.client);
    drop(checked);
    asked
}
