//! Threads that spell slabs ahead of the one that writes them.

ghost use Rattle.std.specs.Prelude.{IfOk};
ghost use Rattle.tso_write.specs.Spelling.{AreOf, CanBeSpelled, IsSpelledCut};
ghost use Rattle.tso_write.specs.Unspelled.{numbers_of};

use crate::line::{Found, Line, Next};
use crate::slab::{Slab, Spelled};
use crate::spelling::Unspelled;
use crate::subject::Subject;
use std::alloc::AllocError;
use std::sync::{Condvar, Mutex, Wait};

/// What the threads of one call share: the slabs, in the order in which they are written, and how far they are.
#[derive(Drop)]
pub struct Team<'t, 'a, U: Subject, R: Wait> {
    pub rt: &'t R,
    pub slabs: &'t [Slab<'a, U>],
    pub line: &'t Mutex<Line<'a, U>>,
    pub woken: &'t Condvar,
}

// The place of the next slab for a thread that spells, which sleeps while it would be too far ahead. `None` where there is none any more.
fn next<'a, U: Subject, R: Wait>(team: &Team<'_, 'a, U, R>) -> Option<usize> {
    let mut line = team.line.lock(team.rt);
    for _ in team.rt.forever() {
        match line.begin(team.slabs.len()) {
            Next::Slab(place) => return Some(place),
            Next::Nothing => line = team.woken.wait(team.rt, line),
            Next::End => break,
        }
    }
    None
}

// Hands on the bytes of a slab.
fn put<'a, U: Subject, R: Wait>(team: &Team<'_, 'a, U, R>, place: usize, spelled: Spelled<'a, U>) {
    let mut line = team.line.lock(team.rt);
    line.put(place, spelled);
    team.woken.notify_all();
}

/// Has the threads that spell begin nothing more, and the one that writes wait for none.
pub fn end<'a, U: Subject, R: Wait>(team: &Team<'_, 'a, U, R>) {
    let mut line = team.line.lock(team.rt);
    line.end();
    team.woken.notify_all();
}

// Spells a slab. Where it can't, the thread that writes has to.
fn spell<'a, U: Subject, R: Wait>(team: &Team<'_, 'a, U, R>, place: usize) {
    let Some(slab) = team.slabs.get(place) else {
        return;
    };
    match slab.spelled() {
        Ok(spelled) => put(team, place, spelled),
        Err(_) => end(team),
    }
}

/// Spells slabs until none is left to begin.
pub fn help<'a, U: Subject, R: Wait>(team: &Team<'_, 'a, U, R>) {
    for _ in team.rt.forever() {
        match next(team) {
            Some(place) => spell(team, place),
            None => return,
        }
    }
}

// What there is to do for the thread that writes, which sleeps while there is nothing.
fn found<'a, U: Subject, R: Wait>(team: &Team<'_, 'a, U, R>) -> Found<'a, U> {
    let mut line = team.line.lock(team.rt);
    for _ in team.rt.forever() {
        match line.find(team.slabs.len()) {
            Found::Begun => line = team.woken.wait(team.rt, line),
            found => {
                team.woken.notify_all();
                return found;
            }
        }
    }
    Found::Nothing
}

// The bytes of the next slab to write, if another thread has begun it. While it is not ready this one spells others.
fn awaited<'a, U: Subject, R: Wait>(team: &Team<'_, 'a, U, R>) -> Option<Spelled<'a, U>> {
    for _ in team.rt.forever() {
        match found(team) {
            Found::Spelled(spelled) => return Some(spelled),
            Found::Other(place) => spell(team, place),
            Found::Begun | Found::Nothing => break,
        }
    }
    None
}

/// The bytes of the next slab to write, which has these states: those that another thread has spelled, if one has begun it.
///
/// Errors: where a growth was refused.
pub fn bytes_of<U: Subject, R: Wait>(
    team: &Team<'_, '_, U, R>,
    whole: &Unspelled<'_>,
) -> Result<Vec<u8>, AllocError>
    requires source { AreOf U.source (numbers_of whole.now) }
    requires ready { CanBeSpelled (numbers_of whole.now) whole.now.store.now.client whole.now.speller.now }
    ensures { IfOk result (λ bytes. IsSpelledCut (numbers_of whole.now) bytes.items) }
{
    if let Some(spelled) = awaited(team) {
        if let Some(bytes) = spelled.into_bytes(whole) {
            return Ok(bytes);
        }
    }
    let bytes = whole.spelled()?;
    Ok(bytes)
}
