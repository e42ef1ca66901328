//! How far the slabs of a certificate are.

use crate::slab::Spelled;
use crate::subject::Subject;
use std::alloc::{AllocError, Global};

/// So many slabs may be begun that are not written yet.
const AHEAD: usize = 16;

/// What a thread that spells finds.
#[derive(Clone, Copy, PartialEq, Eq)]
pub enum Next {
    /// A slab that nobody has begun, by its place; the thread has it now.
    Slab(usize),
    /// None, until more is written.
    Nothing,
    /// None any more.
    End,
}

/// What the thread that writes finds.
#[derive(Drop)]
pub enum Found<'a, U: Subject> {
    /// The bytes of the next slab.
    Spelled(Spelled<'a, U>),
    /// Another thread is at the next one; meanwhile the thread that writes has a slab behind it, by its place.
    Other(usize),
    /// Another thread is at the next one, and nothing else is to be done.
    Begun,
    /// Nobody is at the next one; the thread that writes has it now.
    Nothing,
}

/// How far slabs are spelled and written, and the bytes of those that wait to be written. Nothing rests on it but that bytes are those of their
/// states.
#[derive(Drop)]
pub struct Line<'a, U: Subject> {
    // Each slab's at the rest that its place leaves.
    waiting: Vec<Option<Spelled<'a, U>>>,
    // So many slabs are begun.
    begun: usize,
    // So many are written.
    written: usize,
    // Whether the thread that writes waits for no other.
    is_over: bool,
}

impl<'a, U: Subject> Line<'a, U> {
    /// No slab is begun.
    ///
    /// Errors: where a growth was refused.
    pub fn new(alloc: Global) -> Result<Self, AllocError> {
        let mut waiting = Vec::new(alloc);
        for _ in 0..AHEAD {
            waiting.push(None)?;
        }
        Ok(Line {
            waiting,
            begun: 0,
            written: 0,
            is_over: false,
        })
    }

    /// Hands out the next of so many slabs to a thread that spells.
    pub fn begin(&mut self, count: usize) -> Next {
        let place = self.begun;
        if self.is_over || place >= count {
            return Next::End;
        }
        if place >= self.written.saturating_add(AHEAD) {
            return Next::Nothing;
        }
        self.begun = place.saturating_add(1);
        Next::Slab(place)
    }

    /// Takes the bytes of a slab.
    pub fn put(&mut self, place: usize, spelled: Spelled<'a, U>) {
        match self.waiting.get_mut(place % AHEAD) {
            Some(waits) => *waits = Some(spelled),
            None => drop(spelled),
        }
    }

    // Takes back the bytes of a slab.
    fn taken(&mut self, place: usize) -> Option<Spelled<'a, U>> {
        match self.waiting.get_mut(place % AHEAD) {
            Some(waits) => waits.take(),
            None => None,
        }
    }

    /// Hands out the next of so many slabs to the thread that writes, or another one meanwhile.
    pub fn find(&mut self, count: usize) -> Found<'a, U> {
        let place = self.written;
        if let Some(spelled) = self.taken(place) {
            self.written = place.saturating_add(1);
            return Found::Spelled(spelled);
        }
        if place < self.begun && !self.is_over {
            return match self.begin(count) {
                Next::Slab(other) => Found::Other(other),
                Next::Nothing | Next::End => Found::Begun,
            };
        }
        self.written = place.saturating_add(1);
        self.begun = self.begun.max(self.written);
        Found::Nothing
    }

    /// Has no thread begin another slab, and the one that writes wait for none.
    pub fn end(&mut self) {
        self.is_over = true;
    }
}
