//! Which regions have something to do.

use std::alloc::{AllocError, Global};
use tso_list::Seq;

/// How a region stands.
#[derive(Clone, Copy, PartialEq, Eq)]
enum Place {
    /// It has nothing to do.
    Resting,
    /// It has something to do, and no worker.
    Waiting,
    /// A worker has it.
    Worked,
    /// A worker has it, and meanwhile something came for it.
    Called,
}

/// How a search by regions ends.
#[derive(Clone, Copy, PartialEq, Eq)]
pub enum Ended {
    /// No region has anything left to do.
    Over,
    /// A growth was refused.
    Memory,
    /// A run was met that is not good, or there are too many states.
    Stopped,
}

/// What a worker finds.
#[derive(Clone, Copy, PartialEq, Eq)]
pub enum Found {
    /// A region that waits, by its number; the worker has it now.
    Region(usize),
    /// None waits, but others are worked.
    Nothing,
    /// The search has ended.
    End,
}

/// Which regions have something to do, and how far all are. Nothing rests on it.
#[derive(Drop)]
pub struct Pile {
    places: Vec<Place>,
    // Where to look first.
    next: usize,
    // How many have a worker.
    worked: u64,
    // How many states are listed by their owners.
    own: u64,
    ended: Option<Ended>,
}

// The first region that waits from a number on.
fn first_waiting(places: &[Place], from: usize) -> Option<usize> {
    for number in from..places.len() {
        if places[number] == Place::Waiting {
            return Some(number);
        }
    }
    None
}

impl Pile {
    /// So many regions, each of which has something to do, and which list so many states.
    ///
    /// Errors: where a growth was refused.
    pub fn new(alloc: Global, count: u64, own: u64) -> Result<Pile, AllocError> {
        let mut places = Vec::new(alloc);
        for _ in 0..count {
            places.push(Place::Waiting)?;
        }
        Ok(Pile {
            places,
            next: 0,
            worked: 0,
            own,
            ended: None,
        })
    }

    // The next region that waits.
    fn waiting(&self) -> Option<usize> {
        let places = self.places.as_slice();
        match first_waiting(places, self.next) {
            Some(number) => Some(number),
            None => first_waiting(places, 0),
        }
    }

    /// Hands out the next region that waits. Where none waits and none is worked the search is over.
    pub fn find(&mut self) -> Found {
        if self.ended.is_some() {
            return Found::End;
        }
        match self.waiting() {
            Some(number) => {
                self.hand_out(number);
                Found::Region(number)
            }
            None if self.worked == 0 => {
                self.end(Ended::Over);
                Found::End
            }
            None => Found::Nothing,
        }
    }

    // A worker has this region.
    fn hand_out(&mut self, number: usize) {
        if let Some(place) = self.places.get_mut(number) {
            *place = Place::Worked;
        }
        self.next = number.saturating_add(1);
        self.worked = self.worked.saturating_add(1);
    }

    /// Something has come for a region.
    pub fn call(&mut self, number: u64) {
        if let Some(place) = self.places.get_mut(number as usize) {
            *place = match *place {
                Place::Resting | Place::Waiting => Place::Waiting,
                Place::Worked | Place::Called => Place::Called,
            };
        }
    }

    /// A worker gives back a region, which has more to do or not, and lists so many more states: how many are listed by all.
    pub fn put_back(&mut self, number: usize, goes_on: bool, more: u64) -> u64 {
        if let Some(place) = self.places.get_mut(number) {
            let is_called = *place == Place::Called;
            *place = if goes_on || is_called {
                Place::Waiting
            } else {
                Place::Resting
            };
        }
        self.worked = self.worked.saturating_sub(1);
        self.own = self.own.saturating_add(more);
        self.own
    }

    /// Ends the search, unless it has ended.
    pub fn end(&mut self, ended: Ended) {
        if self.ended.is_none() {
            self.ended = Some(ended);
        }
    }

    /// How it ended, if it has.
    pub fn ended(&self) -> Option<Ended> {
        self.ended
    }
}
