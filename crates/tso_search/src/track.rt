//! Which states a hunt goes on from, and in which order.

use std::alloc::{AllocError, Global};
use std::collections::VecDeque;

/// From how many states with a choice a hunt goes on.
const TURNS: u32 = 65_536;

/// The same of a probe.
const PROBE: u32 = 1_024;

/// Which of the states with a choice a hunt goes on from next.
#[derive(Clone, Copy, PartialEq, Eq)]
pub enum Way {
    /// The one that was met first.
    Breadth,
    /// The one that was met last.
    Depth,
    /// The same, but the hunt is a short one.
    Probe,
}

// From how many states with a choice such a hunt goes on.
fn turns_of(way: Way) -> u32 {
    match way {
        Way::Breadth | Way::Depth => TURNS,
        Way::Probe => PROBE,
    }
}

/// A state to go on from: one that was put off and has its turn, or one that was just met.
#[derive(Clone, Copy, PartialEq, Eq)]
pub struct Next {
    pub number: u32,
    pub in_turn: bool,
}

/// The states that a hunt goes on from, by their numbers: those that were just met, and those with a choice, which wait for their
/// turn.
#[derive(Drop)]
pub struct Track {
    /// Where the states are listed that were met last.
    pub met: Vec<u32>,
    soon: Vec<u32>,
    waiting: VecDeque<u32>,
    turns: u32,
    way: Way,
}

// The numbers from one on that are below another.
fn between(alloc: Global, from: u32, to: u32) -> Result<VecDeque<u32>, AllocError> {
    let mut waiting = VecDeque::new(alloc);
    for number in from..to {
        waiting.push_back(number)?;
    }
    Ok(waiting)
}

impl Track {
    /// From the states with number `from` and above, of so many.
    ///
    /// Errors: where a growth was refused.
    pub fn new(alloc: Global, way: Way, from: u32, count: u32) -> Result<Track, AllocError> {
        let waiting = between(alloc, from, count)?;
        Ok(Track {
            met: Vec::new(alloc),
            soon: Vec::new(alloc),
            waiting,
            turns: turns_of(way),
            way,
        })
    }

    /// The next state, if there is one: the one that was just met, or else the next in turn, while there are turns.
    pub fn next(&mut self) -> Option<Next> {
        if let Some(number) = self.soon.pop() {
            let in_turn = false;
            return Some(Next { number, in_turn });
        }
        if self.turns == 0 {
            return None;
        }
        let number = match self.way {
            Way::Breadth => self.waiting.pop_front()?,
            Way::Depth | Way::Probe => self.waiting.pop_back()?,
        };
        let in_turn = true;
        Some(Next { number, in_turn })
    }

    /// Has a state wait for its turn.
    ///
    /// Errors: where a growth was refused.
    pub fn put_off(&mut self, number: u32) -> Result<(), AllocError> {
        self.waiting.push_back(number)?;
        Ok(())
    }

    /// Goes on from the states that are listed, the first of them first. A state that had its turn has taken it.
    ///
    /// Errors: where a growth was refused.
    pub fn go_on(&mut self, in_turn: bool) -> Result<(), AllocError> {
        if in_turn {
            self.turns = self.turns.saturating_sub(1);
        }
        while let Some(number) = self.met.pop() {
            self.soon.push(number)?;
        }
        Ok(())
    }
}
