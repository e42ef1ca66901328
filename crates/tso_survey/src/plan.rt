//! Which clients a survey asks about, and which of them are searched.

use crate::beginning::Beginning;
use crate::bounds::Bounds;
use crate::calls::{Calls, Numbering};
use crate::method::Words;
use crate::shape::{Shape, lengthen, shapes};
use std::alloc::{AllocError, Global};
use std::cmp::Reverse;

/// A client that a survey asks about.
#[derive(Drop)]
pub struct Asked {
    /// How many pushes its prologue has.
    pub before: u32,
    pub beginning: Beginning,
}

impl Asked {
    /// How many calls it has.
    pub fn size(&self) -> usize {
        self.beginning
            .threads
            .iter()
            .fold(self.before as usize, |sum, taken| {
                sum.saturating_add(taken.calls)
            })
    }

    /// How many threads make calls.
    pub fn threads(&self) -> usize {
        self.beginning
            .threads
            .iter()
            .filter(|taken| taken.calls > 0)
            .count()
    }

    /// Its calls.
    ///
    /// Errors: where a growth was refused.
    pub fn calls(
        &self,
        alloc: Global,
        words: &Words,
        numbering: Numbering,
    ) -> Result<Calls, AllocError> {
        Calls::of(alloc, words, &self.beginning, self.before, numbering)
    }

    // Whether it is that of this shape behind such a prologue, with all calls.
    fn is_whole(&self, before: u32, shape: &Shape) -> bool {
        self.before == before
            && self.beginning.threads.len() == shape.threads.len()
            && self
                .beginning
                .threads
                .iter()
                .zip(shape.threads.iter())
                .all(|(taken, word)| taken.word == *word)
    }
}

/// The clients that a survey asks about.
#[derive(Drop)]
pub struct Plan {
    pub words: Words,
    /// Those that the bounds admit no larger one than, the largest first: they are searched.
    pub largest: Vec<Asked>,
    /// The others, each of which begins one of those, the smallest first.
    pub smaller: Vec<Asked>,
}

// Whether the bounds admit no larger client than this shape.
fn is_largest(words: &Words, bounds: &Bounds, shape: &Shape) -> Result<bool, AllocError> {
    let mut threads = shape.threads.clone()?;
    Ok(!lengthen(words, bounds, &mut threads)?)
}

// The most pushes of a prologue that bounds admit.
fn most_before(bounds: &Bounds) -> u32 {
    bounds.before.min(4) as u32
}

/// How many clients the bounds admit.
///
/// Errors: where a growth was refused.
pub fn count_of(alloc: Global, bounds: &Bounds) -> Result<usize, AllocError> {
    let words = Words::new(alloc)?;
    let mut count: usize = 0;
    for before in 0..=most_before(bounds) {
        let bounds = bounds.behind(before as usize);
        count = count.saturating_add(shapes(alloc, &words, &bounds)?.len());
    }
    Ok(count)
}

impl Plan {
    // Puts a shape behind a prologue among those that it belongs to.
    fn put(
        &mut self,
        alloc: Global,
        bounds: &Bounds,
        before: u32,
        shape: &Shape,
    ) -> Result<(), AllocError> {
        if is_largest(&self.words, bounds, shape)? {
            let beginning = Beginning::whole(alloc, &self.words, shape)?;
            self.largest.push(Asked { before, beginning })?;
        } else {
            let beginning = Beginning::within(alloc, &self.words, bounds, shape)?;
            self.smaller.push(Asked { before, beginning })?;
        }
        Ok(())
    }

    // Puts all shapes behind a prologue of so many pushes.
    fn put_all(&mut self, alloc: Global, bounds: &Bounds, before: u32) -> Result<(), AllocError> {
        let bounds = bounds.behind(before as usize);
        let shapes = shapes(alloc, &self.words, &bounds)?;
        for shape in shapes.iter() {
            self.put(alloc, &bounds, before, shape)?;
        }
        Ok(())
    }

    /// The clients within the bounds.
    ///
    /// Errors: where a growth was refused.
    pub fn new(alloc: Global, bounds: &Bounds) -> Result<Plan, AllocError> {
        let mut plan = Plan {
            words: Words::new(alloc)?,
            largest: Vec::new(alloc),
            smaller: Vec::new(alloc),
        };
        for before in 0..=most_before(bounds) {
            plan.put_all(alloc, bounds, before)?;
        }
        plan.largest
            .sort_by_key(|asked| Reverse((asked.size(), asked.threads())))?;
        plan.smaller
            .sort_by_key(|asked| (asked.size(), asked.threads()))?;
        Ok(plan)
    }

    /// The number, among the largest, of the client whose calls a smaller one's begin.
    ///
    /// Errors: where a growth was refused.
    pub fn larger(&self, alloc: Global, asked: &Asked) -> Result<Option<usize>, AllocError> {
        let shape = asked.beginning.larger(alloc)?;
        Ok(
            self.largest
                .iter()
                .position(|other| other.is_whole(asked.before, &shape)),
        )
    }
}
