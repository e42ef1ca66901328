//! Clients whose threads' calls begin those of a larger one.

use crate::bounds::{Bounds, CLIENT_CALLS};
use crate::method::Words;
use crate::shape::{Shape, lengthen};
use std::alloc::{AllocError, Global};

/// A thread of the larger client, and how many of its calls are taken.
#[derive(Clone, Copy, PartialEq, Eq, PartialOrd, Ord)]
pub struct Taken {
    pub word: usize,
    pub calls: usize,
}

/// The first calls of the threads of a client that the bounds admit no larger one than.
#[derive(Drop)]
pub struct Beginning {
    /// By the words of the larger client, in rising order.
    pub threads: Vec<Taken>,
}

impl Beginning {
    /// All calls of a shape.
    ///
    /// Errors: where a growth was refused.
    pub fn whole(alloc: Global, words: &Words, shape: &Shape) -> Result<Beginning, AllocError> {
        let mut threads = Vec::new(alloc);
        for word in shape.threads.iter() {
            threads.push(Taken {
                word: *word,
                calls: words.len(*word),
            })?;
        }
        Ok(Beginning { threads })
    }

    /// The shape as a beginning of a largest one within the bounds.
    ///
    /// Errors: where a growth was refused.
    pub fn within(
        alloc: Global,
        words: &Words,
        bounds: &Bounds,
        shape: &Shape,
    ) -> Result<Beginning, AllocError> {
        let mut larger = shape.threads.clone()?;
        for _ in 0..CLIENT_CALLS {
            if !lengthen(words, bounds, &mut larger)? {
                break;
            }
        }
        let mut threads = Vec::new(alloc);
        for (thread, word) in larger.iter().enumerate() {
            let calls = match shape.threads.get(thread) {
                Some(word) => words.len(*word),
                None => 0,
            };
            threads.push(Taken { word: *word, calls })?;
        }
        threads.sort()?;
        Ok(Beginning { threads })
    }

    /// The shape of the larger client.
    ///
    /// Errors: where a growth was refused.
    pub fn larger(&self, alloc: Global) -> Result<Shape, AllocError> {
        let mut threads = Vec::new(alloc);
        for taken in self.threads.iter() {
            threads.push(taken.word)?;
        }
        Ok(Shape { threads })
    }
}
