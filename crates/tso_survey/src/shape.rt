//! The shapes of clients: what the calls of their threads do, without values and without the order of threads.

use crate::bounds::{Bounds, Size};
use crate::method::{Method, Words};
use std::alloc::{AllocError, Global};

/// The numbers of the words of a client's threads, in rising order.
#[derive(Drop)]
pub struct Shape {
    pub threads: Vec<usize>,
}

impl Shape {
    // This and one more thread.
    fn with(&self, word: usize) -> Result<Shape, AllocError> {
        let mut threads = self.threads.clone()?;
        threads.push(word)?;
        Ok(Shape { threads })
    }
}

// Puts all shapes at the end that have one more thread than the shape with this number.
fn grow(
    words: &Words,
    bounds: &Bounds,
    shapes: &mut Vec<Shape>,
    number: usize,
) -> Result<(), AllocError> {
    let Some(shape) = shapes.get(number) else {
        return Ok(());
    };
    let shape = Shape {
        threads: shape.threads.clone()?,
    };
    let least = shape.threads.last().copied().unwrap_or(0);
    let size = Size::of(words, &shape.threads);
    for (number, word) in words.words.iter().enumerate().skip(least) {
        if bounds.have_room(size.with(word)) {
            shapes.push(shape.with(number)?)?;
        }
    }
    Ok(())
}

// The same for each of these shapes.
fn grow_all(
    words: &Words,
    bounds: &Bounds,
    shapes: &mut Vec<Shape>,
    from: usize,
    to: usize,
) -> Result<(), AllocError> {
    for number in from..to {
        grow(words, bounds, shapes, number)?;
    }
    Ok(())
}

/// All shapes within the bounds, each once.
///
/// Errors: where a growth was refused.
pub fn shapes(alloc: Global, words: &Words, bounds: &Bounds) -> Result<Vec<Shape>, AllocError> {
    let mut shapes = Vec::new(alloc);
    shapes.push(Shape {
        threads: Vec::new(alloc),
    })?;
    let mut from = 0;
    for _ in 0..bounds.threads {
        let to = shapes.len();
        grow_all(words, bounds, &mut shapes, from, to)?;
        from = to;
    }
    if !shapes.is_empty() {
        let _nobody = shapes.remove(0);
    }
    Ok(shapes)
}

// Puts one more call behind a thread's, if the bounds admit one.
fn lengthen_thread(
    words: &Words,
    bounds: &Bounds,
    threads: &mut Vec<usize>,
    thread: usize,
) -> bool {
    let Some(word) = threads.get(thread).copied() else {
        return false;
    };
    for method in [Method::Push, Method::Pop] {
        let Some(longer) = words.longer(word, method) else {
            return false;
        };
        set(threads, thread, longer);
        if bounds.admit(words, threads) {
            return true;
        }
    }
    set(threads, thread, word);
    false
}

fn set(threads: &mut Vec<usize>, thread: usize, word: usize) {
    if let Some(at) = threads.get_mut(thread) {
        *at = word;
    }
}

// Puts a thread of one call at the end, if the bounds admit one.
fn add_thread(
    words: &Words,
    bounds: &Bounds,
    threads: &mut Vec<usize>,
) -> Result<bool, AllocError> {
    for method in [Method::Push, Method::Pop] {
        let Some(word) = words.single(method) else {
            return Ok(false);
        };
        threads.push(word)?;
        if bounds.admit(words, threads) {
            return Ok(true);
        }
        let _refused = threads.pop();
    }
    Ok(false)
}

/// Makes the threads one call longer, if the bounds admit that: whether they do.
///
/// Errors: where a growth was refused.
pub fn lengthen(
    words: &Words,
    bounds: &Bounds,
    threads: &mut Vec<usize>,
) -> Result<bool, AllocError> {
    for thread in 0..threads.len() {
        if lengthen_thread(words, bounds, threads, thread) {
            return Ok(true);
        }
    }
    add_thread(words, bounds, threads)
}
