//! Sets of lines, by their size.

use std::alloc::{AllocError, Global};

/// How many sets are tried at the most.
pub const MOST_SETS: u64 = 5_000;

/// How many sets of at most so many of so many lines there are, but for the empty one.
pub fn count_of(lines: usize, most: usize) -> u64 {
    let mut count: u64 = 0;
    let mut of_size: u64 = 1;
    for size in 1..=most.min(lines) {
        let left = lines.saturating_sub(size).saturating_add(1);
        of_size = of_size.saturating_mul(left as u64) / size as u64;
        count = count.saturating_add(of_size);
    }
    count
}

// Puts at the end each set that has one line more than this, which is behind all of its own.
fn put_longer(
    sets: &mut Vec<Vec<usize>>,
    lines: &[usize],
    set: &[usize],
) -> Result<(), AllocError> {
    let last = set.last().copied().unwrap_or(0);
    for line in lines.iter().filter(|line| **line > last) {
        let mut longer = Vec::from_slice(*sets.allocator(), set)?;
        longer.push(*line)?;
        sets.push(longer)?;
    }
    Ok(())
}

/// The sets that have one line more than these, each once, in rising order.
///
/// Errors: where a growth was refused.
pub fn longer(
    alloc: Global,
    lines: &[usize],
    sets: &[Vec<usize>],
) -> Result<Vec<Vec<usize>>, AllocError> {
    let mut longer = Vec::new(alloc);
    for set in sets {
        put_longer(&mut longer, lines, set)?;
    }
    Ok(longer)
}

/// The empty set alone.
///
/// Errors: where a growth was refused.
pub fn empty(alloc: Global) -> Result<Vec<Vec<usize>>, AllocError> {
    let mut sets = Vec::new(alloc);
    sets.push(Vec::new(alloc))?;
    Ok(sets)
}

// Whether all lines of a set stand in the other.
fn is_within(set: &[usize], other: &[usize]) -> bool {
    set.iter().all(|line| other.contains(line))
}

/// Whether one of these sets stands in the other.
pub fn is_any_within(sets: &[Vec<usize>], other: &[usize]) -> bool {
    for set in sets {
        if is_within(set, other) {
            return true;
        }
    }
    false
}
