//! What several workers do with a file, each with a part of its own.

use crate::source::Opened;
use crate::span::{Span, Stretch, seam_from};
use std::alloc::{AllocError, Global};
use tso_cert::Task;
use tso_front::Failure;
use tso_list::Seq;

/// Parts of a file, which are to be read.
#[derive(Drop)]
pub struct Reading<'a> {
    pub opened: &'a Opened,
    pub alloc: Global,
    pub path: &'a str,
    pub spans: &'a [Span],
}

/// Stretches of a file, in each of which it is looked for where a part may begin.
#[derive(Drop)]
pub struct Seeking<'a> {
    pub opened: &'a Opened,
    pub alloc: Global,
    pub path: &'a str,
    pub stretches: &'a [Stretch],
}

// What was found by one worker, and what by another behind it.
fn both<T: Drop>(
    first: Result<Vec<T>, Failure>,
    second: Result<Vec<T>, Failure>,
) -> Result<Vec<T>, Failure> {
    let mut all = first?;
    let mut others = second?;
    all.append(&mut others)?;
    Ok(all)
}

// The bytes of each part.
fn read_all(reading: &Reading<'_>) -> Result<Vec<Seq<u8>>, Failure> {
    let mut parts = Vec::new(reading.alloc);
    for span in reading.spans {
        let (alloc, path) = (reading.alloc, reading.path);
        let bytes = reading.opened.read(alloc, path, span.start, span.most)?;
        parts.push(Seq::from_vec(bytes))?;
    }
    Ok(parts)
}

// Where a part may begin in each stretch.
fn seek_all(seeking: &Seeking<'_>) -> Result<Vec<Option<u64>>, Failure> {
    let mut seams = Vec::new(seeking.alloc);
    for stretch in seeking.stretches {
        let seam = seam_from(seeking.opened, seeking.alloc, seeking.path, *stretch)?;
        seams.push(seam)?;
    }
    Ok(seams)
}

impl<'a> Task for Reading<'a> {
    type Output = Result<Vec<Seq<u8>>, Failure>;

    ghost is_ready = { λ p. Unit {0} };

    ghost is_output = { λ p o. Unit {0} };

    ghost are_halves = { λ p left right. Unit {0} };

    fn run(&self) -> Result<Result<Vec<Seq<u8>>, Failure>, AllocError> {
        Ok(read_all(self))
    }

    fn halves(&self) -> Option<(Self, Self)> {
        if self.spans.len() < 2 {
            return None;
        }
        let (low, high) = self.spans.split_at(self.spans.len() / 2);
        let left = Reading {
            opened: self.opened,
            alloc: self.alloc,
            path: self.path,
            spans: low,
        };
        let right = Reading {
            opened: self.opened,
            alloc: self.alloc,
            path: self.path,
            spans: high,
        };
        Some((left, right))
    }

    fn joined(
        &self,
        _left: &Self,
        _right: &Self,
        first: Result<Vec<Seq<u8>>, Failure>,
        second: Result<Vec<Seq<u8>>, Failure>,
    ) -> Result<Result<Vec<Seq<u8>>, Failure>, AllocError> {
        Ok(both(first, second))
    }
}

impl<'a> Task for Seeking<'a> {
    type Output = Result<Vec<Option<u64>>, Failure>;

    ghost is_ready = { λ p. Unit {0} };

    ghost is_output = { λ p o. Unit {0} };

    ghost are_halves = { λ p left right. Unit {0} };

    fn run(&self) -> Result<Result<Vec<Option<u64>>, Failure>, AllocError> {
        Ok(seek_all(self))
    }

    fn halves(&self) -> Option<(Self, Self)> {
        if self.stretches.len() < 2 {
            return None;
        }
        let (low, high) = self.stretches.split_at(self.stretches.len() / 2);
        let left = Seeking {
            opened: self.opened,
            alloc: self.alloc,
            path: self.path,
            stretches: low,
        };
        let right = Seeking {
            opened: self.opened,
            alloc: self.alloc,
            path: self.path,
            stretches: high,
        };
        Some((left, right))
    }

    fn joined(
        &self,
        _left: &Self,
        _right: &Self,
        first: Result<Vec<Option<u64>>, Failure>,
        second: Result<Vec<Option<u64>>, Failure>,
    ) -> Result<Result<Vec<Option<u64>>, Failure>, AllocError> {
        Ok(both(first, second))
    }
}
