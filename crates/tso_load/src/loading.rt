//! Files that are read as a whole, or in parts.

use crate::skim::read_certificate;
use crate::source::{Opened, Source};
use crate::span::{Span, Stretch, spans_of};
use crate::workers::{Reading, Seeking};
use std::alloc::{AllocError, Global};
use std::thread::Threads;
use tso_cert::run_by;
use tso_front::{Failure, Session};
use tso_list::Seq;
use tso_scan::forks_at;

// A file of fewer bytes is read by one worker sooner.
const LEAST: u64 = 2_097_152;

// So many bytes at the front of a certificate have its table and its first forks.
const FRONT: usize = 65_536;

/// A certificate that is read in several parts.
#[derive(Clone, Copy)]
struct Parted {
    /// How many bytes there are.
    length: u64,
    /// How many parts: a power of two.
    count: u64,
    /// How many forks stand before the first leaf.
    forks: usize,
}

// How many parts so many workers read, of whom there are at most 64.
fn count_for(workers: u64) -> u64 {
    let mut count = 1;
    for _ in 0..6 {
        if count <= workers / 2 {
            count *= 2;
        }
    }
    count
}

// How deep among the forks the right half stands that part `number` begins: 1 is the first one, in the middle of all parts.
fn depth_of(number: u64, count: u64) -> usize {
    let mut step = count;
    for depth in 0..64 {
        if step == 0 || number % step == 0 {
            return depth;
        }
        step /= 2;
    }
    64
}

// Where part `number` may begin: from a little before where it would if all parts were of one length, up to as far behind that.
fn stretch_of(parted: Parted, number: u64) -> Stretch {
    let middle = (parted.length / parted.count.max(1)).saturating_mul(number);
    let margin = parted.length / 32;
    Stretch {
        from: middle.saturating_sub(margin),
        to: middle.saturating_add(margin.saturating_mul(2)),
        forks: parted.forks.saturating_sub(depth_of(number, parted.count)),
    }
}

// How a file is read in parts by so many workers, where that is sooner.
fn parted_of(
    opened: &Opened,
    alloc: Global,
    path: &str,
    workers: u64,
) -> Result<Option<Parted>, Failure> {
    let (count, length) = (count_for(workers), opened.length);
    if count < 2 || length < LEAST {
        return Ok(None);
    }
    let front = opened.read(alloc, path, 0, FRONT)?;
    let found = forks_at(alloc, front.as_slice());
    drop(front);
    let Some(forks) = found else {
        return Ok(None);
    };
    Ok(Some(Parted {
        length,
        count,
        forks,
    }))
}

// Where each part behind the first is looked for.
fn stretches_of(alloc: Global, parted: Parted) -> Result<Vec<Stretch>, AllocError> {
    let mut stretches = Vec::new(alloc);
    for number in 1..parted.count {
        stretches.push(stretch_of(parted, number))?;
    }
    Ok(stretches)
}

// Where the parts behind the first begin, as far as they are found, each looked for by a worker of its own.
fn seams_of<R: Threads + Sync>(
    rt: &R,
    opened: &Opened,
    alloc: Global,
    path: &str,
    parted: Parted,
) -> Result<Vec<Option<u64>>, Failure> {
    let stretches = stretches_of(alloc, parted)?;
    let seeking = Seeking {
        opened,
        alloc,
        path,
        stretches: &stretches,
    };
    run_by(rt, &seeking, parted.count)?
}

// The bytes of these parts, each read by a worker of its own.
fn read_spans<R: Threads + Sync>(
    rt: &R,
    opened: &Opened,
    alloc: Global,
    path: &str,
    spans: &[Span],
) -> Result<Vec<Seq<u8>>, Failure> {
    let reading = Reading {
        opened,
        alloc,
        path,
        spans,
    };
    run_by(rt, &reading, spans.len() as u64)?
}

// The bytes of an open file in parts, where it is read so.
fn parts_of<R: Threads + Sync>(
    rt: &R,
    opened: &Opened,
    alloc: Global,
    path: &str,
    workers: u64,
) -> Result<Option<Vec<Seq<u8>>>, Failure> {
    let Some(parted) = parted_of(opened, alloc, path, workers)? else {
        return Ok(None);
    };
    let seams = seams_of(rt, opened, alloc, path, parted)?;
    match spans_of(alloc, &seams)? {
        Some(spans) => {
            let parts = read_spans(rt, opened, alloc, path, &spans)?;
            Ok(Some(parts))
        }
        None => Ok(None),
    }
}

// The bytes of a file in parts, where it is read so. It is opened once, however many workers read it.
fn load_parts<R: Threads + Source + Sync>(
    rt: &R,
    alloc: Global,
    path: &str,
    workers: u64,
) -> Result<Option<Vec<Seq<u8>>>, Failure> {
    if workers < 2 {
        return Ok(None);
    }
    match rt.opened(path) {
        Some(opened) => parts_of(rt, &opened, alloc, path, workers),
        None => Ok(None),
    }
}

/// All bytes of a certificate in a file, in one part, or where it is large and there are several workers, in a power of two of them,
/// each of which is read by another one: as many as there are workers, or somewhat more than half as many. The right half of each of
/// the certificate's first forks begins one, so far as it can be told from a few bytes; where that was not found, all are in one part.
///
/// Errors: `CannotRead` where it could not be opened or a read of it failed; `Memory`.
pub fn load<R: Threads + Source + Sync, S: Session>(
    rt: &R,
    session: &mut S,
    path: &str,
    workers: u64,
) -> Result<Vec<Seq<u8>>, Failure> {
    let alloc = session.alloc();
    match load_parts(rt, alloc, path, workers)? {
        Some(parts) => Ok(parts),
        None => {
            let mut parts = Vec::new(alloc);
            let bytes = read_certificate(session, path)?;
            parts.push(Seq::from_vec(bytes))?;
            Ok(parts)
        }
    }
}
