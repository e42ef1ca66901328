//! Certificates that lie in several parts.

use crate::meetings::{put_answer, workers_of};
use std::alloc::Global;
use std::sync::Wait;
use std::thread::Threads;
use tso_calls::Failure;
use tso_cert::NoWatch;
use tso_check::{Remains, check_parts};
use tso_list::Seq;

// These bytes in parts of so many, of which the last may have fewer; in none where that is 0.
fn parts_of(alloc: Global, bytes: &[u8], size: usize) -> Result<Vec<Seq<u8>>, Failure> {
    let mut parts = Vec::new(alloc);
    if size == 0 {
        return Ok(parts);
    }
    for bytes in bytes.chunks(size) {
        let part = Seq::from_slice(alloc, bytes)?;
        parts.push(part)?;
    }
    Ok(parts)
}

/// Several workers check a certificate for a program, which lies in parts of so many bytes.
pub fn put_check_parts<R: Threads + Wait + Sync>(
    rt: &R,
    alloc: Global,
    program: &[u8],
    cert: &[u8],
    size: u64,
    workers: u64,
    out: &mut String,
) -> Result<(), Failure> {
    let workers = workers_of(workers)?;
    let parts = parts_of(alloc, cert, size as usize)?;
    let answer = check_parts(
        rt,
        alloc,
        program,
        &parts,
        workers,
        &NoWatch,
        Remains::Freed,
    );
    drop(parts);
    put_answer(answer, out)
}
