//! What a check leaves behind.

use std::mem;
use std::thread::Threads;
use tso_scan::Scanned;

/// What becomes of what a check has read of a certificate.
#[derive(Clone, Copy, PartialEq, Eq)]
pub enum Remains {
    /// It is let go of.
    Freed,
    /// It stays where it is until the process ends, which saves a program that ends next the time.
    Left,
}

/// Does with what was read what is asked for. So many workers let go of it.
pub fn put_away<R: Threads + Sync>(rt: &R, scanned: Scanned<'_>, workers: u64, remains: Remains) {
    match remains {
        Remains::Freed => scanned.let_go(rt, workers),
        Remains::Left => mem::forget(scanned),
    }
}
