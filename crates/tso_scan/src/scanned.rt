//! Whole certificates, read straight into a store.
ghost use Rattle.std.specs.Option.{option_copied};
ghost use Rattle.std.specs.Prelude.{◌≡◌, IfOk, IfSome, List, slice_get, ℕ};
ghost use Rattle.tso_scan.specs.Halves.{IsOfWhole, IsStored, IsTreeRead, stretch_of};
ghost use Rattle.tso_scan.specs.Scanned.{IsScanned, IsScannedBehind};
ghost use Rattle.tso_scan.specs.Parts.{text_of};
ghost use Rattle.tso_prog.specs.declared.client.Client.{Client};

use crate::front::read_steps;
use crate::halves::{Half, RECORDS, Records, Unread, read_alone};
use crate::shape::Shape;
use crate::whole::{Whole, whole_of};
use std::alloc::{AllocError, Global};
use std::thread;
use std::thread::Threads;
use tso_cert::run_by;
use tso_flow::Checked;
use tso_foot::Table;
use tso_list::Seq;
use tso_rec::{End, Shared};
use tso_store::Store;

const FORKS: u8 = 64;

/// A certificate, without a tree: the states of its records, each with its record's number, and their ends in the same order.
#[derive(Drop)]
pub struct Scanned<'a> {
    pub table: Table,
    pub store: Store<'a>,
    pub ends: Seq<Shared<End>>,
    /// How the records lie in leaves and forks.
    pub shape: Shape,
}

impl<'a> Scanned<'a> {
    /// The end of the record with this number, if there is one. It takes no memory.
    pub fn end(&self, number: u64) -> Option<&End>
        ensures { option_copied result ≡ slice_get self.now.ends number }
    {
        match self.ends.get(number as usize) {
            Some(end) => Some(end.get()),
            None => None,
        }
    }

    /// Lets go of it, by two threads where there are to be several workers: its states take as long as the ends.
    pub fn let_go<R: Threads + Sync>(self, rt: &R, workers: u64) {
        let Scanned {
            table,
            store,
            ends,
            shape,
        } = self;
        drop(table);
        drop(shape);
        if workers > 1 {
            thread::join(rt, || drop(store), || drop(ends));
        } else {
            drop(store);
            drop(ends);
        }
    }
}

// The certificate of a table and a tree that was read.
fn put_together<'c>(table: Table, whole: Whole<'c>) -> Scanned<'c>
    ensures { IsOfWhole table whole.entry result }
{
    let Whole { store, records } = whole;
    let Records {
        ends,
        shape,
        room: _room,
        behind: _behind,
    } = records;
    Scanned {
        table,
        store,
        ends,
        shape,
    }
}

// The same, whose store has learnt what its look-ups remember.
fn learned<'c>(table: Table, whole: Whole<'c>) -> Result<Scanned<'c>, AllocError>
    ensures { IfOk result (IsOfWhole table whole.entry) }
{
    let mut whole = whole;
    match whole.store.learn() {
        Ok(()) => Ok(put_together(table, whole)),
        Err(reason) => {
            drop(table);
            drop(whole);
            Err(reason)
        }
    }
}

// The same. `None` where something is behind the tree.
fn scanned_of<'c>(table: Table, whole: Whole<'c>) -> Result<Option<Scanned<'c>>, AllocError>
    ensures { (c : Client) (bytes : List ℕ) (h : Half) → IsTreeRead (stretch_of c 64 4194304 bytes) h → IsStored h whole.entry → IfOk result (λ o. IfSome o (IsScannedBehind c table bytes)) }
{
    if whole.records.behind != 0 {
        drop(table);
        drop(whole);
        return Ok(None);
    }
    let scanned = learned(table, whole)?;
    Ok(Some(scanned))
}

// The whole tree at the front of the bytes.
fn read_tree<'c>(
    alloc: Global,
    checked: &'c Checked,
    bytes: &[u8],
) -> Result<Option<Half<'c>>, AllocError>
    ensures { IfOk result (λ o. IfSome o (IsTreeRead (stretch_of checked.now.client 64 4194304 bytes.now))) }
{
    let unread = Unread {
        alloc,
        checked,
        depth: FORKS,
        room: RECORDS,
        bytes,
        more: &[],
        taken: bytes.len(),
    };
    read_alone(&unread)
}

// The same of bytes in several parts, read by so many workers.
fn read_tree_with<'c, R: Threads + Sync>(
    rt: &R,
    alloc: Global,
    checked: &'c Checked,
    bytes: &[u8],
    more: &[Seq<u8>],
    workers: u64,
) -> Result<Option<Half<'c>>, AllocError>
    ensures { IfOk result (λ o. IfSome o (IsTreeRead (stretch_of checked.now.client 64 4194304 (text_of bytes.now more.now)))) }
{
    let unread = Unread {
        alloc,
        checked,
        depth: FORKS,
        room: RECORDS,
        bytes,
        more,
        taken: bytes.len(),
    };
    run_by(rt, &unread, workers)
}

// The certificate of a table and of the tree in the bytes behind it.
fn scan_tree<'a>(
    alloc: Global,
    checked: &'a Checked,
    table: Table,
    bytes: &[u8],
) -> Result<Option<Scanned<'a>>, AllocError>
    ensures { IfOk result (λ o. IfSome o (IsScannedBehind checked.now.client table bytes.now)) }
{
    let Some(half) = read_tree(alloc, checked, bytes)? else {
        return Ok(None);
    };
    match whole_of(half) {
        Some(whole) => scanned_of(table, whole),
        None => Ok(None),
    }
}

// The same of bytes in several parts, read by so many workers.
fn scan_tree_with<'a, R: Threads + Sync>(
    rt: &R,
    alloc: Global,
    checked: &'a Checked,
    table: Table,
    bytes: &[u8],
    more: &[Seq<u8>],
    workers: u64,
) -> Result<Option<Scanned<'a>>, AllocError>
    ensures { IfOk result (λ o. IfSome o (IsScannedBehind checked.now.client table (text_of bytes.now more.now))) }
{
    let Some(half) = read_tree_with(rt, alloc, checked, bytes, more, workers)? else {
        return Ok(None);
    };
    match whole_of(half) {
        Some(whole) => scanned_of(table, whole),
        None => Ok(None),
    }
}

/// The certificate in the bytes, for this client, read straight into a store, where its states rise. `None` where they are no
/// certificate of steps, where a record's state does not fit the client or is not above the one before, where a fork's state is not the
/// first one of its right half, or where there are as many parts as numbers: then nothing is said of the bytes.
///
/// Errors: where a growth was refused.
pub fn scan<'a>(
    alloc: Global,
    checked: &'a Checked,
    bytes: &[u8],
) -> Result<Option<Scanned<'a>>, AllocError>
    ensures { IfOk result (λ o. IfSome o (IsScanned checked.now.client bytes.now)) }
{
    match read_steps(alloc, bytes)? {
        Some((table, rest)) => scan_tree(alloc, checked, table, rest),
        None => Ok(None),
    }
}

/// The same of bytes that may lie in several parts, read by so many workers. Where the right half of a fork begins is known only once the
/// left half was read: so it is guessed, and read by another worker meanwhile. Where bytes lie in parts it is guessed to begin one, of as
/// many of them as go to each half. Where the left half ends elsewhere, the fork is read once more by one worker.
///
/// Errors: those of `scan`.
pub fn scan_with<'a, R: Threads + Sync>(
    rt: &R,
    alloc: Global,
    checked: &'a Checked,
    bytes: &[u8],
    more: &[Seq<u8>],
    workers: u64,
) -> Result<Option<Scanned<'a>>, AllocError>
    ensures { IfOk result (λ o. IfSome o (IsScanned checked.now.client (text_of bytes.now more.now))) }
{
    match read_steps(alloc, bytes)? {
        Some((table, rest)) => scan_tree_with(rt, alloc, checked, table, rest, more, workers),
        None => Ok(None),
    }
}
