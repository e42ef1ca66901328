//! Trees that were read.
ghost use Rattle.std.specs.Prelude.{◌≡◌, ◌≤◌, IfOk, IfSome, IsTrue, Some, slice_get};
ghost use Rattle.tso_cert.specs.Certificates.{fork_at, leaf_at, tree_at};
ghost use Rattle.tso_rec.specs.declared.basis.Grain.TheVariants.{Steps};
ghost use Rattle.tso_scan.specs.Scanned.{IsBranchScanned, IsScan};

use crate::shape::Shape;
use crate::sources::read_key;
use crate::states::{Scan, read_records};
use std::alloc::Global;
use std::boxed::Box;
use tso_code::read_number;
use tso_keys::Key;
use tso_list::Seq;
use tso_parts::Refused;
use tso_prog::Client;

// The most records of a leaf.
const RECORDS_IN_A_LEAF: u32 = 64;

// A leaf behind its byte, how many records may still come, and the bytes after it.
fn leaf_of<'a>(
    scan: &mut Scan,
    client: &Client,
    alloc: Global,
    room: u32,
    bytes: &'a [u8],
) -> Result<Option<(Shape, u32, &'a [u8])>, Refused>
    requires { IsScan client.now scan.old }
    ensures { IfOk result (λ o. IfSome o (λ x. IsBranchScanned client.now scan.old scan.new (leaf_at Steps room bytes.now) x.0 x.1 x.2.now)) }
{
    let Some((count, rest)) = read_number(bytes) else {
        return Ok(None);
    };
    if count > u64::from(RECORDS_IN_A_LEAF.min(room)) {
        return Ok(None);
    }
    match read_records(scan, client, alloc, count, rest)? {
        Some(rest) => Ok(Some((Shape::Leaf(count as u32), room - count as u32, rest))),
        None => Ok(None),
    }
}

/// A tree in which at most `depth` forks are inside one another, with at most `room` records, how many records may still come,
/// and the bytes after it.
///
/// Errors: where a growth was refused, or there are as many parts as numbers.
#[cycle(tree)]
pub fn branch_of<'a>(
    scan: &mut Scan,
    client: &Client,
    alloc: Global,
    depth: u8,
    room: u32,
    bytes: &'a [u8],
) -> Result<Option<(Shape, u32, &'a [u8])>, Refused>
    requires { IsScan client.now scan.old }
    ensures { IfOk result (λ o. IfSome o (λ x. IsBranchScanned client.now scan.old scan.new (tree_at Steps depth room bytes.now) x.0 x.1 x.2.now)) }
{
    match bytes {
        [0, rest @ ..] => {
            let Some((shape, room, rest)) = leaf_of(scan, client, alloc, room, rest)? else {
                return Ok(None);
            };
            Ok(Some((shape, room, rest)))
        }
        [1, rest @ ..] => {
            if depth == 0 {
                return Ok(None);
            }
            let Some((shape, room, rest)) = fork_of(scan, client, alloc, depth - 1, room, rest)?
            else {
                return Ok(None);
            };
            Ok(Some((shape, room, rest)))
        }
        _ => Ok(None),
    }
}

// Whether this is the key with this number.
fn is_key(keys: &Seq<Key>, number: usize, key: &Key) -> bool
    ensures { IsTrue result → slice_get keys.now number ≡ Some key.now }
{
    match keys.get(number) {
        Some(found) => found == key,
        None => false,
    }
}

// A fork, in each half of which at most `depth` forks are inside one another. `None` also where its state is not the first one of
// its right half.
#[cycle(tree)]
fn fork_of<'a>(
    scan: &mut Scan,
    client: &Client,
    alloc: Global,
    depth: u8,
    room: u32,
    bytes: &'a [u8],
) -> Result<Option<(Shape, u32, &'a [u8])>, Refused>
    requires { IsScan client.now scan.old }
    ensures { IfOk result (λ o. IfSome o (λ x. IsBranchScanned client.now scan.old scan.new (fork_at (tree_at Steps depth) room bytes.now) x.0 x.1 x.2.now)) }
{
    let Some((left, room, rest)) = branch_of(scan, client, alloc, depth, room, bytes)? else {
        return Ok(None);
    };
    let Some((middle, rest)) = read_key(&mut scan.sources, client, alloc, rest)? else {
        return Ok(None);
    };
    let first = scan.keys.len();
    let Some((right, room, rest)) = branch_of(scan, client, alloc, depth, room, rest)? else {
        return Ok(None);
    };
    if !is_key(&scan.keys, first, &middle) {
        return Ok(None);
    }
    let left = Box::new(alloc, left)?;
    let right = Box::new(alloc, right)?;
    Ok(Some((Shape::Fork(left, right), room, rest)))
}
