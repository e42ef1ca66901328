//! States that were read, each with its end.
ghost use Rattle.std.specs.Prelude.{◌≡◌, [], IfOk, IfSome};
ghost use Rattle.tso_scan.specs.Scanned.{AreRecordsScanned, IsEndScanned, IsRecordScanned, IsScan, IsStateScanned, scanned_states};

use crate::sources::{Sources, read_key};
use std::alloc::Global;
use tso_code::ReadError;
use tso_keys::Key;
use tso_list::Seq;
use tso_parts::Refused;
use tso_prog::Client;
use tso_rec::{End, Reader, Shared};

/// By which states and their parts are hashed.
pub const SEED: u64 = 1;

/// What was read of a certificate: the keys of its states in their order, and their ends.
#[derive(Drop)]
pub struct Scan {
    pub sources: Sources,
    pub keys: Seq<Key>,
    pub reader: Reader<End>,
    pub ends: Seq<Shared<End>>,
}

impl Scan {
    /// Nothing.
    pub fn new(alloc: Global, client: &Client) -> Self
        ensures scan { IsScan client.now result }
        ensures states { scanned_states result ≡ [] }
        ensures ends { result.ends ≡ [] }
    {
        Scan {
            sources: Sources::new(alloc, SEED),
            keys: Seq::new(alloc),
            reader: Reader::new(alloc),
            ends: Seq::new(alloc),
        }
    }
}

// The end at the front of the bytes, which goes behind the others, and the bytes after it. `None` where there is no end.
fn read_end<'a>(
    scan: &mut Scan,
    alloc: Global,
    bytes: &'a [u8],
) -> Result<Option<&'a [u8]>, Refused>
    ensures { IfOk result (λ o. IfSome o (λ rest. IsEndScanned scan.old scan.new bytes.now rest.now)) }
{
    match scan.reader.read(alloc, 0, bytes) {
        Ok((end, rest)) => {
            scan.ends.push(end)?;
            Ok(Some(rest))
        }
        Err(ReadError::Malformed) => Ok(None),
        Err(ReadError::Memory) => Err(Refused::Memory),
    }
}

// The state at the front of the bytes, which goes behind the others, and the bytes after it. `None` where there is no state, or one
// that does not fit the client.
fn read_state<'a>(
    scan: &mut Scan,
    client: &Client,
    alloc: Global,
    bytes: &'a [u8],
) -> Result<Option<&'a [u8]>, Refused>
    requires { IsScan client.now scan.old }
    ensures { IfOk result (λ o. IfSome o (λ rest. IsStateScanned client.now scan.old scan.new bytes.now rest.now)) }
{
    let Some((key, rest)) = read_key(&mut scan.sources, client, alloc, bytes)? else {
        return Ok(None);
    };
    scan.keys.push(key)?;
    Ok(Some(rest))
}

// The record at the front of the bytes, whose state and end go behind the others, and the bytes after it. `None` as for a state.
fn read_record<'a>(
    scan: &mut Scan,
    client: &Client,
    alloc: Global,
    bytes: &'a [u8],
) -> Result<Option<&'a [u8]>, Refused>
    requires { IsScan client.now scan.old }
    ensures { IfOk result (λ o. IfSome o (λ rest. IsRecordScanned client.now scan.old scan.new bytes.now rest.now)) }
{
    let Some(rest) = read_state(scan, client, alloc, bytes)? else {
        return Ok(None);
    };
    let Some(rest) = read_end(scan, alloc, rest)? else {
        return Ok(None);
    };
    Ok(Some(rest))
}

/// So many records at the front of the bytes, whose states and ends go behind the others, and the bytes after them. `None` where
/// there are not so many, or where a state does not fit the client.
///
/// Errors: where a growth was refused, or there are as many parts as numbers.
pub fn read_records<'a>(
    scan: &mut Scan,
    client: &Client,
    alloc: Global,
    count: u64,
    bytes: &'a [u8],
) -> Result<Option<&'a [u8]>, Refused>
    requires { IsScan client.now scan.old }
    ensures { IfOk result (λ o. IfSome o (λ rest. AreRecordsScanned client.now scan.old scan.new count bytes.now rest.now)) }
{
    let mut rest = bytes;
    for _ in 0..count {
        let Some(after) = read_record(scan, client, alloc, rest)? else {
            return Ok(None);
        };
        rest = after;
    }
    Ok(Some(rest))
}
