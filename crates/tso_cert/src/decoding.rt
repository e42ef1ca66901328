//! Certificates read from bytes.
ghost use Rattle.std.specs.Prelude.{◌≡◌, ◌<◌, ◌≤◌, ◌∷◌, ℕ, Err, IfOk, min, Ok};
ghost use Rattle.tso_code.specs.Numbers.{number};
ghost use Rattle.tso_cert.specs.Certificates.{certificate_at, Decodes, field, fork_at, front_at, Gives, leaf_at, magic, magic_at, Spells, table_by, tree_at};
ghost use Rattle.tso_cert.specs.Limits.{IsNoCertificate, PassesLimit, SpellingsAreUnique};
ghost use Rattle.tso_cert.specs.Trees.{IsWithinLimits, Tree, tree_of};
ghost use Rattle.tso_rec.specs.declared.basis.Basis.{Basis as CertificateBasis};
ghost use Rattle.tso_rec.specs.declared.basis.Grain.TheVariants.{Crossings};

use crate::cert::Cert;
use crate::fault::{DecodeError, Fault};
use std::alloc::Global;
use tso_cells::IntervalTable;
use tso_code::{Code, ReadError, read_number};
use tso_foot::Table;
use tso_rec::{Basis, Grain, Known, Packed};
use tso_state::State;

const RECORDS: u32 = 4_194_304;

const RECORDS_IN_A_LEAF: u32 = 64;

const FORKS: u8 = 64;

/// The first bytes of a certificate of this grain: "TSOC" or "TSOX".
pub fn magic(grain: Grain) -> &'static [u8]
    ensures { result.now ≡ magic grain }
{
    match grain {
        Grain::Steps => &[84, 83, 79, 67],
        Grain::Crossings => &[84, 83, 79, 88],
    }
}

// The value at the front of the bytes, and the bytes after it.
fn field_of<T: Code>(alloc: Global, bytes: &[u8]) -> Result<(T, &[u8]), DecodeError>
    ensures { Gives (λ x. (x.0, x.1.now)) result (field (T.read_at bytes.now)) }
{
    match T::read(alloc, bytes) {
        Ok(read) => Ok(read),
        Err(ReadError::Malformed) => Err(DecodeError::Fault(Fault::K01)),
        Err(ReadError::Memory) => Err(DecodeError::Memory),
    }
}

// A leaf behind its byte. Its limit is tested before a record is read.
#[tactic(auto, unfolding(crate::specs::Certificates::leaf_at))]
fn leaf_of<'a>(
    alloc: Global,
    grain: Grain,
    known: &mut Known,
    room: u32,
    bytes: &'a [u8],
) -> Result<(Cert, u32, &'a [u8]), DecodeError>
    ensures read { Gives (λ x. (tree_of x.0, x.1, x.2.now)) result (leaf_at grain room bytes.now) }
    // A count is no request for memory.
    ensures ended { (n : ℕ) → 0 < n → n ≤ min 64 room → bytes.now ≡ number n → result ≡ Err (DecodeError.Fault Fault.K01) }
{
    let Some((count, rest)) = read_number(bytes) else {
        return Err(DecodeError::Fault(Fault::K01));
    };
    if count > u64::from(RECORDS_IN_A_LEAF.min(room)) {
        return Err(DecodeError::Fault(Fault::K02));
    }
    match Packed::read_among(alloc, grain, known, count, rest) {
        Ok((records, rest)) => Ok((Cert::Leaf(records), room - count as u32, rest)),
        Err(ReadError::Malformed) => Err(DecodeError::Fault(Fault::K01)),
        Err(ReadError::Memory) => Err(DecodeError::Memory),
    }
}

// A tree in which at most `depth` forks are inside one another, with at most `room` records.
#[cycle(tree)]
#[tactic(auto, using(crate::proofs::Opening::tree_opens))]
fn branch_of<'a>(
    alloc: Global,
    grain: Grain,
    known: &mut Known,
    depth: u8,
    room: u32,
    bytes: &'a [u8],
) -> Result<(Cert, u32, &'a [u8]), DecodeError>
    ensures read { Gives (λ x. (tree_of x.0, x.1, x.2.now)) result (tree_at grain depth room bytes.now) }
    ensures bare { (n : ℕ) → 0 < n → n ≤ min 64 room → bytes.now ≡ 0 ∷ number n → result ≡ Err (DecodeError.Fault Fault.K01) }
{
    match bytes {
        [0, rest @ ..] => leaf_of(alloc, grain, known, room, rest),
        [1, rest @ ..] => {
            if depth == 0 {
                Err(DecodeError::Fault(Fault::K02))
            } else {
                fork_of(alloc, grain, known, depth - 1, room, rest)
            }
        }
        _ => Err(DecodeError::Fault(Fault::K01)),
    }
}

// A fork, in each half of which at most `depth` forks are inside one another.
#[cycle(tree)]
fn fork_of<'a>(
    alloc: Global,
    grain: Grain,
    known: &mut Known,
    depth: u8,
    room: u32,
    bytes: &'a [u8],
) -> Result<(Cert, u32, &'a [u8]), DecodeError>
    ensures { Gives (λ x. (tree_of x.0, x.1, x.2.now)) result (fork_at (tree_at grain depth) room bytes.now) }
{
    let (left, room, rest) = branch_of(alloc, grain, known, depth, room, bytes)?;
    let (state, rest) = match field_of::<State>(alloc, rest) {
        Ok(read) => read,
        Err(fault) => {
            drop(left);
            return Err(fault);
        }
    };
    match branch_of(alloc, grain, known, depth, room, rest) {
        Ok((right, room, rest)) => Ok((Cert::fork(alloc, left, state, right)?, room, rest)),
        Err(fault) => {
            drop(left);
            drop(state);
            Err(fault)
        }
    }
}

// The grain that the first four bytes tell, and the bytes behind them.
#[tactic(auto, unfolding(crate::specs::Certificates::magic_at))]
fn behind_magic(bytes: &[u8]) -> Result<(Grain, &[u8]), DecodeError>
    ensures { Gives (λ x. (x.0, x.1.now)) result (magic_at bytes.now) }
{
    if bytes.len() < 4 {
        return Err(DecodeError::Fault(Fault::K01));
    }
    let (first, rest) = bytes.split_at(4);
    if first == magic(Grain::Steps) {
        Ok((Grain::Steps, rest))
    } else if first == magic(Grain::Crossings) {
        Ok((Grain::Crossings, rest))
    } else {
        Err(DecodeError::Fault(Fault::K01))
    }
}

// The table of a certificate of crossings, which is one of intervals, and the bytes after it.
fn read_intervals(alloc: Global, bytes: &[u8]) -> Result<(Table, &[u8]), DecodeError>
    ensures { Gives (λ x. (x.0, x.1.now)) result (field (table_by Crossings bytes.now)) }
{
    match bytes {
        [1, behind @ ..] => {
            let (table, rest) = field_of::<IntervalTable>(alloc, behind)?;
            Ok((Table::Intervals(table), rest))
        }
        _ => Err(DecodeError::Fault(Fault::K01)),
    }
}

// The table of a certificate of this grain, with its version, and the bytes after it.
fn read_table(alloc: Global, grain: Grain, bytes: &[u8]) -> Result<(Table, &[u8]), DecodeError>
    ensures { Gives (λ x. (x.0, x.1.now)) result (field (table_by grain bytes.now)) }
{
    match grain {
        Grain::Steps => field_of::<Table>(alloc, bytes),
        Grain::Crossings => read_intervals(alloc, bytes),
    }
}

/// What the first four bytes of a certificate tell, and its table, and the bytes after both, which are those of the tree.
///
/// Errors: as for `decode`, of the bytes up to the end of the table.
pub fn read_front(alloc: Global, bytes: &[u8]) -> Result<(Basis, &[u8]), DecodeError>
    ensures { Gives (λ x. (x.0, x.1.now)) result (front_at bytes.now) }
{
    let (grain, rest) = behind_magic(bytes)?;
    let (table, rest) = read_table(alloc, grain, rest)?;
    Ok((Basis { grain, table }, rest))
}

/// The tree of a certificate of this grain at the front of the bytes, how many records more it might have had, and the bytes after it. A
/// leaf whose count of records is all that is left of the bytes is refused, and asks for no memory: nothing grows but by what was read.
///
/// Errors: as for `decode`, of the bytes up to the end of the tree.
pub fn read_tree(
    alloc: Global,
    grain: Grain,
    bytes: &[u8],
) -> Result<(Cert, u32, &[u8]), DecodeError>
    ensures read { Gives (λ x. (tree_of x.0, x.1, x.2.now)) result (tree_at grain 64 4194304 bytes.now) }
    ensures bare { (n : ℕ) → 0 < n → n ≤ 64 → bytes.now ≡ 0 ∷ number n → result ≡ Err (DecodeError.Fault Fault.K01) }
{
    let mut known = Known::new(alloc);
    branch_of(alloc, grain, &mut known, FORKS, RECORDS, bytes)
}

#[tactic(auto, unfolding(crate::specs::Certificates::certificate_at))]
fn whole(alloc: Global, bytes: &[u8]) -> Result<(Basis, Cert), DecodeError>
    ensures { Decodes result (certificate_at bytes.now) }
{
    let (basis, rest) = read_front(alloc, bytes)?;
    let (cert, _, rest) = read_tree(alloc, basis.grain, rest)?;
    if rest.is_empty() {
        Ok((basis, cert))
    } else {
        Err(DecodeError::Fault(Fault::K01))
    }
}

/// The grain, the table and the tree that the bytes spell, all of the bytes. Nothing grows but by what was read: a count is no request for
/// memory.
///
/// Errors: the first fault from the front, K01 or K02; `Memory` where memory ran out before it was met.
pub fn decode(alloc: Global, bytes: &[u8]) -> Result<(Basis, Cert), DecodeError>
    // What is read is spelled so, and within the limits.
    ensures found { IfOk result (λ r. Spells bytes.now r.0 (tree_of r.1) × IsWithinLimits (tree_of r.1)) }
    // What is spelled so, within the limits, is read.
    ensures only { (b : CertificateBasis) (c : Tree) → Spells bytes.now b c → IsWithinLimits c → Decodes result (Ok (b, c)) }
    // K02 exactly where a front of the bytes, still the beginning of a certificate, goes beyond a limit.
    ensures passed { result ≡ Err (DecodeError.Fault Fault.K02) → PassesLimit bytes.now }
    ensures beyond { PassesLimit bytes.now → Decodes result (Err Fault.K02) }
    // K01 everywhere else.
    ensures malformed { IsNoCertificate bytes.now → Decodes result (Err Fault.K01) }
    ensures exact { Decodes result (certificate_at bytes.now) }
{
    whole(alloc, bytes)
}

/// The one spelling of a value decodes to it, and only that does. This function does nothing when it runs.
pub fn spellings_are_unique()
    ensures { SpellingsAreUnique }
{}
