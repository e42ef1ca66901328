//! Records of a certificate that is one leaf.

ghost use Rattle.std.specs.Prelude.{◌≡◌, ◌<◌, ◌≤◌, length};
ghost use Rattle.tso_cert.specs.Lookup.{IsOrdered};
ghost use Rattle.tso_cert.specs.Trees.{record_count, tree_of};

use crate::packed::{has_state, put_numbers};
use std::alloc::{AllocError, Global};
use tso_calls::{Failure, behind, client_of, ensure};
use tso_cert::{Cert, DecodeError, decode, encode};
use tso_flow::Checked;
use tso_judge::{Code, Whole, judge_alone, least_table};
use tso_rec::{Basis, Packed, Record};
use tso_state::parts_fit;

// The record with this number.
fn record_of(leaf: &Packed, number: usize) -> Result<Record, AllocError>
    requires { number < length leaf.now }
{
    let state = leaf.state(number)?;
    let end = leaf.end(number).clone()?;
    Ok(Record { state, end })
}

// All records.
fn records_of(alloc: Global, leaf: &Packed) -> Result<Vec<Record>, AllocError> {
    let mut records = Vec::new(alloc);
    for number in 0..leaf.len() {
        records.push(record_of(leaf, number)?)?;
    }
    Ok(records)
}

// What is found of a record in a certificate that has no other one.
fn judged_in(
    alloc: Global,
    checked: &Checked,
    basis: &Basis,
    cert: &Cert,
    found: &Record,
) -> Result<Option<Code>, Failure>
    requires few { record_count (tree_of cert.now) ≤ 4194304 }
    requires ordered { IsOrdered (tree_of cert.now) }
{
    ensure(cert.len() == 1)?;
    ensure(cert.has(&found.state))?;
    let own = least_table(alloc, checked)?;
    let whole = Whole {
        alloc,
        checked,
        basis,
        own: &own,
        tree: cert,
    };
    let judged = whole.judge(&found.state, &found.end);
    drop(own);
    Ok(judged?)
}

// The same, in a certificate that is made of it.
fn judged_in_own(
    alloc: Global,
    checked: &Checked,
    basis: &Basis,
    found: &Record,
) -> Result<Option<Code>, Failure> {
    let mut own = Packed::new(alloc);
    own.push(found)?;
    let cert = Cert::Leaf(own);
    let judged = judged_in(alloc, checked, basis, &cert, found);
    drop(cert);
    judged
}

// Writes how many parts a record keeps of its own, and what is found of it, by itself and as the only one.
fn put_record(
    alloc: Global,
    checked: &Checked,
    basis: &Basis,
    leaf: &Packed,
    number: usize,
    found: &Record,
    out: &mut String,
) -> Result<(), Failure>
    requires { number < length leaf.now }
{
    has_state(leaf, number, &found.state)?;
    let kept = leaf.parts_kept(number);
    let Record { state, end } = found;
    let fits = parts_fit(checked, state);
    let alone = judge_alone(alloc, checked, basis.grain, &basis.table, state, fits, end)?;
    let in_own = judged_in_own(alloc, checked, basis, found)?;
    Ok(write!(out, "{kept} {alone:?} {in_own:?}; ")?)
}

// Writes this of all records, and then which of them have the states that a case tells.
fn put_all(
    alloc: Global,
    checked: &Checked,
    basis: &Basis,
    leaf: &Packed,
    records: &[Record],
    call: &str,
    out: &mut String,
) -> Result<(), Failure>
    requires { leaf.now ≡ records.now }
{
    for (number, found) in records.iter().enumerate() {
        put_record(alloc, checked, basis, leaf, number, found, out)?;
    }
    put_numbers(alloc, checked, leaf, behind(call, ":"), out)
}

// The same from a leaf that is made of the records.
fn put_leaf(
    alloc: Global,
    checked: &Checked,
    basis: &Basis,
    records: &[Record],
    call: &str,
    out: &mut String,
) -> Result<(), Failure> {
    let leaf = Packed::from_records(alloc, records)?;
    let put = put_all(alloc, checked, basis, &leaf, records, call, out);
    drop(leaf);
    put
}

// The same of a certificate that is one leaf.
fn put_cert(
    alloc: Global,
    checked: &Checked,
    basis: &Basis,
    cert: &Cert,
    call: &str,
    out: &mut String,
) -> Result<(), Failure> {
    match cert {
        Cert::Leaf(leaf) => {
            let records = records_of(alloc, leaf)?;
            put_leaf(alloc, checked, basis, &records, call, out)
        }
        Cert::Fork(..) => Err(Failure::Unreadable),
    }
}

// Whether a certificate is spelled so.
fn ask_spelled(alloc: Global, basis: &Basis, cert: &Cert, bytes: &[u8]) -> Result<(), Failure> {
    let spelled = encode(alloc, basis.grain, &basis.table, cert)?;
    ensure(spelled.as_slice() == bytes)
}

// The same of a certificate that is spelled so.
fn put_spelled(
    alloc: Global,
    checked: &Checked,
    basis: &Basis,
    cert: &Cert,
    bytes: &[u8],
    call: &str,
    out: &mut String,
) -> Result<(), Failure> {
    ask_spelled(alloc, basis, cert, bytes)?;
    put_cert(alloc, checked, basis, cert, call, out)
}

// The same of a certificate that is read.
fn put_decoded(
    alloc: Global,
    checked: &Checked,
    bytes: &[u8],
    call: &str,
    out: &mut String,
) -> Result<(), Failure> {
    let (basis, cert) = match decode(alloc, bytes) {
        Ok(found) => found,
        Err(DecodeError::Memory) => return Err(Failure::Memory),
        Err(DecodeError::Fault(_)) => return Err(Failure::Unreadable),
    };
    let put = put_spelled(alloc, checked, &basis, &cert, bytes, call, out);
    drop(cert);
    drop(basis);
    put
}

/// Writes what is found of the records of a certificate for a program, and which records have the states that a case tells.
pub fn put_records(
    alloc: Global,
    program: &[u8],
    bytes: &[u8],
    call: &str,
    out: &mut String,
) -> Result<(), Failure> {
    let checked = client_of(alloc, program)?;
    let put = put_decoded(alloc, &checked, bytes, call, out);
    drop(checked);
    put
}
