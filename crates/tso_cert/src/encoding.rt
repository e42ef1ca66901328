//! Certificates written as bytes.
ghost use Rattle.std.specs.Io.KnownBytes.{Appends};
ghost use Rattle.std.specs.Prelude.{◌≡◌, ◌++◌, [], IfOk, OnErr, OnOk};
ghost use Rattle.tso_cert.specs.Certificates.{certificate, magic, table_of};
ghost use Rattle.tso_cert.specs.Trees.{Tree, spelling_of, tree_of};
ghost use Rattle.tso_list.specs.Beginnings.{AppendsBeginning};

use crate::cert::Cert;
use crate::decoding::magic;
use crate::fault::WriteError;
use std::alloc::{AllocError, Global};
use std::io::Write;
use tso_code::Code;
use tso_foot::Table;
use tso_list::write_bytes;
use tso_rec::Grain;

// Puts the spelling of a tree at the end.
fn write_tree(grain: Grain, cert: &Cert, out: &mut Vec<u8>) -> Result<(), AllocError>
    ensures { OnOk result (out.new.items ≡ out.old.items ++ spelling_of grain (tree_of cert.now)) }
{
    match cert {
        Cert::Leaf(records) => {
            out.push(0)?;
            records.write(grain, out)?;
        }
        Cert::Fork(left, state, right) => {
            out.push(1)?;
            write_tree(grain, left, out)?;
            state.write(out)?;
            write_tree(grain, right, out)?;
        }
    }
    Ok(())
}

// Puts the spelling of a table with its version at the end.
fn write_table(grain: Grain, table: &Table, out: &mut Vec<u8>) -> Result<(), AllocError>
    ensures { OnOk result (out.new.items ≡ out.old.items ++ table_of grain table.now) }
{
    match (grain, table) {
        (Grain::Crossings, Table::Intervals(intervals)) => {
            out.push(1)?;
            intervals.write(out)
        }
        _ => table.write(out),
    }
}

/// The bytes of a certificate that stand before those of its tree.
pub fn front_of(alloc: Global, grain: Grain, table: &Table) -> Result<Vec<u8>, AllocError>
    ensures { IfOk result (λ v. v.items ≡ magic grain ++ table_of grain table.now) }
{
    let mut out = Vec::from_slice(alloc, magic(grain))?;
    write_table(grain, table, &mut out)?;
    Ok(out)
}

/// The one spelling of the grain, the table and the tree. Numbers that are greater than those of the grammar are spelled too, as is a
/// table of arrays among crossings, but such bytes do not decode. Choices are not spelled at a crossing.
pub fn encode(
    alloc: Global,
    grain: Grain,
    table: &Table,
    cert: &Cert,
) -> Result<Vec<u8>, AllocError>
    ensures { IfOk result (λ v. v.items ≡ certificate (record { grain = grain; table = table.now }) (tree_of cert.now)) }
{
    let mut out = front_of(alloc, grain, table)?;
    write_tree(grain, cert, &mut out)?;
    Ok(out)
}

/// The one spelling of the grain and the table, before the bytes of a tree.
pub fn encode_before(
    alloc: Global,
    grain: Grain,
    table: &Table,
    tree: &[u8],
) -> Result<Vec<u8>, AllocError>
    ensures { (c : Tree) → tree.now ≡ spelling_of grain c → IfOk result (λ v. v.items ≡ certificate (record { grain = grain; table = table.now }) c) }
{
    let mut out = front_of(alloc, grain, table)?;
    out.extend_from_slice(tree)?;
    Ok(out)
}

// Writes the bytes, and leaves none of them.
fn put_out<W: Write>(bytes: &mut Vec<u8>, out: &mut W) -> Result<(), WriteError>
    ensures ok { OnOk result (Appends (W.contents out.old) (W.contents out.new) bytes.old.items) }
    ensures none { OnOk result (bytes.new.items ≡ []) }
    ensures err { OnErr result (AppendsBeginning (W.contents out.old) (W.contents out.new) bytes.old.items) }
{
    match write_bytes(out, bytes.as_slice()) {
        Ok(()) => {
            bytes.clear();
            Ok(())
        }
        Err(error) => Err(WriteError::Io(error)),
    }
}

// Writes the bytes that wait, and then the spelling of a tree, leaf by leaf; none wait behind it.
fn put_tree<W: Write>(
    grain: Grain,
    cert: &Cert,
    waiting: &mut Vec<u8>,
    out: &mut W,
) -> Result<(), WriteError>
    ensures ok { OnOk result (Appends (W.contents out.old) (W.contents out.new) (waiting.old.items ++ spelling_of grain (tree_of cert.now))) }
    ensures none { OnOk result (waiting.new.items ≡ []) }
    ensures err { OnErr result (AppendsBeginning (W.contents out.old) (W.contents out.new) (waiting.old.items ++ spelling_of grain (tree_of cert.now))) }
{
    match cert {
        Cert::Leaf(records) => {
            waiting.push(0)?;
            records.write(grain, waiting)?;
            put_out(waiting, out)?;
        }
        Cert::Fork(left, state, right) => {
            waiting.push(1)?;
            put_tree(grain, left, waiting, out)?;
            state.write(waiting)?;
            put_tree(grain, right, waiting, out)?;
        }
    }
    Ok(())
}

/// Writes the bytes of `encode`, leaf by leaf: it takes memory for the spelling of one leaf, not of the whole.
///
/// Errors: `Io` where a write fails, and `Memory`; a beginning of the bytes has gone out then, perhaps none of them, and nothing
/// else.
pub fn write<W: Write>(
    alloc: Global,
    grain: Grain,
    table: &Table,
    cert: &Cert,
    out: &mut W,
) -> Result<(), WriteError>
    ensures ok { OnOk result (Appends (W.contents out.old) (W.contents out.new) (certificate (record { grain = grain; table = table.now }) (tree_of cert.now))) }
    ensures err { OnErr result (AppendsBeginning (W.contents out.old) (W.contents out.new) (certificate (record { grain = grain; table = table.now }) (tree_of cert.now))) }
{
    let mut waiting = front_of(alloc, grain, table)?;
    put_tree(grain, cert, &mut waiting, out)
}
