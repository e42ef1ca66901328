//! Reads of a register or a flag that is not written.

ghost use Rattle.std.specs.Prelude.{◌≡◌, ◌<◌, length, IfOk, IfSome};
ghost use Rattle.tso_flow.specs.Calls.{procedure_of_kind};
ghost use Rattle.tso_say.specs.Unwritten.{IsUnwritten, IsUnwrittenAt, location_word};

use crate::paths::path;
use std::alloc::{AllocError, Global};
use tso_flow::{Flag, LOCATIONS, Location, ProcedureKind, is_given, reads};
use tso_line::register_word;
use tso_prog::{Client, Procedure};

/// A read of a register or a flag that is not written where control comes along a path.
#[derive(Drop)]
pub struct UnwrittenRead {
    pub kind: ProcedureKind,
    /// The position of the instruction that reads.
    pub position: usize,
    pub location: Location,
    /// The positions that control comes to behind the first instruction, the reading one last; empty where the first reads.
    pub path: Vec<usize>,
}

// The read of this register or flag by the instruction at a position, if it has one and a path leads there.
fn read_of(
    alloc: Global,
    kind: ProcedureKind,
    procedure: &Procedure,
    position: usize,
    location: Location,
) -> Result<Option<UnwrittenRead>, AllocError>
    requires { position < length procedure.now.instructions }
    ensures { IfOk result (λ found. IfSome found (λ u. IsUnwrittenAt kind procedure.now position u)) }
{
    let steps = procedure.instructions.as_slice();
    if is_given(kind, location) || !reads(kind, steps[position], location) {
        return Ok(None);
    }
    match path(alloc, steps, location, position)? {
        Some(path) => Ok(Some(UnwrittenRead {
            kind,
            position,
            location,
            path,
        })),
        None => Ok(None),
    }
}

// The first read of the instruction at a position.
fn read_at(
    alloc: Global,
    kind: ProcedureKind,
    procedure: &Procedure,
    position: usize,
) -> Result<Option<UnwrittenRead>, AllocError>
    requires { position < length procedure.now.instructions }
    ensures { IfOk result (λ found. IfSome found (λ u. IsUnwrittenAt kind procedure.now position u)) }
{
    for location in LOCATIONS {
        if let Some(found) = read_of(alloc, kind, procedure, position, location)? {
            return Ok(Some(found));
        }
    }
    Ok(None)
}

// The first read on this line of a procedure.
fn read_in(
    alloc: Global,
    kind: ProcedureKind,
    procedure: &Procedure,
    line: u32,
) -> Result<Option<UnwrittenRead>, AllocError>
    ensures { IfOk result (λ found. IfSome found (λ u. IsUnwritten kind procedure.now line u)) }
{
    let lines = procedure.lines.as_slice();
    for position in 0..lines.len() {
        if lines[position] == line {
            if let Some(found) = read_at(alloc, kind, procedure, position)? {
                return Ok(Some(found));
            }
        }
    }
    Ok(None)
}

/// A register or flag that an instruction on this line reads, and a path to it on which nothing writes that. Where there is
/// none, the line has no such read.
///
/// Errors: where a growth was refused.
pub fn unwritten(
    alloc: Global,
    client: &Client,
    line: u32,
) -> Result<Option<UnwrittenRead>, AllocError>
    ensures { IfOk result (λ found. IfSome found (λ u. IsUnwritten u.kind (procedure_of_kind client.now u.kind) line u)) }
{
    match read_in(alloc, ProcedureKind::Push, &client.push, line)? {
        Some(found) => Ok(Some(found)),
        None => read_in(alloc, ProcedureKind::Pop, &client.pop, line),
    }
}

/// The word of a register, or the name of a flag.
pub fn location_word(location: Location) -> &'static str
    ensures { result.now ≡ location_word location }
{
    match location {
        Location::Register(register) => register_word(register),
        Location::Flag(Flag::Zero) => "ZF",
        Location::Flag(Flag::Carry) => "CF",
        Location::Flag(Flag::Sign) => "SF",
        Location::Flag(Flag::Overflow) => "OF",
    }
}
