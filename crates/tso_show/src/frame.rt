//! Registers and flags of a running call, as text.

ghost use Rattle.std.specs.Prelude.{◌≡◌, ◌++◌, codes, string_bytes, IfOk, OnOk};
ghost use Rattle.std.specs.List.{flat_map, list_any};
ghost use Rattle.tso_flow.specs.Accesses.{writes};
ghost use Rattle.tso_machine.specs.Instructions.{instructions_of};
ghost use Rattle.tso_show.specs.Registers.{bit_of, frame_text, is_used, location_text, location_word, word_at};

use std::alloc::AllocError;
use tso_flow::{Flag, LOCATIONS, Location, ProcedureKind, is_given, writes};
use tso_line::register_word;
use tso_machine::{Frame, Running, procedure_of};
use tso_prog::{Client, Step};

fn is_written(steps: &[Step], location: Location) -> bool
    ensures { result ≡ list_any (λ step. writes step location) steps.now }
{
    steps.iter().any(|step| writes(*step, location))
}

// Whether a call of this procedure can have it written: the call begins so, or some instruction writes it.
fn is_used(client: &Client, procedure: ProcedureKind, location: Location) -> bool
    ensures { result ≡ is_used client.now procedure location }
{
    let steps = procedure_of(client, procedure).instructions.as_slice();
    is_given(procedure, location) || is_written(steps, location)
}

fn bit_of(flag: bool) -> u64
    ensures { result ≡ bit_of flag }
{
    if flag { 1 } else { 0 }
}

// The word of a register, and 1 or 0 of a flag.
fn word_at(frame: &Frame, location: Location) -> u64
    ensures { result ≡ word_at frame.now location }
{
    match location {
        Location::Register(register) => frame.register(register),
        Location::Flag(Flag::Zero) => bit_of(frame.flags.zf),
        Location::Flag(Flag::Carry) => bit_of(frame.flags.cf),
        Location::Flag(Flag::Sign) => bit_of(frame.flags.sf),
        Location::Flag(Flag::Overflow) => bit_of(frame.flags.of),
    }
}

fn location_word(location: Location) -> &'static str
    ensures { result.now ≡ location_word location }
{
    match location {
        Location::Register(register) => register_word(register),
        Location::Flag(Flag::Zero) => "zf",
        Location::Flag(Flag::Carry) => "cf",
        Location::Flag(Flag::Sign) => "sf",
        Location::Flag(Flag::Overflow) => "of",
    }
}

#[tactic(auto, using(crate::proofs::Joins::joins))]
fn push_location(
    text: &mut String,
    client: &Client,
    running: &Running,
    location: Location,
) -> Result<(), AllocError>
    ensures { OnOk result (string_bytes text.new ≡ string_bytes text.old ++ location_text client.now running.now location) }
{
    if !is_used(client, running.procedure, location) {
        return Ok(());
    }
    let word = word_at(&running.frame, location);
    text.push_str(" ")?;
    text.push_str(location_word(location))?;
    write!(text, "={word}")
}

#[tactic(auto, using(crate::proofs::Joins::joins))]
fn push_locations(
    text: &mut String,
    client: &Client,
    running: &Running,
    locations: &[Location],
) -> Result<(), AllocError>
    ensures { OnOk result (string_bytes text.new ≡ string_bytes text.old ++ flat_map (location_text client.now running.now) locations.now) }
{
    for location in locations {
        push_location(text, client, running, *location)?;
    }
    Ok(())
}

/// Adds the registers and flags of a running call, each behind a space as `rax=7` or `zf=1`, in the order of `LOCATIONS`:
/// those that its procedure is given or can write.
///
/// Errors: where a growth was refused.
pub fn push_frame(text: &mut String, client: &Client, running: &Running) -> Result<(), AllocError>
    ensures { OnOk result (string_bytes text.new ≡ string_bytes text.old ++ frame_text client.now running.now) }
{
    push_locations(text, client, running, &LOCATIONS)
}
