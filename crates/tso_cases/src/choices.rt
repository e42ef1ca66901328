//! Footprints, reasons and choices.

use crate::followed::put_followed;
use std::alloc::{AllocError, Global};
use tso_calls::{Failure, actor_of, actors_of, before, behind, index_at, state_after, word};
use tso_cells::{Hull, widened};
use tso_choose::{Choice, choose, chosen};
use tso_flow::Checked;
use tso_foot::{ArrayTable, Masks, Table, build, is_closed};
use tso_indep::{Reason, holds};
use tso_state::{State, is_well_formed};

const REASONS: [Reason; 6] = [
    Reason::Own,
    Reason::Far,
    Reason::Inside,
    Reason::Buffer,
    Reason::Return,
    Reason::NoReturn,
];

// Writes the masks of each instruction: of the arrays that are read, and that are written, from it on.
fn put_masks(masks: &[Masks], out: &mut String) -> Result<(), AllocError> {
    for mask in masks {
        let (reads, writes) = (mask.reads, mask.writes);
        write!(out, "{reads:02x}{writes:02x} ")?;
    }
    Ok(())
}

// Writes the masks of both procedures.
fn put_arrays(table: &ArrayTable, out: &mut String) -> Result<(), AllocError> {
    out.push_str("push ")?;
    put_masks(table.push.as_slice(), out)?;
    out.push_str("pop ")?;
    put_masks(table.pop.as_slice(), out)
}

// Writes the least closed table.
fn put_table(checked: &Checked, table: &Table, out: &mut String) -> Result<(), AllocError> {
    if let Table::Arrays(table) = table {
        put_arrays(table, out)?;
    }
    let closed = is_closed(checked, table);
    write!(out, "{closed}")
}

// Writes chosen actors, each with its reasons.
fn put_choices(choices: &[Choice], out: &mut String) -> Result<(), AllocError> {
    for choice in choices {
        let (actor, reasons) = (choice.actor, choice.reasons.as_slice());
        write!(out, "; {actor:?} {reasons:?}")?;
    }
    Ok(())
}

// Writes which actors are chosen, bit 2i for the core of thread i and 2i + 1 for its buffer, and their reasons.
fn put_chosen(
    alloc: Global,
    checked: &Checked,
    table: &Table,
    state: &State,
    out: &mut String,
) -> Result<(), Failure> {
    if !is_well_formed(checked, state) {
        return Err(Failure::Difference);
    }
    let set = chosen(checked, table, state);
    write!(out, "{set:b}")?;
    let choices = choose(alloc, checked, table, state)?;
    Ok(put_choices(choices.as_slice(), out)?)
}

// Writes the reasons that hold where some actors are chosen, of one of them towards another thread.
fn put_reasons(
    alloc: Global,
    checked: &Checked,
    table: &Table,
    state: &State,
    text: &str,
    out: &mut String,
) -> Result<(), Failure> {
    let chosen = actors_of(alloc, before(text, "/"))?;
    let rest = behind(text, "/");
    let (actor, other) = (actor_of(word(rest, 0))?, index_at(rest, 1)?);
    out.push_str("reasons: ")?;
    for reason in REASONS {
        if holds(checked, table, state, &chosen, actor, other, reason) {
            write!(out, "{reason:?} ")?;
        }
    }
    Ok(())
}

// What is asked with a table of footprints.
fn ask(
    alloc: Global,
    checked: &Checked,
    table: &Table,
    call: &str,
    out: &mut String,
) -> Result<(), Failure> {
    if word(call, 0) == "footprints" {
        put_table(checked, table, out)?;
        return Ok(());
    }
    if word(call, 0).starts_with("followed") {
        return put_followed(alloc, checked, table, out);
    }
    let text = behind(call, ":");
    let state = state_after(alloc, checked, before(text, "/"))?;
    let put = if word(call, 0).starts_with("chosen") {
        put_chosen(alloc, checked, table, &state, out)
    } else {
        put_reasons(alloc, checked, table, &state, behind(text, "/"), out)
    };
    drop(state);
    put
}

// A table of intervals for no states but those that calls begin with, and all that follow from these.
fn interval_table(alloc: Global, checked: &Checked) -> Result<Table, AllocError> {
    let hull = Hull::empty(alloc, checked)?;
    Ok(Table::Intervals(widened(alloc, checked, &hull)?))
}

// The table that a call is made with: one of intervals where it says so, and else the least one of arrays.
fn table_of(alloc: Global, checked: &Checked, call: &str) -> Result<Table, AllocError> {
    if word(call, 0).ends_with("_by_cells") {
        interval_table(alloc, checked)
    } else {
        build(alloc, checked)
    }
}

/// Makes a call on footprints, reasons or choices of a client. Whether the case is one.
pub fn answer(
    alloc: Global,
    checked: &Checked,
    call: &str,
    out: &mut String,
) -> Result<bool, Failure> {
    match word(call, 0) {
        "footprints"
        | "chosen"
        | "chosen_by_cells"
        | "reasons"
        | "reasons_by_cells"
        | "followed"
        | "followed_by_cells" => {}
        _ => return Ok(false),
    }
    let table = table_of(alloc, checked, call)?;
    let asked = ask(alloc, checked, &table, call, out);
    drop(table);
    asked?;
    Ok(true)
}
