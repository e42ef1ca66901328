//! The states of all shards in one store.

ghost use Rattle.std.specs.Prelude.{◌≡◌, OnOk, IfOk};
ghost use Rattle.tso_search.specs.BySteps.{HasBegun};
ghost use Rattle.tso_table.specs.Leading.{IsKept};

use std::alloc::{AllocError, Global};
use tso_flow::Checked;
use tso_foot::Table as Footprints;
use tso_search::at_initial;
use tso_store::{AddError, Store};
use tso_table::{Kept, Table};

// Adds a state that is reached. One that a store cannot keep is left out.
fn add_met(checked: &Checked, store: &mut Store<'_>, kept: &Kept) -> Result<(), AllocError>
    requires client { store.old.client ≡ checked.now.client }
    requires begun { HasBegun checked.now.client store.old.states }
    requires kept { IsKept checked.now.client kept.now }
    ensures begun { OnOk result (HasBegun checked.now.client store.new.states) }
    ensures client { store.new.client ≡ store.old.client }
{
    match store.add(&kept.state) {
        Ok(_) => Ok(()),
        Err(AddError::Memory) => Err(AllocError),
        Err(AddError::Misfit) => Ok(()),
        Err(AddError::Full) => Ok(()),
    }
}

// Adds the state at a place of a table of this client.
fn add_at(
    alloc: Global,
    checked: &Checked,
    store: &mut Store<'_>,
    table: &Table<'_>,
    place: u32,
) -> Result<(), AllocError>
    requires client { store.old.client ≡ checked.now.client }
    requires table { table.now.client ≡ checked.now.client }
    requires begun { HasBegun checked.now.client store.old.states }
    ensures begun { OnOk result (HasBegun checked.now.client store.new.states) }
    ensures client { store.new.client ≡ store.old.client }
{
    match table.kept(alloc, place)? {
        Some(kept) => {
            let added = add_met(checked, store, &kept);
            drop(kept);
            added
        }
        None => Ok(()),
    }
}

// Adds the states of one table of this client.
fn add_table(
    alloc: Global,
    checked: &Checked,
    store: &mut Store<'_>,
    table: &Table<'_>,
) -> Result<(), AllocError>
    requires client { store.old.client ≡ checked.now.client }
    requires table { table.now.client ≡ checked.now.client }
    requires begun { HasBegun checked.now.client store.old.states }
    ensures begun { OnOk result (HasBegun checked.now.client store.new.states) }
    ensures client { store.new.client ≡ store.old.client }
{
    for place in 0..table.len() {
        add_at(alloc, checked, store, table, place as u32)?;
    }
    Ok(())
}

// Adds the states of all tables that are of this client and this table of footprints.
fn add_tables(
    alloc: Global,
    checked: &Checked,
    footprints: &Footprints,
    store: &mut Store<'_>,
    tables: &[Table<'_>],
) -> Result<(), AllocError>
    requires client { store.old.client ≡ checked.now.client }
    requires begun { HasBegun checked.now.client store.old.states }
    ensures begun { OnOk result (HasBegun checked.now.client store.new.states) }
    ensures client { store.new.client ≡ store.old.client }
{
    for table in tables {
        if table.is_for(checked, footprints, table.number()) {
            add_table(alloc, checked, store, table)?;
        }
    }
    Ok(())
}

// Adds the states of all tables, and has the store learn where the next steps of their threads lead.
fn fill(
    alloc: Global,
    checked: &Checked,
    footprints: &Footprints,
    store: &mut Store<'_>,
    tables: &[Table<'_>],
) -> Result<(), AllocError>
    requires client { store.old.client ≡ checked.now.client }
    requires begun { HasBegun checked.now.client store.old.states }
    ensures begun { OnOk result (HasBegun checked.now.client store.new.states) }
    ensures client { store.new.client ≡ store.old.client }
{
    add_tables(alloc, checked, footprints, store, tables)?;
    store.learn()
}

/// A store of the initial state and those of the tables, which has learnt where the next steps of their threads lead.
///
/// Errors: where a growth was refused.
pub fn merged<'a>(
    alloc: Global,
    checked: &'a Checked,
    footprints: &Footprints,
    tables: &[Table<'_>],
) -> Result<Store<'a>, AllocError>
    ensures client { IfOk result (λ store. store.client ≡ checked.now.client) }
    ensures begun { IfOk result (λ store. HasBegun checked.now.client store.states) }
{
    let mut store = at_initial(alloc, checked)?;
    match fill(alloc, checked, footprints, &mut store, tables) {
        Ok(()) => Ok(store),
        Err(reason) => {
            drop(store);
            Err(reason)
        }
    }
}
