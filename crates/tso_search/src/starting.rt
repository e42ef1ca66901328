//! The store with which a search begins.

ghost use Rattle.std.specs.Prelude.{◌≡◌, ◌≤◌, IfOk, MatchBool};
ghost use Rattle.tso_foot.specs.declared.table.Table.{Table as TableValue};
ghost use Rattle.tso_search.specs.Goodness.{AllGood};
ghost use Rattle.tso_search.specs.Grounds.{HasClosed, HasRoom};
ghost use Rattle.tso_search.specs.Reached.{IsBadAt};
ghost use Rattle.tso_search.specs.Searched.{IsStarted};
ghost use Rattle.tso_search.specs.declared.ground.Ground.TheVariants as grounds;

use crate::ending::is_good;
use crate::ground::Ground;
use std::alloc::{AllocError, Global};
use tso_flow::Checked;
use tso_foot::{ArrayTable, Table};
use tso_state::initial_state;
use tso_store::{AddError, Store};

/// A store with the initial state, with which a search by steps begins.
///
/// Errors: out of memory.
pub fn at_initial<'a>(alloc: Global, checked: &'a Checked) -> Result<Store<'a>, AllocError>
    ensures client { IfOk result (λ store. store.client ≡ checked.now.client) }
    ensures states { IfOk result (λ store. (t : TableValue) → IsStarted checked.now.client (grounds.Steps t) store.states) }
    ensures room { IfOk result (λ store. store.kept ≤ 8) }
{
    let state = initial_state(alloc, checked)?;
    let mut store = Store::new(alloc, checked, 0);
    let added = store.add(&state);
    drop(state);
    match added {
        Ok(_) => Ok(store),
        Err(AddError::Memory | AddError::Full) => {
            drop(store);
            Err(AllocError)
        }
        Err(AddError::Misfit) => unreachable!(),
    }
}

// A store with the state in which the run from the initial state stops.
fn at_first_stop<'a>(
    alloc: Global,
    checked: &'a Checked,
    own: &ArrayTable,
    table: &Table,
) -> Result<Store<'a>, AllocError>
    requires { HasClosed checked.now.client (grounds.Crossings own.now table.now) }
    ensures client { IfOk result (λ store. store.client ≡ checked.now.client) }
    ensures states { IfOk result (λ store. IsStarted checked.now.client (grounds.Crossings own.now table.now) store.states) }
{
    let state = initial_state(alloc, checked)?;
    let mut store = Store::new(alloc, checked, 0);
    let added = store.arrive_state(alloc, own, table, &state);
    drop(state);
    match added {
        Ok(_) => Ok(store),
        Err(AddError::Memory | AddError::Full) => {
            drop(store);
            Err(AllocError)
        }
        Err(AddError::Misfit) => unreachable!(),
    }
}

/// A store with the state with which a search begins: by steps the initial one, by crossings that in which the run from there stops.
///
/// Errors: out of memory, or, by crossings, where parts of states have no numbers left.
pub fn started<'a>(
    alloc: Global,
    checked: &'a Checked,
    ground: &Ground,
) -> Result<Store<'a>, AllocError>
    requires { HasClosed checked.now.client ground.now }
    ensures client { IfOk result (λ store. store.client ≡ checked.now.client) }
    ensures states { IfOk result (λ store. IsStarted checked.now.client ground.now store.states) }
    ensures room { IfOk result (λ store. HasRoom ground.now store.kept 8) }
{
    match ground {
        Ground::Steps(_) => at_initial(alloc, checked),
        Ground::Crossings(own, table) => at_first_stop(alloc, checked, own, table),
    }
}

/// Whether the runs to the state with which a search begins are good.
///
/// Errors: out of memory.
pub fn is_first_good(
    alloc: Global,
    checked: &Checked,
    ground: &Ground,
    store: &Store<'_>,
) -> Result<bool, AllocError>
    requires { IsStarted checked.now.client ground.now store.now.states }
    ensures { IfOk result (λ good. MatchBool good (AllGood checked.now.client store.now.states) (IsBadAt checked.now.client store.now.states 0)) }
{
    match store.state(alloc, 0)? {
        Some(state) => is_good(alloc, checked, &state),
        None => unreachable!(),
    }
}
