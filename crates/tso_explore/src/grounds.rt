//! By what a search of either grain goes.

ghost use Rattle.std.specs.Prelude.{◌≡◌, IfOk};
ghost use Rattle.tso_foot.specs.declared.table.ArrayTable.{ArrayTable as ArrayTableValue};
ghost use Rattle.tso_rec.specs.Conditions.{IsLeast};
ghost use Rattle.tso_rec.specs.declared.basis.Grain.TheVariants as grains;
ghost use Rattle.tso_search.specs.Grounds.{HasLeastTable, IsGround, grain_of};
ghost use Rattle.tso_search.specs.declared.ground.Ground.TheVariants as grounds;

use std::alloc::{AllocError, Global};
use tso_cells::Hull;
use tso_cert::intervals_of;
use tso_flow::Checked;
use tso_foot::{Table, build};
use tso_judge::least_table;
use tso_rec::Grain;
use tso_search::Ground;

// A table of intervals that hold all registers of each reached state, made of the instructions alone.
fn wide_intervals(alloc: Global, checked: &Checked) -> Result<Table, AllocError>
    ensures { IfOk result (λ t. (own : ArrayTableValue) → IsLeast checked.now.client own → IsGround checked.now.client (grounds.Crossings own t)) }
{
    let hull = Hull::empty(alloc, checked)?;
    let table = intervals_of(alloc, checked, &hull)?;
    Ok(Table::Intervals(table))
}

// By what a search by crossings goes.
fn crossings_of(alloc: Global, checked: &Checked) -> Result<Ground, AllocError>
    ensures closed { IfOk result (IsGround checked.now.client) }
    ensures least { IfOk result (HasLeastTable checked.now.client) }
    ensures grain { IfOk result (λ g. grain_of g ≡ grains.Crossings) }
{
    let table = wide_intervals(alloc, checked)?;
    match least_table(alloc, checked) {
        Ok(own) => Ok(Ground::Crossings(own, table)),
        Err(reason) => {
            drop(table);
            Err(reason)
        }
    }
}

// By what a search by steps goes.
fn steps_of(alloc: Global, checked: &Checked) -> Result<Ground, AllocError>
    ensures closed { IfOk result (IsGround checked.now.client) }
    ensures least { IfOk result (HasLeastTable checked.now.client) }
    ensures grain { IfOk result (λ g. grain_of g ≡ grains.Steps) }
{
    let table = build(alloc, checked)?;
    Ok(Ground::Steps(table))
}

/// By what a search of this grain goes: the least closed table of footprints, or for crossings the table of intervals that the instructions
/// alone give, with the least closed table of arrays beside it.
///
/// Errors: out of memory.
pub fn ground_of(alloc: Global, checked: &Checked, grain: Grain) -> Result<Ground, AllocError>
    ensures grain { IfOk result (λ g. grain_of g ≡ grain) }
    ensures closed { IfOk result (IsGround checked.now.client) }
    ensures least { IfOk result (HasLeastTable checked.now.client) }
{
    match grain {
        Grain::Steps => steps_of(alloc, checked),
        Grain::Crossings => crossings_of(alloc, checked),
    }
}
