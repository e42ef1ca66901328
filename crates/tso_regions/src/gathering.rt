//! The states of all regions together.

ghost use Rattle.std.specs.Prelude.{◌≡◌, ◌<◌, ◌++◌, [], ℕ, IfOk, IfSome, Some, length, slice_get, true};
ghost use Rattle.tso_regions.specs.Gathering.{AreAllTaken, AreGathered, AreOwnListed, IsFirstTaken};
ghost use Rattle.tso_store.specs.Gathering.{picked};

use crate::realm::Realm;
use crate::region::Region;
use std::alloc::{AllocError, Global};
use tso_flow::Checked;
use tso_parts::Refused;
use tso_store::Gathered;

// Whether these are all numbers below one.
fn are_below(numbers: &[u32], count: usize) -> bool
    ensures { result ≡ true → (i n : ℕ) → slice_get numbers.now i ≡ Some n → n < count }
{
    numbers.iter().all(|number| (*number as usize) < count)
}

// Puts what a region lists as its own behind what is gathered, if these are numbers of its states, and lets go of the rest of it.
fn take_own<U: Realm>(
    alloc: Global,
    gathered: &mut Gathered<'_>,
    region: Region<'_, U>,
) -> Result<bool, Refused>
    requires client { U.client ≡ Some gathered.old.client }
    ensures taken { IfOk result (λ all. all ≡ true → gathered.new.states ≡ gathered.old.states ++ picked region.entry.states region.entry.own) }
    ensures client { gathered.new.client ≡ gathered.old.client }
{
    let (store, own) = region.into_states();
    let numbers = own.as_slice();
    if !are_below(numbers, store.len()) {
        drop(store);
        return Ok(false);
    }
    gathered.take(alloc, store, numbers)?;
    Ok(true)
}

// Puts what all regions list as their own, those of one behind those of another, into what gathers them.
fn take_all<U: Realm>(
    alloc: Global,
    gathered: &mut Gathered<'_>,
    regions: Vec<Region<'_, U>>,
    count: u64,
) -> Result<bool, Refused>
    requires client { U.client ≡ Some gathered.old.client }
    requires none { gathered.old.states ≡ [] }
    ensures gathered { IfOk result (λ all. all ≡ true → AreOwnListed count regions.entry.items → AreGathered gathered.old.client count regions.entry.items (length regions.entry.items) gathered.new.states) }
    ensures first { IfOk result (λ all. all ≡ true → IsFirstTaken regions.entry.items gathered.new.states) }
    ensures client { gathered.new.client ≡ gathered.old.client }
{
    for region in regions {
        region.is_known();
        if !take_own(alloc, gathered, region)? {
            return Ok(false);
        }
    }
    Ok(true)
}

/// What all regions list as their own, those of one behind those of another; of each region the rest is let go of before the next.
/// `None` where a region lists what is no state of it.
///
/// Errors: where a growth was refused, or there are as many parts of a kind as numbers.
pub fn gathered_of<'c, U: Realm>(
    alloc: Global,
    checked: &'c Checked,
    regions: Vec<Region<'_, U>>,
    count: u64,
) -> Result<Option<Gathered<'c>>, AllocError>
    requires client { U.client ≡ Some checked.now.client }
    ensures { IfOk result (λ found. IfSome found (AreAllTaken checked.now.client count regions.entry.items)) }
{
    let mut gathered = Gathered::new(alloc, checked, 0);
    match take_all(alloc, &mut gathered, regions, count) {
        Ok(true) => Ok(Some(gathered)),
        Ok(false) => {
            drop(gathered);
            Ok(None)
        }
        Err(_) => {
            drop(gathered);
            Err(AllocError)
        }
    }
}
