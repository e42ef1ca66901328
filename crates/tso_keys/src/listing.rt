//! Histories by the numbers of their lists of calls, of which there are few, and ranks of histories.

ghost use Rattle.std.specs.Prelude.{◌≡◌, ◌<◌, ◌≤◌, ◌^◌, ℕ, IfOk, IfSome, Some, length, slice_get};
ghost use Rattle.tso_parts.specs.Numbers.{IsNumbered};
ghost use Rattle.tso_keys.specs.Listing.{AreListed, ranked_row};
ghost use Rattle.tso_keys.specs.Orders.{AreRanks, IsInOrder, history_cmp};

use crate::kept::add_row;
use crate::key::NO_KEY;
use crate::rank_rows::ranks_in;
use crate::ranks::{all_numbers, places_in, ranks_of};
use std::alloc::{AllocError, Global};
use std::marker::Model;
use tso_hist::{Call, History};
use tso_list::Seq;
use tso_parts::{Catalog, Refused};

/// Histories of as many threads, by the numbers of their lists of calls, each of which is kept once and has a rank. Contracts see the
/// histories.
#[derive(Drop)]
struct Listing<'a> {
    histories: &'a [History],
    lists: Catalog<Seq<Call>>,
    ranks: Vec<u32>,
    rows: Vec<[u32; 5]>,
}

impl<'a> Model for Listing<'a> {
    ghost use Rattle.std.specs.Prelude.{List};
    ghost use Rattle.tso_hist.specs.declared.call.Call.{Call as BegunCall};
    ghost use Rattle.tso_keys.specs.Listing.{IsListing};

    ghost Value = { List (List (List BegunCall)) };

    ghost view = { λ l. l.histories.now };

    ghost invariant = { λ l. IsListing l.lists l.ranks.items l.histories.now l.rows.items };
}

// The row with this number.
fn row_at(rows: &[[u32; 5]], number: u32) -> Option<[u32; 5]>
    ensures { result ≡ slice_get rows.now number }
{
    rows.get(number as usize).copied()
}

// The rows of these histories, whose lists are kept where they are new, if all have so many threads.
fn listed_rows(
    alloc: Global,
    lists: &mut Catalog<Seq<Call>>,
    width: usize,
    histories: &[History],
) -> Result<Option<Vec<[u32; 5]>>, Refused>
    requires { width ≤ 5 }
    ensures { IfOk result (λ o. IfSome o (λ rows. AreListed lists.new width histories.now rows.items)) }
{
    let mut rows = Vec::new(alloc);
    let mut near = NO_KEY.threads;
    for history in histories {
        let all = history.threads();
        if all.len() != width {
            return Ok(None);
        }
        near = add_row(lists, &near, all)?;
        rows.push(near)?;
    }
    Ok(Some(rows))
}

// The ranks of the lists of the history with this number, if there are so many.
fn ranked_row(ranks: &[u32], rows: &[[u32; 5]], number: u32) -> Option<[u32; 5]>
    ensures { result ≡ ranked_row ranks.now rows.now number }
{
    match row_at(rows, number) {
        Some(row) => Some(ranks_in(ranks, &row)),
        None => None,
    }
}

impl<'a> Listing<'a> {
    // The numbers of all histories, in their order. Each history's ranks are looked up once.
    fn order(&self, alloc: Global) -> Result<Vec<u32>, AllocError>
        requires { length self.now < 2 ^ 32 }
        ensures order { IfOk result (λ ns. IsInOrder history_cmp self.now ns.items) }
        ensures few { IfOk result (λ ns. length ns.items < 2 ^ 32) }
    {
        let ranks = self.ranks.as_slice();
        let rows = self.rows.as_slice();
        let mut numbers = all_numbers(alloc, self.histories.len())?;
        numbers.sort_by_cached_key(|number: &u32| ranked_row(ranks, rows, *number))?;
        Ok(numbers)
    }
}

// These histories with their rows, whose lists are ranked.
fn with_ranks<'a>(
    alloc: Global,
    histories: &'a [History],
    lists: Catalog<Seq<Call>>,
    rows: Vec<[u32; 5]>,
) -> Result<Listing<'a>, AllocError>
    requires { (width : ℕ) × AreListed lists width histories.now rows.items }
    ensures { IfOk result (λ l. l ≡ histories.now) }
{
    match ranks_of(alloc, &lists) {
        Ok(ranks) => Ok(Listing {
            histories,
            lists,
            ranks,
            rows,
        }),
        Err(reason) => {
            drop(lists);
            drop(rows);
            Err(reason)
        }
    }
}

// The histories by their lists, if all have as many threads, at most five.
fn listing_of<'a>(
    alloc: Global,
    histories: &'a [History],
) -> Result<Option<Listing<'a>>, AllocError>
    ensures { IfOk result (λ o. IfSome o (λ l. l ≡ histories.now)) }
{
    let Some(first) = histories.first() else {
        return Ok(None);
    };
    let width = first.threads().len();
    if width > 5 {
        return Ok(None);
    }
    // Nobody chooses these lists so that they collide: they are what calls of one client can be.
    let mut lists = Catalog::new(alloc, 0);
    match listed_rows(alloc, &mut lists, width, histories) {
        Ok(Some(rows)) => {
            let listing = with_ranks(alloc, histories, lists, rows)?;
            Ok(Some(listing))
        }
        Ok(None) | Err(Refused::Full) => {
            drop(lists);
            Ok(None)
        }
        Err(Refused::Memory) => {
            drop(lists);
            Err(AllocError)
        }
    }
}

// For each number of a history its rank, its place in their order.
fn ranks_by_lists(alloc: Global, listing: Listing<'_>, count: usize) -> Result<Vec<u32>, AllocError>
    requires count { count ≡ length listing }
    requires few { count < 2 ^ 32 }
    requires differ { IsNumbered listing }
    ensures { IfOk result (λ rs. AreRanks history_cmp listing.entry rs.items) }
{
    let made = listing.order(alloc);
    drop(listing);
    let order = made?;
    let ranks = places_in(alloc, order.as_slice(), count)?;
    Ok(ranks)
}

/// For each number of a history its rank among all. Where all have as many threads, as those of one client, their lists of calls
/// are kept once and ranked, and histories are compared by these; else they are compared as they are.
///
/// Errors: where a growth was refused.
pub fn history_ranks(alloc: Global, histories: &Catalog<History>) -> Result<Vec<u32>, AllocError>
    ensures { IfOk result (λ rs. AreRanks history_cmp histories.now rs.items) }
{
    histories.is_numbered();
    match listing_of(alloc, histories.values())? {
        Some(listing) => ranks_by_lists(alloc, listing, histories.len()),
        None => ranks_of(alloc, histories),
    }
}
