//! Ranks of kept values: numbers that are ordered as the values.
ghost use Rattle.std.specs.Prelude.{◌≡◌, ◌<◌, ◌^◌, ℕ, length, IfOk, Some, slice_get, slice_set};
ghost use Rattle.std.specs.Option.{option_cmp};
ghost use Rattle.tso_keys.specs.Orders.{AreRanks, HasPlace, IsInOrder, numbers_below};

use std::alloc::{AllocError, Global};
use std::cmp::Ordering;
use std::hash::Hash;
use tso_list::Exact;
use tso_parts::Catalog;

/// The ranks of memories, of threads and of histories.
#[derive(Clone, Copy)]
pub struct Ranks<'a> {
    pub memories: &'a [u32],
    pub threads: &'a [u32],
    pub histories: &'a [u32],
}

/// So many numbers, from 0.
pub fn all_numbers(alloc: Global, count: usize) -> Result<Vec<u32>, AllocError>
    requires { count < 2 ^ 32 }
    ensures { IfOk result (λ ns. ns.items ≡ numbers_below count) }
{
    let mut numbers = Vec::new(alloc);
    for number in 0..count {
        numbers.push(number as u32)?;
    }
    Ok(numbers)
}

// How the values with two numbers are ordered; no value is less than each.
fn compare_at<T: Exact + Ord + Hash>(pool: &Catalog<T>, a: u32, b: u32) -> Ordering
    ensures { result ≡ option_cmp T.cmp (slice_get pool.now a) (slice_get pool.now b) }
{
    match pool.get(a) {
        Some(first) => match pool.get(b) {
            Some(second) => first.cmp(second),
            None => Ordering::Greater,
        },
        None => match pool.get(b) {
            Some(_) => Ordering::Less,
            None => Ordering::Equal,
        },
    }
}

// The numbers of all values, in the order of the values.
fn in_order<T: Exact + Ord + Hash>(alloc: Global, pool: &Catalog<T>) -> Result<Vec<u32>, AllocError>
    ensures order { IfOk result (λ ns. IsInOrder T.cmp pool.now ns.items) }
    ensures few { IfOk result (λ ns. length ns.items < 2 ^ 32) }
{
    let mut numbers = all_numbers(alloc, pool.len())?;
    numbers.sort_by(|a: &u32, b: &u32| compare_at(pool, *a, *b))?;
    Ok(numbers)
}

// Gives a number this rank.
fn put_rank(ranks: &mut Vec<u32>, number: u32, rank: u32)
    requires { number < length ranks.old.items }
    ensures { ranks.new.items ≡ slice_set ranks.old.items number rank }
{
    ranks[number as usize] = rank;
}

/// For each of the numbers below one a place of it in a list of them.
pub fn places_in(alloc: Global, order: &[u32], count: usize) -> Result<Vec<u32>, AllocError>
    requires few { length order.now < 2 ^ 32 }
    requires count { count < 2 ^ 32 }
    requires below { (i n : ℕ) → slice_get order.now i ≡ Some n → n < count }
    ensures len { IfOk result (λ rs. length rs.items ≡ count) }
    ensures places { IfOk result (λ rs. (i n : ℕ) → slice_get order.now i ≡ Some n → HasPlace order.now rs.items n) }
{
    let mut ranks = all_numbers(alloc, count)?;
    for place in 0..order.len() {
        put_rank(&mut ranks, order[place], place as u32);
    }
    Ok(ranks)
}

/// For each number of a value its rank: its place among the numbers in the order of their values.
///
/// Errors: where a growth was refused.
pub fn ranks_of<T: Exact + Ord + Hash>(
    alloc: Global,
    pool: &Catalog<T>,
) -> Result<Vec<u32>, AllocError>
    ensures { IfOk result (λ rs. AreRanks T.cmp pool.now rs.items) }
{
    pool.is_numbered();
    let order = in_order(alloc, pool)?;
    let ranks = places_in(alloc, order.as_slice(), pool.len())?;
    Ok(ranks)
}
