//! Keys of states that rise, which are found without an index.
ghost use Rattle.std.specs.Prelude.{◌≡◌, ◌↔◌, IsTrue, MatchOption, Some, slice_get};
ghost use Rattle.tso_parts.specs.Numbers.{IsNowhere};
ghost use Rattle.tso_prog.specs.declared.client.Client.{Client};
ghost use Rattle.tso_state.specs.Rising.{IsRising};
ghost use Rattle.tso_keys.specs.Keys.{AreKept, IsKept, states_at};
ghost use Rattle.tso_keys.specs.Orders.{IsLessAt};

use crate::key::Key;
use crate::orders::compare_keys;
use crate::parts::Parts;
use crate::ranking::key_at;
use tso_list::is_same;
use tso_parts::Pool;
use tso_state::is_less;

// At so many numbers a key is looked for before all others.
const NEAR: u32 = 16;

// Whether the key with this number is this one.
fn is_at(keys: &Pool<Key>, number: u32, key: &Key) -> bool
    ensures { IsTrue result ↔ (slice_get keys.now number ≡ Some key.now) }
{
    match keys.get(number) {
        Some(found) => is_same(found, key),
        None => false,
    }
}

// Whether the state with this number is less than that of another key.
fn is_less_at(parts: &Parts, keys: &Pool<Key>, number: u32, key: &Key) -> bool
    requires kept { (c : Client) × AreKept c parts.now keys.now × IsKept c parts.now key.now }
    ensures { IsTrue result ↔ IsLessAt parts.now keys.now number key.now }
{
    match key_at(keys, number) {
        Some(found) => is_less(compare_keys(parts, &found, key)),
        None => false,
    }
}

// The number of a key, if it is one of these, whose states rise: it is found by halves.
fn number_by_halves(parts: &Parts, keys: &Pool<Key>, key: &Key) -> Option<u32>
    requires kept { (c : Client) × AreKept c parts.now keys.now × IsKept c parts.now key.now }
    requires rising { IsRising (states_at parts.now keys.now) }
    ensures { MatchOption result (IsNowhere keys.now key.now) (λ n. slice_get keys.now n ≡ Some key.now) }
{
    let mut low = 0;
    let mut high = keys.len() as u32;
    while low < high {
        let middle = low + (high - low) / 2;
        if is_at(keys, middle, key) {
            return Some(middle);
        }
        if is_less_at(parts, keys, middle, key) {
            low = middle + 1;
        } else {
            high = middle;
        }
    }
    None
}

/// The number of a key, if it is one of these, whose states rise. It is looked for first at the number `near` and the next ones, which
/// need not be those of keys, and then by halves.
pub fn number_risen(parts: &Parts, keys: &Pool<Key>, near: u32, key: &Key) -> Option<u32>
    requires kept { (c : Client) × AreKept c parts.now keys.now × IsKept c parts.now key.now }
    requires rising { IsRising (states_at parts.now keys.now) }
    ensures { MatchOption result (IsNowhere keys.now key.now) (λ n. slice_get keys.now n ≡ Some key.now) }
{
    for number in near..near.saturating_add(NEAR) {
        if is_at(keys, number, key) {
            return Some(number);
        }
    }
    number_by_halves(parts, keys, key)
}
