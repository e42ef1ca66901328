//! Which clients cover which.

ghost use Rattle.std.specs.Prelude.{◌≢◌, ◌↔◌, ℕ, ◌<◌, ◌≤◌, length, IsTrue};
ghost use Rattle.tso_client.specs.Clients.{ArePlaced, ClientCovers, IsPlacedAt, place_in};
ghost use Rattle.tso_client.specs.Covering.{IsBeginning};

use crate::alike::are_alike;
use tso_line::CallKind;
use tso_prog::Client;

// Whether the calls of one thread are a beginning of those of another.
fn is_beginning(calls: &[CallKind], of: &[CallKind]) -> bool
    ensures { IsTrue result ↔ IsBeginning calls.now of.now }
{
    of.starts_with(calls)
}

// Whether no place before this one is the same.
fn is_new(places: &[usize], at: usize) -> bool
    requires { at < length places.now }
    ensures { IsTrue result ↔ ((j : ℕ) → j < at → place_in places.now j ≢ place_in places.now at) }
{
    for j in 0..at {
        if places[j] == places[at] {
            return false;
        }
    }
    true
}

// Whether thread `at` of the small client has a place of its own among the large one's.
fn is_placed_at(small: &Client, large: &Client, places: &[usize], at: usize) -> bool
    requires thread { at < length small.now.threads }
    requires place { at < length places.now }
    ensures { IsTrue result ↔ IsPlacedAt (place_in places.now) small.now large.now at }
{
    let Some(calls) = small.threads.get(at) else {
        return false;
    };
    match large.threads.get(places[at]) {
        Some(of) => is_beginning(calls.as_slice(), of.as_slice()) && is_new(places, at),
        None => false,
    }
}

// Whether thread i of the small client is the large one's thread `places[i]`: no two are one, and each makes a beginning of the
// other's calls.
fn are_placed(small: &Client, large: &Client, places: &[usize]) -> bool
    requires { length small.now.threads ≤ length places.now }
    ensures { IsTrue result ↔ ArePlaced (place_in places.now) small.now large.now }
{
    for i in 0..small.threads.len() {
        if !is_placed_at(small, large, places, i) {
            return false;
        }
    }
    true
}

/// Whether the large client covers the small one: the two are of one queue, and each thread of the small one makes a beginning of
/// the calls of a thread of its own in the large one.
pub fn covers(small: &Client, large: &Client) -> bool
    ensures { IsTrue result ↔ ClientCovers small.now large.now }
{
    if !are_alike(small, large) {
        return false;
    }
    // At most four threads have one of at most four places each, so the places of all are one of 256 codes.
    for code in 0..256 {
        let places: [usize; 4] = [code % 4, code / 4 % 4, code / 16 % 4, code / 64 % 4];
        if are_placed(small, large, &places) {
            return true;
        }
    }
    false
}
