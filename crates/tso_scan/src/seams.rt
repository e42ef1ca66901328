//! Where the right half of a fork may begin. What is found here is a guess, which costs time where it is wrong: whoever reads the
//! left half finds out.

ghost use Rattle.std.specs.Prelude.{◌≡◌, ◌≤◌, IfSome, length};
ghost use Rattle.tso_scan.specs.Halves.{IsEnd};
ghost use Rattle.tso_scan.specs.Seams.{HasForks, forks_before};

use crate::front::read_steps;
use std::alloc::Global;
use tso_code::Code;
use tso_state::State;

// A tree with fewer forks on the way to its first leaf is read sooner by one thread.
const FEWEST: usize = 5;

// And none has more.
const MOST: usize = 64;

// So many places are tried, and so many bytes looked at there, so that a search takes as long as it takes to go through the bytes.
const TRIES: usize = 256;

const WINDOW: usize = 16_384;

// The bytes from a place on, if there are so many.
fn from_place(bytes: &[u8], place: usize) -> Option<&[u8]>
    ensures { IfSome result (λ end. IsEnd bytes.now end.now) }
{
    if place > bytes.len() {
        return None;
    }
    let (_, end) = bytes.split_at(place);
    Some(end)
}

// The first bytes, so many at most.
fn at_most(bytes: &[u8], most: usize) -> &[u8] {
    if bytes.len() <= most {
        return bytes;
    }
    let (front, _) = bytes.split_at(most);
    front
}

// How many bytes at the front are those of forks, of so many at most.
fn forks_before(bytes: &[u8], most: usize) -> usize
    ensures count { result ≡ forks_before most bytes.now }
    ensures few { result ≤ most }
{
    if most == 0 {
        return 0;
    }
    match bytes {
        [1, rest @ ..] => 1 + forks_before(rest, most - 1),
        _ => 0,
    }
}

// The bytes from where a tree may begin with so many forks on the way to its first leaf, if one of them has this place.
fn tree_around(bytes: &[u8], forks: usize, place: usize) -> Option<&[u8]>
    ensures { IfSome result (λ end. IsEnd bytes.now end.now) }
{
    // Of most places this is all that is asked.
    if bytes.get(place) != Some(&1) {
        return None;
    }
    let behind = from_place(bytes, place)?;
    let ahead = forks_before(behind, forks);
    if ahead == 0 {
        return None;
    }
    let start = place.saturating_add(ahead).saturating_sub(forks);
    let tree = from_place(bytes, start)?;
    if forks_before(tree, forks.saturating_add(1)) != forks {
        return None;
    }
    Some(tree)
}

// Whether the first so many of some bytes stand before the end of others, too.
fn stand_before(bytes: &[u8], end: &[u8], first: &[u8], length: usize) -> bool {
    let front = at_most(bytes, bytes.len().saturating_sub(end.len()));
    front.strip_suffix(at_most(first, length)).is_some()
}

// Whether the state of a tree's first record stands before the tree, too.
fn is_led(alloc: Global, bytes: &[u8], tree: &[u8], forks: usize) -> bool {
    let Some(first) = from_place(tree, forks.saturating_add(2)) else {
        return false;
    };
    let first = at_most(first, WINDOW);
    match State::read(alloc, first) {
        Ok((_state, rest)) => {
            let length = first.len().saturating_sub(rest.len());
            stand_before(bytes, tree, first, length)
        }
        Err(_) => false,
    }
}

// The bytes from where a tree may begin with so many forks on the way to its first leaf, before which the state of its first record stands:
// the first such place from one up to another, in steps of as many bytes as there are forks.
fn tree_between(alloc: Global, bytes: &[u8], forks: usize, from: usize, to: usize) -> Option<&[u8]>
    ensures { IfSome result (λ end. IsEnd bytes.now end.now) }
{
    let mut tries = TRIES;
    for step in from..to {
        if tries == 0 {
            return None;
        }
        if let Some(tree) = tree_around(bytes, forks, step.saturating_mul(forks)) {
            if is_led(alloc, bytes, tree, forks) {
                return Some(tree);
            }
            tries = tries.saturating_sub(1);
        }
    }
    None
}

// The same from a place on to the end, and then from the front.
fn tree_from(alloc: Global, bytes: &[u8], forks: usize, place: usize) -> Option<&[u8]>
    ensures { IfSome result (λ end. IsEnd bytes.now end.now) }
{
    if forks == 0 {
        return None;
    }
    let steps = bytes.len() / forks;
    let first = place / forks;
    match tree_between(alloc, bytes, forks, first, steps) {
        Some(tree) => Some(tree),
        None => tree_between(alloc, bytes, forks, 0, first.min(steps)),
    }
}

/// The bytes from where the right half of a fork may begin, behind whose own byte these stand: a tree with as many forks on the
/// way to its first leaf as the left half has, and before it the state of its first record. Both halves are guessed to take so many
/// bytes: half of the records are mostly half of these, so it is looked for from a little before their middle on.
pub fn right_half(alloc: Global, bytes: &[u8], taken: usize) -> Option<&[u8]>
    ensures { IfSome result (λ end. IsEnd bytes.now end.now) }
{
    let forks = forks_before(bytes, MOST);
    if forks < FEWEST {
        return None;
    }
    tree_from(alloc, bytes, forks, taken / 16 * 7)
}

/// How many forks a certificate of steps has on the way to its first leaf, if its table is at the front of these bytes, and the forks too.
pub fn forks_at(alloc: Global, bytes: &[u8]) -> Option<usize>
    ensures { IfSome result (HasForks bytes.now) }
{
    match read_steps(alloc, bytes) {
        Ok(Some((table, rest))) => {
            drop(table);
            let forks = forks_before(rest, MOST);
            if forks < rest.len() {
                Some(forks)
            } else {
                None
            }
        }
        Ok(None) | Err(_) => None,
    }
}

/// Where in the bytes a tree may begin that has so many forks on the way to its first leaf, and before it the state of its first record:
/// so does the right half of a fork.
pub fn seam_in(alloc: Global, bytes: &[u8], forks: usize) -> Option<usize>
    ensures { IfSome result (λ place. place ≤ length bytes.now) }
{
    if forks < FEWEST {
        return None;
    }
    let tree = tree_from(alloc, bytes, forks, 0)?;
    Some(bytes.len().saturating_sub(tree.len()))
}
