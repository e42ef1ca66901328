//! Clients of one queue: with the same arrays, instructions and prologue, and a mode that allows no less.

ghost use Rattle.std.specs.Prelude.{◌≡◌, ◌↔◌, IsTrue};
ghost use Rattle.tso_client.specs.Clients.{AreAlike, IsNoStricter};

use tso_line::{CallKind, Mode};
use tso_list::is_same;
use tso_prog::{Array, Client, Step};

// Whether two arrays have one name and the same words.
fn is_same_array(a: &Array, b: &Array) -> bool
    ensures { IsTrue result ↔ (a.now ≡ b.now) }
{
    is_same(&a.name, &b.name) && is_same(&a.words, &b.words)
}

// Whether these arrays are those.
fn are_same_arrays(a: &[Array], b: &[Array]) -> bool
    ensures { IsTrue result ↔ (a.now ≡ b.now) }
{
    if a.len() != b.len() {
        return false;
    }
    for (i, array) in a.iter().enumerate() {
        if !is_same_array(array, &b[i]) {
            return false;
        }
    }
    true
}

// Whether these instructions are those.
fn are_same_steps(a: &[Step], b: &[Step]) -> bool
    ensures { IsTrue result ↔ (a.now ≡ b.now) }
{
    a == b
}

// Whether these calls are those.
fn are_same_calls(a: &[CallKind], b: &[CallKind]) -> bool
    ensures { IsTrue result ↔ (a.now ≡ b.now) }
{
    a == b
}

// Whether a queue of the small client's mode may do what one of the large one's may.
fn is_no_stricter(small: Mode, large: Mode) -> bool
    ensures { IsTrue result ↔ IsNoStricter small large }
{
    small == large || small == Mode::Weak
}

/// Whether two clients differ in nothing but the calls of their threads, the lines of their instructions and perhaps their modes,
/// of which the small one's is weak then.
pub fn are_alike(small: &Client, large: &Client) -> bool
    ensures { IsTrue result ↔ AreAlike small.now large.now }
{
    if large.capacity != small.capacity {
        return false;
    }
    if !is_no_stricter(small.mode, large.mode) {
        return false;
    }
    if !are_same_arrays(large.arrays.as_slice(), small.arrays.as_slice()) {
        return false;
    }
    if !are_same_steps(
        large.push.instructions.as_slice(),
        small.push.instructions.as_slice(),
    ) {
        return false;
    }
    if !are_same_steps(
        large.pop.instructions.as_slice(),
        small.pop.instructions.as_slice(),
    ) {
        return false;
    }
    are_same_calls(large.prologue.as_slice(), small.prologue.as_slice())
}
