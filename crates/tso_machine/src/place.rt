//! Cells of memory as places: the arrays stand one after another.

ghost use Rattle.std.specs.Prelude.{◌≡◌, ◌≤◌, length, Some, pos};
ghost use Rattle.tso_machine.specs.Places.{first_place, if_word, place_of};

use tso_prog::{Array, Client};

/// The place of a word of an array, if the array has so many words, and if the place is a number of 64 bits, as it is wherever
/// the arrays have no more words than a memory.
pub fn place_at(arrays: &[Array], array: usize, index: usize) -> Option<usize>
    ensures { result ≡ if_word (place_of arrays.now array (pos index)) }
{
    let len = arrays.get(array)?.words.len();
    if index < len {
        first_place(arrays, array)?.checked_add(index)
    } else {
        None
    }
}

// The place of a word of a client's array, if the array has so many words.
pub(crate) fn cell_place(client: &Client, array: usize, index: usize) -> Option<usize>
    ensures { result ≡ place_of client.now.arrays array (pos index) }
{
    place_at(client.arrays.as_slice(), array, index)
}

// How many words stand before an array, if that is a number of 64 bits.
fn first_place(arrays: &[Array], array: usize) -> Option<usize>
    requires { array ≤ length arrays.now }
    ensures { result ≡ if_word (Some (first_place arrays.now array)) }
{
    let mut count: usize = 0;
    for other in &arrays[..array] {
        count = count.checked_add(other.words.len())?;
    }
    Some(count)
}
