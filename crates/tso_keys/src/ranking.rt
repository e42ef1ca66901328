//! Keys by their numbers.
ghost use Rattle.std.specs.Prelude.{◌≡◌, slice_get, slice_index_or};

use crate::key::{Key, NO_KEY};
use tso_parts::Pool;

/// The key with this number.
pub fn key_at(keys: &Pool<Key>, number: u32) -> Option<Key>
    ensures { result ≡ slice_get keys.now number }
{
    keys.get(number).copied()
}

/// The key with this number; the numbers of nothing where there is none.
pub fn key_or_none(keys: &Pool<Key>, number: u32) -> Key
    ensures { result ≡ slice_index_or keys.now number NO_KEY }
{
    key_at(keys, number).unwrap_or(NO_KEY)
}
