//! Places for values.
ghost use Rattle.std.specs.Prelude.{◌<◌, IfSome};

use std::alloc::{AllocError, Global};
use std::hash::{FoldHasher, Hasher};

/// There are at most so many places.
const MOST_PLACES: usize = 65_536;

// So many bytes go into the mark of how bytes begin.
const FRONT: usize = 16;

/// A number that equal bytes have in common.
pub fn mark_of(bytes: &[u8]) -> u64 {
    let mut hasher = FoldHasher::default();
    hasher.write(bytes);
    hasher.finish()
}

/// A number that bytes have in common which begin alike.
pub fn mark_of_front(bytes: &[u8]) -> u64 {
    let length = bytes.len().min(FRONT);
    mark_of(&bytes[..length])
}

// The place among so many that goes with a mark. Counts that are powers of two have all places used.
fn place_of(mark: u64, count: usize) -> Option<usize>
    ensures { IfSome result (λ place. place < count) }
{
    if count == 0 {
        return None;
    }
    Some(mark as usize & (count - 1))
}

// So many empty places.
fn empty_places<X: Drop>(alloc: Global, count: usize) -> Result<Vec<Option<X>>, AllocError> {
    let mut places = Vec::new(alloc);
    for _ in 0..count {
        places.push(None)?;
    }
    Ok(places)
}

/// Values, at most one at each place. A value that comes to a place drives out the one before, so that a look-up takes as long
/// whatever came, and what lies here must change no answer.
#[derive(Drop)]
pub struct Places<X: Drop> {
    places: Vec<Option<X>>,
    added: usize,
}

impl<X: Drop> Places<X> {
    /// No places. They come with values.
    pub fn new(alloc: Global) -> Places<X> {
        Places {
            places: Vec::new(alloc),
            added: 0,
        }
    }

    /// The value at the place of a mark, if one lies there.
    pub fn at(&self, mark: u64) -> Option<&X> {
        let place = place_of(mark, self.places.len())?;
        self.places[place].as_ref()
    }

    /// Puts a value to the place of a mark. Where as many were put here as there are places, there are twice as many from now
    /// on, all empty.
    pub fn put(&mut self, alloc: Global, mark: u64, value: X) -> Result<(), AllocError> {
        let count = self.places.len();
        if self.added >= count && count < MOST_PLACES {
            self.places = empty_places(alloc, count.saturating_mul(2).max(16))?;
            self.added = 0;
        }
        self.added = self.added.saturating_add(1);
        if let Some(place) = place_of(mark, self.places.len()) {
            self.places[place] = Some(value);
        }
        Ok(())
    }
}
