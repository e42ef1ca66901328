//! States that a search has worked, before anything of them is written.

ghost use Rattle.std.specs.Prelude.{◌≡◌, length};

use tso_search::Ground;
use tso_store::Store;

/// The states that a search met, all of them worked, and by what it went on from them.
#[derive(Drop)]
pub struct Worked<'c> {
    pub ground: Ground,
    pub store: Store<'c>,
}

impl<'c> Worked<'c> {
    /// How many states there are, and so how many records.
    pub fn len(&self) -> u64
        ensures { result ≡ length self.now.store.states }
    {
        self.store.len() as u64
    }
}
