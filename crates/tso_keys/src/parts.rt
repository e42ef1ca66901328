//! The parts of states.
ghost use Rattle.std.specs.Prelude.{◌≡◌};
ghost use Rattle.tso_keys.specs.Keys.{part_count};

use std::alloc::Global;
use tso_hist::History;
use tso_list::Seq;
use tso_parts::Catalog;
use tso_state::Thread;

/// Memories, histories and threads, each once.
#[derive(Drop)]
pub struct Parts {
    pub memories: Catalog<Seq<u64>>,
    pub histories: Catalog<History>,
    pub threads: Catalog<Thread>,
}

impl Parts {
    /// No parts. They are hashed by this seed.
    pub fn new(alloc: Global, seed: u64) -> Self
        ensures { part_count result ≡ 0 }
    {
        Parts {
            memories: Catalog::new(alloc, seed),
            histories: Catalog::new(alloc, seed),
            threads: Catalog::new(alloc, seed),
        }
    }
}
