//! By what a search goes on from a state.

ghost use Rattle.std.specs.Prelude.{◌≡◌};
ghost use Rattle.tso_search.specs.Grounds.{grain_of, table_of};

use tso_foot::{ArrayTable, Table};
use tso_rec::Grain;

/// By what a search goes on from a state.
#[derive(Drop)]
pub enum Ground {
    /// By the steps of chosen actors, with this table of footprints.
    Steps(Table),
    /// By the moves of all actors and the runs behind them, with the least table of arrays, which tells what is a thread's own, and with
    /// this table of footprints, which tells which actors are free.
    Crossings(ArrayTable, Table),
}

impl Ground {
    /// The table of footprints.
    pub fn table(&self) -> &Table
        ensures { result.now ≡ table_of self.now }
    {
        match self {
            Ground::Steps(table) => table,
            Ground::Crossings(_, table) => table,
        }
    }

    /// The grain of a certificate of what such a search finds.
    pub fn grain(&self) -> Grain
        ensures { result ≡ grain_of self.now }
    {
        match self {
            Ground::Steps(_) => Grain::Steps,
            Ground::Crossings(_, _) => Grain::Crossings,
        }
    }
}
