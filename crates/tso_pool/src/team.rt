//! What the workers of one search share.

ghost use Rattle.std.specs.Prelude.{◌≡◌, Some};

use crate::progress::Progress;
use crate::resting::Resting;
use std::alloc::Global;
use std::sync::atomic::AtomicBool;
use std::sync::ledger::Ledger;
use std::sync::{Mutex, Wait};
use tso_cert::Watch;
use tso_flow::Checked;
use tso_foot::Table as Footprints;
use tso_table::{Budget, Search, Shard};

/// What the workers of one search share: the client with its table of footprints, the shards of the states that were met, the
/// budget of units for new ones, with how many it began, a note that a worker has ended, how far all have come, and where those
/// without a ticket sleep. The ledger of units stands for this client and this table.
#[derive(Drop)]
pub struct Team<'a, 'c, U: Search, E: Ledger, R: Wait, W: Watch> {
    pub rt: &'a R,
    pub alloc: Global,
    pub checked: &'c Checked,
    pub table: &'c Footprints,
    pub limit: u32,
    pub shards: &'a [Mutex<Shard<'c, U, E>>],
    pub budget: &'a Mutex<Budget<U, E>>,
    pub note: &'a AtomicBool,
    pub progress: &'a Progress,
    pub resting: &'a Resting,
    pub watch: &'a W,
    pub ghost of_client: { U.client ≡ Some checked.now.client },
    pub ghost of_table: { U.table ≡ Some table.now },
}
