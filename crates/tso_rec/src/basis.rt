//! What the conditions of a certificate stand on.

use tso_foot::Table;

/// How far apart the records of a certificate lie.
#[derive(Clone, Copy, PartialEq, Eq)]
pub enum Grain {
    /// A step: each state after a chosen actor's step has a record.
    Steps,
    /// A move, in which a call begins as late as it can, and the run of free actors' moves behind it: only crossings, where no actor is
    /// free, and ends have records, and each actor with a move is followed.
    Crossings,
}

/// The grain of a certificate, and its table of footprints.
#[derive(Drop)]
pub struct Basis {
    pub grain: Grain,
    pub table: Table,
}
