//! What a search is of.

use std::marker::Brand;
use std::sync::ledger::Ledger;

/// A ledger that stands for one search: for its client, and for its table of footprints. A shard of this ledger is of these,
/// whoever has had its lock, so that nobody has to compare clients. Neither takes a byte.
pub trait Search: Ledger {
    ghost use Rattle.std.specs.Prelude.{Option};
    ghost use Rattle.tso_foot.specs.declared.table.Table.{Table};
    ghost use Rattle.tso_prog.specs.declared.client.Client.{Client};

    ghost client: { Option Client };

    ghost table: { Option Table };
}

// A call picks what it is of.
impl Search for Brand {
    ghost use Rattle.std.specs.Prelude.{None};

    ghost client = { None };

    ghost table = { None };
}
