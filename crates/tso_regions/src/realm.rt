//! Whose states are searched.

use std::marker::Brand;

/// What a search by regions is of: its client, and its table of footprints. A region of this type is of these, whichever thread
/// has had it, so that nobody has to compare clients. It takes no byte.
pub trait Realm {
    ghost use Rattle.std.specs.Prelude.{Option};
    ghost use Rattle.tso_foot.specs.declared.table.Table.{Table};
    ghost use Rattle.tso_prog.specs.declared.client.Client.{Client};

    ghost client: { Option Client };

    ghost table: { Option Table };
}

// A call picks what it is of.
impl Realm for Brand {
    ghost use Rattle.std.specs.Prelude.{None};

    ghost client = { None };

    ghost table = { None };
}
