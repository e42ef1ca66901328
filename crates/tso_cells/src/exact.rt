//! Tables whose `==` says whether they are the same.

use crate::table::IntervalTable;
use tso_list::Exact;

impl Exact for IntervalTable {
    ghost use Rattle.tso_cells.specs.Exactness.{table_exact};

    ghost exact = { table_exact };
}
