//! Tables whose `==` says whether they are the same.

use crate::table::Table;
use tso_list::Exact;

impl Exact for Table {
    ghost use Rattle.tso_foot.specs.Exactness.{table_exact};

    ghost exact = { table_exact };
}
