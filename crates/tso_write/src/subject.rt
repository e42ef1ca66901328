//! Whose records are spelled.

use std::marker::Brand;

/// What the threads of one call spell: worked states, with their client and its table of footprints. A slab of this type is of these, whichever
/// thread has spelled it. It takes no byte.
pub trait Subject {
    ghost use Rattle.std.specs.Prelude.{Option};
    ghost use Rattle.tso_write.specs.Tasks.{Numbered};

    ghost source: { Option Numbered };
}

// A call picks what it spells.
impl Subject for Brand {
    ghost use Rattle.std.specs.Prelude.{None};

    ghost source = { None };
}
