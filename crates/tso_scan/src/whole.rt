//! Trees that were read, with their states in a store.
ghost use Rattle.std.specs.Prelude.{IfSome, IsTrue};
ghost use Rattle.tso_state.specs.Rising.{IsRising};
ghost use Rattle.tso_scan.specs.Halves.{IsStored};

use crate::halves::{Half, RECORDS, Records};
use tso_store::Store;

/// A tree that was read, with its states in a store.
#[derive(Drop)]
pub struct Whole<'c> {
    pub store: Store<'c>,
    pub records: Records,
}

/// The tree with its states in a store. `None` where they are not known to rise.
pub fn whole_of<'c>(half: Half<'c>) -> Option<Whole<'c>>
    requires { IsTrue half.rises → IsRising half.states.states }
    ensures { IfSome result (IsStored half.entry) }
{
    if !half.rises || half.states.len() > RECORDS as usize {
        drop(half);
        return None;
    }
    let Half {
        states,
        rises: _rises,
        records,
    } = half;
    Some(Whole {
        store: states.finish(),
        records,
    })
}
