//! The chosen actors of kept states.

ghost use Rattle.std.specs.Prelude.{◌≡◌, ◌<◌, Some, length, slice_get};
ghost use Rattle.tso_choose.specs.Choosing.{IsChoice};
ghost use Rattle.tso_choose.specs.Sets.{IsOnly};
ghost use Rattle.tso_search.specs.Grounds.{AreToFollow};
ghost use Rattle.tso_search.specs.Reached.{AllMet};
ghost use Rattle.tso_state.specs.declared.actor.Actor.TheVariants as actors;
ghost use Rattle.tso_state.specs.declared.state.State.{State as StateValue};

use crate::ground::Ground;
use tso_choose::chosen;
use tso_flow::Checked;
use tso_foot::Table;
use tso_store::Store;

/// The cores and buffers of five threads, as a set.
pub const ALL: u16 = 0x3ff;

// The set of the core of this thread alone.
fn only(thread: usize) -> u16
    requires { thread < 8 }
    ensures { IsOnly result (actors.Exec thread) }
{
    1 << 2 * thread
}

/// The chosen actors of state `number`, as a set. Where a core's step may go first alone, the store mostly remembers it, and the
/// state is not looked at.
pub fn chosen_at(checked: &Checked, table: &Table, store: &Store<'_>, number: u32) -> u16
    requires client { store.now.client ≡ checked.now.client }
    requires met { AllMet checked.now.client store.now.states }
    requires there { number < length store.now.states }
    ensures { (s : StateValue) → slice_get store.now.states number ≡ Some s → IsChoice checked.now.client table.now s result }
{
    if let Some(lone) = store.lone(number) {
        return only(lone.thread);
    }
    let Some(view) = store.view(number) else {
        unreachable!()
    };
    chosen(checked, table, &view)
}

/// The set of the actors of state `number` that a search follows: by steps the chosen ones, by crossings all.
pub fn to_follow(checked: &Checked, ground: &Ground, store: &Store<'_>, number: u32) -> u16
    requires client { store.now.client ≡ checked.now.client }
    requires met { AllMet checked.now.client store.now.states }
    requires there { number < length store.now.states }
    ensures { (s : StateValue) → slice_get store.now.states number ≡ Some s → AreToFollow checked.now.client ground.now s result }
{
    match ground {
        Ground::Steps(table) => chosen_at(checked, table, store, number),
        Ground::Crossings(_, _) => ALL,
    }
}
