//! The slots and the states of a table, looked at and changed one by one.

ghost use Rattle.std.specs.Prelude.{◌≡◌, ◌↔◌, ◌<◌, ◌++◌, ◌∷◌, [], IfOk, IsTrue, OnErr, OnOk, Some, length, slice_get, slice_set};
ghost use Rattle.tso_parts.specs.Numbers.{IsNowhere};
ghost use Rattle.tso_table.specs.OneThread.{are_there, is_this};
ghost use Rattle.tso_table.specs.declared.slot.Slot.TheVariants as slots_of;

use crate::kept::Kept;
use crate::slot::{Near, Slot};
use std::alloc::AllocError;
use tso_list::Paths;
use tso_state::State;
use tso_store::Store;

/// Whether the slot at a place is `Waiting`.
pub fn is_waiting(slots: &[Slot], place: u32) -> bool
    ensures { IsTrue result ↔ (slice_get slots.now place ≡ Some slots_of.Waiting) }
{
    matches!(slots.get(place as usize), Some(Slot::Waiting))
}

/// Whether the slot at a place is `Claimed`.
pub fn is_claimed(slots: &[Slot], place: u32) -> bool
    ensures { IsTrue result ↔ (slice_get slots.now place ≡ Some slots_of.Claimed) }
{
    matches!(slots.get(place as usize), Some(Slot::Claimed))
}

/// Changes the slot at a place.
pub fn set_slot(slots: &mut Vec<Slot>, place: u32, slot: Slot)
    requires { place < length slots.old.items }
    ensures { slots.new.items ≡ slice_set slots.old.items place slot }
{
    slots[place as usize] = slot;
}

/// Puts a state that is not there at the end, with the actors that lead to it; it waits.
///
/// Errors: where a growth was refused. All stay.
pub fn put_last(
    store: &mut Store<'_>,
    actors: &mut Paths,
    slots: &mut Vec<Slot>,
    kept: &Kept,
) -> Result<u32, AllocError>
    requires { IsNowhere store.old.states kept.now.state }
    ensures place { IfOk result (λ n. n ≡ length store.old.states) }
    ensures states { OnOk result (store.new.states ≡ store.old.states ++ kept.now.state ∷ []) }
    ensures actors { OnOk result (actors.new ≡ actors.old ++ kept.now.actors ∷ []) }
    ensures slots { OnOk result (slots.new.items ≡ slots.old.items ++ slots_of.Waiting ∷ []) }
    ensures client { store.new.client ≡ store.old.client }
    ensures err { OnErr result ((store.new.states ≡ store.old.states) × (actors.new ≡ actors.old) × (slots.new.items ≡ slots.old.items)) }
{
    slots.reserve(1)?;
    actors.push(kept.actors.as_slice())?;
    match store.add(&kept.state) {
        Ok(added) => {
            store.states_differ();
            slots.push_reserved(Slot::Waiting);
            Ok(added.0)
        }
        Err(_) => {
            actors.pop();
            Err(AllocError)
        }
    }
}

/// Whether a place is that of the state. It takes no memory.
pub fn is_at(store: &Store<'_>, place: u32, state: &State) -> bool
    ensures { result ≡ is_this state.now (slice_get store.now.states place) }
{
    store.states_differ();
    match store.find(state) {
        Some(found) => found == place,
        None => false,
    }
}

/// Whether each of these states stands at its place. It takes no memory.
pub fn are_there(store: &Store<'_>, near: &[Near]) -> bool
    ensures { result ≡ are_there store.now.states near.now }
{
    near.iter().all(|one| is_at(store, one.place, &one.state))
}
