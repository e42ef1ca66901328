//! States on their way to their owner.

ghost use Rattle.std.specs.Prelude.{◌≡◌, ◌==◌, ◌<◌, ◌^◌, [], IfOk, IfSome, None, Ok, OnErr, Some, length, map, slice_get};
ghost use Rattle.tso_parts.specs.Numbers.{Extends};
ghost use Rattle.tso_regions.specs.Regions.{AreSound, IsSound};
ghost use Rattle.tso_prog.specs.declared.client.Client.{Client};
ghost use Rattle.tso_state.specs.declared.state.State.{State as StateValue};
ghost use Rattle.tso_keys.specs.Keys.{AreSomeones, FitsClient, states_at};
ghost use Rattle.tso_regions.specs.Gathering.{owned_below, state_at};
ghost use Rattle.tso_regions.specs.Owners.{owner_in, owner_of};

use crate::halt::Halt;
use crate::owner::{Owner, owners_of};
use crate::realm::Realm;
use std::alloc::{AllocError, Global};
use std::marker::{Model, PhantomData};
use tso_flow::Checked;
use tso_keys::{Key, Parts, View};
use tso_parts::Pool;
use tso_store::{AddError, Store};

/// States on their way to their owner. All are met, and the runs to each are good.
#[derive(Drop)]
pub struct Parcel<'a, U: Realm> {
    store: Store<'a>,
    realm: PhantomData<U>,
}

impl<'a, U: Realm> Model for Parcel<'a, U> {
    ghost use Rattle.std.specs.Prelude.{List};
    ghost use Rattle.tso_regions.specs.Regions.{IsParcel};
    ghost use Rattle.tso_state.specs.declared.state.State.{State as StateValue};

    ghost Value = { List StateValue };

    ghost view = { λ p. p.store.states };

    ghost invariant = { λ p. IsParcel U.client p.store };
}

/// Keeps a state that is met, and to which the runs are good: its number. `None` where it is none of the client's. Its parts are looked
/// for first where the state has them that came last, since states come in the order in which they were met.
///
/// Errors: where it cannot be kept.
pub fn keep(store: &mut Store<'_>, view: &View<'_>) -> Result<Option<u32>, Halt>
    requires state { IsSound store.old.client view.now }
    requires sound { AreSound store.old.client store.old.states }
    ensures number { IfOk result (λ kept. IfSome kept (λ n. slice_get store.new.states n ≡ Some view.now)) }
    ensures misfit { result ≡ Ok None → FitsClient store.old.client view.now → ⊥ }
    ensures err { OnErr result (store.new.states ≡ store.old.states) }
    ensures sound { AreSound store.new.client store.new.states }
    ensures stays { Extends store.old.states store.new.states }
    ensures client { store.new.client ≡ store.old.client }
{
    let last = store.key(count_of(store).wrapping_sub(1));
    match store.add_view(&last, view) {
        Ok((number, _)) => Ok(Some(number)),
        Err(AddError::Misfit) => Ok(None),
        Err(AddError::Memory) => Err(Halt::Memory),
        Err(AddError::Full) => Err(Halt::Full),
    }
}

// Keeps states of another store.
fn keep_all(store: &mut Store<'_>, from: &Store<'_>, numbers: &[u32]) -> Result<(), Halt>
    requires client { from.now.client ≡ store.old.client }
    requires from { AreSound from.now.client from.now.states }
    requires sound { AreSound store.old.client store.old.states }
    ensures sound { AreSound store.new.client store.new.states }
    ensures stays { Extends store.old.states store.new.states }
    ensures client { store.new.client ≡ store.old.client }
{
    for number in numbers {
        if let Some(view) = from.view(*number) {
            keep(store, &view)?;
        }
    }
    Ok(())
}

// How many states there are, as far as numbers go.
fn count_of(store: &Store<'_>) -> u32
    ensures { length store.now.states < 2 ^ 32 → result ≡ length store.now.states }
{
    u32::try_from(store.len()).unwrap_or(u32::MAX)
}

// Whether the state with this number, of these parts and keys, belongs to the owner, where these are the owners of the histories.
fn belongs_to(parts: &Parts, keys: &Pool<Key>, owners: &[u64], owner: Owner, number: u32) -> bool
    requires kept { AreSomeones parts.now keys.now }
    requires owners { owners.now ≡ map (owner_of owner.count) parts.now.histories }
    requires there { number < length keys.now }
    ensures { result ≡ (owner_in owner.count (state_at (states_at parts.now keys.now) number) == owner.number) }
{
    let Some(key) = keys.get(number) else {
        return false;
    };
    match owners.get(key.history as usize) {
        Some(found) => *found == owner.number,
        None => false,
    }
}

// The numbers of the states of these parts and keys that belong to this owner, where these are the owners of the histories.
fn own_numbers(
    alloc: Global,
    parts: &Parts,
    keys: &Pool<Key>,
    owners: &[u64],
    owner: Owner,
) -> Result<Vec<u32>, AllocError>
    requires kept { AreSomeones parts.now keys.now }
    requires owners { owners.now ≡ map (owner_of owner.count) parts.now.histories }
    ensures { IfOk result (λ numbers. numbers.items ≡ owned_below owner.count owner.number (states_at parts.now keys.now) (length keys.now)) }
{
    keys.is_numbered();
    let mut numbers = Vec::new(alloc);
    for number in 0..keys.len() as u32 {
        if belongs_to(parts, keys, owners, owner, number) {
            numbers.push(number)?;
        }
    }
    Ok(numbers)
}

impl<'a, U: Realm> Parcel<'a, U> {
    /// No states.
    pub fn new(alloc: Global, checked: &'a Checked) -> Self
        requires { U.client ≡ Some checked.now.client }
        ensures { result ≡ [] }
    {
        let store = Store::new(alloc, checked, 0);
        Parcel {
            store,
            realm: PhantomData,
        }
    }

    /// The states of a store.
    pub fn of(store: Store<'a>) -> Self
        requires client { U.client ≡ Some store.client }
        requires sound { AreSound store.client store.states }
        ensures { result ≡ store.entry.states }
    {
        Parcel {
            store,
            realm: PhantomData,
        }
    }

    /// Takes in states of a region.
    ///
    /// Errors: where they cannot be kept.
    pub fn put(&mut self, from: &Store<'_>, numbers: &[u32]) -> Result<(), Halt>
        requires client { U.client ≡ Some from.now.client }
        requires from { AreSound from.now.client from.now.states }
        ensures stays { Extends self.old self.new }
    {
        keep_all(&mut self.store, from, numbers)
    }

    /// How many states there are, as far as numbers go.
    pub fn count(&self) -> u32
        ensures { length self.now < 2 ^ 32 → result ≡ length self.now }
    {
        count_of(&self.store)
    }

    /// A state, if there are so many.
    pub fn view(&self, number: u32) -> Option<View<'_>>
        ensures state { result ≡ slice_get self.now number }
        ensures sound { IfSome result (λ s. (c : Client) → U.client ≡ Some c → IsSound c s) }
    {
        self.store.view(number)
    }

    /// The numbers of the states that belong to this owner, in their order.
    ///
    /// Errors: where a growth was refused.
    pub fn own(&self, alloc: Global, owner: Owner) -> Result<Vec<u32>, AllocError>
        requires { 0 < owner.count }
        ensures { IfOk result (λ numbers. numbers.items ≡ owned_below owner.count owner.number self.now (length self.now)) }
    {
        let (parts, keys) = self.store.keyed_parts();
        let owners = owners_of(alloc, parts.histories.values(), owner.count)?;
        own_numbers(alloc, parts, keys, owners.as_slice(), owner)
    }
}
