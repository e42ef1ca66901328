//! Whether regions have all that they lead to, and have worked it.

ghost use Rattle.std.specs.Prelude.{◌≡◌, ◌<◌, ℕ, IfOk, IsTrue, Some, true, slice_get};
ghost use Rattle.tso_parts.specs.Numbers.{IsNowhere};
ghost use Rattle.tso_regions.specs.Gathering.{AreOwners, AreSettledBetween, CanBeAsked, IsHeldAbroad, IsNextOwn, IsSettled};
ghost use Rattle.tso_regions.specs.declared.settling.Standing.TheVariants as standings;
ghost use Rattle.tso_search.specs.Marking.{is_marked};

use crate::owner::owners_of;
use crate::realm::Realm;
use crate::region::Region;
use std::alloc::{AllocError, Global};
use tso_cert::Task;
use tso_keys::{Key, View};
use tso_parts::Pool;

// How a state of a region stands.
#[derive(Clone, Copy, PartialEq, Eq)]
enum Standing {
    // It belongs to the region, is the next in its list, and worked.
    Own,
    // It belongs to another, which has it.
    Held,
    // None of these.
    Open,
}

// How state `number` of the region of owner `place` stands, where so many of its own come before; the owner of each history is known.
fn look_at<U: Realm>(
    regions: &[Region<'_, U>],
    region: &Region<'_, U>,
    keys: &Pool<Key>,
    owners: &[u64],
    count: u64,
    place: usize,
    number: u32,
    before: usize,
) -> Standing
    requires { AreOwners count owners.now keys.now region.now.states }
    ensures own { result ≡ standings.Own → IsNextOwn count place region.now number before }
    ensures held { result ≡ standings.Held → IsHeldAbroad count regions.now place region.now number }
{
    let Some(key) = keys.get(number) else {
        return Standing::Open;
    };
    let Some(owner) = owners.get(key.history as usize) else {
        return Standing::Open;
    };
    if *owner as usize == place {
        return own_standing(region, number, before);
    }
    match (region.view(number), regions.get(*owner as usize)) {
        (Some(view), Some(keeper)) => held_standing(keeper, &view),
        _ => Standing::Open,
    }
}

// How a state of its own stands.
fn own_standing<U: Realm>(region: &Region<'_, U>, number: u32, before: usize) -> Standing
    ensures next { result ≡ standings.Own → slice_get region.now.own before ≡ Some number }
    ensures worked { result ≡ standings.Own → IsTrue (is_marked region.now.marks number) }
    ensures other { result ≡ standings.Held → ⊥ }
{
    match region.own_at(before) {
        Some(next) if next == number && region.is_marked(number) => Standing::Own,
        _ => Standing::Open,
    }
}

// How a state stands that belongs to this region.
fn held_standing<U: Realm>(keeper: &Region<'_, U>, view: &View<'_>) -> Standing
    ensures held { result ≡ standings.Held → (n : ℕ) × (slice_get keeper.now.states n ≡ Some view.now) }
    ensures absent { result ≡ standings.Open → IsNowhere keeper.now.states view.now }
    ensures other { result ≡ standings.Own → ⊥ }
{
    match keeper.find(view) {
        Some(_) => Standing::Held,
        None => Standing::Open,
    }
}

// Whether the region of owner `place`, of so many, is settled.
//
// Errors: where a growth was refused.
fn is_settled<U: Realm>(
    alloc: Global,
    regions: &[Region<'_, U>],
    region: &Region<'_, U>,
    count: u64,
    place: usize,
) -> Result<bool, AllocError>
    requires { 0 < count }
    ensures { IfOk result (λ settled. settled ≡ true → IsSettled count regions.now place region.now) }
{
    let Ok(len) = u32::try_from(region.len()) else {
        return Ok(false);
    };
    let (store, _) = region.lent();
    let (parts, keys) = store.keyed_parts();
    let owners = owners_of(alloc, parts.histories.values(), count)?;
    let mut before = 0;
    for number in 0..len {
        match look_at(
            regions,
            region,
            keys,
            owners.as_slice(),
            count,
            place,
            number,
            before,
        ) {
            Standing::Own => before += 1,
            Standing::Held => {}
            Standing::Open => return Ok(false),
        }
    }
    Ok(before == region.own_count())
}

// Whether the regions with numbers from one up to another are.
//
// Errors: where a growth was refused.
fn are_settled_between<U: Realm>(
    alloc: Global,
    regions: &[Region<'_, U>],
    count: u64,
    from: usize,
    to: usize,
) -> Result<bool, AllocError>
    requires { CanBeAsked count regions.now from to }
    ensures { IfOk result (λ settled. settled ≡ true → AreSettledBetween U.client U.table count regions.now from to) }
{
    for place in from..to {
        let region = &regions[place];
        region.is_known();
        if !is_settled(alloc, regions, region, count, place)? {
            return Ok(false);
        }
    }
    Ok(true)
}

/// Regions, with numbers from one up to another, of which is asked whether they are settled: whether each lists just its own states, all
/// of which are worked, and each state of another is kept by its owner.
#[derive(Drop)]
pub struct Asked<'a, U: Realm> {
    pub alloc: Global,
    pub regions: &'a [Region<'a, U>],
    pub count: u64,
    pub from: usize,
    pub to: usize,
}

impl<'a, U: Realm> Task for Asked<'a, U> {
    ghost use Rattle.std.specs.Prelude.{◌≡◌, true};
    ghost use Rattle.tso_regions.specs.Gathering.{AreHalvesOf, AreSettledBetween, CanBeAsked};

    type Output = bool;

    ghost is_ready = { λ p. CanBeAsked p.count p.regions.now p.from p.to };

    ghost is_output = { λ p settled. settled ≡ true → AreSettledBetween U.client U.table p.count p.regions.now p.from p.to };

    ghost are_halves = { λ p left right. AreHalvesOf p.count p.regions.now p.from p.to left.count left.regions.now left.from left.to right.count right.regions.now right.from right.to };

    fn run(&self) -> Result<bool, AllocError> {
        are_settled_between(self.alloc, self.regions, self.count, self.from, self.to)
    }

    fn halves(&self) -> Option<(Self, Self)> {
        let regions = self.to - self.from;
        if regions < 2 {
            return None;
        }
        let middle = self.from + regions / 2;
        let left = Asked {
            alloc: self.alloc,
            regions: self.regions,
            count: self.count,
            from: self.from,
            to: middle,
        };
        let right = Asked {
            alloc: self.alloc,
            regions: self.regions,
            count: self.count,
            from: middle,
            to: self.to,
        };
        Some((left, right))
    }

    fn joined(
        &self,
        _left: &Self,
        _right: &Self,
        first: bool,
        second: bool,
    ) -> Result<bool, AllocError> {
        Ok(first && second)
    }
}
