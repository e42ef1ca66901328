//! States of several stores, compared with one another.
ghost use Rattle.std.specs.Prelude.{◌≡◌, slice_get};
ghost use Rattle.tso_store.specs.Gathering.{AreGathered};
ghost use Rattle.tso_keys.specs.Keys.{states_at};
ghost use Rattle.tso_keys.specs.Orders.{IsCompared};

use std::cmp::Ordering;
use std::marker::Model;
use tso_flow::Checked;
use tso_keys::{Key, OrderMemo, Parts, compare_with};

/// The states of a `Gathered`, which are compared with one another. Contracts see the list of them.
#[derive(Drop)]
pub struct Rising<'g> {
    checked: &'g Checked,
    parts: &'g Parts,
    keys: &'g [Key],
    memo: OrderMemo<'g>,
}

impl<'g> Model for Rising<'g> {
    ghost use Rattle.std.specs.Prelude.{List};
    ghost use Rattle.tso_keys.specs.Keys.{states_at};
    ghost use Rattle.tso_state.specs.declared.state.State.{State};
    ghost use Rattle.tso_store.specs.Gathering.{AreCompared};

    ghost Value = { List State };

    ghost view = { λ r. states_at r.parts.now r.keys.now };

    ghost invariant = { λ r. AreCompared r.checked.now.client r.parts.now r.keys.now r.memo };
}

/// The key at this place, if there is one.
pub fn kept_at(keys: &[Key], place: usize) -> Option<Key>
    ensures { result ≡ slice_get keys.now place }
{
    keys.get(place).copied()
}

impl<'g> Rising<'g> {
    /// The states of these keys.
    pub fn of(checked: &'g Checked, parts: &'g Parts, keys: &'g [Key]) -> Self
        requires { AreGathered checked.now.client parts.now keys.now }
        ensures { result ≡ states_at parts.now keys.now }
    {
        Rising {
            checked,
            parts,
            keys,
            memo: OrderMemo::new(parts),
        }
    }

    /// How two states are ordered, if there are so many: memory, threads, history, each as lists are. It takes no memory.
    pub fn compare(&mut self, a: usize, b: usize) -> Option<Ordering>
        ensures order { IsCompared self.old a b result }
        ensures stays { self.new ≡ self.old }
    {
        match kept_at(self.keys, a) {
            Some(first) => match kept_at(self.keys, b) {
                Some(second) => {
                    let order = compare_with(self.parts, &first, &second, &mut self.memo);
                    Some(order)
                }
                None => None,
            },
            None => None,
        }
    }
}
