//! Which actors a chosen actor's step needs to be chosen with it.

ghost use Rattle.std.specs.Prelude.{◌≡◌, ◌<◌, ◌≤◌, ◌==◌, ◌&&◌, not, nat_lt, length, ℕ};
ghost use Rattle.tso_choose.specs.Needs.{AreEnabled, AreWanted, is_apart, is_needed};
ghost use Rattle.tso_choose.specs.Sets.{has};
ghost use Rattle.tso_compact.specs.Plans.{thread_in};
ghost use Rattle.tso_indep.specs.Reasons.{is_free, place_of};
ghost use Rattle.tso_state.specs.Actors.{thread_of};
ghost use Rattle.tso_state.specs.declared.actor.Actor.{Actor as AnActor};

use crate::set::{has_bit, number_of, pair};
use tso_compact::StepKind;
use tso_flow::Checked;
use tso_foot::Table;
use tso_indep::{buffer_in, is_done_in, is_far_from, is_free, place_of};
use tso_state::{Actor, Viewed};

/// Whether a step of this kind needs nobody of thread `other`: it is local or a return; or it begins a call, and the other thread
/// has finished its calls, is stopped or is cut; or the other's future avoids its place. It takes no memory.
pub fn is_apart<S: Viewed>(
    checked: &Checked,
    table: &Table,
    state: &S,
    kind: StepKind,
    other: usize,
) -> bool
    ensures { result ≡ is_apart checked.now.client table.now (S.state state.now) kind other }
{
    match kind {
        StepKind::Local | StepKind::Return => true,
        StepKind::Call => is_done_in(checked, state, other),
        StepKind::Load(_) | StepKind::Drain(_) | StepKind::Locked(_) => {
            is_far_from(checked, table, state, kind, other)
        }
    }
}

// Whether a step of this kind needs of thread `other`, whose core has a step or not, that core alone.
fn is_served<S: Viewed>(state: &S, kind: StepKind, other: usize, core: bool) -> bool
    ensures { result ≡ (core && is_free (thread_in (S.state state.now) other).buffer (place_of kind)) }
{
    core && is_free(buffer_in(state, other), place_of(kind))
}

// Those of a thread's two actors that a step of this kind needs, if it needs one; these are enabled.
fn wanted<S: Viewed>(state: &S, kind: StepKind, other: usize, enabled: u16) -> u16
    requires { other < 8 }
    ensures { AreWanted (S.state state.now) kind other enabled result }
{
    let core = has_bit(enabled, number_of(Actor::Exec(other)));
    let buffer = has_bit(enabled, number_of(Actor::Drain(other)));
    let is_served = is_served(state, kind, other, core);
    pair(other, core, buffer & !is_served)
}

// What a step of this kind, of thread `own`, needs of thread `other`, where these actors are enabled.
fn needed_of<S: Viewed>(
    checked: &Checked,
    table: &Table,
    state: &S,
    kind: StepKind,
    own: usize,
    other: usize,
    enabled: u16,
) -> u16
    requires small { other < 8 }
    requires enabled { AreEnabled checked.now.client (S.state state.now) enabled }
    ensures { (b : AnActor) → has result b ≡ ((thread_of b == other) && is_needed checked.now.client table.now (S.state state.now) kind own b) }
{
    if other == own {
        return 0;
    }
    if is_apart(checked, table, state, kind, other) {
        return 0;
    }
    wanted(state, kind, other, enabled)
}

/// What a step of this kind, of thread `own`, needs, where these actors are enabled.
pub fn needed<S: Viewed>(
    checked: &Checked,
    table: &Table,
    state: &S,
    kind: StepKind,
    own: usize,
    enabled: u16,
) -> u16
    requires few { length (S.state state.now).threads ≤ 5 }
    requires enabled { AreEnabled checked.now.client (S.state state.now) enabled }
    ensures { (b : AnActor) → has result b ≡ is_needed checked.now.client table.now (S.state state.now) kind own b }
{
    let mut set = 0;
    for other in 0..state.thread_count() {
        set |= needed_of(checked, table, state, kind, own, other, enabled);
    }
    set
}
