//! Which enabled actors of a state are chosen.

ghost use Rattle.std.specs.Prelude.{◌≡◌, ◌<◌, ◌≤◌, IfNone, IfSome, None, false, is_some, length, slice_index_or, ℕ};
ghost use Rattle.tso_choose.specs.Choosing.{AreKinds, AreNeeds, IsChoice, IsLoneAt, HasNoLone, is_lone_if};
ghost use Rattle.tso_choose.specs.Closures.{has_bit};
ghost use Rattle.tso_choose.specs.Needs.{AreEnabled};
ghost use Rattle.tso_state.specs.WellFormed.{IsWellFormed};

use crate::closure::smallest;
use crate::needs::needed;
use crate::set::{actor_at, with_bit};
use tso_compact::{StepKind, kind};
use tso_flow::Checked;
use tso_foot::Table;
use tso_state::Viewed;

// Two for each thread of a client, the prologue's counted.
pub(crate) const ACTORS: usize = 10;

// Whether a step may go first alone.
fn is_lone(kind: Option<StepKind>) -> bool
    ensures { result ≡ is_lone_if kind }
{
    matches!(kind, Some(StepKind::Local | StepKind::Return))
}

// Goes over the actors in rising order up to the first whose step may go first alone, and notes the kinds of those before it.
fn survey<S: Viewed>(checked: &Checked, state: &S, kinds: &mut [Option<StepKind>]) -> Option<usize>
    requires few { length (S.state state.now).threads ≤ 5 }
    requires size { length kinds.old ≡ 10 }
    requires blank { (n : ℕ) → slice_index_or kinds.old n None ≡ None }
    ensures size { length kinds.new ≡ 10 }
    ensures lone { IfSome result (IsLoneAt checked.now.client (S.state state.now)) }
    ensures kinds { IfNone result (AreKinds checked.now.client (S.state state.now) kinds.new) }
    ensures none { IfNone result (HasNoLone checked.now.client (S.state state.now)) }
{
    for number in 0..2 * state.thread_count() {
        let kind = kind(checked, state, actor_at(number));
        if is_lone(kind) {
            return Some(number);
        }
        kinds[number] = kind;
    }
    None
}

// The actors that have a step.
fn enabled_in(kinds: &[Option<StepKind>]) -> u16
    requires { length kinds.now ≤ 16 }
    ensures { (k : ℕ) → has_bit result k ≡ is_some (slice_index_or kinds.now k None) }
{
    let mut set = 0;
    for number in 0..kinds.len() {
        if kinds[number].is_some() {
            set = with_bit(set, number);
        }
    }
    set
}

// Notes what each actor's step needs.
fn note_needs<S: Viewed>(
    checked: &Checked,
    table: &Table,
    state: &S,
    kinds: &[Option<StepKind>],
    enabled: u16,
    needs: &mut [u16],
)
    requires few { length (S.state state.now).threads ≤ 5 }
    requires kinds { AreKinds checked.now.client (S.state state.now) kinds.now }
    requires size { length kinds.now ≤ length needs.old }
    requires blank { (n : ℕ) → slice_index_or needs.old n 0 ≡ 0 }
    requires enabled { AreEnabled checked.now.client (S.state state.now) enabled }
    ensures size { length needs.new ≡ length needs.old }
    ensures is { AreNeeds checked.now.client table.now (S.state state.now) needs.new }
{
    for number in 0..kinds.len() {
        if let Some(kind) = kinds[number] {
            needs[number] = needed(checked, table, state, kind, number / 2, enabled);
        }
    }
}

/// The chosen actors of a well-formed state, as a set: the lowest alone whose step is local or a return; where there is none,
/// the smallest set of an enabled actor with all that its members' steps need. It takes no memory.
pub fn chosen<S: Viewed>(checked: &Checked, table: &Table, state: &S) -> u16
    requires { IsWellFormed checked.now.client (S.state state.now) }
    ensures { IsChoice checked.now.client table.now (S.state state.now) result }
{
    let mut kinds = [None; ACTORS];
    if let Some(number) = survey(checked, state, &mut kinds) {
        return with_bit(0, number);
    }
    let enabled = enabled_in(&kinds);
    let mut needs = [0; ACTORS];
    note_needs(checked, table, state, &kinds, enabled, &mut needs);
    match smallest(&needs, enabled) {
        Some(set) => set,
        None => 0,
    }
}
