//! Threads that move only as chosen, or return no more.

ghost use Rattle.std.specs.Prelude.{◌≡◌};
ghost use Rattle.tso_indep.specs.Reasons.{is_among, is_done, is_held};

use tso_compact::kind;
use tso_flow::Checked;
use tso_machine::{ActionKind, call_at, next_kind};
use tso_state::{Actor, Core, Viewed};

/// Whether the actor is one of these.
pub fn is_among(chosen: &[Actor], actor: Actor) -> bool
    ensures { result ≡ is_among chosen.now actor }
{
    chosen.contains(&actor)
}

/// Whether the actor is chosen, or has no step.
pub fn is_held<S: Viewed>(checked: &Checked, state: &S, chosen: &[Actor], actor: Actor) -> bool
    ensures { result ≡ is_held checked.now.client (S.state state.now) chosen.now actor }
{
    is_among(chosen, actor) || kind(checked, state, actor).is_none()
}

/// Whether a thread with this core has finished its calls, is stopped, or is cut: then it returns no more.
pub fn is_done<S: Viewed>(checked: &Checked, state: &S, number: usize, core: &Core) -> bool
    ensures { result ≡ is_done checked.now.client (S.state state.now) number core.now }
{
    let client = &checked.client;
    match core {
        Core::Idle => call_at(client, number, state.begun(number)).is_none(),
        Core::Running(frame) => {
            let kind = next_kind(client, state.procedure(number), frame);
            matches!(kind, ActionKind::Cut)
        }
        Core::Stopped => true,
    }
}
