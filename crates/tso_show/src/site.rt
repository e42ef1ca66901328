//! Which instruction takes a label, and on which line it stands.

ghost use Rattle.std.specs.Prelude.{◌≡◌};
ghost use Rattle.tso_flow.specs.Calls.{procedure_of_kind};
ghost use Rattle.tso_show.specs.Sites.{core_site, is_of_instruction, site_at, taker};

use tso_flow::ProcedureKind;
use tso_machine::{Core, Label, LabelKind, Machine};
use tso_prog::{Client, Procedure};

/// An instruction of a client's text.
#[derive(Clone, Copy, PartialEq, Eq)]
pub struct Site {
    pub procedure: ProcedureKind,
    /// Its position in the procedure, from 0.
    pub position: usize,
    /// The number of its line in the text, from 1.
    pub line: u32,
}

fn procedure_of(client: &Client, kind: ProcedureKind) -> &Procedure
    ensures { result.now ≡ procedure_of_kind client.now kind }
{
    match kind {
        ProcedureKind::Push => &client.push,
        ProcedureKind::Pop => &client.pop,
    }
}

// The instruction at a position of a procedure, if there is one.
fn site_at(client: &Client, procedure: ProcedureKind, position: usize) -> Option<Site>
    ensures { result ≡ site_at client.now procedure position }
{
    let lines = procedure_of(client, procedure).lines.as_slice();
    let line = lines.get(position).copied()?;
    Some(Site {
        procedure,
        position,
        line,
    })
}

/// The instruction that a running call's frame is at: its next one.
pub fn core_site(client: &Client, core: &Core) -> Option<Site>
    ensures { result ≡ core_site client.now core.now }
{
    match core {
        Core::Running(running) => site_at(client, running.procedure, running.frame.pc),
        Core::Idle | Core::Stopped => None,
    }
}

// Whether an instruction takes such a label. None takes a call, and none a drain.
fn is_of_instruction(kind: LabelKind) -> bool
    ensures { result ≡ is_of_instruction kind }
{
    !matches!(kind, LabelKind::Call(_) | LabelKind::Drain { .. })
}

/// The instruction that takes a label as the machine's next step: the one that the frame of the label's thread is at. None
/// takes the beginning of a call, and none takes a drain.
pub fn taker(client: &Client, machine: &Machine, label: Label) -> Option<Site>
    ensures { result ≡ taker client.now machine.now label }
{
    if !is_of_instruction(label.kind) {
        return None;
    }
    let thread = machine.threads.get(label.thread)?;
    core_site(client, &thread.core)
}
