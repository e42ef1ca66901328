//! What a step does, as data: everything that it changes in its thread, in memory and in the history follows from it.

ghost use Rattle.std.specs.Prelude.{◌≡◌, ℕ, List, map, IfSome};
ghost use Rattle.std.specs.Option.{option_map};
ghost use Rattle.tso_compact.specs.Clauses.{core_move_of, drain_move_of, HasLabelsFor, HasLabelsOfCore, IsMoveFor};
ghost use Rattle.tso_compact.specs.Motions.{running_thread, move_of, labels_in, core_labels, Fits};
ghost use Rattle.tso_compact.specs.declared.motion.Motion.TheVariants as motions;
ghost use Rattle.tso_flow.specs.Calls.{kind_of};
ghost use Rattle.tso_flow.specs.declared.location.ProcedureKind.{ProcedureKind as AProcedure};
ghost use Rattle.tso_machine.specs.Actions.{meaning, FitsAction};
ghost use Rattle.tso_machine.specs.Activations.{Activation, activation};
ghost use Rattle.tso_machine.specs.Instructions.{next_action};
ghost use Rattle.tso_machine.specs.Machines.{entry_view};
ghost use Rattle.tso_machine.specs.Programs.{jump_count, program_of};
ghost use Rattle.tso_model.specs.StepLabels.{labels_of_action, labels_of_entry};
ghost use Rattle.tso_model.specs.Steps.{action_move, core_move, drain_move, when_empty, Move as ModelMove};
ghost use Rattle.tso_prog.specs.Views.{call_view};
ghost use Rattle.tso_state.specs.Views.{core_view};

use tso_flow::ProcedureKind;
use tso_line::{LockedOperation, Register};
use tso_machine::{Action, Entry, FaultKind, Frame, Patch, back_jumps, next_action, procedure_of};
use tso_prog::{Answer, CallKind, Client};
use tso_state::{Core, Thread};

/// What a step does. `next` is the position of the instruction after it.
#[derive(Clone, Copy, PartialEq, Eq)]
pub enum Motion {
    /// Registers, flags and position change.
    Run(Patch),
    /// A fence is passed.
    Pass {
        next: usize,
    },
    /// A word is read, from the own buffer or from memory.
    Load {
        place: usize,
        to: Register,
        next: usize,
    },
    /// A word goes into the own buffer.
    Store {
        entry: Entry,
        next: usize,
    },
    /// A locked instruction reads and writes a word of memory.
    Locked {
        place: usize,
        operation: LockedOperation,
        register: Register,
        next: usize,
    },
    /// A call begins, whose procedure has so many back jumps.
    Begin {
        kind: CallKind,
        jumps: usize,
    },
    /// The call returns.
    Return(Answer),
    /// The thread stops at a fault.
    Stop(FaultKind),
    /// The oldest entry of the buffer goes to memory.
    Drain(Entry),
}

// The motion, if nothing is buffered.
fn if_empty(buffer: &[Entry], motion: Motion) -> Option<Motion>
    ensures is { (f : Motion → ModelMove Activation) → option_map f result ≡ when_empty (map entry_view buffer.now) (f motion) }
    ensures same { IfSome result (λ m. m ≡ motion) }
{
    match buffer {
        [] => Some(motion),
        _ => None,
    }
}

// What the next instruction of a running call does, of a thread with this frame and buffer.
fn action_motion(frame: &Frame, buffer: &[Entry], action: Action) -> Option<Motion>
    requires { FitsAction frame.now action }
    ensures is { IsMoveFor frame.now buffer.now action result }
    ensures fits { IfSome result (Fits (running_thread frame.now buffer.now)) }
    ensures labels { HasLabelsFor frame.now buffer.now action result }
{
    match action {
        Action::Silent(patch) => Some(Motion::Run(patch)),
        Action::Load { place, to, next } => Some(Motion::Load { place, to, next }),
        Action::Store { place, word, next } => Some(Motion::Store {
            entry: Entry { place, word },
            next,
        }),
        Action::Barrier { next } => if_empty(buffer, Motion::Pass { next }),
        Action::Locked {
            place,
            operation,
            register,
            next,
        } => if_empty(
            buffer,
            Motion::Locked {
                place,
                operation,
                register,
                next,
            },
        ),
        Action::Return(answer) => Some(Motion::Return(answer)),
        Action::Fault(fault) => Some(Motion::Stop(fault)),
        Action::Cut => None,
    }
}

// A call of this kind begins.
fn begin_motion(client: &Client, kind: CallKind) -> Motion
    ensures { result ≡ motions.Begin kind (jump_count client.now (kind_of kind)) }
{
    let procedure = procedure_of(client, ProcedureKind::from(kind));
    Motion::Begin {
        kind,
        jumps: back_jumps(procedure.instructions.as_slice()),
    }
}

/// What the core of a thread does next, whose last call runs this procedure and that may begin this call, were it idle.
pub fn core_motion(
    client: &Client,
    procedure: ProcedureKind,
    call: Option<CallKind>,
    thread: &Thread,
) -> Option<Motion>
    ensures is { option_map (move_of procedure thread.now) result ≡ core_move_of client.now procedure call thread.now }
    ensures fits { IfSome result (Fits thread.now) }
    ensures labels { HasLabelsOfCore client.now procedure call thread.now result }
{
    match &thread.core {
        Core::Idle => match call {
            Some(kind) => Some(begin_motion(client, kind)),
            None => None,
        },
        Core::Running(frame) => {
            let action = next_action(client, procedure, frame);
            action_motion(frame, thread.buffer.as_slice(), action)
        }
        Core::Stopped => None,
    }
}

/// What the buffer of a thread does next: its oldest entry goes to memory.
pub fn drain_motion(thread: &Thread) -> Option<Motion>
    ensures is { (name : AProcedure) → option_map (move_of name thread.now) result ≡ drain_move_of name thread.now }
    ensures fits { IfSome result (Fits thread.now) }
    ensures labels { (memory : List ℕ) (i : ℕ) → IfSome result (λ m. labels_in memory i thread.now m ≡ labels_of_entry i (map entry_view thread.now.buffer)) }
{
    match thread.buffer.as_slice() {
        [] => None,
        [entry, ..] => Some(Motion::Drain(*entry)),
    }
}
