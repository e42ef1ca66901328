//! What kind of thing the next instruction of a running call does. No word, flag or frame is computed for that.

ghost use Rattle.std.specs.Prelude.{◌≡◌, ◌<◌, length, slice_get, take, unwrap_or};
ghost use Rattle.tso_flow.specs.declared.location.ProcedureKind.{ProcedureKind as AProcedure};
ghost use Rattle.tso_line.specs.declared.instruction.Instruction.TheVariants as instructions;
ghost use Rattle.tso_machine.specs.Activations.{activation};
ghost use Rattle.tso_machine.specs.Instructions.{back_jumps, instruction_action, instructions_of, next_action, returned};
ghost use Rattle.tso_machine.specs.Kinds.{is_spent, kind_of_action};

use crate::action::{back_jumps, is_taken, place_of, procedure_of};
use crate::frame::Frame;
use tso_flow::ProcedureKind;
use tso_line::{Instruction, Register};
use tso_prog::{Client, Step};
use tso_word::Condition;

/// What the next instruction of a running call has to do with memory and with its call.
#[derive(Clone, Copy, Debug, PartialEq, Eq)]
pub enum ActionKind {
    /// Neither: it changes its own thread alone, and waits for nothing. So does a store, which goes into the own buffer, and a
    /// fault.
    Local,
    /// It reads this place of memory.
    Load(usize),
    /// It waits until the store buffer is empty.
    Barrier,
    /// It reads and writes this place under the lock.
    Locked(usize),
    /// The call returns.
    Return,
    /// A back jump at its bound: no step follows.
    Cut,
}

/// What kind of thing the next instruction of a call of this procedure does in this frame.
#[tactic(auto, unfolding(crate::specs::Instructions::next_action))]
pub fn next_kind(client: &Client, name: ProcedureKind, frame: &Frame) -> ActionKind
    ensures { result ≡ kind_of_action (next_action client.now (activation name frame.now)) }
{
    let instructions = procedure_of(client, name).instructions.as_slice();
    match instructions.get(frame.pc) {
        Some(step) => kind_of_step(client, name, frame, *step),
        None => ActionKind::Cut,
    }
}

fn kind_of_step(client: &Client, name: ProcedureKind, frame: &Frame, step: Step) -> ActionKind
    requires { frame.now.pc < length (instructions_of client.now name) }
    ensures { result ≡ kind_of_action (instruction_action client.now name frame.now step) }
{
    match step {
        Instruction::Load { from, .. } => match place_of(client, frame, from) {
            Some(place) => ActionKind::Load(place),
            None => ActionKind::Local,
        },
        Instruction::Locked { cell, .. } => match place_of(client, frame, cell) {
            Some(place) => ActionKind::Locked(place),
            None => ActionKind::Local,
        },
        Instruction::Jump {
            when,
            target,
            bound,
        } => kind_of_jump(client, name, frame, when, target, bound),
        Instruction::Fence => ActionKind::Barrier,
        Instruction::Return => kind_of_return(frame),
        Instruction::Store { .. }
        | Instruction::Move { .. }
        | Instruction::Compute { .. }
        | Instruction::Compare { .. }
        | Instruction::Increment(_)
        | Instruction::Decrement(_)
        | Instruction::Assert(_)
        | Instruction::Nop
        | Instruction::Pause => ActionKind::Local,
    }
}

// Of a jump: whether it is taken matters only for one back.
fn kind_of_jump(
    client: &Client,
    name: ProcedureKind,
    frame: &Frame,
    when: Option<Condition>,
    target: usize,
    bound: Option<u8>,
) -> ActionKind
    requires { frame.now.pc < length (instructions_of client.now name) }
    ensures { result ≡ kind_of_action (instruction_action client.now name frame.now (instructions.Jump when target bound)) }
{
    if target > frame.pc {
        return ActionKind::Local;
    }
    if !is_taken(when, frame.flags) {
        return ActionKind::Local;
    }
    if is_spent(client, name, frame, bound) {
        ActionKind::Cut
    } else {
        ActionKind::Local
    }
}

// Whether the back jump at the frame's position was taken as often as its bound allows.
fn is_spent(client: &Client, name: ProcedureKind, frame: &Frame, bound: Option<u8>) -> bool
    requires { frame.now.pc < length (instructions_of client.now name) }
    ensures { result ≡ is_spent (unwrap_or bound 0) (slice_get frame.now.taken (back_jumps 0 (take frame.now.pc (instructions_of client.now name)))) }
{
    let number = back_jumps(&procedure_of(client, name).instructions.as_slice()[..frame.pc]);
    match frame.taken.as_slice().get(number) {
        Some(count) => *count >= bound.unwrap_or(0),
        None => true,
    }
}

fn kind_of_return(frame: &Frame) -> ActionKind
    ensures { (name : AProcedure) → result ≡ kind_of_action (returned name frame.now) }
{
    match frame.register(Register::Rax) {
        0 | 1 => ActionKind::Return,
        _ => ActionKind::Local,
    }
}
