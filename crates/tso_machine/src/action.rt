//! What the next instruction of a running call does.

ghost use Rattle.std.specs.Prelude.{◌≡◌, ◌<◌, ◌≤◌, length, take, None};
ghost use Rattle.tso_machine.specs.Activations.{activation};
ghost use Rattle.tso_machine.specs.Actions.{meaning, FitsAction};
ghost use Rattle.tso_machine.specs.Frames.{patched, register_of};
ghost use Rattle.tso_machine.specs.Instructions.{at_next, with_register, with_flags, back_jumps, is_back_jump, is_taken, instruction_action, next_action, instructions_of, jump, returned, after_operation, after_increment, after_decrement, comparison_flags};
ghost use Rattle.tso_machine.specs.Places.{index_register, operand_place};

use crate::frame::{Frame, Patch};
use crate::place::cell_place;
use tso_flow::ProcedureKind;
use tso_line::{Address, Comparison, Instruction, LockedOperation, Operation, Register};
use tso_prog::{Answer, Client, Procedure, Step};
use tso_word::{BitOperation, Condition, Flags};

/// Why a thread stops.
#[derive(Clone, Copy, Debug, PartialEq, Eq)]
pub enum FaultKind {
    /// An access outside its array.
    OutOfRange,
    /// An assertion whose condition does not hold.
    FalseAssertion,
    /// An answer other than 0 and 1.
    BadAnswer,
}

/// What the next instruction of a running call does. `next` is the position of the instruction after it.
#[derive(Clone, Copy, PartialEq, Eq)]
pub enum Action {
    /// It changes the frame alone.
    Silent(Patch),
    /// It reads a place of memory into a register.
    Load {
        place: usize,
        to: Register,
        next: usize,
    },
    /// It writes a word to a place of memory, through the store buffer.
    Store {
        place: usize,
        word: u64,
        next: usize,
    },
    /// It waits until the store buffer is empty.
    Barrier {
        next: usize,
    },
    /// It reads and writes a place under the lock.
    Locked {
        place: usize,
        operation: LockedOperation,
        register: Register,
        next: usize,
    },
    /// The call returns.
    Return(Answer),
    /// The thread stops.
    Fault(FaultKind),
    /// A back jump at its bound: no step follows.
    Cut,
}

/// The instructions of a procedure, with their lines.
pub fn procedure_of(client: &Client, name: ProcedureKind) -> &Procedure
    ensures steps { result.now.instructions ≡ instructions_of client.now name }
    ensures few { length result.now.instructions ≤ 256 }
{
    match name {
        ProcedureKind::Push => &client.push,
        ProcedureKind::Pop => &client.pop,
    }
}

/// What the next instruction of a call of this procedure does in this frame.
#[tactic(auto, unfolding(crate::specs::Instructions::next_action))]
pub fn next_action(client: &Client, name: ProcedureKind, frame: &Frame) -> Action
    ensures is { meaning name frame.now result ≡ next_action client.now (activation name frame.now) }
    ensures fits { FitsAction frame.now result }
{
    let instructions = procedure_of(client, name).instructions.as_slice();
    match instructions.get(frame.pc) {
        Some(step) => action_of(client, name, frame, *step),
        None => Action::Cut,
    }
}

fn action_of(client: &Client, name: ProcedureKind, frame: &Frame, step: Step) -> Action
    requires there { frame.now.pc < length (instructions_of client.now name) }
    requires few { length (instructions_of client.now name) ≤ 256 }
    ensures is { meaning name frame.now result ≡ instruction_action client.now name frame.now step }
    ensures fits { FitsAction frame.now result }
{
    let next = frame.pc + 1;
    match step {
        Instruction::Load { to, from } => match place_of(client, frame, from) {
            Some(place) => Action::Load { place, to, next },
            None => Action::Fault(FaultKind::OutOfRange),
        },
        Instruction::Store { to, from } => match place_of(client, frame, to) {
            Some(place) => Action::Store {
                place,
                word: frame.value(from),
                next,
            },
            None => Action::Fault(FaultKind::OutOfRange),
        },
        Instruction::Locked {
            operation,
            cell,
            register,
        } => match place_of(client, frame, cell) {
            Some(place) => Action::Locked {
                place,
                operation,
                register,
                next,
            },
            None => Action::Fault(FaultKind::OutOfRange),
        },
        Instruction::Jump {
            when,
            target,
            bound,
        } => {
            if is_taken(when, frame.flags) {
                jump(client, name, frame, target, bound)
            } else {
                Action::Silent(unchanged(frame))
            }
        }
        Instruction::Assert(condition) => {
            if tso_word::holds(condition, frame.flags) {
                Action::Silent(unchanged(frame))
            } else {
                Action::Fault(FaultKind::FalseAssertion)
            }
        }
        Instruction::Fence => Action::Barrier { next },
        Instruction::Return => return_of(name, frame),
        Instruction::Move { to, from } => Action::Silent(written(frame, to, frame.value(from))),
        Instruction::Compute {
            operation,
            to,
            from,
        } => Action::Silent(computed(frame, operation, to, frame.value(from))),
        Instruction::Compare {
            comparison,
            left,
            right,
        } => Action::Silent(compared(frame, comparison, left, frame.value(right))),
        Instruction::Increment(register) => Action::Silent(counted_up(frame, register)),
        Instruction::Decrement(register) => Action::Silent(counted_down(frame, register)),
        Instruction::Nop | Instruction::Pause => Action::Silent(unchanged(frame)),
    }
}

// The frame at the next instruction.
fn unchanged(frame: &Frame) -> Patch
    requires { frame.now.pc < 256 }
    ensures after { patched frame.now result ≡ at_next frame.now }
    ensures taken { result.taken ≡ None }
{
    Patch {
        pc: frame.pc + 1,
        register: None,
        flags: frame.flags,
        taken: None,
    }
}

// The frame at the next instruction, with a word in a register.
fn written(frame: &Frame, to: Register, word: u64) -> Patch
    requires { frame.now.pc < 256 }
    ensures taken { result.taken ≡ None }
    ensures after { patched frame.now result ≡ at_next (with_register to word frame.now) }
{
    Patch {
        register: Some((to, word)),
        ..unchanged(frame)
    }
}

// What is computed of a register and a word, in the register.
fn computed(frame: &Frame, operation: Operation, to: Register, word: u64) -> Patch
    requires { frame.now.pc < 256 }
    ensures taken { result.taken ≡ None }
    ensures after { patched frame.now result ≡ after_operation operation to word frame.now }
{
    let old = frame.register(to);
    let (word, flags) = match operation {
        Operation::Add => tso_word::add(old, word),
        Operation::Sub => tso_word::sub(old, word),
        Operation::Logic(operation) => tso_word::logic(operation, old, word),
    };
    Patch {
        flags,
        ..written(frame, to, word)
    }
}

// The flags of a comparison.
fn compared(frame: &Frame, comparison: Comparison, left: Register, right: u64) -> Patch
    requires { frame.now.pc < 256 }
    ensures taken { result.taken ≡ None }
    ensures after { patched frame.now result ≡ at_next (with_flags (comparison_flags comparison (register_of frame.now left) right) frame.now) }
{
    let left = frame.register(left);
    let (_, flags) = match comparison {
        Comparison::Cmp => tso_word::sub(left, right),
        Comparison::Test => tso_word::logic(BitOperation::And, left, right),
    };
    Patch {
        flags,
        ..unchanged(frame)
    }
}

fn counted_up(frame: &Frame, register: Register) -> Patch
    requires { frame.now.pc < 256 }
    ensures taken { result.taken ≡ None }
    ensures after { patched frame.now result ≡ after_increment register frame.now }
{
    let (word, flags) = tso_word::inc(frame.register(register), frame.flags);
    Patch {
        flags,
        ..written(frame, register, word)
    }
}

fn counted_down(frame: &Frame, register: Register) -> Patch
    requires { frame.now.pc < 256 }
    ensures taken { result.taken ≡ None }
    ensures after { patched frame.now result ≡ after_decrement register frame.now }
{
    let (word, flags) = tso_word::dec(frame.register(register), frame.flags);
    Patch {
        flags,
        ..written(frame, register, word)
    }
}

pub(crate) fn is_taken(when: Option<Condition>, flags: Flags) -> bool
    ensures { result ≡ is_taken when flags }
{
    match when {
        Some(condition) => tso_word::holds(condition, flags),
        None => true,
    }
}

/// How many of these first steps of a procedure are back jumps.
pub fn back_jumps(steps: &[Step]) -> usize
    ensures { result ≡ back_jumps 0 steps.now }
{
    let mut count = 0;
    for (at, step) in steps.iter().enumerate() {
        if is_back_jump(at, *step) {
            count += 1;
        }
    }
    count
}

fn is_back_jump(at: usize, step: Step) -> bool
    ensures { result ≡ is_back_jump at step }
{
    match step {
        Instruction::Jump { target, .. } => target <= at,
        _ => false,
    }
}

// A jump that is taken.
fn jump(
    client: &Client,
    name: ProcedureKind,
    frame: &Frame,
    target: usize,
    bound: Option<u8>,
) -> Action
    requires { frame.now.pc < length (instructions_of client.now name) }
    ensures is { meaning name frame.now result ≡ jump name frame.now (back_jumps 0 (take frame.now.pc (instructions_of client.now name))) target bound }
    ensures fits { FitsAction frame.now result }
{
    if target > frame.pc {
        return Action::Silent(Patch {
            pc: target,
            register: None,
            flags: frame.flags,
            taken: None,
        });
    }
    let number = back_jumps(&procedure_of(client, name).instructions.as_slice()[..frame.pc]);
    match frame.taken.as_slice().get(number) {
        Some(count) if *count < bound.unwrap_or(0) => Action::Silent(Patch {
            pc: target,
            register: None,
            flags: frame.flags,
            taken: Some((number, *count + 1)),
        }),
        _ => Action::Cut,
    }
}

fn return_of(name: ProcedureKind, frame: &Frame) -> Action
    ensures is { meaning name frame.now result ≡ returned name frame.now }
    ensures fits { FitsAction frame.now result }
{
    match frame.register(Register::Rax) {
        0 => Action::Return(Answer::Refused),
        1 => match name {
            ProcedureKind::Push => Action::Return(Answer::Done),
            ProcedureKind::Pop => Action::Return(Answer::Value(frame.register(Register::Rdx))),
        },
        _ => Action::Fault(FaultKind::BadAnswer),
    }
}

// The word of an index register, 0 where there is none.
fn index_register(frame: &Frame, index: Option<Register>) -> u64
    ensures { result ≡ index_register frame.now index }
{
    match index {
        Some(register) => frame.register(register),
        None => 0,
    }
}

// The place of a memory operand, if it is inside its array.
pub(crate) fn place_of(client: &Client, frame: &Frame, address: Address<usize>) -> Option<usize>
    ensures { result ≡ operand_place client.now.arrays frame.now address }
{
    let index = index_register(frame, address.index).checked_add_signed(address.offset)?;
    cell_place(client, address.array, index as usize)
}
