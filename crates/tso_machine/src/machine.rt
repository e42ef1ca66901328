//! The state of the label machine: memory, the lock, and for each thread a core and a store buffer.

use crate::buffer::Buffer;
use crate::frame::Frame;
use tso_flow::ProcedureKind;
use tso_list::Seq;

/// How far a thread is in a locked instruction.
#[derive(Clone, Copy, Debug, PartialEq, Eq)]
pub enum Stage {
    /// It is in none.
    Outside,
    /// It has the lock.
    HasLock,
    /// It has read this word.
    HasRead(u64),
    /// It has read this word, and has put the new one into its buffer.
    HasWritten(u64),
}

/// A running call: its procedure, the frame in it, and how far it is in a locked instruction.
#[derive(Debug, PartialEq, Eq, Drop)]
pub struct Running {
    pub procedure: ProcedureKind,
    pub frame: Frame,
    pub stage: Stage,
}

/// What a thread is doing.
#[derive(Debug, PartialEq, Eq, Drop)]
pub enum Core {
    /// It runs no call.
    Idle,
    /// It runs a call.
    Running(Running),
    /// It has stopped at a fault.
    Stopped,
}

/// A thread: how many of its calls have begun, its core and its store buffer.
#[derive(Debug, Drop)]
pub struct Thread {
    pub begun: usize,
    pub core: Core,
    pub buffer: Buffer,
}

/// A state of the machine.
#[derive(Debug, Drop)]
pub struct Machine {
    /// The words of all arrays, one array after another.
    pub memory: Seq<u64>,
    /// Which thread holds the lock.
    pub lock: Option<usize>,
    /// The client's threads, and the prologue's as the last where the client has one.
    pub threads: Seq<Thread>,
}
