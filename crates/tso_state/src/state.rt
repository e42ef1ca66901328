//! States as plain values, for contracts, files and traces.
ghost use Rattle.std.specs.Prelude.{◌≡◌};

use std::alloc::AllocError;
use tso_hist::History;
use tso_list::Seq;
use tso_machine::{Entry, Frame};

/// What a thread is doing.
#[derive(PartialEq, Eq, PartialOrd, Ord, Hash, Drop)]
pub enum Core {
    /// It runs no call.
    Idle,
    /// It runs its last call, and is in no locked instruction.
    Running(Frame),
    /// It has stopped at a fault.
    Stopped,
}

/// A thread: its core, and its stores that are not in memory yet, the oldest first.
#[derive(PartialEq, Eq, PartialOrd, Ord, Hash, Drop)]
pub struct Thread {
    pub core: Core,
    pub buffer: Seq<Entry>,
}

/// A state: the words of all arrays, the threads, the prologue's as the last where there is one, and for each thread its
/// calls that have begun. It may be made of any parts.
#[derive(PartialEq, Eq, PartialOrd, Ord, Hash, Drop)]
pub struct State {
    pub memory: Seq<u64>,
    pub threads: Seq<Thread>,
    pub history: History,
}

impl Clone for Core {
    ghost is_clone = { λ core copy. copy ≡ core };

    fn clone(&self) -> Result<Self, AllocError> {
        match self {
            Core::Idle => Ok(Core::Idle),
            Core::Running(frame) => {
                let frame = frame.clone()?;
                Ok(Core::Running(frame))
            }
            Core::Stopped => Ok(Core::Stopped),
        }
    }
}

impl Clone for Thread {
    ghost is_clone = { λ thread copy. copy ≡ thread };

    fn clone(&self) -> Result<Self, AllocError> {
        let core = self.core.clone()?;
        let buffer = self.buffer.clone()?;
        Ok(Thread { core, buffer })
    }
}

impl Clone for State {
    ghost is_clone = { λ state copy. copy ≡ state };

    fn clone(&self) -> Result<Self, AllocError> {
        let memory = self.memory.clone()?;
        let threads = self.threads.clone()?;
        let history = self.history.clone()?;
        Ok(State {
            memory,
            threads,
            history,
        })
    }
}
