//! Changes of a thread, and back.

ghost use Rattle.std.specs.Prelude.{◌≡◌, ◌<◌, ◌≤◌, length, replicate, slice_set, OnOk, OnErr, IfOk};
ghost use Rattle.tso_machine.specs.Changes.{first_frame, running_after, thread_after, thread_before, FitsChange, FitsBack, IsRunningWith};
ghost use Rattle.tso_machine.specs.Frames.{patched, FitsFrame};
ghost use Rattle.tso_machine.specs.declared.change.Change.TheVariants as changes;
ghost use Rattle.tso_machine.specs.declared.change.ChangeBack.TheVariants as backs;

use crate::buffer::Entry;
use crate::frame::{Frame, Patch, register_number};
use crate::machine::{Core, Running, Stage, Thread};
use std::alloc::{AllocError, Global};
use tso_flow::ProcedureKind;
use tso_line::Register;
use tso_list::Seq;
use tso_word::Flags;

/// What a step changes in its thread.
#[derive(Clone, Copy, PartialEq, Eq)]
pub enum Change {
    /// A call begins: its procedure with the word of RDI, and with so many back jumps.
    Begin {
        procedure: ProcedureKind,
        argument: u64,
        jumps: usize,
    },
    /// The frame changes.
    Run(Patch),
    /// An entry is buffered, and the instruction at this position follows.
    Store {
        entry: Entry,
        next: usize,
    },
    /// A locked instruction goes on.
    Go(Stage),
    /// A locked instruction that has read a word buffers its entry.
    WriteLocked {
        old: u64,
        entry: Entry,
    },
    /// A locked instruction ends.
    Unlock(Patch),
    /// The call returns.
    Return,
    /// The thread stops.
    Stop,
    /// The oldest entry leaves the buffer.
    Drain,
}

/// What brings a thread back.
#[derive(PartialEq, Eq, Drop)]
pub enum ChangeBack {
    Begin,
    Run(Patch),
    /// The last entry goes, and the instruction at this position is next again.
    Store { next: usize },
    Go(Stage),
    /// The last entry goes, and the word was read.
    WriteLocked { old: u64 },
    /// The locked instruction is at this stage again.
    Unlock { patch: Patch, stage: Stage },
    /// The core that left its call.
    Leave(Core),
    Drain,
}

/// The frame in which a call starts.
pub fn first_frame(alloc: Global, argument: u64, jumps: usize) -> Result<Frame, AllocError>
    ensures { IfOk result (λ f. f ≡ first_frame argument jumps) }
{
    let taken = Seq::from_vec(vec![in alloc; 0u8; jumps]?);
    let mut registers = [0u64; 15];
    registers[register_number(Register::Rdi)] = argument;
    Ok(Frame {
        pc: 0,
        registers,
        flags: Flags {
            of: false,
            sf: false,
            cf: false,
            zf: false,
        },
        taken,
    })
}

impl Running {
    fn patch(&mut self, patch: Patch) -> Patch
        requires { FitsFrame self.old.frame patch }
        ensures after { self.new ≡ record self.old { frame = patched self.old.frame patch } }
        ensures back { record self.new { frame = patched self.new.frame result } ≡ self.old }
        ensures fits { FitsFrame self.new.frame result }
    {
        self.frame.patch(patch)
    }
}

impl Thread {
    fn begin(
        &mut self,
        alloc: Global,
        procedure: ProcedureKind,
        argument: u64,
        jumps: usize,
    ) -> Result<ChangeBack, AllocError>
        requires { FitsChange self.old (changes.Begin procedure argument jumps) }
        ensures after { OnOk result (self.new ≡ thread_after self.old (changes.Begin procedure argument jumps)) }
        ensures err { OnErr result (self.new ≡ self.old) }
        ensures back { IfOk result (λ b. thread_before self.new b ≡ self.old) }
        ensures fits { IfOk result (FitsBack self.new) }
    {
        let frame = first_frame(alloc, argument, jumps)?;
        self.begun += 1;
        self.core = Core::Running(Running {
            procedure,
            frame,
            stage: Stage::Outside,
        });
        Ok(ChangeBack::Begin)
    }

    fn run(&mut self, patch: Patch) -> ChangeBack
        requires { FitsChange self.old (changes.Run patch) }
        ensures after { self.new ≡ thread_after self.old (changes.Run patch) }
        ensures back { thread_before self.new result ≡ self.old }
        ensures fits { FitsBack self.new result }
    {
        match &mut self.core {
            Core::Running(running) => ChangeBack::Run(running.patch(patch)),
            _ => unreachable!(),
        }
    }

    fn store(&mut self, entry: Entry, next: usize) -> Result<ChangeBack, AllocError>
        requires { FitsChange self.old (changes.Store entry next) }
        ensures after { OnOk result (self.new ≡ thread_after self.old (changes.Store entry next)) }
        ensures err { OnErr result (self.new ≡ self.old) }
        ensures back { IfOk result (λ b. thread_before self.new b ≡ self.old) }
        ensures fits { IfOk result (FitsBack self.new) }
    {
        match &mut self.core {
            Core::Running(running) => {
                self.buffer.push(entry)?;
                let back = ChangeBack::Store {
                    next: running.frame.pc,
                };
                running.frame.pc = next;
                Ok(back)
            }
            _ => unreachable!(),
        }
    }

    fn go(&mut self, stage: Stage) -> ChangeBack
        requires { FitsChange self.old (changes.Go stage) }
        ensures after { self.new ≡ thread_after self.old (changes.Go stage) }
        ensures back { thread_before self.new result ≡ self.old }
        ensures fits { FitsBack self.new result }
    {
        match &mut self.core {
            Core::Running(running) => {
                let back = ChangeBack::Go(running.stage);
                running.stage = stage;
                back
            }
            _ => unreachable!(),
        }
    }

    fn write_locked(&mut self, old: u64, entry: Entry) -> Result<ChangeBack, AllocError>
        requires { FitsChange self.old (changes.WriteLocked old entry) }
        ensures after { OnOk result (self.new ≡ thread_after self.old (changes.WriteLocked old entry)) }
        ensures err { OnErr result (self.new ≡ self.old) }
        ensures back { IfOk result (λ b. thread_before self.new b ≡ self.old) }
        ensures fits { IfOk result (FitsBack self.new) }
    {
        match &mut self.core {
            Core::Running(running) => {
                self.buffer.push(entry)?;
                running.stage = Stage::HasWritten(old);
                Ok(ChangeBack::WriteLocked { old })
            }
            _ => unreachable!(),
        }
    }

    fn unlock(&mut self, patch: Patch) -> ChangeBack
        requires { FitsChange self.old (changes.Unlock patch) }
        ensures after { self.new ≡ thread_after self.old (changes.Unlock patch) }
        ensures back { thread_before self.new result ≡ self.old }
        ensures fits { FitsBack self.new result }
    {
        match &mut self.core {
            Core::Running(running) => {
                let stage = running.stage;
                let patch = running.patch(patch);
                running.stage = Stage::Outside;
                ChangeBack::Unlock { patch, stage }
            }
            _ => unreachable!(),
        }
    }

    fn leave(&mut self, core: Core) -> ChangeBack
        ensures after { self.new ≡ record self.old { core = core } }
        ensures back { thread_before self.new result ≡ self.old }
        ensures fits { FitsBack self.new result }
    {
        ChangeBack::Leave(std::mem::replace(&mut self.core, core))
    }

    fn drain(&mut self) -> ChangeBack
        requires { FitsChange self.old changes.Drain }
        ensures after { self.new ≡ thread_after self.old changes.Drain }
        ensures back { thread_before self.new result ≡ self.old }
        ensures fits { FitsBack self.new result }
    {
        self.buffer.drain();
        ChangeBack::Drain
    }

    /// Makes a change, and gives what brings the thread back. Want of memory leaves it as it was.
    pub fn change(&mut self, alloc: Global, change: Change) -> Result<ChangeBack, AllocError>
        requires { FitsChange self.old change }
        ensures after { OnOk result (self.new ≡ thread_after self.old change) }
        ensures err { OnErr result (self.new ≡ self.old) }
        ensures back { IfOk result (λ b. thread_before self.new b ≡ self.old) }
        ensures fits { IfOk result (FitsBack self.new) }
    {
        match change {
            Change::Begin {
                procedure,
                argument,
                jumps,
            } => self.begin(alloc, procedure, argument, jumps),
            Change::Run(patch) => Ok(self.run(patch)),
            Change::Store { entry, next } => self.store(entry, next),
            Change::Go(stage) => Ok(self.go(stage)),
            Change::WriteLocked { old, entry } => self.write_locked(old, entry),
            Change::Unlock(patch) => Ok(self.unlock(patch)),
            Change::Return => Ok(self.leave(Core::Idle)),
            Change::Stop => Ok(self.leave(Core::Stopped)),
            Change::Drain => Ok(self.drain()),
        }
    }

    fn run_back(&mut self, back: Patch)
        requires { FitsBack self.old (backs.Run back) }
        ensures { self.new ≡ thread_before self.old (backs.Run back) }
    {
        match &mut self.core {
            Core::Running(running) => {
                let _ = running.patch(back);
            }
            _ => unreachable!(),
        }
    }

    fn store_back(&mut self, next: usize)
        requires { FitsBack self.old (backs.Store next) }
        ensures { self.new ≡ thread_before self.old (backs.Store next) }
    {
        match &mut self.core {
            Core::Running(running) => {
                self.buffer.pop();
                running.frame.pc = next;
            }
            _ => unreachable!(),
        }
    }

    fn go_back(&mut self, stage: Stage)
        requires { FitsBack self.old (backs.Go stage) }
        ensures { self.new ≡ thread_before self.old (backs.Go stage) }
    {
        match &mut self.core {
            Core::Running(running) => running.stage = stage,
            _ => unreachable!(),
        }
    }

    fn write_locked_back(&mut self, old: u64)
        requires { FitsBack self.old (backs.WriteLocked old) }
        ensures { self.new ≡ thread_before self.old (backs.WriteLocked old) }
    {
        match &mut self.core {
            Core::Running(running) => {
                self.buffer.pop();
                running.stage = Stage::HasRead(old);
            }
            _ => unreachable!(),
        }
    }

    fn unlock_back(&mut self, patch: Patch, stage: Stage)
        requires { FitsBack self.old (backs.Unlock patch stage) }
        ensures { self.new ≡ thread_before self.old (backs.Unlock patch stage) }
    {
        match &mut self.core {
            Core::Running(running) => {
                let _ = running.patch(patch);
                running.stage = stage;
            }
            _ => unreachable!(),
        }
    }

    /// Brings the thread back.
    pub fn change_back(&mut self, back: ChangeBack)
        requires { FitsBack self.old back }
        ensures { self.new ≡ thread_before self.old back }
    {
        match back {
            ChangeBack::Begin => {
                self.begun -= 1;
                self.core = Core::Idle;
            }
            ChangeBack::Run(patch) => self.run_back(patch),
            ChangeBack::Store { next } => self.store_back(next),
            ChangeBack::Go(stage) => self.go_back(stage),
            ChangeBack::WriteLocked { old } => self.write_locked_back(old),
            ChangeBack::Unlock { patch, stage } => self.unlock_back(patch, stage),
            ChangeBack::Leave(core) => self.core = core,
            ChangeBack::Drain => self.buffer.undrain(),
        }
    }
}
