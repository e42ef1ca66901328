//! How a state and its parts are spelled and read.
ghost use Rattle.std.specs.Prelude.{◌≡◌, ◌++◌, ◌<◌, ◌^◌, ◌+◌, ◌*◌, ◌/◌, ◌%◌, ◌==◌, ℕ, List, Result, length, option_map, OnOk, IfOk, Err, None, []};
ghost use Rattle.tso_state.specs.Order.{flags_number};
ghost use Rattle.tso_code.specs.Fields.{Gives, list, list_at, ListFits};
ghost use Rattle.tso_code.specs.Numbers.{Reading, number, number_at};
ghost use Rattle.tso_code.specs.States.{FlagsFit, flags_of, flags_at, registers, registers_at, RegistersFit, frame, frame_at, FrameFits, core, core_at, CoreFits, entry, entry_at, EntryFits, thread, thread_at, ThreadFits, kind, kind_at, KindFits, answer, answer_at, AnswerFits, any_answer, any_answer_at, AnyAnswerFits, call, call_at, CallFits, state, state_at, StateFits};

use crate::code::{
    Code, ReadError, read_below, read_fifteen, read_number, read_place, write_items, write_list,
    write_number,
};
use std::alloc::{AllocError, Global};
use tso_hist::{Call, History};
use tso_line::CallKind;
use tso_list::Seq;
use tso_machine::{Entry, Frame};
use tso_prog::Answer;
use tso_state::{Core, State, Thread};
use tso_word::Flags;

fn flags_from(n: u8) -> Flags
    requires { n < 16 }
    ensures { result ≡ flags_of n }
{
    Flags {
        of: n / 8 == 1,
        sf: n / 4 % 2 == 1,
        cf: n / 2 % 2 == 1,
        zf: n % 2 == 1,
    }
}

fn number_of_flags(flags: Flags) -> u8
    ensures number { result ≡ flags_number flags }
    ensures bound { result < 16 }
{
    u8::from(flags.zf) + 2 * u8::from(flags.cf) + 4 * u8::from(flags.sf) + 8 * u8::from(flags.of)
}

impl Code for Flags {
    ghost Fits = { FlagsFit };

    ghost spell = { λ f. number (flags_number f) };

    ghost read_at = { flags_at };

    #[tactic(auto, unfolding(crate::specs::States::flags_at))]
    fn read(_alloc: Global, bytes: &[u8]) -> Result<(Flags, &[u8]), ReadError> {
        match read_below(16, bytes) {
            Some((number, rest)) => Ok((flags_from(number as u8), rest)),
            None => Err(ReadError::Malformed),
        }
    }

    fn write(&self, out: &mut Vec<u8>) -> Result<(), AllocError> {
        number_of_flags(*self).write(out)
    }
}

// The words of the registers, one after the other with no count.
impl Code for [u64; 15] {
    ghost Fits = { RegistersFit };

    ghost spell = { registers };

    ghost read_at = { registers_at };

    #[tactic(auto, unfolding(crate::specs::States::registers_at))]
    fn read(alloc: Global, bytes: &[u8]) -> Result<([u64; 15], &[u8]), ReadError> {
        read_fifteen(alloc, 0, bytes)
    }

    fn write(&self, out: &mut Vec<u8>) -> Result<(), AllocError> {
        write_items(self, out)
    }
}

impl Code for Frame {
    ghost Fits = { FrameFits };

    ghost spell = { frame };

    ghost read_at = { frame_at };

    #[tactic(auto, unfolding(crate::specs::States::frame_at))]
    fn read(alloc: Global, bytes: &[u8]) -> Result<(Frame, &[u8]), ReadError> {
        let (pc, rest) = read_place(bytes)?;
        let (registers, rest) = <[u64; 15]>::read(alloc, rest)?;
        let (flags, rest) = Flags::read(alloc, rest)?;
        let (taken, rest) = Seq::read(alloc, rest)?;
        Ok((
            Frame {
                pc,
                registers,
                flags,
                taken,
            },
            rest,
        ))
    }

    fn write(&self, out: &mut Vec<u8>) -> Result<(), AllocError> {
        write_number(self.pc as u64, out)?;
        self.registers.write(out)?;
        self.flags.write(out)?;
        self.taken.write(out)
    }
}

impl Code for Core {
    ghost Fits = { CoreFits };

    ghost spell = { core };

    ghost read_at = { core_at };

    #[tactic(auto, unfolding(crate::specs::States::core_at))]
    fn read(alloc: Global, bytes: &[u8]) -> Result<(Core, &[u8]), ReadError> {
        match bytes {
            [0, rest @ ..] => Ok((Core::Idle, rest)),
            [1, rest @ ..] => {
                let (frame, rest) = Frame::read(alloc, rest)?;
                Ok((Core::Running(frame), rest))
            }
            [2, rest @ ..] => Ok((Core::Stopped, rest)),
            _ => Err(ReadError::Malformed),
        }
    }

    fn write(&self, out: &mut Vec<u8>) -> Result<(), AllocError> {
        match self {
            Core::Idle => out.push(0)?,
            Core::Running(frame) => {
                out.push(1)?;
                frame.write(out)?;
            }
            Core::Stopped => out.push(2)?,
        }
        Ok(())
    }
}

impl Code for Entry {
    ghost Fits = { EntryFits };

    ghost spell = { entry };

    ghost read_at = { entry_at };

    #[tactic(auto, unfolding(crate::specs::States::entry_at))]
    fn read(alloc: Global, bytes: &[u8]) -> Result<(Entry, &[u8]), ReadError> {
        let (place, rest) = read_place(bytes)?;
        let (word, rest) = u64::read(alloc, rest)?;
        Ok((Entry { place, word }, rest))
    }

    fn write(&self, out: &mut Vec<u8>) -> Result<(), AllocError> {
        write_number(self.place as u64, out)?;
        self.word.write(out)
    }
}

impl Code for Thread {
    ghost Fits = { ThreadFits };

    ghost spell = { thread };

    ghost read_at = { thread_at };

    #[tactic(auto, unfolding(crate::specs::States::thread_at))]
    fn read(alloc: Global, bytes: &[u8]) -> Result<(Thread, &[u8]), ReadError> {
        let (core, rest) = Core::read(alloc, bytes)?;
        let (buffer, rest) = Seq::read(alloc, rest)?;
        Ok((Thread { core, buffer }, rest))
    }

    fn write(&self, out: &mut Vec<u8>) -> Result<(), AllocError> {
        self.core.write(out)?;
        self.buffer.write(out)
    }
}

impl Code for CallKind {
    ghost Fits = { KindFits };

    ghost spell = { kind };

    ghost read_at = { kind_at };

    #[tactic(auto, unfolding(crate::specs::States::kind_at))]
    fn read(alloc: Global, bytes: &[u8]) -> Result<(CallKind, &[u8]), ReadError> {
        match bytes {
            [0, rest @ ..] => {
                let (word, rest) = u64::read(alloc, rest)?;
                Ok((CallKind::Push(word), rest))
            }
            [1, rest @ ..] => Ok((CallKind::Pop, rest)),
            _ => Err(ReadError::Malformed),
        }
    }

    fn write(&self, out: &mut Vec<u8>) -> Result<(), AllocError> {
        match self {
            CallKind::Push(word) => {
                out.push(0)?;
                word.write(out)?;
            }
            CallKind::Pop => out.push(1)?,
        }
        Ok(())
    }
}

impl Code for Answer {
    ghost Fits = { AnswerFits };

    ghost spell = { answer };

    ghost read_at = { answer_at };

    #[tactic(auto, unfolding(crate::specs::States::answer_at))]
    fn read(alloc: Global, bytes: &[u8]) -> Result<(Answer, &[u8]), ReadError> {
        match bytes {
            [1, rest @ ..] => Ok((Answer::Refused, rest)),
            [2, rest @ ..] => Ok((Answer::Done, rest)),
            [3, rest @ ..] => {
                let (word, rest) = u64::read(alloc, rest)?;
                Ok((Answer::Value(word), rest))
            }
            _ => Err(ReadError::Malformed),
        }
    }

    fn write(&self, out: &mut Vec<u8>) -> Result<(), AllocError> {
        match self {
            Answer::Refused => out.push(1)?,
            Answer::Done => out.push(2)?,
            Answer::Value(word) => {
                out.push(3)?;
                word.write(out)?;
            }
        }
        Ok(())
    }
}

impl Code for Option<Answer> {
    ghost Fits = { AnyAnswerFits };

    ghost spell = { any_answer };

    ghost read_at = { any_answer_at };

    #[tactic(auto, unfolding(crate::specs::States::any_answer_at))]
    fn read(alloc: Global, bytes: &[u8]) -> Result<(Option<Answer>, &[u8]), ReadError> {
        match bytes {
            [] => Err(ReadError::Malformed),
            [0, rest @ ..] => Ok((None, rest)),
            _ => {
                let (answer, rest) = Answer::read(alloc, bytes)?;
                Ok((Some(answer), rest))
            }
        }
    }

    fn write(&self, out: &mut Vec<u8>) -> Result<(), AllocError> {
        match self {
            None => out.push(0)?,
            Some(answer) => answer.write(out)?,
        }
        Ok(())
    }
}

impl Code for Call {
    ghost Fits = { CallFits };

    ghost spell = { call };

    ghost read_at = { call_at };

    #[tactic(auto, unfolding(crate::specs::States::call_at))]
    fn read(alloc: Global, bytes: &[u8]) -> Result<(Call, &[u8]), ReadError> {
        let (kind, rest) = CallKind::read(alloc, bytes)?;
        let (seen, rest) = Seq::read(alloc, rest)?;
        let (answer, rest) = Option::read(alloc, rest)?;
        Ok((Call { kind, seen, answer }, rest))
    }

    fn write(&self, out: &mut Vec<u8>) -> Result<(), AllocError> {
        self.kind.write(out)?;
        self.seen.write(out)?;
        self.answer.write(out)
    }
}

impl Code for History {
    ghost Fits = { ListFits (ListFits CallFits) };

    ghost spell = { list (list call) };

    ghost read_at = { list_at (list_at call_at) };

    fn read(alloc: Global, bytes: &[u8]) -> Result<(History, &[u8]), ReadError> {
        let (threads, rest) = Seq::read(alloc, bytes)?;
        Ok((History::from_threads(threads), rest))
    }

    fn write(&self, out: &mut Vec<u8>) -> Result<(), AllocError> {
        write_list(self.threads(), out)
    }
}

impl Code for State {
    ghost Fits = { StateFits };

    ghost spell = { state };

    ghost read_at = { state_at };

    #[tactic(auto, unfolding(crate::specs::States::state_at))]
    fn read(alloc: Global, bytes: &[u8]) -> Result<(State, &[u8]), ReadError> {
        let (memory, rest) = Seq::read(alloc, bytes)?;
        let (threads, rest) = Seq::read(alloc, rest)?;
        let (history, rest) = History::read(alloc, rest)?;
        Ok((
            State {
                memory,
                threads,
                history,
            },
            rest,
        ))
    }

    fn write(&self, out: &mut Vec<u8>) -> Result<(), AllocError> {
        self.memory.write(out)?;
        self.threads.write(out)?;
        self.history.write(out)
    }
}
