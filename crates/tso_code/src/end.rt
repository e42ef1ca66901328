//! How choices of actors, and entries of an order, are spelled and read.
ghost use Rattle.std.specs.Prelude.{◌≡◌, ◌<◌, ◌++◌, ◌/◌, ◌%◌, [], ℕ, Err, OnOk, option_map};
ghost use Rattle.tso_code.specs.Ends.{actor_at, actor_of, ActorFits, choice, choice_at, ChoiceFits, placed, placed_at, PlacedFits, reason, reason_at, ReasonFits};
ghost use Rattle.tso_code.specs.Fields.{Gives, items_at, list, list_at, ListFits};
ghost use Rattle.tso_code.specs.Numbers.{number, number_at};
ghost use Rattle.tso_state.specs.Actors.{number_of};

use crate::code::{Code, ReadError, read_index, read_number, write_list, write_number};
use std::alloc::{AllocError, Global};
use std::default::MadeWith;
use tso_choose::Choice;
use tso_fifo::Placed;
use tso_indep::Reason;
use tso_list::Short;
use tso_prog::Answer;
use tso_state::Actor;

impl Code for Reason {
    ghost Fits = { ReasonFits };

    ghost spell = { reason };

    ghost read_at = { reason_at };

    #[tactic(auto, unfolding(crate::specs::Ends::reason_at))]
    fn read(_alloc: Global, bytes: &[u8]) -> Result<(Reason, &[u8]), ReadError> {
        match bytes {
            [0, rest @ ..] => Ok((Reason::Own, rest)),
            [1, rest @ ..] => Ok((Reason::Far, rest)),
            [2, rest @ ..] => Ok((Reason::Inside, rest)),
            [3, rest @ ..] => Ok((Reason::Buffer, rest)),
            [4, rest @ ..] => Ok((Reason::Return, rest)),
            [5, rest @ ..] => Ok((Reason::NoReturn, rest)),
            _ => Err(ReadError::Malformed),
        }
    }

    fn write(&self, out: &mut Vec<u8>) -> Result<(), AllocError> {
        let byte = match self {
            Reason::Own => 0,
            Reason::Far => 1,
            Reason::Inside => 2,
            Reason::Buffer => 3,
            Reason::Return => 4,
            Reason::NoReturn => 5,
        };
        out.push(byte)?;
        Ok(())
    }
}

// The actor with this number.
fn actor_of(n: u64) -> Actor
    ensures { result ≡ actor_of n }
{
    if n % 2 == 0 {
        Actor::Exec((n / 2) as usize)
    } else {
        Actor::Drain((n / 2) as usize)
    }
}

// Seven bits of the actor's number, the lowest.
fn low_bits(actor: Actor) -> u8
    ensures { result ≡ number_of actor % 128 }
{
    (actor.thread() % 64) as u8 * 2 + u8::from(actor.is_drain())
}

impl Code for Actor {
    ghost Fits = { ActorFits };

    ghost spell = { λ a. number (number_of a) };

    ghost read_at = { actor_at };

    #[tactic(auto, unfolding(crate::specs::Ends::actor_at))]
    fn read(_alloc: Global, bytes: &[u8]) -> Result<(Actor, &[u8]), ReadError> {
        match read_number(bytes) {
            Some((n, rest)) => Ok((actor_of(n), rest)),
            None => Err(ReadError::Malformed),
        }
    }

    // The number may have 65 bits.
    fn write(&self, out: &mut Vec<u8>) -> Result<(), AllocError> {
        let low = low_bits(*self);
        let high = self.thread() as u64 / 64;
        if high == 0 {
            out.push(low)?;
            return Ok(());
        }
        out.push(low + 128)?;
        write_number(high, out)?;
        Ok(())
    }
}

// So many items, one after the other, and the bytes after them.
fn read_few<T: Code + MadeWith<Global>, const N: usize>(
    alloc: Global,
    count: u64,
    bytes: &[u8],
) -> Result<(Short<T, N>, &[u8]), ReadError>
    ensures read { Gives (λ x. (x.0, x.1.now)) result (items_at T.read_at count bytes.now) }
    ensures empty { 0 < count → bytes.now ≡ [] → result ≡ Err ReadError.Malformed }
{
    let mut items = Short::new(alloc);
    let mut rest = bytes;
    for _ in 0..count {
        let (item, after) = T::read(alloc, rest)?;
        items.push(item)?;
        rest = after;
    }
    Ok((items, rest))
}

impl<T: Code + MadeWith<Global>, const N: usize> Code for Short<T, N> {
    ghost Fits = { ListFits T.Fits };

    ghost spell = { list T.spell };

    ghost read_at = { list_at T.read_at };

    #[tactic(auto, unfolding(crate::specs::Fields::list_at))]
    fn read(alloc: Global, bytes: &[u8]) -> Result<(Short<T, N>, &[u8]), ReadError> {
        let Some((count, rest)) = read_number(bytes) else {
            return Err(ReadError::Malformed);
        };
        let (items, rest) = read_few(alloc, count, rest)?;
        Ok((items, rest))
    }

    fn write(&self, out: &mut Vec<u8>) -> Result<(), AllocError> {
        write_list(self.as_slice(), out)
    }
}

impl Code for Choice {
    ghost Fits = { ChoiceFits };

    ghost spell = { choice };

    ghost read_at = { choice_at };

    #[tactic(auto, unfolding(crate::specs::Ends::choice_at))]
    fn read(alloc: Global, bytes: &[u8]) -> Result<(Choice, &[u8]), ReadError> {
        let (actor, rest) = Actor::read(alloc, bytes)?;
        let (reasons, rest) = Short::read(alloc, rest)?;
        Ok((Choice { actor, reasons }, rest))
    }

    fn write(&self, out: &mut Vec<u8>) -> Result<(), AllocError> {
        self.actor.write(out)?;
        self.reasons.write(out)
    }
}

impl Code for Placed {
    ghost Fits = { PlacedFits };

    ghost spell = { placed };

    ghost read_at = { placed_at };

    #[tactic(auto, unfolding(crate::specs::Ends::placed_at))]
    fn read(alloc: Global, bytes: &[u8]) -> Result<(Placed, &[u8]), ReadError> {
        let (thread, rest) = read_index(bytes)?;
        let (call, rest) = read_index(rest)?;
        let (answer, rest) = Answer::read(alloc, rest)?;
        Ok((
            Placed {
                thread,
                call,
                answer,
            },
            rest,
        ))
    }

    fn write(&self, out: &mut Vec<u8>) -> Result<(), AllocError> {
        write_number(self.thread as u64, out)?;
        write_number(self.call as u64, out)?;
        self.answer.write(out)
    }
}
