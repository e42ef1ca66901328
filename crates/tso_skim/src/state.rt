//! A state and its parts, passed over.

ghost use Rattle.std.specs.Prelude.{◌≡◌};
ghost use Rattle.tso_skim.specs.Skips.{after, past};

use crate::skip::{Skim, Stop, skip_below, skip_items};
use tso_hist::{Call, History};
use tso_line::CallKind;
use tso_list::Seq;
use tso_machine::{Entry, Frame};
use tso_prog::Answer;
use tso_state::{Core, State, Thread};
use tso_word::Flags;

// Positions and places are below this.
const PLACES: u64 = 65_536;

impl Skim for Flags {
    #[tactic(auto, unfolding(tso_code::specs::States::flags_at))]
    fn skip(bytes: &[u8]) -> Result<&[u8], Stop> {
        skip_below(16, bytes)
    }
}

impl Skim for [u64; 15] {
    #[tactic(auto, unfolding(tso_code::specs::States::registers_at))]
    fn skip(bytes: &[u8]) -> Result<&[u8], Stop> {
        skip_items::<u64>(15, bytes)
    }
}

impl Skim for Frame {
    #[tactic(auto, unfolding(tso_code::specs::States::frame_at), using(crate::proofs::SkipLemmas::of_parts))]
    fn skip(bytes: &[u8]) -> Result<&[u8], Stop> {
        let rest = skip_below(PLACES, bytes)?;
        let rest = <[u64; 15]>::skip(rest)?;
        let rest = Flags::skip(rest)?;
        let rest = <Seq<u8>>::skip(rest)?;
        Ok(rest)
    }
}

impl Skim for Core {
    #[tactic(auto, unfolding(tso_code::specs::States::core_at))]
    fn skip(bytes: &[u8]) -> Result<&[u8], Stop> {
        match bytes {
            [0, rest @ ..] => Ok(rest),
            [1, rest @ ..] => {
                let rest = Frame::skip(rest)?;
                Ok(rest)
            }
            [2, rest @ ..] => Ok(rest),
            [] => Err(Stop::Cut),
            _ => Err(Stop::Broken),
        }
    }
}

impl Skim for Entry {
    #[tactic(auto, unfolding(tso_code::specs::States::entry_at), using(crate::proofs::SkipLemmas::of_parts))]
    fn skip(bytes: &[u8]) -> Result<&[u8], Stop> {
        let rest = skip_below(PLACES, bytes)?;
        let rest = u64::skip(rest)?;
        Ok(rest)
    }
}

impl Skim for Thread {
    #[tactic(auto, unfolding(tso_code::specs::States::thread_at), using(crate::proofs::SkipLemmas::of_parts))]
    fn skip(bytes: &[u8]) -> Result<&[u8], Stop> {
        let rest = Core::skip(bytes)?;
        let rest = <Seq<Entry>>::skip(rest)?;
        Ok(rest)
    }
}

impl Skim for CallKind {
    #[tactic(auto, unfolding(tso_code::specs::States::kind_at))]
    fn skip(bytes: &[u8]) -> Result<&[u8], Stop> {
        match bytes {
            [0, rest @ ..] => {
                let rest = u64::skip(rest)?;
                Ok(rest)
            }
            [1, rest @ ..] => Ok(rest),
            [] => Err(Stop::Cut),
            _ => Err(Stop::Broken),
        }
    }
}

impl Skim for Answer {
    #[tactic(auto, unfolding(tso_code::specs::States::answer_at))]
    fn skip(bytes: &[u8]) -> Result<&[u8], Stop> {
        match bytes {
            [1, rest @ ..] => Ok(rest),
            [2, rest @ ..] => Ok(rest),
            [3, rest @ ..] => {
                let rest = u64::skip(rest)?;
                Ok(rest)
            }
            [] => Err(Stop::Cut),
            _ => Err(Stop::Broken),
        }
    }
}

impl Skim for Option<Answer> {
    #[tactic(auto, unfolding(tso_code::specs::States::any_answer_at))]
    fn skip(bytes: &[u8]) -> Result<&[u8], Stop> {
        match bytes {
            [] => Err(Stop::Cut),
            [0, rest @ ..] => Ok(rest),
            _ => {
                let rest = Answer::skip(bytes)?;
                Ok(rest)
            }
        }
    }
}

impl Skim for Call {
    #[tactic(auto, unfolding(tso_code::specs::States::call_at), using(crate::proofs::SkipLemmas::of_parts))]
    fn skip(bytes: &[u8]) -> Result<&[u8], Stop> {
        let rest = CallKind::skip(bytes)?;
        let rest = <Seq<usize>>::skip(rest)?;
        let rest = <Option<Answer>>::skip(rest)?;
        Ok(rest)
    }
}

impl Skim for History {
    fn skip(bytes: &[u8]) -> Result<&[u8], Stop> {
        <Seq<Seq<Call>>>::skip(bytes)
    }
}

impl Skim for State {
    #[tactic(auto, unfolding(tso_code::specs::States::state_at), using(crate::proofs::SkipLemmas::of_parts))]
    fn skip(bytes: &[u8]) -> Result<&[u8], Stop> {
        let rest = <Seq<u64>>::skip(bytes)?;
        let rest = <Seq<Thread>>::skip(rest)?;
        let rest = History::skip(rest)?;
        Ok(rest)
    }
}
