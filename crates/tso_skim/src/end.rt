//! What ends a record, and records, passed over.

ghost use Rattle.std.specs.Prelude.{◌≡◌};
ghost use Rattle.tso_code.specs.Fields.{items_at};
ghost use Rattle.tso_rec.specs.Spelling.{chosen_at, ending_at, record_at};
ghost use Rattle.tso_skim.specs.Skips.{after, past};

use crate::skip::{Skim, Stop, skip_list, skip_number};
use tso_choose::Choice;
use tso_fifo::Placed;
use tso_indep::Reason;
use tso_prog::Answer;
use tso_rec::Grain;
use tso_state::{Actor, State};

impl Skim for Reason {
    #[tactic(auto, unfolding(tso_code::specs::Ends::reason_at))]
    fn skip(bytes: &[u8]) -> Result<&[u8], Stop> {
        match bytes {
            [0..=5, rest @ ..] => Ok(rest),
            [] => Err(Stop::Cut),
            _ => Err(Stop::Broken),
        }
    }
}

impl Skim for Actor {
    #[tactic(auto, unfolding(tso_code::specs::Ends::actor_at), using(crate::proofs::SkipLemmas::of_parts))]
    fn skip(bytes: &[u8]) -> Result<&[u8], Stop> {
        skip_number(bytes)
    }
}

impl Skim for Choice {
    #[tactic(auto, unfolding(tso_code::specs::Ends::choice_at), using(crate::proofs::SkipLemmas::of_parts))]
    fn skip(bytes: &[u8]) -> Result<&[u8], Stop> {
        let rest = Actor::skip(bytes)?;
        let rest = skip_list::<Reason>(rest)?;
        Ok(rest)
    }
}

impl Skim for Placed {
    #[tactic(auto, unfolding(tso_code::specs::Ends::placed_at), using(crate::proofs::SkipLemmas::of_parts))]
    fn skip(bytes: &[u8]) -> Result<&[u8], Stop> {
        let rest = skip_number(bytes)?;
        let rest = skip_number(rest)?;
        let rest = Answer::skip(rest)?;
        Ok(rest)
    }
}

// The bytes behind the chosen actors of a record of this grain.
fn skip_chosen(grain: Grain, bytes: &[u8]) -> Result<&[u8], Stop>
    ensures { past (λ r. r.now) result ≡ after (chosen_at grain bytes.now) }
{
    match grain {
        Grain::Steps => skip_list::<Choice>(bytes),
        Grain::Crossings => Ok(bytes),
    }
}

// The bytes behind what ends a record of this grain.
#[tactic(auto, unfolding(tso_rec::specs::Spelling::ending_at))]
fn skip_ending(grain: Grain, bytes: &[u8]) -> Result<&[u8], Stop>
    ensures { past (λ r. r.now) result ≡ after (ending_at grain bytes.now) }
{
    match bytes {
        [0, rest @ ..] => {
            let rest = skip_chosen(grain, rest)?;
            Ok(rest)
        }
        [1, rest @ ..] => {
            let rest = skip_list::<Placed>(rest)?;
            Ok(rest)
        }
        [] => Err(Stop::Cut),
        _ => Err(Stop::Broken),
    }
}

// The bytes behind a record of this grain.
#[tactic(auto, unfolding(tso_rec::specs::Spelling::record_at), using(crate::proofs::SkipLemmas::of_parts))]
fn skip_record(grain: Grain, bytes: &[u8]) -> Result<&[u8], Stop>
    ensures { past (λ r. r.now) result ≡ after (record_at grain bytes.now) }
{
    let rest = State::skip(bytes)?;
    let rest = skip_ending(grain, rest)?;
    Ok(rest)
}

/// The bytes behind so many records of this grain.
///
/// Errors: those of `Skim::skip`.
pub fn skip_records(grain: Grain, count: u64, bytes: &[u8]) -> Result<&[u8], Stop>
    ensures { past (λ r. r.now) result ≡ after (items_at (record_at grain) count bytes.now) }
{
    let mut rest = bytes;
    for _ in 0..count {
        rest = skip_record(grain, rest)?;
    }
    Ok(rest)
}
