//! How a record is spelled and read.
ghost use Rattle.std.specs.Prelude.{◌≡◌, ◌++◌, [], Err, OnOk};
ghost use Rattle.tso_code.specs.Fields.{Gives};
ghost use Rattle.tso_rec.specs.Spelling.{a_record, EndFits, ending, ending_at, record_at, RecordFits};
ghost use Rattle.tso_rec.specs.declared.basis.Grain.TheVariants.{Steps};

use crate::record::{End, Record};
use std::alloc::{AllocError, Global};
use tso_choose::Choices;
use tso_code::{Code, ReadError};
use tso_fifo::Order;
use tso_state::State;

impl Code for End {
    ghost Fits = { EndFits Steps };

    ghost spell = { ending Steps };

    ghost read_at = { ending_at Steps };

    #[tactic(auto, unfolding(crate::specs::Spelling::ending_at))]
    fn read(alloc: Global, bytes: &[u8]) -> Result<(End, &[u8]), ReadError> {
        match bytes {
            [0, rest @ ..] => {
                let (choices, rest) = Choices::read(alloc, rest)?;
                Ok((End::Choices(choices), rest))
            }
            [1, rest @ ..] => {
                let (order, rest) = Order::read(alloc, rest)?;
                Ok((End::Order(order), rest))
            }
            _ => Err(ReadError::Malformed),
        }
    }

    fn write(&self, out: &mut Vec<u8>) -> Result<(), AllocError> {
        match self {
            End::Choices(choices) => {
                out.push(0)?;
                choices.write(out)
            }
            End::Order(order) => {
                out.push(1)?;
                order.write(out)
            }
        }
    }
}

impl Code for Record {
    ghost Fits = { RecordFits Steps };

    ghost spell = { a_record Steps };

    ghost read_at = { record_at Steps };

    #[tactic(auto, unfolding(crate::specs::Spelling::record_at))]
    fn read(alloc: Global, bytes: &[u8]) -> Result<(Record, &[u8]), ReadError> {
        let (state, rest) = State::read(alloc, bytes)?;
        let (end, rest) = End::read(alloc, rest)?;
        Ok((Record { state, end }, rest))
    }

    fn write(&self, out: &mut Vec<u8>) -> Result<(), AllocError> {
        self.state.write(out)?;
        self.end.write(out)
    }
}
