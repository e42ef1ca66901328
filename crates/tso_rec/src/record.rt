//! A state with its end.

use std::alloc::AllocError;
use tso_choose::Choices;
use tso_fifo::Order;
use tso_state::State;

/// How a record ends.
#[derive(PartialEq, Eq, Drop)]
pub enum End {
    /// The actors that are chosen to move, each with a reason for each other thread.
    Choices(Choices),
    /// An order of the calls, where no actor can move.
    Order(Order),
}

/// A state with its end. It may be made of any parts.
#[derive(PartialEq, Eq, Drop)]
pub struct Record {
    pub state: State,
    pub end: End,
}

impl Clone for End {
    ghost use Rattle.std.specs.Prelude.{◌≡◌};

    ghost is_clone = { λ source copy. copy ≡ source };

    fn clone(&self) -> Result<Self, AllocError> {
        match self {
            End::Choices(choices) => {
                let choices = choices.clone()?;
                Ok(End::Choices(choices))
            }
            End::Order(order) => {
                let order = order.clone()?;
                Ok(End::Order(order))
            }
        }
    }
}

impl Clone for Record {
    ghost use Rattle.std.specs.Prelude.{◌≡◌};

    ghost is_clone = { λ source copy. copy ≡ source };

    fn clone(&self) -> Result<Self, AllocError> {
        let state = self.state.clone()?;
        let end = self.end.clone()?;
        Ok(Record { state, end })
    }
}
