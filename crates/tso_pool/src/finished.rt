//! What is filed of a state, as it is found.

ghost use Rattle.std.specs.Prelude.{◌≡◌, ◌++◌, ◌∷◌, [], OnOk};
ghost use Rattle.tso_pool.specs.Numbering.{near_of};

use std::alloc::{AllocError, Global};
use tso_state::State;
use tso_table::{Filed, Near, Number, Numbers};

/// The end of a state's record with the numbers of the states after its chosen steps, and those of these states that belong to the shard
/// of the state itself.
#[derive(Drop)]
pub struct Finished {
    pub filed: Filed,
    pub near: Vec<Near>,
}

/// The numbers of the states after the first of the chosen steps, and those of these states that belong to the shard of the
/// state that they leave.
#[derive(Drop)]
pub struct Moves {
    pub numbers: Numbers,
    pub near: Vec<Near>,
}

impl Moves {
    /// None yet.
    pub fn new(alloc: Global) -> Moves
        ensures { (result.numbers ≡ []) × (result.near.items ≡ []) }
    {
        Moves {
            numbers: Numbers::new(alloc),
            near: Vec::new(alloc),
        }
    }

    /// Adds the number of the state after the next chosen step, and this state, where it is handed in.
    pub fn add(&mut self, number: Number, state: Option<State>) -> Result<(), AllocError>
        ensures numbers { OnOk result (self.new.numbers ≡ self.old.numbers ++ number ∷ []) }
        ensures near { OnOk result (self.new.near.items ≡ self.old.near.items ++ near_of number state) }
    {
        self.numbers.push(number)?;
        match state {
            None => Ok(()),
            Some(state) => {
                let place = number.place;
                self.near.push(Near { place, state })?;
                Ok(())
            }
        }
    }
}
