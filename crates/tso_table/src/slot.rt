//! What is kept with each state of a table.

use crate::number::Number;
use tso_list::Short;
use tso_rec::End;
use tso_state::State;

/// The numbers of the states after chosen steps, in the order of the choices. Up to two lie in the value itself.
pub type Numbers = Short<Number, 2>;

/// The end of a state's record, with the number of the state after each chosen step, in the order of the choices.
#[derive(Drop)]
pub struct Filed {
    pub end: End,
    pub numbers: Numbers,
}

/// How far a state is worked.
#[derive(Drop)]
pub enum Slot {
    /// No worker has it.
    Waiting,
    /// A worker has it.
    Claimed,
    /// Its end is filed.
    Done(Filed),
}

/// A state that belongs to a shard, with its place there.
#[derive(Drop)]
pub struct Near {
    pub place: u32,
    pub state: State,
}
