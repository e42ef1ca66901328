//! Compact states of the x86-TSO machine: no lock is held, and the history is kept with counts.
#![tactic(auto)]

mod actor;
mod exact;
mod initial;
mod laws;
mod order;
mod stage;
mod state;
mod viewed;
mod well_formed;

pub use actor::Actor;
pub use initial::initial_state;
pub use laws::{well_formed_is_sound, well_formed_is_the_models};
pub use order::{
    actors_are_ordered_by_number, compare, compare_actors, copy_of, equal_states_hash_alike,
    is_less, is_same,
};
pub use stage::Stage;
pub use state::{Core, State, Thread};
pub use viewed::{Viewed, begun_calls, running_procedure};
pub use well_formed::{
    has_words, history_fits, is_well_formed, is_well_formed_given, parts_fit, stage_of,
    thread_at_stage,
};
