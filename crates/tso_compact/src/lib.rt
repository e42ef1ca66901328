//! Steps of compact states: one instruction of a thread, a locked one whole, the begin of a call, or one drain.
#![tactic(auto)]

mod effect;
mod fault;
mod laws;
mod motion;
mod naming;
mod plan;
mod sort;
mod stepping;

pub use effect::{argument_of, locked_word, patch_after, thread_after, word_read, written};
pub use fault::StepError;
pub use laws::{
    ended_runs_end_alike, initial_is_plausible, runs_are_followed, runs_reach_ends,
    steps_give_runs, steps_stay_plausible, steps_stay_sound,
};
pub use motion::{Motion, core_motion, drain_motion};
pub use naming::labels;
pub use plan::{next_call, planned};
pub use sort::{StepKind, enabled, kind, kind_with_buffer};
pub use stepping::{history_after, memory_with, step};
