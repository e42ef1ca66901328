//! The label machine of x86-TSO: memory, a lock, and for each thread a core and a store buffer.
#![tactic(auto)]

mod access;
mod action;
mod back;
mod buffer;
mod calls;
mod change;
mod exact;
mod first;
mod frame;
mod kinds;
mod label;
mod laws;
mod machine;
mod offer;
mod place;
mod step;

pub use access::{exchanged, latest, loaded, moved, new_word};
pub use action::{Action, FaultKind, back_jumps, next_action, procedure_of};
pub use back::Undo;
pub use buffer::{Buffer, Entry};
pub use calls::{call_at, calls_of, next_call};
pub use change::{Change, ChangeBack, first_frame};
pub use first::{first_memory, initial, thread_count};
pub use frame::{Frame, Patch};
pub use kinds::{ActionKind, next_kind};
pub use label::{Label, LabelKind};
pub use laws::{
    buffers_stay_within, cuts_are_bounds, ends_are_decided, frames_are_ranked, frames_stay_sound,
    labels_are_few, runs_are_short, runs_end, sections_are_guarded, sizes_stay, steps_follow_paths,
    stops_are_faults, stops_are_final,
};
pub use machine::{Core, Machine, Running, Stage, Thread};
pub use offer::{Offer, word_seen};
pub use place::place_at;
pub use step::{ApplyError, apply, undo};
