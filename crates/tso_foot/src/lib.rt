//! Footprints: which places of memory each instruction, and each thread of a state, may still read and write.
#![tactic(auto)]

mod ahead;
mod closed;
mod exact;
mod footprint;
mod foreseeing;
mod laws;
mod least;
mod masks;
mod table;
mod within;

pub use ahead::Future;
pub use closed::is_closed;
pub use foreseeing::future;
pub use laws::{
    closed_is_ranked, closed_is_the_models, futures_hold, narrower_foresees_no_more,
    reached_is_within, runs_are_foreseen, within_is_sound,
};
pub use least::build;
pub use masks::{Masks, array_mask, array_of, has_place, own_masks, place_mask};
pub use table::{ArrayTable, Table};
pub use within::{core_lies, is_within};
