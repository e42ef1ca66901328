//! Reasons: why a chosen actor's step may be taken before another thread's steps.
#![tactic(auto)]

mod far;
mod holding;
mod laws;
mod reason;
mod still;

pub use far::{is_far_from, is_free, place_of};
pub use holding::{buffer_in, holds, is_done_in, is_reason};
pub use laws::{true_reasons_are_the_models, valid_choices_are_persistent};
pub use reason::Reason;
