//! What a replay shows beside its labels: the instruction that took each, registers, memory and store buffers after it, the
//! calls in time, and from which label on they have no order; as text.
#![tactic(auto)]

mod brief;
mod buffer;
mod frame;
mod line;
mod moment;
mod print;
mod replayed;
mod site;
mod state;
mod stop;
mod unordered;
mod walk;

pub use brief::print_brief;
pub use buffer::{push_buffer, push_memory, push_origin};
pub use frame::push_frame;
pub use line::line_text;
pub use moment::{Moment, next_moment};
pub use print::{Name, ShowError, print_calls, print_cause, print_labels, print_order};
pub use replayed::{Replayed, read_run};
pub use site::{Site, core_site, taker};
pub use state::{Show, push_shown};
pub use unordered::{Served, ordered_part};
pub use walk::{Walk, WalkError};
