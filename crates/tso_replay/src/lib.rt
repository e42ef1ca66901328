//! What is printed of a run and of a search: a trace's replay, as text, as objects of JSON or as a page, why its run is not good, and
//! the words that ask for it; and what a search reports, with how far it has come.
#![tactic(auto)]

mod asked;
mod cause;
mod host;
mod length;
mod objects;
mod page;
mod progress;
mod replay;
mod replaying;
mod report;
mod show;

pub use asked::{Replay, SHOWN, replay_of};
pub use cause::tell_cause;
pub use host::HostListener;
pub use progress::{Distance, Listener, Progress, Times};
pub use replaying::{Texts, run_replay};
pub use report::{Report, Sizes, limit_object};
