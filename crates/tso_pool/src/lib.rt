//! Workers that search the states of one client together, over tables that they share, and the tickets that they hand to one
//! another: none is lost, and none is given twice.
#![tactic(auto)]

mod claim;
mod closing;
mod crew;
mod ending;
mod finished;
mod gathering;
mod judging;
mod linking;
mod progress;
mod resting;
mod rule;
mod searching;
mod seat;
mod sharing;
mod stealing;
mod team;
mod ticket;
mod victim;
mod working;

pub use claim::{Claim, file, take};
pub use closing::tickets_left;
pub use crew::work_all;
pub use ending::Ending;
pub use finished::Finished;
pub use gathering::gather;
pub use judging::judge_end;
pub use linking::seats;
pub use progress::Progress;
pub use resting::Resting;
pub use rule::{Hand, Once};
pub use searching::search;
pub use seat::Seat;
pub use sharing::intern;
pub use team::Team;
pub use ticket::{Due, Ticket, offer};
pub use victim::Victim;
pub use working::work;
