//! Orders of a history's calls that a bounded queue explains.
#![tactic(auto)]

mod candidate;
mod check;
mod contents;
mod laws;
mod memory;
mod order;
mod queue;
mod search;

pub use check::is_linearization;
pub use laws::{
    beginnings_are_linearizable, orders_are_decided, orders_are_linearizations, orders_of_runs,
    stricter_orders_serve,
};
pub use order::{Order, Placed};
pub use search::linearize;
