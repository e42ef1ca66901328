//! Calls of the libraries below the search, as the lines of files say them: arithmetic, machines, labels, cursors, runs, events,
//! states and actors. What a call finds is written as words.
#![tactic(auto)]

mod actors;
mod arithmetic;
mod cursors;
mod events;
mod failure;
mod input;
mod label_kinds;
mod label_walk;
mod labels;
mod machine;
mod making;
mod plain;
mod reached;
mod sketch;
mod states;

pub use actors::{actor_of, actors_of, state_after};
pub use events::order_of;
pub use failure::{Failure, ensure};
pub use input::{before, behind, client_of, file_at, index_at, number_at, word};
pub use label_walk::{Met, all_runs};
pub use making::{answer, answer_of_client};
pub use sketch::state_of;
