//! Traces: runs of the machine that err, as text and step by step.
#![tactic(auto)]

mod cell;
mod cursor;
mod fault;
mod good;
mod grammar;
mod history;
mod laws;
mod parts;
mod reading;
mod run;
mod spelling;
mod trace;

pub use cell::{Cell, cell_of};
pub use cursor::Cursor;
pub use fault::TraceFault;
pub use grammar::{bad_line, labels_of};
pub use history::history_of;
pub use laws::{
    back_is_inverse, cells_are_named, lines_are_unique, lists_are_judged_once,
    places_show_one_state, printed_traces_are_read, queue_is_the_clients, runs_are_told,
    texts_are_judged_once, texts_are_unique,
};
pub use spelling::{cell_name, line_of};
pub use trace::{Trace, Violation};
