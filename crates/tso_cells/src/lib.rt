//! Intervals in which the words of registers lie, and what instructions make of them; tables that say them for each instruction, with
//! the cells which may still be read and written; and how such a table is made from what was seen.
//!
//! - [`moved`]: the intervals after an instruction;
//! - [`is_inductive`]: whether a table holds for all runs of its client, as far as registers go;
//! - [`widened`]: an inductive table that holds the intervals of a [`Hull`].
#![tactic(auto)]

mod access;
mod arguments;
mod assembling;
mod columns;
mod exact;
mod growing;
mod hulls;
mod inductive;
mod interval;
mod interval_laws;
mod laws;
mod lists;
mod moving;
mod own;
mod places;
mod rows;
mod spans;
mod starts;
mod table;
mod widening;

pub use hulls::Hull;
pub use inductive::is_inductive;
pub use interval::{ALL_WORDS, Interval};
pub use interval_laws::{first_registers_lie, registers_stay_within};
pub use laws::{inductive_is_closed, inductive_is_ranked};
pub use lists::{are_cells, holds, holds_all};
pub use moving::{moved, register_number};
pub use own::{own_reads, own_writes};
pub use places::{has_cell, lies};
pub use starts::registers_at;
pub use table::{Cells, IntervalTable, Item};
pub use widening::widened;
