//! The spelling of numbers, lists, states, tables, choices and orders as bytes, and how they are read.
#![tactic(auto)]

mod code;
mod end;
mod state;
mod table;

pub use code::{
    Code, ReadError, read_below, read_index, read_items, read_number, read_place, write_list,
    write_number,
};
