//! Control flow of a client's procedures: a client is refused where control can run past a procedure's end, where a
//! jump back has no bound or a jump forward has one, and where some path reads a register or a flag before it writes it.
#![tactic(auto)]

mod access;
mod copy;
mod fault;
mod flow;
mod limit;
mod location;
mod path;

pub use access::{is_given, reads, writes};
pub use flow::{Checked, FlowError, check};
pub use location::{Flag, LOCATIONS, Location, ProcedureKind};
pub use path::{jump_target, next_position};
