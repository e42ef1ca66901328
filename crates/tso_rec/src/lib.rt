//! Records, a state with its end, and lists of records that keep what changes.
#![tactic(auto)]

mod basis;
mod kept;
mod known;
mod packed;
mod places;
mod record;
mod shared;
mod spelling;
mod told;

pub use basis::{Basis, Grain};
pub use kept::Kept;
pub use known::{Known, Shelf};
pub use packed::Packed;
pub use places::{Places, mark_of_front};
pub use record::{End, Record};
pub use shared::{Part, Shared, copy_of, keep_all};
pub use told::{Readable, Reader};
