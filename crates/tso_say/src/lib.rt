//! What is said to people in words. Of each code: what it means, a small text that is refused with it, and the mended text. Of a
//! text that is refused: the line of the fault, the place in it, how control comes to a read of something unwritten, and what each
//! thread of a machine has next.
#![tactic(auto)]

mod accepting;
mod ahead;
mod bad_certificates;
mod bad_programs;
mod bad_traces;
mod explaining;
mod hidden;
mod instead;
mod lines;
mod meanings;
mod more;
mod next;
mod page;
mod paths;
mod programs;
mod reading;
mod reason;
mod said;
mod topic;
mod traces;

pub use accepting::parsed;
pub use ahead::{Next, buffer_next, core_next};
pub use explaining::explanation;
pub use hidden::put_hidden;
pub use lines::put_meaning;
pub use page::Page;
pub use programs::put_program;
pub use reading::{UnwrittenRead, location_word, unwritten};
pub use said::{meaning, mended, sample};
pub use topic::{ALL, Topic, find, word};
pub use traces::put_trace;
