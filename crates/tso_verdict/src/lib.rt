//! What is said of certificates: the verdict on one, which the theorem is about, and what those in a folder say of a survey's clients.
//! Then what the records of a certificate show of a program: which instructions calls come to, where calls are cut, which calls
//! return, and how full the queue is; that is counted in one pass, and no theorem speaks of it.
#![tactic(auto)]

mod alone;
mod between;
mod call;
mod checking;
mod collecting;
mod coverage;
mod fact;
mod list;
mod mark;
mod objects;
mod order;
mod round;
mod source;
mod talk;

pub use alone::{run_check, run_check_process};
pub use between::{counted_between, counted_in};
pub use call::Reach;
pub use checking::{
    ABOUT, CERT, Check, check_arguments, check_bytes, check_of, put_verdict, verdict_on,
    verdict_status, workers_argument, workers_of,
};
pub use collecting::Collector;
pub use coverage::{Coverage, counted};
pub use fact::Facts;
pub use list::listed;
pub use mark::Mark;
pub use objects::facts_object;
pub use source::marked;
pub use talk::told;
