//! The check of certificates: where it accepts, every run of the client is good.
#![tactic(auto)]

mod alone;
mod deciding;
mod halved;
mod halves;
mod judging;
mod laws;
mod numbered;
mod pieces;
mod remains;
mod rising;
mod stored;
mod threads;
mod trail;
mod upgrading;
mod verdict;

pub use deciding::{check, check_client, check_parts, check_with};
pub use laws::{accepted_runs_are_good, answers_are_unique, verdicts_are_unique};
pub use remains::Remains;
pub use tso_client::CheckError;
pub use upgrading::{Renewed, UpgradeError, upgrade, upgrade_counted};
pub use verdict::Verdict;
