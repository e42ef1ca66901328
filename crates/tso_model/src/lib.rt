//! What must be believed about x86-TSO and linearizability, and what is proved about them without looking at an instruction.
//!
//! The definitions stand in `specs/`, over any type `F` of frames: what a running thread knows of itself. A reader of the last
//! theorem, [`verdicts::every_run_is_good`], needs `Programs`, `Prologue`, `Machines`, `Labels`, `Events`, `Objects`, `Linear` and
//! `Certificate`; the other modules serve its proof. Each theorem is the contract of a public function with an empty body:
//!
//! - [`rules`], [`tso`], [`invariants`], [`bounds`]: the label machine, said in several ways, and what holds of all its runs;
//! - [`runs`]: runs of labels and runs of compact steps, which fuse a locked instruction;
//! - [`histories`]: histories, linearizations and the bounded queue;
//! - [`reduction`], [`well_formed`]: why a certificate may leave out steps;
//! - [`verdicts`]: what a certificate proves, and what a path to a bad state shows.
#![tactic(auto)]

pub mod bounds;
pub mod histories;
pub mod invariants;
pub mod reduction;
pub mod rules;
pub mod runs;
pub mod tso;
pub mod verdicts;
pub mod well_formed;
