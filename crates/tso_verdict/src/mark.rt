//! What records show of an instruction.

ghost use Rattle.std.specs.Prelude.{◌≡◌, replicate, IfOk};
ghost use Rattle.tso_verdict.specs.Marks.{mark_at, noted, stronger};

use std::alloc::{AllocError, Global};
use std::fmt;
use tso_flow::ProcedureKind;
use tso_list::Seq;
use tso_machine::{ActionKind, Frame, next_kind};
use tso_prog::Client;

/// What the records of a certificate show of an instruction.
#[derive(Clone, Copy, PartialEq, Eq)]
pub enum Mark {
    /// In no record a call is at it.
    NeverMet,
    /// In some record a call is at it, and it has yet to be done.
    Met,
    /// In some record a call is cut at it: it is a jump back that would be taken, and was taken as often as its bound allows.
    Cut,
}

impl fmt::Display for Mark {
    fn fmt<W: fmt::Write>(&self, f: &mut fmt::Formatter<W>) -> fmt::Result {
        match self {
            Mark::NeverMet => f.write_str("never met"),
            Mark::Met => f.write_str("met"),
            Mark::Cut => f.write_str("cut here"),
        }
    }
}

// Of two marks the one that shows more.
fn stronger(a: Mark, b: Mark) -> Mark
    ensures { result ≡ stronger a b }
{
    match (a, b) {
        (Mark::Cut, _) | (_, Mark::Cut) => Mark::Cut,
        (Mark::Met, _) | (_, Mark::Met) => Mark::Met,
        (Mark::NeverMet, Mark::NeverMet) => Mark::NeverMet,
    }
}

/// What a running call shows of the instruction that it is at.
pub fn mark_of(client: &Client, procedure: ProcedureKind, frame: &Frame) -> Mark
    ensures { result ≡ mark_at client.now procedure frame.now }
{
    match next_kind(client, procedure, frame) {
        ActionKind::Cut => Mark::Cut,
        ActionKind::Local
        | ActionKind::Load(_)
        | ActionKind::Barrier
        | ActionKind::Locked(_)
        | ActionKind::Return => Mark::Met,
    }
}

/// The marks of a procedure's instructions, by their positions.
#[derive(Drop)]
pub struct Marks {
    pub marks: Seq<Mark>,
}

impl Marks {
    /// Of so many instructions, none of which is met.
    ///
    /// Errors: where a growth was refused.
    pub fn new(alloc: Global, count: usize) -> Result<Marks, AllocError>
        ensures { IfOk result (λ m. m.marks ≡ replicate count Mark.NeverMet) }
    {
        let mut marks = Seq::new(alloc);
        for _ in 0..count {
            marks.push(Mark::NeverMet)?;
        }
        Ok(Marks { marks })
    }

    /// Notes what a record shows of the instruction at a position. Of a position without one nothing is noted.
    pub fn note(&mut self, position: usize, mark: Mark)
        ensures { self.new.marks ≡ noted self.old.marks position mark }
    {
        if position < self.marks.len() {
            let before = self.marks.as_slice()[position];
            *self.marks.at_mut(position) = stronger(before, mark);
        }
    }
}
