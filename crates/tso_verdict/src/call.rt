//! How far calls come.

ghost use Rattle.std.specs.Prelude.{◌≡◌};
ghost use Rattle.std.specs.List.{list_any};
ghost use Rattle.tso_verdict.specs.Calls.{further, has_refused, is_done, is_refused_by, noted, reach_of};

use std::alloc::{AllocError, Global};
use std::fmt;
use tso_flow::ProcedureKind;
use tso_hist::Call;
use tso_list::Seq;
use tso_prog::Answer;

/// How far a call of the client comes in the records of a certificate, at the most.
#[derive(Clone, Copy, PartialEq, Eq)]
pub enum Reach {
    /// In no record it has begun.
    NeverBegun,
    /// In some record it has begun, and in none returned.
    NeverReturned,
    /// In some record it has returned.
    Returned,
}

impl fmt::Display for Reach {
    fn fmt<W: fmt::Write>(&self, f: &mut fmt::Formatter<W>) -> fmt::Result {
        match self {
            Reach::NeverBegun => f.write_str("never begun"),
            Reach::NeverReturned => f.write_str("never returned"),
            Reach::Returned => f.write_str("returned"),
        }
    }
}

// How far a call has come that has begun.
fn reach_of(call: &Call) -> Reach
    ensures { result ≡ reach_of call.now }
{
    match call.answer {
        Some(_) => Reach::Returned,
        None => Reach::NeverReturned,
    }
}

// Of two the one that is further.
fn further(a: Reach, b: Reach) -> Reach
    ensures { result ≡ further a b }
{
    match (a, b) {
        (Reach::Returned, _) | (_, Reach::Returned) => Reach::Returned,
        (Reach::NeverReturned, _) | (_, Reach::NeverReturned) => Reach::NeverReturned,
        (Reach::NeverBegun, Reach::NeverBegun) => Reach::NeverBegun,
    }
}

/// How far the calls of a thread come, in their order.
#[derive(Drop)]
pub struct Reached {
    pub calls: Seq<Reach>,
}

impl Reached {
    /// Of a thread of so many calls, none of which has begun.
    ///
    /// Errors: where a growth was refused.
    pub fn new(alloc: Global, count: usize) -> Result<Reached, AllocError> {
        let mut calls = Seq::new(alloc);
        for _ in 0..count {
            calls.push(Reach::NeverBegun)?;
        }
        Ok(Reached { calls })
    }

    // Notes how far a call has come. Of a number without a call nothing is noted.
    fn note_call(&mut self, number: usize, reach: Reach)
        ensures { self.new.calls ≡ noted self.old.calls number reach }
    {
        if number < self.calls.len() {
            let before = self.calls.as_slice()[number];
            *self.calls.at_mut(number) = further(before, reach);
        }
    }

    /// Notes the calls of the thread that have begun in a record.
    pub fn note(&mut self, begun: &[Call]) {
        for (number, call) in begun.iter().enumerate() {
            self.note_call(number, reach_of(call));
        }
    }
}

// Whether it is a call of this procedure, and was refused.
fn is_refused_by(procedure: ProcedureKind, call: &Call) -> bool
    ensures { result ≡ is_refused_by procedure call.now }
{
    ProcedureKind::from(call.kind) == procedure && call.answer == Some(Answer::Refused)
}

// Whether one of these is a call of this procedure that was refused.
fn has_refused(procedure: ProcedureKind, calls: &[Call]) -> bool
    ensures { result ≡ has_refused procedure calls.now }
{
    calls.iter().any(|call| is_refused_by(procedure, call))
}

/// Whether one of all threads' calls is.
pub fn any_refused(procedure: ProcedureKind, history: &[Seq<Call>]) -> bool
    ensures { result ≡ list_any (has_refused procedure) history.now }
{
    history
        .iter()
        .any(|calls| has_refused(procedure, calls.as_slice()))
}

/// Whether it is a push that is done.
pub fn is_done(call: &Call) -> bool
    ensures { result ≡ is_done call.now }
{
    match call.answer {
        Some(Answer::Done) => true,
        None | Some(Answer::Refused | Answer::Value(_)) => false,
    }
}
