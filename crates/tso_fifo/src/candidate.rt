//! The calls that an order may have.
ghost use Rattle.std.specs.Prelude.{◌≡◌, IfOk, OnOk, ◌++◌};
ghost use Rattle.tso_fifo.specs.Candidates.{all_candidates, thread_candidates};

use std::alloc::{AllocError, Global};
use tso_hist::{Call, History};
use tso_line::CallKind;
use tso_list::Seq;
use tso_prog::Answer;

/// A begun call of a history.
#[derive(Clone, Copy)]
pub(crate) struct Candidate {
    pub(crate) thread: usize,
    pub(crate) call: usize,
    pub(crate) kind: CallKind,
    pub(crate) answer: Option<Answer>,
}

// Adds the calls of a thread.
fn add_thread(all: &mut Seq<Candidate>, thread: usize, calls: &[Call]) -> Result<(), AllocError>
    ensures { OnOk result (all.new ≡ all.old ++ thread_candidates thread 0 calls.now) }
{
    for (call, begun) in calls.iter().enumerate() {
        all.push(Candidate {
            thread,
            call,
            kind: begun.kind,
            answer: begun.answer,
        })?;
    }
    Ok(())
}

// All begun calls.
pub(crate) fn candidates(alloc: Global, history: &History) -> Result<Seq<Candidate>, AllocError>
    ensures { IfOk result (λ all. all ≡ all_candidates 0 history.now) }
{
    let mut all = Seq::new(alloc);
    for (thread, calls) in history.threads().iter().enumerate() {
        add_thread(&mut all, thread, calls.as_slice())?;
    }
    Ok(all)
}
