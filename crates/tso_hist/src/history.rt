//! The calls of each thread that have begun.
ghost use Rattle.std.specs.Prelude.{◌≡◌, ◌↔◌, List, IfOk, OnOk, OnErr, IsTrue, count_by, is_some, length, map, replicate, [], slice_get, slice_index_or, option_map, option_copied};
ghost use Rattle.tso_model.specs.Events.{CallOf, ReturnOf, after_event};
ghost use Rattle.tso_model.specs.Linear.{Precedes, call_at};
ghost use Rattle.tso_model.specs.Programs.{CallKind as ModelKind};
ghost use Rattle.tso_prog.specs.Views.{answer_view, call_view};
ghost use Rattle.tso_hist.specs.Views.{called_view, history_view};

use crate::Call;
use std::alloc::{AllocError, Global};
use std::marker::Model;
use tso_line::CallKind;
use tso_list::Seq;
use tso_prog::Answer;

/// For each thread its calls that have begun, in order.
#[derive(Debug, PartialEq, Eq, PartialOrd, Ord, Hash, Drop)]
pub struct History {
    threads: Seq<Seq<Call>>,
}

impl Model for History {
    ghost use Rattle.std.specs.Prelude.{List};
    ghost use Rattle.tso_hist.specs.declared.call.Call.{Call as BegunCall};

    ghost Value = { List (List BegunCall) };

    ghost view = { λ h. h.threads };

    ghost inverse = { λ v. record { threads = v } };
}

impl Clone for History {
    ghost is_clone = { λ history copy. copy ≡ history };

    fn clone(&self) -> Result<Self, AllocError> {
        let copy = self.threads.clone()?;
        Ok(History { threads: copy })
    }
}

// How many of these calls have returned.
fn count_returned(calls: &[Call]) -> usize
    ensures { result ≡ count_by (λ c. is_some c.answer) calls.now }
{
    calls.iter().filter(|c| c.answer.is_some()).count()
}

impl History {
    /// A history of so many threads, without a call.
    pub fn new(alloc: Global, threads: usize) -> Result<Self, AllocError>
        ensures value { IfOk result (λ h. h ≡ replicate threads []) }
        ensures first { (calls : List (List ModelKind)) → length calls ≡ threads → IfOk result (λ h. history_view h ≡ map (λ ks. []) calls) }
    {
        let mut all = Seq::new(alloc);
        for _ in 0..threads {
            all.push(Seq::new(alloc))?;
        }
        Ok(History { threads: all })
    }

    /// The history with these calls of each thread.
    pub fn from_threads(threads: Seq<Seq<Call>>) -> Self
        ensures { result ≡ threads }
    {
        History { threads }
    }

    /// The calls of each thread.
    pub fn threads(&self) -> &[Seq<Call>]
        ensures { result.now ≡ self.now }
    {
        self.threads.as_slice()
    }

    /// Call `call` of `thread`, counted from 0, if it has begun.
    pub fn call(&self, thread: usize, call: usize) -> Option<&Call>
        ensures value { option_copied result ≡ slice_get (slice_index_or self.now thread []) call }
        ensures view { option_map called_view (option_copied result) ≡ call_at (history_view self.now) thread call }
    {
        self.threads().get(thread)?.as_slice().get(call)
    }

    /// Thread `thread` begins a call. Where there is no such thread, and where memory is refused, the history stays.
    pub fn on_call(&mut self, thread: usize, kind: CallKind) -> Result<(), AllocError>
        ensures ok { OnOk result (history_view self.new ≡ after_event (history_view self.old) (CallOf thread (call_view kind))) }
        ensures err { OnErr result (self.new ≡ self.old) }
    {
        if thread >= self.threads.len() {
            return Ok(());
        }
        let mut seen = Seq::new(self.threads.allocator());
        for calls in self.threads() {
            seen.push(count_returned(calls.as_slice()))?;
        }
        self.threads.at_mut(thread).push(Call {
            kind,
            seen,
            answer: None,
        })
    }

    /// The last call of the thread returns. Where the thread has begun none, the history stays.
    pub fn on_return(&mut self, thread: usize, answer: Answer)
        ensures { history_view self.new ≡ after_event (history_view self.old) (ReturnOf thread (answer_view answer)) }
    {
        if thread >= self.threads.len() {
            return;
        }
        let calls = self.threads.at_mut(thread);
        if calls.is_empty() {
            return;
        }
        let last = calls.len() - 1;
        calls.at_mut(last).answer = Some(answer);
    }

    /// Call `call` of `thread` had returned when call `later_call` of `later_thread` began.
    pub fn precedes(
        &self,
        thread: usize,
        call: usize,
        later_thread: usize,
        later_call: usize,
    ) -> bool
        ensures { IsTrue result ↔ Precedes (history_view self.now) thread call later_thread later_call }
    {
        let Some(later) = self.call(later_thread, later_call) else {
            return false;
        };
        let Some(seen) = later.seen.get(thread) else {
            return false;
        };
        call < *seen
    }
}
