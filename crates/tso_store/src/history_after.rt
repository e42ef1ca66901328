//! Histories after a step, which are not made.
ghost use Rattle.std.specs.Prelude.{◌≡◌, ◌↔◌, IsTrue, count_by, is_some};
ghost use Rattle.std.specs.Hash as writes;
ghost use Rattle.std.specs.List.{flat_map, fold};
ghost use Rattle.tso_compact.specs.Motions.{log_of};
ghost use Rattle.tso_hist.specs.Views.{history_view};
ghost use Rattle.tso_model.specs.Events.{CallOf, ReturnOf, after_event};
ghost use Rattle.tso_model.specs.States.{logged};
ghost use Rattle.tso_prog.specs.Views.{answer_view, call_view};
ghost use Rattle.tso_store.specs.Likes.{call_after, counts};

use std::hash::{Hash, Hasher};
use tso_compact::Motion;
use tso_hist::{Call, History};
use tso_line::CallKind;
use tso_list::Seq;
use tso_parts::{Like, Spliced};
use tso_prog::Answer;

/// A call that is not made.
#[derive(Clone, Copy)]
pub enum CallAfter<'a> {
    /// One that begins after this history.
    Begun {
        kind: CallKind,
        history: &'a History,
    },
    /// This one, with an answer.
    Answered {
        call: &'a Call,
        answer: Answer,
    },
}

// How many of these calls have returned.
fn count_returned(calls: &[Call]) -> usize
    ensures { result ≡ count_by (λ c. is_some c.answer) calls.now }
{
    calls.iter().filter(|c| c.answer.is_some()).count()
}

// Feeds the hasher with how many calls of each thread have returned.
fn feed_counts<H: Hasher>(threads: &[Seq<Call>], state: &mut H)
    ensures { state.new ≡ fold H.write state.old (flat_map writes.usize (counts threads.now)) }
{
    match threads {
        [] => {}
        [calls, others @ ..] => {
            state.write_usize(count_returned(calls.as_slice()));
            feed_counts(others, state);
        }
    }
}

// Whether so many calls of each thread have returned.
fn are_counts(threads: &[Seq<Call>], seen: &[usize]) -> bool
    ensures { IsTrue result ↔ (counts threads.now ≡ seen.now) }
{
    match threads {
        [] => seen.is_empty(),
        [calls, others @ ..] => match seen {
            [] => false,
            [count, rest @ ..] => {
                count_returned(calls.as_slice()) == *count && are_counts(others, rest)
            }
        },
    }
}

impl<'a> Like<Call> for CallAfter<'a> {
    ghost value = { call_after };

    fn feed<H: Hasher>(&self, state: &mut H) {
        match self {
            CallAfter::Begun { kind, history } => {
                kind.hash(state);
                state.write_usize(history.threads().len());
                feed_counts(history.threads(), state);
                None::<Answer>.hash(state);
            }
            CallAfter::Answered { call, answer } => {
                call.kind.hash(state);
                call.seen.hash(state);
                Some(*answer).hash(state);
            }
        }
    }

    fn is(&self, item: &Call) -> bool {
        match self {
            CallAfter::Begun { kind, history } => {
                *kind == item.kind
                    && are_counts(history.threads(), item.seen.as_slice())
                    && item.answer.is_none()
            }
            CallAfter::Answered { call, answer } => {
                call.kind == item.kind && call.seen == item.seen && item.answer == Some(*answer)
            }
        }
    }
}

/// A history that is not made.
#[derive(Drop)]
pub struct HistoryAfter<'a> {
    threads: Spliced<'a, Seq<Call>, Spliced<'a, Call, CallAfter<'a>>>,
}

impl<'a> Like<History> for HistoryAfter<'a> {
    ghost value = { λ h. h.threads };

    fn feed<H: Hasher>(&self, state: &mut H) {
        self.threads.feed(state);
    }

    fn is(&self, item: &History) -> bool {
        self.threads.is_slice(item.threads())
    }
}

// The history itself.
fn unchanged(history: &History) -> HistoryAfter<'_>
    ensures { result.threads ≡ history.now }
{
    HistoryAfter {
        threads: Spliced::same(history.threads()),
    }
}

// The history after a call of a thread begins.
fn begun(history: &History, thread: usize, kind: CallKind) -> HistoryAfter<'_>
    ensures { history_view result.threads ≡ after_event (history_view history.now) (CallOf thread (call_view kind)) }
{
    match history.threads().get(thread) {
        Some(calls) => HistoryAfter {
            threads: Spliced::with(
                history.threads(),
                thread,
                Spliced::longer(calls.as_slice(), CallAfter::Begun { kind, history }),
            ),
        },
        None => unchanged(history),
    }
}

// The history after the last call of a thread returns.
fn answered(history: &History, thread: usize, answer: Answer) -> HistoryAfter<'_>
    ensures { history_view result.threads ≡ after_event (history_view history.now) (ReturnOf thread (answer_view answer)) }
{
    let Some(calls) = history.threads().get(thread) else {
        return unchanged(history);
    };
    let calls = calls.as_slice();
    match calls.last() {
        Some(call) => HistoryAfter {
            threads: Spliced::with(
                history.threads(),
                thread,
                Spliced::with(calls, calls.len() - 1, CallAfter::Answered { call, answer }),
            ),
        },
        None => unchanged(history),
    }
}

/// The history with what the step of a thread writes into it. It takes no memory.
pub fn history_after(history: &History, thread: usize, motion: Motion) -> HistoryAfter<'_>
    ensures { history_view result.threads ≡ logged (history_view history.now) thread (log_of motion) }
{
    match motion {
        Motion::Begin { kind, .. } => begun(history, thread, kind),
        Motion::Return(answer) => answered(history, thread, answer),
        _ => unchanged(history),
    }
}
