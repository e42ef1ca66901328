//! What a queue holds after the calls of an order, read from the order alone.
ghost use Rattle.std.specs.Prelude.{◌≡◌, length, slice_get};
ghost use Rattle.tso_hist.specs.Views.{history_view};
ghost use Rattle.tso_fifo.specs.Contents.{pushed_by, pushed, taken_by};

use crate::Placed;
use tso_hist::History;
use tso_line::CallKind;
use tso_prog::Answer;

// What the call put into the queue.
fn pushed_by(history: &History, placed: &Placed) -> Option<u64>
    ensures { result ≡ pushed_by (history_view history.now) placed.now }
{
    let call = history.call(placed.thread, placed.call)?;
    match (call.kind, placed.answer) {
        (CallKind::Push(value), Answer::Done) => Some(value),
        _ => None,
    }
}

// How many items the order's calls put into the queue.
pub(crate) fn pushed_count(history: &History, order: &[Placed]) -> usize
    ensures { result ≡ length (pushed (history_view history.now) order.now) }
{
    order
        .iter()
        .filter_map(|placed| pushed_by(history, placed))
        .count()
}

// The item at this place among those that the order's calls put into the queue.
pub(crate) fn pushed_at(history: &History, order: &[Placed], place: usize) -> Option<u64>
    ensures { result ≡ slice_get (pushed (history_view history.now) order.now) place }
{
    let mut left = place;
    for placed in order {
        if let Some(value) = pushed_by(history, placed) {
            if left == 0 {
                return Some(value);
            }
            left -= 1;
        }
    }
    None
}

// How many items a call with this answer took.
pub(crate) fn taken_by(answer: Answer) -> usize
    ensures { result ≡ taken_by answer }
{
    match answer {
        Answer::Value(_) => 1,
        _ => 0,
    }
}
