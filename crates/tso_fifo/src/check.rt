//! Whether a list of calls is an order that explains a history.
ghost use Rattle.std.specs.Prelude.{◌≡◌, ◌↔◌, ℕ, List, [], IsTrue, All, AllPairs, Contains, slice_get};
ghost use Rattle.tso_hist.specs.declared.call.Call.{Call as BegunCall};
ghost use Rattle.tso_hist.specs.Views.{history_view};
ghost use Rattle.tso_prog.specs.declared.answer.Answer.{Answer as CallAnswer};
ghost use Rattle.tso_model.specs.Linear.{placed_calls};
ghost use Rattle.tso_model.specs.Objects.{QueueSteps};
ghost use Rattle.tso_prog.specs.Views.{mode_view};
ghost use Rattle.tso_fifo.specs.Orders.{IsOrderOf, order_view};
ghost use Rattle.tso_fifo.specs.Check.{HasAllReturned, HasReturned, IsAllowed, IsApart, IsBegun};

use crate::contents::{pushed_at, pushed_count, taken_by};
use crate::queue::Queue;
use crate::{Order, Placed};
use tso_hist::{Call, History};
use tso_line::Mode;

// Call `call` of `thread` is another one, and had not returned when this one began.
fn is_apart(history: &History, placed: &Placed, thread: usize, call: usize) -> bool
    ensures { IsTrue result ↔ IsApart (history_view history.now) thread call placed.now }
{
    if placed.thread == thread && placed.call == call {
        return false;
    }
    !history.precedes(thread, call, placed.thread, placed.call)
}

// Call `call` of `thread` may stand behind all of these.
fn may_follow(history: &History, earlier: &[Placed], thread: usize, call: usize) -> bool
    ensures { IsTrue result ↔ All (IsApart (history_view history.now) thread call) earlier.now }
{
    earlier
        .iter()
        .all(|placed| is_apart(history, placed, thread, call))
}

// Each call may stand behind those before it.
fn is_ordered(history: &History, order: &[Placed]) -> bool
    ensures { IsTrue result ↔ AllPairs (λ x y. IsApart (history_view history.now) y.thread y.call x) order.now }
{
    for i in 0..order.len() {
        if !may_follow(history, &order[..i], order[i].thread, order[i].call) {
            return false;
        }
    }
    true
}

// The call has begun, and has not returned with another answer.
fn is_begun(history: &History, placed: &Placed) -> bool
    ensures { IsTrue result ↔ IsBegun history.now placed.now }
{
    match history.call(placed.thread, placed.call) {
        None => false,
        Some(call) => match call.answer {
            None => true,
            Some(answer) => answer == placed.answer,
        },
    }
}

// All these calls have begun, and have not returned with other answers.
fn are_begun(history: &History, order: &[Placed]) -> bool
    ensures { IsTrue result ↔ All (IsBegun history.now) order.now }
{
    order.iter().all(|placed| is_begun(history, placed))
}

// The order has this entry.
fn has_placed(order: &[Placed], placed: &Placed) -> bool
    ensures { IsTrue result ↔ Contains order.now placed.now }
{
    order.contains(placed)
}

// The returned ones of these calls of a thread are in the order, with their answers.
fn has_returned_of(thread: usize, calls: &[Call], order: &[Placed]) -> bool
    ensures { IsTrue result ↔ HasReturned thread calls.now order.now }
{
    for (call, c) in calls.iter().enumerate() {
        if let Some(answer) = c.answer {
            let placed = Placed {
                thread,
                call,
                answer,
            };
            if !has_placed(order, &placed) {
                return false;
            }
        }
    }
    true
}

// Each call that has returned is in the order, with its answer.
fn has_all_returned(history: &History, order: &[Placed]) -> bool
    ensures { IsTrue result ↔ HasAllReturned history.now order.now }
{
    for (thread, calls) in history.threads().iter().enumerate() {
        if !has_returned_of(thread, calls.as_slice(), order) {
            return false;
        }
    }
    true
}

// A queue that is empty at first may answer so.
fn is_allowed(history: &History, queue: Queue, order: &[Placed]) -> bool
    requires { All (IsBegun history.now) order.now }
    ensures { IsTrue result ↔ IsAllowed queue (history_view history.now) order.now }
{
    let mut taken = 0;
    for i in 0..order.len() {
        let placed = order[i];
        let Some(call) = history.call(placed.thread, placed.call) else {
            return false;
        };
        let before = &order[..i];
        let len = pushed_count(history, before) - taken;
        let front = pushed_at(history, before, taken);
        if !queue.may_answer(len, front, call.kind, placed.answer) {
            return false;
        }
        taken += taken_by(placed.answer);
    }
    true
}

/// Whether the order has begun calls of the history, each once; all that have returned, with their answers, and of the
/// pending ones some, with some answers; none behind a call that began only after it had returned; and a queue of this
/// capacity, empty at first, may answer them so.
pub fn is_linearization(history: &History, mode: Mode, capacity: usize, order: &Order) -> bool
    ensures { IsTrue result ↔ IsOrderOf mode capacity history.now (order_view (history_view history.now) order.now) }
{
    let queue = Queue { mode, capacity };
    let order = order.as_slice();
    if !are_begun(history, order) {
        return false;
    }
    if !is_ordered(history, order) {
        return false;
    }
    if !has_all_returned(history, order) {
        return false;
    }
    is_allowed(history, queue, order)
}
