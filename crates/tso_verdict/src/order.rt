//! How full the queue is.

ghost use Rattle.std.specs.Prelude.{◌≡◌};
ghost use Rattle.tso_verdict.specs.Levels.{after_answer, level_after, most_items};

use tso_fifo::Placed;
use tso_prog::Answer;

/// How many items the queue has, and has had at the most.
#[derive(Clone, Copy, PartialEq, Eq)]
struct Level {
    items: usize,
    most: usize,
}

// How many items the queue has once a call has answered so.
fn after_answer(items: usize, answer: Answer) -> usize
    ensures { result ≡ after_answer items answer }
{
    match answer {
        Answer::Refused => items,
        Answer::Done => items.saturating_add(1),
        Answer::Value(_) => items.saturating_sub(1),
    }
}

fn level_after(level: Level, placed: &Placed) -> Level
    ensures { result ≡ level_after level placed.now }
{
    let items = after_answer(level.items, placed.answer);
    Level {
        items,
        most: level.most.max(items),
    }
}

/// How many items the queue has at the most while calls answer in this order, from an empty one on.
pub fn most_items(order: &[Placed]) -> usize
    ensures { result ≡ most_items order.now }
{
    let empty = Level { items: 0, most: 0 };
    let last = order
        .iter()
        .fold(empty, |level, placed| level_after(level, placed));
    last.most
}
