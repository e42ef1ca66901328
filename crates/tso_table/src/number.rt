//! Numbers of states.

ghost use Rattle.std.specs.Prelude.{◌≡◌, ◌+◌, ◌%◌, ◌<◌, List, length, sum, sum_by};
ghost use Rattle.tso_hist.specs.declared.call.Call.{Call as ACall};
ghost use Rattle.tso_state.specs.declared.state.Thread.{Thread as AThread};
ghost use Rattle.tso_table.specs.Leading.{position_of, shard_of};

use tso_state::{Core, Viewed};

/// How many shards there are.
pub const SHARDS: u8 = 16;

/// The number of a state: its shard, and its place there, counted from 0.
#[derive(Clone, Copy, Default, PartialEq, Eq)]
pub struct Number {
    pub shard: u8,
    pub place: u32,
}

// The sum of the words, modulo 16.
fn sum_of_words(words: &[u64]) -> u64
    ensures { result ≡ sum words.now % 16 }
{
    let mut sum = 0;
    for word in words {
        sum = (sum + *word % 16) % 16;
    }
    sum
}

// The position of a running thread, and 0 for any other.
fn position_of(core: &Core) -> usize
    ensures { result ≡ position_of core.now }
{
    match core {
        Core::Idle => 0,
        Core::Running(frame) => frame.pc,
        Core::Stopped => 0,
    }
}

// The sum of the positions of running threads, modulo 16.
fn sum_of_positions<S: Viewed>(state: &S) -> u64
    ensures { result ≡ sum_by (λ (t : AThread). position_of t.core) (S.state state.now).threads % 16 }
{
    let mut sum = 0;
    for number in 0..state.thread_count() {
        let Some(thread) = state.thread(number) else {
            unreachable!()
        };
        sum = (sum + position_of(&thread.core) as u64 % 16) % 16;
    }
    sum
}

// How many calls have begun, modulo 16.
fn count_of_calls<S: Viewed>(state: &S) -> u64
    ensures { result ≡ sum_by (λ (calls : List ACall). length calls) (S.state state.now).history % 16 }
{
    let mut sum = 0;
    for number in 0..state.history_count() {
        let Some(calls) = state.calls(number) else {
            unreachable!()
        };
        sum = (sum + calls.len() as u64 % 16) % 16;
    }
    sum
}

/// The shard of a state: the words of its memory, the positions of its running threads and the count of its begun calls, added
/// up modulo 16. It takes no memory.
pub fn shard_of<S: Viewed>(state: &S) -> u8
    ensures shard { result ≡ shard_of (S.state state.now) }
    ensures below { result < 16 }
{
    let sum = sum_of_words(state.memory()) + sum_of_positions(state) + count_of_calls(state);
    (sum % 16) as u8
}
