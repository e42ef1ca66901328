//! What is read as a state.
ghost use Rattle.std.specs.Prelude.{◌≡◌, [], length, slice_get, slice_index_or};
ghost use Rattle.std.specs.Option.{option_copied, option_map};
ghost use Rattle.tso_state.specs.Views.{running_procedure};
ghost use Rattle.tso_state.specs.declared.state.State.{State as StateValue};

use crate::state::{State, Thread};
use tso_flow::ProcedureKind;
use tso_hist::{Call, History};

/// The calls of a thread that have begun; none where there is no list for it.
pub fn begun_calls(history: &History, thread: usize) -> &[Call]
    ensures { result.now ≡ slice_index_or history.now thread [] }
{
    match history.threads().get(thread) {
        Some(calls) => calls.as_slice(),
        None => &[],
    }
}

/// The procedure that the last of these calls runs; that of a pop where there is none.
pub fn running_procedure(calls: &[Call]) -> ProcedureKind
    ensures { result ≡ running_procedure calls.now }
{
    match calls {
        [] => ProcedureKind::Pop,
        [.., last] => ProcedureKind::from(last.kind),
    }
}

/// A state, or what is kept of one elsewhere: all that only reads a state reads it through this, without a copy and without
/// memory.
pub trait Viewed {
    ghost state: { Self → StateValue };

    /// The words of the memory.
    fn memory(&self) -> &[u64]
        ensures { result.now ≡ (state self.now).memory };

    /// How many threads there are.
    fn thread_count(&self) -> usize
        ensures { result ≡ length (state self.now).threads };

    /// Thread `number`, if there are so many.
    fn thread(&self, number: usize) -> Option<&Thread>
        ensures { option_copied result ≡ slice_get (state self.now).threads number };

    /// The calls of all threads that have begun.
    fn history(&self) -> &History
        ensures { result.now ≡ (state self.now).history };

    /// How many lists of calls there are.
    fn history_count(&self) -> usize
        ensures { result ≡ length (state self.now).history };

    /// List `number` of calls that have begun, if there are so many.
    fn calls(&self, number: usize) -> Option<&[Call]>
        ensures { option_copied result ≡ slice_get (state self.now).history number };

    /// How many calls of thread `number` have begun; none where there is no list for it.
    fn begun(&self, number: usize) -> usize
        ensures { result ≡ length (slice_index_or (state self.now).history number []) };

    /// The procedure that the last call of thread `number` runs; that of a pop where none has begun.
    fn procedure(&self, number: usize) -> ProcedureKind
        ensures { result ≡ running_procedure (slice_index_or (state self.now).history number []) };
}

impl Viewed for State {
    ghost state = { λ s. s };

    fn memory(&self) -> &[u64] {
        self.memory.as_slice()
    }

    fn thread_count(&self) -> usize {
        self.threads.len()
    }

    fn thread(&self, number: usize) -> Option<&Thread> {
        self.threads.get(number)
    }

    fn history(&self) -> &History {
        &self.history
    }

    fn history_count(&self) -> usize {
        self.history.threads().len()
    }

    fn calls(&self, number: usize) -> Option<&[Call]> {
        let calls = self.history.threads().get(number)?;
        Some(calls.as_slice())
    }

    fn begun(&self, number: usize) -> usize {
        begun_calls(&self.history, number).len()
    }

    fn procedure(&self, number: usize) -> ProcedureKind {
        running_procedure(begun_calls(&self.history, number))
    }
}
