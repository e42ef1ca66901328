//! What a bounded queue may answer.
ghost use Rattle.std.specs.Prelude.{◌≡◌, ◌↔◌, ℕ, List, length, slice_get, IsTrue};
ghost use Rattle.tso_model.specs.Objects.{MayRefuse};
ghost use Rattle.tso_prog.specs.Views.{call_view, mode_view};

use tso_line::{CallKind, Mode};
use tso_prog::Answer;

/// The rule of a queue.
#[derive(Clone, Copy)]
pub(crate) struct Queue {
    pub(crate) mode: Mode,
    pub(crate) capacity: usize,
}

impl Queue {
    ghost use Rattle.tso_fifo.specs.Check.{MayAnswer};

    // With `len` items it may refuse the call.
    fn may_refuse(self, len: usize, kind: CallKind) -> bool
        ensures { (items : List ℕ) → length items ≡ len → IsTrue result ↔ MayRefuse (mode_view self.mode) self.capacity items (call_view kind) }
    {
        match (self.mode, kind) {
            (Mode::Weak, _) => true,
            (Mode::Strict, CallKind::Push(_)) => len == self.capacity,
            (Mode::Strict, CallKind::Pop) => len == 0,
        }
    }

    // With `len` items, `front` the first of them, it may answer so.
    pub(crate) fn may_answer(
        self,
        len: usize,
        front: Option<u64>,
        kind: CallKind,
        answer: Answer,
    ) -> bool
        ensures { (items : List ℕ) → length items ≡ len → slice_get items 0 ≡ front → IsTrue result ↔ MayAnswer self items kind answer }
    {
        match (kind, answer) {
            (_, Answer::Refused) => self.may_refuse(len, kind),
            (CallKind::Push(_), Answer::Done) => len < self.capacity,
            (CallKind::Pop, Answer::Value(value)) => front == Some(value),
            _ => false,
        }
    }
}
