//! How far the last call of a thread has come.

use tso_flow::ProcedureKind;

/// How far the last call of a thread has come: all of the call that a well-formed state asks of the thread.
#[derive(Clone, Copy)]
pub enum Stage {
    /// It is answered as one of its kind may be, or the thread has begun none.
    Over,
    /// It is not answered, and runs this procedure.
    Pending(ProcedureKind),
    /// It is answered as none of its kind is.
    Misanswered,
}
