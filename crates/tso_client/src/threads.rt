//! The threads of a client's program.

ghost use Rattle.tso_client.specs.Threads.{NoPrologueIsEmpty, PrologueIsLast, ThreadsAreCounted, ThreadsHaveTheirCalls};

use tso_prog::Client;

/// Each thread has the calls of its list. Where the client has a prologue, that is one more thread, the last, and has the
/// prologue's calls.
pub fn prologue_is_last(client: &Client)
    ensures last { PrologueIsLast client.now }
    ensures none { NoPrologueIsEmpty client.now }
    ensures others { ThreadsHaveTheirCalls client.now }
    ensures count { ThreadsAreCounted client.now }
{}
