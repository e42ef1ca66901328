//! Trace texts, and how long they may be.

ghost use Rattle.std.specs.Prelude.{◌≡◌, ◌+◌, ◌<◌, ◌≤◌, length, take, IfErr, IfOk, OnOk};
ghost use Rattle.tso_trace.specs.Grammar.{IsTextOf};
ghost use Rattle.tso_trace.specs.Runs.{IsErrorTrace};
ghost use Rattle.tso_replay.specs.Lengths.{line_at, IsFaultWithin, IsLengthFault};

use std::alloc::Global;
use tso_flow::Checked;
use tso_prog::Client;
use tso_trace::{Trace, TraceFault, bad_line};

// The number of the line, from 1, in which the byte at a position stands.
fn line_at(text: &[u8], position: usize) -> usize
    requires { position < length text.now }
    ensures { result ≡ line_at text.now position }
{
    1 + text[..position].iter().filter(|b| **b == b'\n').count()
}

// Why a text that is too long is refused.
fn length_fault(client: &Client, text: &[u8], limit: usize) -> TraceFault
    requires { limit < length text.now }
    ensures { IsLengthFault client.now text.now limit result }
{
    match bad_line(client, text) {
        Some(line) => TraceFault::Grammar { line },
        None => TraceFault::Grammar {
            line: line_at(text, limit),
        },
    }
}

/// The trace of a text that has at most so many bytes.
///
/// Errors: as those of `Trace::read`; of a text that is longer `Grammar`, at its earliest line that is not of the grammar, or
/// where all are, at the line that passes the limit.
pub fn trace_within(
    alloc: Global,
    checked: &Checked,
    text: &[u8],
    limit: usize,
) -> Result<Trace, TraceFault>
    ensures short { OnOk result (length text.now ≤ limit) }
    ensures client { IfOk result (λ t. t.checked.client ≡ checked.now.client) }
    ensures labels { IfOk result (λ t. IsTextOf checked.now.client.arrays text.now t.labels) }
    ensures refused { IfErr result (IsFaultWithin checked.now.client text.now limit) }
{
    if text.len() > limit {
        return Err(length_fault(&checked.client, text, limit));
    }
    Trace::read(alloc, checked, text)
}
