//! The text of a trace, read.

ghost use Rattle.std.specs.Prelude.{◌≡◌, ◌≢◌, ◌++◌, List, IfOk, IfErr, IsTrue, MatchOption};
ghost use Rattle.tso_machine.specs.declared.label.Label.{Label as TraceLabel};
ghost use Rattle.tso_trace.specs.Grammar.{ended, header, BeginsWithLine, HasHeader, HasLine, IsFirstBadLine, IsTextFault, IsTextOf};

use crate::fault::TraceFault;
use crate::parts::{behind, cut};
use crate::reading::label_of;
use std::alloc::Global;
use tso_machine::Label;
use tso_prog::Client;

/// The first line of each trace, with its newline.
pub const HEADER: &[u8] = b"tso-trace 1\n";

// What stands behind the first line of a trace.
fn behind_header(text: &[u8]) -> Option<&[u8]>
    ensures { MatchOption result (HasHeader text.now → ⊥) (λ rest. text.now ≡ ended header ++ rest.now) }
{
    behind(text, HEADER)
}

// The label of the first line, and what stands behind that line.
fn first_label<'a>(client: &Client, text: &'a [u8]) -> Option<(Label, &'a [u8])>
    ensures { MatchOption result (HasLine client.now.arrays text.now → ⊥) (λ r. BeginsWithLine client.now.arrays text.now r.0 r.1.now) }
{
    let (line, rest) = cut(text, b'\n')?;
    Some((label_of(client, line)?, rest))
}

/// The number of the earliest line that is not of the grammar, from 1, if there is one. It takes no memory.
pub fn bad_line(client: &Client, text: &[u8]) -> Option<usize>
    ensures { MatchOption result ((labels : List TraceLabel) × IsTextOf client.now.arrays text.now labels) (IsFirstBadLine client.now.arrays text.now) }
{
    let Some(mut rest) = behind_header(text) else {
        return Some(1);
    };
    let mut line = 2;
    while !rest.is_empty() {
        let Some((_label, after)) = first_label(client, rest) else {
            return Some(line);
        };
        rest = after;
        line += 1;
    }
    None
}

// Why the labels of a text, of which there is one at least, are not told where memory for them is wanting.
fn fault_without_memory(client: &Client, text: &[u8]) -> TraceFault
    requires { text.now ≢ ended header }
    ensures { IsTextFault client.now.arrays text.now result }
{
    match bad_line(client, text) {
        Some(line) => TraceFault::Grammar { line },
        None => TraceFault::Memory,
    }
}

/// The labels of a trace's text for this client.
///
/// Errors: `Grammar` at the earliest line that is not of the grammar; `Memory`, where all lines are of it.
pub fn labels_of(alloc: Global, client: &Client, text: &[u8]) -> Result<Vec<Label>, TraceFault>
    ensures ok { IfOk result (λ labels. IsTextOf client.now.arrays text.now labels.items) }
    ensures refused { IfErr result (IsTextFault client.now.arrays text.now) }
{
    let Some(mut rest) = behind_header(text) else {
        return Err(TraceFault::Grammar { line: 1 });
    };
    let mut labels = Vec::new(alloc);
    while !rest.is_empty() {
        let Some((label, after)) = first_label(client, rest) else {
            return Err(TraceFault::Grammar {
                line: labels.len() + 2,
            });
        };
        if labels.push(label).is_err() {
            return Err(fault_without_memory(client, text));
        }
        rest = after;
    }
    Ok(labels)
}
