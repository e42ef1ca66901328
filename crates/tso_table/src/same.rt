//! Whether two values are the same.

ghost use Rattle.std.specs.Prelude.{◌≡◌, ◌↔◌, IsTrue};

use tso_client::covers;
use tso_foot::Table;
use tso_line::CallKind;
use tso_list::{Seq, is_same};
use tso_prog::Client;

// Whether two clients have one mode, and their instructions stand on the same lines.
fn have_same_lines(a: &Client, b: &Client) -> bool
    ensures { IsTrue result ↔ ((a.now.mode ≡ b.now.mode) × (a.now.push.lines ≡ b.now.push.lines) × (a.now.pop.lines ≡ b.now.pop.lines)) }
{
    a.mode == b.mode && a.push.lines == b.push.lines && a.pop.lines == b.pop.lines
}

// Whether the threads make the same calls.
fn are_same_threads(a: &Seq<Seq<CallKind>>, b: &Seq<Seq<CallKind>>) -> bool
    ensures { IsTrue result ↔ (a.now ≡ b.now) }
{
    a == b
}

/// Whether two clients are the same, the lines of their instructions counted.
pub fn is_same_client(a: &Client, b: &Client) -> bool
    ensures { IsTrue result ↔ (a.now ≡ b.now) }
{
    if !have_same_lines(a, b) {
        return false;
    }
    if !are_same_threads(&a.threads, &b.threads) {
        return false;
    }
    // With these the same, one covers the other only where all else is the same.
    covers(b, a)
}

/// Whether two tables of footprints are the same.
pub fn are_same_footprints(a: &Table, b: &Table) -> bool
    ensures { IsTrue result ↔ (a.now ≡ b.now) }
{
    is_same(a, b)
}
