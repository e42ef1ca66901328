//! Whose a state is.

ghost use Rattle.std.specs.Prelude.{◌≡◌, ◌<◌, IfOk, map};
ghost use Rattle.tso_regions.specs.Owners.{owner_of, residue_of, with_call, with_calls, with_word, word_of_kind};

use std::alloc::{AllocError, Global};
use tso_hist::{Call, History};
use tso_list::Seq;
use tso_prog::CallKind;

/// One of so many owners.
#[derive(Clone, Copy, PartialEq, Eq)]
pub struct Owner {
    pub number: u64,
    pub count: u64,
}

// A residue with another word.
fn with_word(residue: u64, word: u64) -> u64
    ensures { result ≡ with_word residue word }
{
    (residue % 4_294_967_296 * 4099 + word % 16_777_216 + 1) % 4_294_967_296
}

fn word_of_kind(kind: CallKind) -> u64
    ensures { result ≡ word_of_kind kind }
{
    match kind {
        CallKind::Push(word) => word,
        CallKind::Pop => 1,
    }
}

// With what a call is, and with what it has seen. What it answers is left out, so that a return goes on in the same region.
fn with_call(residue: u64, call: &Call) -> u64
    ensures { result ≡ with_call residue call.now }
{
    let begun = with_word(residue, word_of_kind(call.kind));
    call.seen
        .as_slice()
        .iter()
        .fold(begun, |residue, count| with_word(residue, *count as u64))
}

fn with_calls(residue: u64, calls: &Seq<Call>) -> u64
    ensures { result ≡ with_calls residue calls.now }
{
    calls
        .as_slice()
        .iter()
        .fold(residue % 4_294_967_296 * 13, with_call)
}

fn residue_of(history: &History) -> u64
    ensures { result ≡ residue_of history.now }
{
    history.threads().iter().fold(0, with_calls)
}

/// The owner, of so many, of a state with this history: states that only differ in memory, in threads and in what calls have answered
/// have the same one. It takes no memory.
pub fn owner_of(history: &History, count: u64) -> u64
    requires { 0 < count }
    ensures owner { result ≡ owner_of count history.now }
    ensures below { result < count }
{
    residue_of(history) % 1_000_003 % count
}

/// The owners, of so many, of states with these histories.
///
/// Errors: where a growth was refused.
pub fn owners_of(alloc: Global, histories: &[History], count: u64) -> Result<Vec<u64>, AllocError>
    requires { 0 < count }
    ensures { IfOk result (λ owners. owners.items ≡ map (owner_of count) histories.now) }
{
    histories
        .iter()
        .map(|history| owner_of(history, count))
        .collect(alloc)
}
