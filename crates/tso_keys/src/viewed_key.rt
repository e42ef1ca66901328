//! Keys of states that are kept, maybe in another store.
ghost use Rattle.std.specs.Prelude.{◌≡◌, ◌↔◌, ◌+◌, ◌<◌, ◌≤◌, ◌^◌, length, Err, IsTrue, IfOk, IfSome, OnErr, MatchOption};
ghost use Rattle.tso_parts.specs.Numbers.{Extends};
ghost use Rattle.tso_parts.specs.declared.refused.Refused.TheVariants as reasons;
ghost use Rattle.tso_keys.specs.Keys.{FitsClient, Grows, HasNoKey, IsKeyOf, part_count};
ghost use Rattle.tso_keys.specs.Numbers.{AreNumbersOf, HasNoRow};

use crate::kept::{add_near, find_near, number_at};
use crate::key::{Key, NONE};
use crate::parts::Parts;
use crate::view::View;
use tso_machine::thread_count;
use tso_parts::{Catalog, Refused};
use tso_prog::Client;
use tso_state::{Thread, Viewed};

/// Whether the kept state has the client's threads, and a list of calls for each.
pub fn view_fits_client(client: &Client, view: &View<'_>) -> bool
    ensures fits { IsTrue result ↔ FitsClient client.now view.now }
    ensures few { IsTrue result → length view.now.threads ≤ 5 }
{
    let count = thread_count(client);
    view.thread_count() == count && view.history_count() == count
}

// The numbers of the threads of a kept state, which are kept here where they are new; each is looked for at its place among
// `near` first.
fn add_viewed(
    threads: &mut Catalog<Thread>,
    near: &[u32; 5],
    view: &View<'_>,
) -> Result<[u32; 5], Refused>
    requires { length view.now.threads ≤ 5 }
    ensures numbers { IfOk result (λ ns. AreNumbersOf threads.new ns view.now.threads) }
    ensures extends { Extends threads.old threads.new }
    ensures small { length threads.old < 2 ^ 32 → length threads.new < 2 ^ 32 }
    ensures wide { IfOk result (λ ns. length ns ≡ 5) }
    ensures more { length threads.new ≤ length threads.old + 5 }
    ensures full { result ≡ Err reasons.Full → 4294967295 ≤ length threads.new }
    ensures absent { OnErr result (HasNoRow threads.old view.now.threads) }
{
    let mut numbers = [NONE; 5];
    for i in 0..view.thread_count() {
        let Some(thread) = view.thread(i) else {
            unreachable!();
        };
        let number = add_near(threads, number_at(near, i), thread)?;
        numbers[i] = number;
    }
    Ok(numbers)
}

/// The key of a kept state, whose parts are kept here where they are new; each is looked for where `near` has it first.
pub fn key_of_view(parts: &mut Parts, near: &Key, view: &View<'_>) -> Result<Key, Refused>
    requires { length view.now.threads ≤ 5 }
    ensures key { IfOk result (λ k. IsKeyOf parts.new k view.now) }
    ensures grows { Grows parts.old parts.new }
    ensures more { part_count parts.new ≤ part_count parts.old + 7 }
    ensures full { result ≡ Err reasons.Full → 4294967295 ≤ part_count parts.new }
    ensures absent { OnErr result (HasNoKey parts.old view.now) }
{
    let memory = add_near(&mut parts.memories, near.memory, view.words())?;
    let history = add_near(&mut parts.histories, near.history, view.history())?;
    let threads = add_viewed(&mut parts.threads, &near.threads, view)?;
    Ok(Key {
        memory,
        history,
        threads,
    })
}

// The numbers of the threads of a kept state, if each is kept here; each is looked for at its place among `near` first.
fn find_viewed(threads: &Catalog<Thread>, near: &[u32; 5], view: &View<'_>) -> Option<[u32; 5]>
    requires { length view.now.threads ≤ 5 }
    ensures found { IfSome result (λ ns. AreNumbersOf threads.now ns view.now.threads) }
    ensures wide { IfSome result (λ ns. length ns ≡ 5) }
    ensures none { MatchOption result (HasNoRow threads.now view.now.threads) (λ ns. Unit {0}) }
{
    let mut numbers = [NONE; 5];
    for i in 0..view.thread_count() {
        let Some(thread) = view.thread(i) else {
            unreachable!();
        };
        let Some(number) = find_near(threads, number_at(near, i), thread) else {
            return None;
        };
        numbers[i] = number;
    }
    Some(numbers)
}

/// The key of a kept state, if each of its parts is kept here; each is looked for where `near` has it first.
pub fn find_view_key(parts: &Parts, near: &Key, view: &View<'_>) -> Option<Key>
    requires { length view.now.threads ≤ 5 }
    ensures { MatchOption result (HasNoKey parts.now view.now) (λ k. IsKeyOf parts.now k view.now) }
{
    let memory = find_near(&parts.memories, near.memory, view.words())?;
    let history = find_near(&parts.histories, near.history, view.history())?;
    let threads = find_viewed(&parts.threads, &near.threads, view)?;
    Some(Key {
        memory,
        history,
        threads,
    })
}
