//! States as the numbers of their parts.
ghost use Rattle.std.specs.Prelude.{◌≡◌, ◌≤◌, [], IfOk, IfSome};
ghost use Rattle.tso_scan.specs.Sources.{AreRows, IsKeyReadAs, parts_of};
ghost use Rattle.tso_state.specs.WellFormed.{thread_total};

use crate::histories::read_history;
use crate::rows::{Row, read_row};
use crate::scroll::Scroll;
use std::alloc::Global;
use tso_hist::{Call, History};
use tso_keys::{Key, Parts};
use tso_list::Seq;
use tso_machine::thread_count;
use tso_parts::{Catalog, Pool, Refused};
use tso_prog::Client;
use tso_state::Thread;

/// The parts of states, each once, and for each history the numbers of its lists.
#[derive(Drop)]
pub struct Sources {
    pub memories: Scroll<Seq<u64>>,
    pub threads: Scroll<Thread>,
    pub lists: Scroll<Seq<Call>>,
    pub histories: Catalog<History>,
    pub rows: Pool<Row>,
}

impl Sources {
    /// No parts. They are hashed by this seed.
    pub fn new(alloc: Global, seed: u64) -> Self
        ensures memories { result.memories ≡ [] }
        ensures threads { result.threads ≡ [] }
        ensures rows { result.rows ≡ [] }
    {
        Sources {
            memories: Scroll::new(alloc, seed),
            threads: Scroll::new(alloc, seed),
            lists: Scroll::new(alloc, seed),
            histories: Catalog::new(alloc, seed),
            rows: Pool::new(alloc, seed),
        }
    }

    /// The parts of states. It takes no memory.
    pub fn into_parts(self) -> Parts
        ensures { result ≡ parts_of self }
    {
        let Sources {
            memories,
            threads,
            lists: _lists,
            histories,
            rows: _rows,
        } = self;
        Parts {
            memories: memories.into_parts(),
            histories,
            threads: threads.into_parts(),
        }
    }
}

// So many threads a client has, where a key has room for them.
fn count_of(client: &Client) -> Option<usize>
    ensures few { IfSome result (λ n. n ≤ 5) }
    ensures count { IfSome result (λ n. n ≡ thread_total client.now) }
{
    let count = thread_count(client);
    if count <= 5 { Some(count) } else { None }
}

/// The key of the state at the front of the bytes, and the bytes after it; its parts are kept where they are new. `None` where
/// there is no state, or one that does not fit the client.
///
/// Errors: where a growth was refused, or there are as many parts as numbers.
pub fn read_key<'a>(
    sources: &mut Sources,
    client: &Client,
    alloc: Global,
    bytes: &'a [u8],
) -> Result<Option<(Key, &'a [u8])>, Refused>
    requires { AreRows sources.old.lists sources.old.histories sources.old.rows }
    ensures { IfOk result (λ o. IfSome o (λ x. IsKeyReadAs client.now sources.old sources.new bytes.now x.0 x.1.now)) }
{
    let Some(count) = count_of(client) else {
        return Ok(None);
    };
    let Some((memory, rest)) = sources.memories.read(alloc, 0, bytes)? else {
        return Ok(None);
    };
    let Some((threads, rest)) = read_row(&mut sources.threads, alloc, count, rest)? else {
        return Ok(None);
    };
    let Some((history, rest)) = read_history(
        &mut sources.lists,
        &mut sources.histories,
        &mut sources.rows,
        alloc,
        count,
        rest,
    )?
    else {
        return Ok(None);
    };
    sources.threads.is_numbered();
    let numbers = threads.numbers;
    let key = Key {
        memory,
        history,
        threads: numbers,
    };
    Ok(Some((key, rest)))
}
