//! Records of kept states, which take their parts by number.
ghost use Rattle.std.specs.Prelude.{◌≡◌, IfOk, option_map, slice_get};
ghost use Rattle.tso_prog.specs.declared.client.Client.{Client as ClientValue};
ghost use Rattle.tso_rec.specs.Keeping.{record_of};
ghost use Rattle.tso_rec.specs.declared.record.Record.{Record as StateWithEnd};
ghost use Rattle.tso_state.specs.declared.state.State.{State as StateValue};
ghost use Rattle.tso_keys.specs.Keys.{AreKept, states_at};
ghost use Rattle.tso_keys.specs.Numbers.{values_at};

use std::alloc::{AllocError, Global};
use std::marker::Model;
use tso_hist::{Call, History};
use tso_keys::{Key, Parts};
use tso_line::CallKind;
use tso_list::Seq;
use tso_parts::Pool;
use tso_prog::Answer;
use tso_rec::{End, Kept, Part, Shared, Shelf, keep_all};
use tso_state::Thread;
use tso_store::Store;

/// The parts of kept states, each once, beside its spelling. A record takes its parts from here by their numbers, so that none
/// is copied, hashed or compared for it. Contracts see the states.
#[derive(Drop)]
pub struct Recorder<'a> {
    keys: &'a Pool<Key>,
    memories: Seq<Shared<Seq<u64>>>,
    histories: Seq<Seq<Shared<Seq<Call>>>>,
    threads: Seq<Shared<Thread>>,
}

impl<'a> Model for Recorder<'a> {
    ghost use Rattle.std.specs.Prelude.{List};
    ghost use Rattle.tso_state.specs.declared.state.State.{State as StateValue};
    ghost use Rattle.tso_keys.specs.Keys.{AreSomeones, states_at};

    ghost Value = { List StateValue };

    ghost view = { λ r. states_at (record { memories = r.memories; histories = r.histories; threads = r.threads }) r.keys.now };

    ghost invariant = { λ r. AreSomeones (record { memories = r.memories; histories = r.histories; threads = r.threads }) r.keys.now };
}

// A number that a call goes on with behind others, the same for the same call.
fn mark_of_call(mark: u64, call: &Call) -> u64 {
    let answer = match call.answer {
        None => 0,
        Some(Answer::Refused) => 1,
        Some(Answer::Done) => 2,
        Some(Answer::Value(word)) => word.wrapping_add(3),
    };
    let asked = match call.kind {
        CallKind::Pop => answer,
        CallKind::Push(word) => word.wrapping_mul(7).wrapping_add(answer),
    };
    let mark = mark.wrapping_mul(31).wrapping_add(asked);
    call.seen.as_slice().iter().fold(mark, |mark, count| {
        mark.wrapping_mul(31).wrapping_add(*count as u64)
    })
}

// A number that the same lists of calls have in common.
fn mark_of(list: &Seq<Call>) -> u64 {
    list.as_slice().iter().fold(0, mark_of_call)
}

// The lists of calls of a history, each shared with the same list of another.
fn share_lists(
    alloc: Global,
    shelf: &mut Shelf<Seq<Call>>,
    lists: &[Seq<Call>],
) -> Result<Seq<Shared<Seq<Call>>>, AllocError>
    ensures { IfOk result (λ shared. shared ≡ lists.now) }
{
    let mut shared = Seq::new(alloc);
    for list in lists {
        let kept = shelf.keep(alloc, mark_of(list), list)?;
        shared.push(kept)?;
    }
    Ok(shared)
}

// The lists of calls of all histories.
fn share_histories(
    alloc: Global,
    histories: &[History],
) -> Result<Seq<Seq<Shared<Seq<Call>>>>, AllocError>
    ensures { IfOk result (λ shared. shared ≡ histories.now) }
{
    let mut shelf = Shelf::new(alloc);
    let mut shared = Seq::new(alloc);
    for history in histories {
        let lists = share_lists(alloc, &mut shelf, history.threads())?;
        shared.push(lists)?;
    }
    Ok(shared)
}

// The same parts, held once more.
fn again_all<T: Part>(alloc: Global, parts: &[Shared<T>]) -> Result<Seq<Shared<T>>, AllocError>
    ensures { IfOk result (λ all. all ≡ parts.now) }
{
    let mut all = Seq::from_vec(Vec::with_capacity(alloc, parts.len())?);
    for part in parts {
        let again = part.again()?;
        all.push(again)?;
    }
    Ok(all)
}

// The parts with these numbers, up to the first that is the number of nothing, in a block for so many.
fn at_numbers<T: Part>(
    alloc: Global,
    parts: &Seq<Shared<T>>,
    numbers: &[u32],
    count: usize,
) -> Result<Seq<Shared<T>>, AllocError>
    ensures { IfOk result (λ all. all ≡ values_at parts.now numbers.now) }
{
    let mut all = Seq::from_vec(Vec::with_capacity(alloc, count)?);
    for number in numbers {
        match parts.get(*number as usize) {
            Some(part) => all.push(part.again()?)?,
            None => return Ok(all),
        }
    }
    Ok(all)
}

// The record of a key with these of its parts.
fn with_parts(
    alloc: Global,
    threads: &Seq<Shared<Thread>>,
    key: &Key,
    memory: &Shared<Seq<u64>>,
    history: &[Shared<Seq<Call>>],
    end: Shared<End>,
) -> Result<Kept, AllocError>
    ensures { IfOk result (λ k. record_of k ≡ record { state = record { memory = memory.now; threads = values_at threads.now key.now.threads; history = history.now }; end = end }) }
{
    let memory = memory.again()?;
    let history = again_all(alloc, history)?;
    let threads = at_numbers(alloc, threads, key.threads.as_slice(), history.len())?;
    Ok(Kept {
        memory,
        threads,
        history,
        end,
    })
}

impl<'a> Recorder<'a> {
    /// Of the states of a store.
    ///
    /// Errors: where a growth was refused.
    pub fn new(alloc: Global, store: &'a Store<'_>) -> Result<Self, AllocError>
        ensures { IfOk result (λ r. r ≡ store.now.states) }
    {
        let (parts, keys) = store.keyed_parts();
        Recorder::of_parts(alloc, parts, keys)
    }

    // Of the states of these keys.
    fn of_parts(alloc: Global, parts: &Parts, keys: &'a Pool<Key>) -> Result<Self, AllocError>
        requires kept { (c : ClientValue) × AreKept c parts.now keys.now }
        ensures { IfOk result (λ r. r ≡ states_at parts.now keys.now) }
    {
        let memories = keep_all(alloc, &[], parts.memories.values())?;
        let histories = share_histories(alloc, parts.histories.values())?;
        let threads = keep_all(alloc, &[], parts.threads.values())?;
        Ok(Recorder {
            keys,
            memories,
            histories,
            threads,
        })
    }

    /// The record of state `number` with this end, if there are so many states.
    ///
    /// Errors: where there is such a state and a growth was refused.
    pub fn record(
        &self,
        alloc: Global,
        number: u32,
        end: Shared<End>,
    ) -> Result<Option<Kept>, AllocError>
        ensures { IfOk result (λ found. option_map record_of found ≡ option_map (λ (s : StateValue). record { state = s; end = end }) (slice_get self.now number)) }
    {
        let Some(key) = self.keys.get(number) else {
            return Ok(None);
        };
        match self.memories.get(key.memory as usize) {
            Some(memory) => match self.histories.get(key.history as usize) {
                Some(history) => {
                    let kept = with_parts(
                        alloc,
                        &self.threads,
                        key,
                        memory,
                        history.as_slice(),
                        end,
                    )?;
                    Ok(Some(kept))
                }
                None => unreachable!(),
            },
            None => unreachable!(),
        }
    }
}
