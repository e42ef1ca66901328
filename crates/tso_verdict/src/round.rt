//! Indexes that go round.

ghost use Rattle.std.specs.Prelude.{◌≡◌, count_by};
ghost use Rattle.tso_verdict.specs.Calls.{is_done};

use crate::call::is_done;
use std::alloc::{AllocError, Global};
use tso_hist::Call;
use tso_line::{Address, Instruction, LockedOperation, Register};
use tso_list::Seq;
use tso_machine::{Frame, place_at};
use tso_prog::Client;

// The array whose first cell this is, if it has more than one, and a register says which.
fn first_of(client: &Client, frame: &Frame, address: Address<usize>) -> Option<usize> {
    let index = frame
        .register(address.index?)
        .checked_add_signed(address.offset)?;
    let array = client.arrays.get(address.array)?;
    if index == 0 && array.words.len() > 1 {
        Some(address.array)
    } else {
        None
    }
}

// Whether a locked instruction writes the first cell of an array, as memory stands.
fn comes_through(
    client: &Client,
    memory: &[u64],
    frame: &Frame,
    operation: LockedOperation,
    array: usize,
) -> bool {
    let LockedOperation::CompareExchange = operation else {
        return true;
    };
    match place_at(client.arrays.as_slice(), array, 0) {
        Some(place) => memory.get(place).copied() == Some(frame.register(Register::Rax)),
        None => false,
    }
}

/// The array of several cells whose first one the next instruction of a push writes, as memory stands, where a register says which
/// cell it is.
pub fn first_written(client: &Client, memory: &[u64], frame: &Frame) -> Option<usize> {
    match client.push.instructions.get(frame.pc).copied()? {
        Instruction::Store { to, .. } => first_of(client, frame, to),
        Instruction::Locked {
            operation,
            cell,
            ..
        } => {
            let array = first_of(client, frame, cell)?;
            if comes_through(client, memory, frame, operation, array) {
                Some(array)
            } else {
                None
            }
        }
        _ => None,
    }
}

// How many of a thread's calls are pushes that are done.
fn count_done(calls: &[Call]) -> usize
    ensures { result ≡ count_by is_done calls.now }
{
    calls.iter().filter(|call| is_done(call)).count()
}

// How many calls of all threads are.
fn count_all_done(history: &[Seq<Call>]) -> usize {
    let mut count: usize = 0;
    for calls in history {
        count = count.saturating_add(count_done(calls.as_slice()));
    }
    count
}

/// Whether as many pushes are done as an array has cells.
pub fn is_filled(client: &Client, history: &[Seq<Call>], array: usize) -> bool {
    match client.arrays.get(array) {
        Some(array) => count_all_done(history) >= array.words.len(),
        None => false,
    }
}

/// Of each array, whether an index went round in it.
#[derive(Drop)]
pub struct Rounds {
    pub arrays: Seq<bool>,
}

impl Rounds {
    /// Of so many arrays, in none of which one did.
    ///
    /// Errors: where a growth was refused.
    pub fn new(alloc: Global, count: usize) -> Result<Rounds, AllocError> {
        let mut arrays = Seq::new(alloc);
        for _ in 0..count {
            arrays.push(false)?;
        }
        Ok(Rounds { arrays })
    }

    /// Notes that an index went round in an array.
    pub fn note(&mut self, array: usize) {
        if array < self.arrays.len() {
            *self.arrays.at_mut(array) = true;
        }
    }
}
