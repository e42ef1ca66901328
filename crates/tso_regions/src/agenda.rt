//! What a region's worker has before it.

use std::alloc::{AllocError, Global};
use tso_list::Seq;

/// The numbers of states that are to be worked, and for each other owner those of its states that were met here. Nothing rests on it.
#[derive(Drop)]
pub struct Agenda {
    /// Where the states are listed that were met last.
    pub met: Vec<u32>,
    todo: Vec<u32>,
    abroad: Vec<Vec<u32>>,
}

impl Agenda {
    /// Nothing, for so many owners.
    ///
    /// Errors: where a growth was refused.
    pub fn new(alloc: Global, count: u64) -> Result<Agenda, AllocError> {
        let mut abroad = Vec::new(alloc);
        for _ in 0..count {
            abroad.push(Vec::new(alloc))?;
        }
        Ok(Agenda {
            met: Vec::new(alloc),
            todo: Vec::new(alloc),
            abroad,
        })
    }

    /// The state that was met last at this place of their list, if there are so many.
    pub fn met_at(&self, at: usize) -> Option<u32> {
        self.met.as_slice().get(at).copied()
    }

    /// Whether no state is left to work.
    pub fn is_over(&self) -> bool {
        self.todo.is_empty()
    }

    /// The state that came last.
    pub fn next(&mut self) -> Option<u32> {
        self.todo.pop()
    }

    /// Has a state worked.
    ///
    /// Errors: where a growth was refused.
    pub fn put_off(&mut self, number: u32) -> Result<(), AllocError> {
        self.todo.push(number)?;
        Ok(())
    }

    /// Has a state go to its owner.
    ///
    /// Errors: where a growth was refused.
    pub fn send(&mut self, number: u32, owner: u64) -> Result<(), AllocError> {
        if let Some(list) = self.abroad.get_mut(owner as usize) {
            list.push(number)?;
        }
        Ok(())
    }

    /// The states that go to an owner.
    pub fn sent(&self, owner: u64) -> &[u32] {
        match self.abroad.get(owner as usize) {
            Some(list) => list.as_slice(),
            None => &[],
        }
    }

    /// All have gone.
    pub fn forget_sent(&mut self) {
        for list in self.abroad.iter_mut() {
            list.clear();
        }
    }
}
