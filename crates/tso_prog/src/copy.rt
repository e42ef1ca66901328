//! Copies of clients.

ghost use Rattle.std.specs.Prelude.{◌≡◌, IfOk};

use crate::client::{Array, Client, Procedure};
use std::alloc::{AllocError, Global};
use tso_line::CallKind;
use tso_list::Seq;

impl Array {
    fn copied(&self) -> Result<Array, AllocError>
        ensures { IfOk result (λ a. a ≡ self.now) }
    {
        let name = self.name.copied()?;
        let words = self.words.copied()?;
        Ok(Array { name, words })
    }
}

impl Procedure {
    fn copied(&self) -> Result<Procedure, AllocError>
        ensures { IfOk result (λ p. p ≡ self.now) }
    {
        let instructions = self.instructions.copied()?;
        let lines = self.lines.copied()?;
        Ok(Procedure {
            instructions,
            lines,
        })
    }
}

fn copied_arrays(alloc: Global, arrays: &[Array]) -> Result<Seq<Array>, AllocError>
    ensures { IfOk result (λ copy. copy ≡ arrays.now) }
{
    let mut copy = Vec::new(alloc);
    for array in arrays {
        copy.push(array.copied()?)?;
    }
    Ok(Seq::from_vec(copy))
}

fn copied_threads(
    alloc: Global,
    threads: &[Seq<CallKind>],
) -> Result<Seq<Seq<CallKind>>, AllocError>
    ensures { IfOk result (λ copy. copy ≡ threads.now) }
{
    let mut copy = Vec::new(alloc);
    for calls in threads {
        copy.push(calls.copied()?)?;
    }
    Ok(Seq::from_vec(copy))
}

impl Client {
    /// The same client once more.
    ///
    /// Errors: where a growth was refused.
    pub fn copied(&self, alloc: Global) -> Result<Client, AllocError>
        ensures { IfOk result (λ c. c ≡ self.now) }
    {
        let arrays = copied_arrays(alloc, self.arrays.as_slice())?;
        let push = self.push.copied()?;
        let pop = self.pop.copied()?;
        let prologue = self.prologue.copied()?;
        let threads = copied_threads(alloc, self.threads.as_slice())?;
        Ok(Client {
            capacity: self.capacity,
            mode: self.mode,
            arrays,
            push,
            pop,
            prologue,
            threads,
        })
    }
}
