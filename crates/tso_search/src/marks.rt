//! Marks of states that are worked out of their turn.

ghost use Rattle.std.specs.Prelude.{◌≡◌, ◌<◌, ℕ, [], OnErr, OnOk, length};
ghost use Rattle.tso_search.specs.Marking.{IsMarkedToo, is_marked};

use std::alloc::{AllocError, Global};
use std::marker::Model;

/// Marks of states by their numbers: of those that are worked out of their turn. Contracts see a truth value for each number, and
/// past their end no number is marked.
#[derive(Drop)]
pub struct Marks {
    marks: Vec<bool>,
}

impl Model for Marks {
    ghost use Rattle.std.specs.Prelude.{Bool, List};

    ghost Value = { List Bool };

    ghost view = { λ m. m.marks.items };
}

// Has room for a mark at this place; what is not marked stays so.
fn make_room(marks: &mut Vec<bool>, number: u32) -> Result<(), AllocError>
    ensures room { OnOk result (number < length marks.new.items) }
    ensures same { OnOk result ((n : ℕ) → is_marked marks.new.items n ≡ is_marked marks.old.items n) }
    ensures err { OnErr result (marks.new.items ≡ marks.old.items) }
{
    let at = number as usize;
    if at >= marks.len() {
        marks.resize(at + 1, false)?;
    }
    Ok(())
}

impl Marks {
    /// No state is marked.
    pub fn new(alloc: Global) -> Marks
        ensures { result ≡ [] }
    {
        Marks {
            marks: Vec::new(alloc),
        }
    }

    /// Whether the state with this number is marked.
    pub fn has(&self, number: u32) -> bool
        ensures { result ≡ is_marked self.now number }
    {
        self.marks
            .as_slice()
            .get(number as usize)
            .copied()
            .unwrap_or(false)
    }

    /// Marks the state with this number too.
    ///
    /// Errors: where a growth was refused. The marks stay.
    pub fn mark(&mut self, number: u32) -> Result<(), AllocError>
        ensures marked { OnOk result (IsMarkedToo self.old self.new number) }
        ensures err { OnErr result (self.new ≡ self.old) }
    {
        make_room(&mut self.marks, number)?;
        self.marks[number as usize] = true;
        Ok(())
    }
}
