//! Where the states after steps were found.

ghost use Rattle.std.specs.Prelude.{◌≡◌, slice_set};
ghost use Rattle.tso_check.specs.Trails.{followed, next_of};

use tso_state::Actor;

/// For each actor the number behind that of the state which was found last after a step of it. As states rise, so do mostly those after
/// the steps of one actor: there the next one is looked for first. Nothing rests on it.
#[derive(Drop)]
pub struct Trail {
    cores: [u32; 5],
    buffers: [u32; 5],
}

impl Trail {
    /// Where nothing was found yet.
    pub fn new() -> Self
        ensures { (actor : Actor) → next_of result actor ≡ 0 }
    {
        Trail {
            cores: [0; 5],
            buffers: [0; 5],
        }
    }

    /// Where the state after the actor's next step is looked for first.
    pub fn near(&self, actor: Actor) -> u32
        ensures { result ≡ next_of self.now actor }
    {
        match actor {
            Actor::Exec(thread) => self.cores.get(thread).copied().unwrap_or(0),
            Actor::Drain(thread) => self.buffers.get(thread).copied().unwrap_or(0),
        }
    }

    /// Notes that the state after a step of the actor has this number.
    pub fn note(&mut self, actor: Actor, number: u32)
        ensures { self.new ≡ followed self.old actor number }
    {
        let next = number.saturating_add(1);
        match actor {
            Actor::Exec(thread) => put(&mut self.cores, thread, next),
            Actor::Drain(thread) => put(&mut self.buffers, thread, next),
        }
    }
}

// Puts a number at a place of a row, if it has that place.
fn put(row: &mut [u32; 5], place: usize, number: u32)
    ensures { row.new ≡ slice_set row.old place number }
{
    if place < row.len() {
        row[place] = number;
    }
}
