//! What is found of clients.

ghost use Rattle.std.specs.Prelude.{◌≡◌, None};
ghost use Rattle.std.specs.Thread.{IsSync};

use crate::calls::Calls;
use crate::decided::Decided;
use crate::shown::Shown;
use std::sync::Wait;
use std::thread::Threads;
use tso_front::{Failure, Session};

/// What is found of a client.
#[derive(Drop)]
pub struct Finding {
    pub decided: Decided,
    /// The bytes of its certificate or trace, if they are to be written.
    pub bytes: Option<Vec<u8>>,
    /// What the records of its certificate show, if that is asked for.
    pub shown: Option<Shown>,
}

impl Finding {
    /// What is decided of a client, with no bytes and nothing counted.
    pub fn plain(decided: Decided) -> Finding
        ensures { result ≡ record { decided = decided; bytes = None; shown = None } }
    {
        Finding {
            decided,
            bytes: None,
            shown: None,
        }
    }
}

/// Who decides clients: by a search, or by what lies in a folder.
pub trait Finder {
    /// How many clients are decided before their lines are printed.
    fn width(&self) -> usize;

    /// What is found of each of these clients, in their order.
    fn find<R: Threads + Wait + Sync, S: Session>(
        &self,
        rt: &R,
        session: &mut S,
        calls: &[Calls],
        texts: &[Vec<u8>],
    ) -> Result<Vec<Finding>, Failure>
        requires { IsSync R.row };
}
