//! What one thread writes while others help.

ghost use Rattle.std.specs.Prelude.{OnErr, OnOk};
ghost use Rattle.std.specs.Thread.{IsSync};

use std::io::Write;
use std::thread::{Threads, join_mut};
use tso_cert::WriteError;

/// What one thread writes.
pub trait Putting {
    ghost use Rattle.std.specs.Prelude.{List, ℕ, Option};

    // What has to hold before.
    ghost can_put: { Self → Type 0 };

    // What becomes of known bytes.
    ghost is_put: { Self → Option (List ℕ) → Option (List ℕ) → Type 0 };

    // What becomes of them where it fails.
    ghost is_put_in_part: { Self → Option (List ℕ) → Option (List ℕ) → Type 0 };

    /// Writes it.
    ///
    /// Errors: where a write fails, or a growth was refused.
    fn put<W: Write>(&self, out: &mut W) -> Result<(), WriteError>
        requires { can_put self.now }
        ensures ok { OnOk result (is_put self.now (W.contents out.old) (W.contents out.new)) }
        ensures err { OnErr result (is_put_in_part self.now (W.contents out.old) (W.contents out.new)) };

    /// Helps the thread that writes, for as long as there is something to do.
    fn help(&self);
}

/// Has this thread write while so many others help. It starts all of them itself: of those that two threads start at one time two may go
/// to one processor, and wait for each other there.
///
/// Errors: where a write fails, or a growth was refused.
pub fn put_helped<R: Threads + Sync, P: Putting + Sync, W: Write>(
    rt: &R,
    putting: &P,
    helpers: u64,
    out: &mut W,
) -> Result<(), WriteError>
    requires { P.can_put putting.now }
    ensures ok { OnOk result (P.is_put putting.now (W.contents out.old) (W.contents out.new)) }
    ensures err { OnErr result (P.is_put_in_part putting.now (W.contents out.old) (W.contents out.new)) }
{
    if helpers == 0 {
        putting.put(out)?;
        return Ok(());
    }
    let fewer = helpers - 1;
    let (_, put) = join_mut(
        rt,
        &mut || putting.help(),
        &mut || -> Result<(), WriteError>
            requires { IsSync R.row × IsSync P.row × P.can_put putting.now }
            ensures { OnOk result (P.is_put putting.entry.now (W.contents out.entry.now) (W.contents out.exit.now)) × OnErr result (P.is_put_in_part putting.entry.now (W.contents out.entry.now) (W.contents out.exit.now)) }
        { put_helped(rt, putting, fewer, out) },
    );
    put
}
