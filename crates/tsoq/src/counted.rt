//! Writers of which it is known what they have taken.

ghost use Rattle.std.specs.Prelude.{◌≡◌, ◌++◌, ◌^◌, ◌-◌, [], Some, length, min};

use boxcar::tag::{Names, Tag};
use std::io;
use std::io::Write;

/// What a writer has taken: how many bytes, 2^64 - 1 where there are more, and which, for contracts alone and without a byte of
/// memory.
#[derive(Drop)]
pub struct Taken {
    bytes: u64,
    which: Tag,
    ghost counted: { bytes ≡ min (length which.numbers) (2 ^ 64 - 1) },
}

// What was taken, and some bytes behind it.
#[derive(Drop)]
struct Longer<'b> {
    before: &'b Tag,
    more: &'b [u8],
}

struct AndThen;

impl Names<Longer<'_>> for AndThen {
    ghost use Rattle.std.specs.Prelude.{◌++◌};

    ghost numbers = { λ longer. longer.before.now.numbers ++ longer.more.now };
}

impl Taken {
    // Nothing.
    fn nothing() -> Taken
        ensures { result.which.numbers ≡ [] }
    {
        Taken {
            bytes: 0,
            which: Tag::empty(),
        }
    }

    /// How many bytes, or 2^64 - 1 where there are more.
    pub fn bytes(&self) -> u64
        ensures { result ≡ min (length self.now.which.numbers) (2 ^ 64 - 1) }
    {
        self.bytes
    }

    // These bytes too, behind the others.
    fn take(&mut self, more: &[u8])
        ensures { self.new.which.numbers ≡ self.old.which.numbers ++ more.now }
    {
        let longer = Longer {
            before: &self.which,
            more,
        };
        let which = Tag::of::<Longer<'_>, AndThen>(&longer);
        *self = Taken {
            bytes: self.bytes.saturating_add(more.len() as u64),
            which,
        };
    }
}

/// A writer, and what it has taken since this was made. So what a file took is known, though nothing is known of files.
#[derive(Drop)]
pub struct Counted<W: Write> {
    out: W,
    taken: Taken,
}

impl<W: Write + Drop> Counted<W> {
    /// A writer that has taken nothing yet.
    pub fn new(out: W) -> Counted<W>
        ensures { result.taken.which.numbers ≡ [] }
    {
        Counted {
            out,
            taken: Taken::nothing(),
        }
    }

    /// What it has taken.
    pub fn taken(self) -> Taken
        ensures { result.which.numbers ≡ self.taken.which.numbers }
    {
        let Counted { out: _out, taken } = self;
        taken
    }
}

impl<W: Write> Write for Counted<W> {
    ghost contents = { λ w. Some w.taken.which.numbers };

    fn write(&mut self, buf: &[u8]) -> io::Result<usize> {
        match self.out.write(buf) {
            Ok(count) => {
                self.taken.take(&buf[..count]);
                Ok(count)
            }
            Err(error) => Err(error),
        }
    }

    fn flush(&mut self) -> io::Result<()> {
        self.out.flush()
    }
}
