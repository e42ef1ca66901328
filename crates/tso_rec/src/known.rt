//! Parts that were read before.
ghost use Rattle.std.specs.Prelude.{◌≡◌, [], Err, IfOk, IfSome};
ghost use Rattle.tso_code.specs.Fields.{Gives};

use crate::places::{Places, mark_of};
use crate::record::End;
use crate::shared::{Part, Shared, copy_of};
use crate::told::Reader;
use std::alloc::{AllocError, Global};
use tso_code::ReadError;
use tso_hist::Call;
use tso_list::Seq;
use tso_state::Thread;

/// Parts of one kind that were read before, at most one at each place. A part that comes to a place drives out the one before,
/// so that a look-up takes as long whatever was read, and what lies here changes no answer.
#[derive(Drop)]
pub struct Shelf<T: Part> {
    places: Places<Shared<T>>,
}

impl<T: Part> Shelf<T> {
    /// A shelf without places. Places come with parts.
    pub fn new(alloc: Global) -> Shelf<T> {
        Shelf {
            places: Places::new(alloc),
        }
    }

    // The part, if it lies here.
    fn find(&self, mark: u64, part: &T) -> Option<&Shared<T>>
        ensures { IfSome result (λ s. s.now ≡ part.now) }
    {
        let shared = self.places.at(mark)?;
        if shared.get() == part {
            Some(shared)
        } else {
            None
        }
    }

    /// The part, shared with an equal one that lies at the place of its mark; else it lies there from now on. Parts that are
    /// the same should have one mark, or are kept more than once: marks change no answer.
    pub fn share(&mut self, alloc: Global, mark: u64, part: T) -> Result<Shared<T>, AllocError>
        ensures { IfOk result (λ s. s ≡ part) }
    {
        if let Some(shared) = self.find(mark, &part) {
            return shared.again();
        }
        let shared = Shared::new(alloc, part)?;
        let again = shared.again()?;
        self.places.put(alloc, mark, again)?;
        Ok(shared)
    }

    /// A part that is kept elsewhere, shared with an equal one that lies at the place of its mark; else it is copied, and the
    /// copy lies there from now on.
    pub fn keep(&mut self, alloc: Global, mark: u64, part: &T) -> Result<Shared<T>, AllocError>
        ensures { IfOk result (λ s. s ≡ part.now) }
    {
        if let Some(shared) = self.find(mark, part) {
            return shared.again();
        }
        let copy = copy_of(part)?;
        self.share(alloc, mark, copy)
    }

    /// The part at the front of the bytes, shared with an equal one that was read before, and the bytes after it.
    pub fn read<'a>(
        &mut self,
        alloc: Global,
        bytes: &'a [u8],
    ) -> Result<(Shared<T>, &'a [u8]), ReadError>
        ensures read { Gives (λ x. (x.0, x.1.now)) result (T.read_at bytes.now) }
        ensures empty { bytes.now ≡ [] → result ≡ Err ReadError.Malformed }
    {
        let (part, rest) = T::read(alloc, bytes)?;
        let length = bytes.len().saturating_sub(rest.len());
        let mark = mark_of(&bytes[..length]);
        let shared = self.share(alloc, mark, part)?;
        Ok((shared, rest))
    }
}

/// Parts of records that were read before. What they are changes no answer.
#[derive(Drop)]
pub struct Known {
    pub(crate) memories: Reader<Seq<u64>>,
    pub(crate) threads: Reader<Thread>,
    pub(crate) calls: Reader<Seq<Call>>,
    pub(crate) ends: Reader<End>,
}

impl Known {
    /// No parts.
    pub fn new(alloc: Global) -> Known {
        Known {
            memories: Reader::new(alloc),
            threads: Reader::new(alloc),
            calls: Reader::new(alloc),
            ends: Reader::new(alloc),
        }
    }
}
