//! Parts as they were read last, each with its spelling.
ghost use Rattle.std.specs.Prelude.{◌≡◌, [], IfOk, IfSome, Some};
ghost use Rattle.tso_code.specs.Fields.{Gives, items_at, list_at};

use crate::known::Shelf;
use crate::places::{Places, mark_of_front};
use crate::record::End;
use crate::shared::{Part, Shared};
use std::alloc::{AllocError, Global};
use tso_code::{Code, ReadError, read_number};
use tso_hist::Call;
use tso_list::Seq;
use tso_state::Thread;

/// What may be told by the bytes that it was read from: it has one spelling.
pub trait Readable: Part + Code {
    ghost use Rattle.tso_code.proofs.Codes.{IsCode};

    ghost one_spelling: { IsCode Self.Fits Self.spell Self.read_at };
}

impl Readable for u64 {
    ghost use Rattle.tso_code.proofs.NumberCode.{word_code};

    ghost one_spelling = { word_code };
}

impl Readable for Thread {
    ghost use Rattle.tso_code.proofs.StateCodes.{thread_code};

    ghost one_spelling = { thread_code };
}

impl Readable for Call {
    ghost use Rattle.tso_code.proofs.StateCodes.{call_code};

    ghost one_spelling = { call_code };
}

impl Readable for End {
    ghost use Rattle.tso_rec.specs.EndCodes.{ending_code};
    ghost use Rattle.tso_rec.specs.declared.basis.Grain.TheVariants.{Steps};

    ghost one_spelling = { ending_code Steps };
}

impl<T: Readable> Readable for Seq<T> {
    ghost use Rattle.tso_code.proofs.Codes.{list_code};
    ghost use Rattle.tso_code.proofs.NumberCode.{word_code};

    ghost one_spelling = { list_code word_code T.one_spelling };
}

// A part that is read from its spelling.
#[derive(Drop)]
struct Told<T: Readable> {
    part: Shared<T>,
    ghost reads: { T.read_at (T.spell part) ≡ Some (part, []) },
}

impl<T: Readable> Told<T> {
    // The bytes behind the part's spelling, where they begin with it.
    fn behind<'a>(&self, bytes: &'a [u8]) -> Option<&'a [u8]>
        ensures { IfSome result (λ rest. T.read_at bytes.now ≡ Some (self.now.part, rest.now)) }
    {
        match bytes.strip_prefix(self.part.spelled()) {
            Some(rest) => Some(rest),
            None => None,
        }
    }

    // The same part.
    fn again(&self) -> Result<Told<T>, AllocError>
        ensures { IfOk result (λ told. told.part ≡ self.now.part) }
    {
        let part = self.part.again()?;
        Ok(Told { part })
    }
}

/// Parts of one kind that were read before, so that one which comes again is told by its bytes, and is not read: those that
/// stood in the record that was read last, others at the place of how the bytes began that they were read from, and a shelf of
/// those that were read.
#[derive(Drop)]
pub struct Reader<T: Readable> {
    shelf: Shelf<T>,
    begun: Places<Told<T>>,
    told: Vec<Told<T>>,
}

impl<T: Readable> Reader<T> {
    /// A reader that has read nothing.
    pub fn new(alloc: Global) -> Reader<T> {
        Reader {
            shelf: Shelf::new(alloc),
            begun: Places::new(alloc),
            told: Vec::new(alloc),
        }
    }

    // The part that was read last with this number in its record, if the bytes begin with its spelling, and the bytes after it.
    fn read_again<'a>(
        &self,
        index: usize,
        bytes: &'a [u8],
    ) -> Result<Option<(Shared<T>, &'a [u8])>, AllocError>
        ensures { IfOk result (λ found. IfSome found (λ x. T.read_at bytes.now ≡ Some (x.0, x.1.now))) }
    {
        if index >= self.told.len() {
            return Ok(None);
        }
        let told = &self.told[index];
        match told.behind(bytes) {
            Some(rest) => {
                let part = told.part.again()?;
                Ok(Some((part, rest)))
            }
            None => Ok(None),
        }
    }

    // Notes a part as the one that was read last with this number in its record.
    fn note(&mut self, index: usize, told: Told<T>) -> Result<(), AllocError> {
        if index < self.told.len() {
            self.told[index] = told;
        } else {
            self.told.push(told)?;
        }
        Ok(())
    }

    // A part that was read from bytes which began as these, if these begin with its spelling, and the bytes after it. It is noted.
    fn read_begun<'a>(
        &mut self,
        index: usize,
        bytes: &'a [u8],
    ) -> Result<Option<(Shared<T>, &'a [u8])>, AllocError>
        ensures { IfOk result (λ found. IfSome found (λ x. T.read_at bytes.now ≡ Some (x.0, x.1.now))) }
    {
        let Some(told) = self.begun.at(mark_of_front(bytes)) else {
            return Ok(None);
        };
        let Some(rest) = told.behind(bytes) else {
            return Ok(None);
        };
        let told = told.again()?;
        let part = told.part.again()?;
        self.note(index, told)?;
        Ok(Some((part, rest)))
    }

    // The part at the front of the bytes, which is noted, and the bytes after it.
    fn read_anew<'a>(
        &mut self,
        alloc: Global,
        index: usize,
        bytes: &'a [u8],
    ) -> Result<(Shared<T>, &'a [u8]), ReadError>
        ensures { Gives (λ x. (x.0, x.1.now)) result (T.read_at bytes.now) }
    {
        let (part, rest) = self.shelf.read(alloc, bytes)?;
        let again = part.again()?;
        let told = Told { part: again };
        let same = told.again()?;
        self.begun.put(alloc, mark_of_front(bytes), same)?;
        self.note(index, told)?;
        Ok((part, rest))
    }

    /// The part at the front of the bytes, which has this number in its record, and the bytes after it.
    pub fn read<'a>(
        &mut self,
        alloc: Global,
        index: usize,
        bytes: &'a [u8],
    ) -> Result<(Shared<T>, &'a [u8]), ReadError>
        ensures { Gives (λ x. (x.0, x.1.now)) result (T.read_at bytes.now) }
    {
        if let Some(read) = self.read_again(index, bytes)? {
            return Ok(read);
        }
        match self.read_begun(index, bytes)? {
            Some(read) => Ok(read),
            None => self.read_anew(alloc, index, bytes),
        }
    }

    // So many parts, one after the other.
    fn read_parts<'a>(
        &mut self,
        alloc: Global,
        count: u64,
        bytes: &'a [u8],
    ) -> Result<(Seq<Shared<T>>, &'a [u8]), ReadError>
        ensures { Gives (λ x. (x.0, x.1.now)) result (items_at T.read_at count bytes.now) }
    {
        let mut parts = Seq::new(alloc);
        let mut rest = bytes;
        for _ in 0..count {
            let (part, after) = self.read(alloc, parts.len(), rest)?;
            parts.push(part)?;
            rest = after;
        }
        Ok((parts, rest))
    }

    /// The list of parts at the front of the bytes, and the bytes after it.
    #[tactic(auto, unfolding(tso_code::specs::Fields::list_at))]
    pub fn read_list<'a>(
        &mut self,
        alloc: Global,
        bytes: &'a [u8],
    ) -> Result<(Seq<Shared<T>>, &'a [u8]), ReadError>
        ensures { Gives (λ x. (x.0, x.1.now)) result (list_at T.read_at bytes.now) }
    {
        let Some((count, rest)) = read_number(bytes) else {
            return Err(ReadError::Malformed);
        };
        self.read_parts(alloc, count, rest)
    }
}
