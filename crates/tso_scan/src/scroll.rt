//! Parts by number, told by their spellings.
ghost use Rattle.std.specs.Prelude.{◌≡◌, ◌<◌, ◌^◌, [], IfOk, IfSome, Some, length, slice_get};
ghost use Rattle.std.specs.Option.{option_copied};
ghost use Rattle.tso_parts.specs.Numbers.{Extends, IsNumbered};
ghost use Rattle.tso_scan.specs.Scrolls.{IsReadAs};

use std::alloc::Global;
use std::hash::Hash;
use std::marker::Model;
use tso_code::{Code, ReadError};
use tso_list::Seq;
use tso_parts::{Catalog, Refused};
use tso_rec::{Places, Readable, mark_of_front};

// A record has at most so many parts of one kind, of which the last is remembered.
const WIDTH: usize = 5;

/// Parts of one kind that were read, each once, by number, and the spelling of each, so that one which comes again is told by
/// its bytes and is not read: it is looked for where it stood in the last record, then where one was whose bytes began alike.
/// Contracts see the parts.
#[derive(Drop)]
pub struct Scroll<T: Readable + Hash> {
    parts: Catalog<T>,
    spellings: Seq<Seq<u8>>,
    begun: Places<u32>,
    last: [u32; 5],
}

impl<T: Readable + Hash> Model for Scroll<T> {
    ghost use Rattle.std.specs.Prelude.{List};
    ghost use Rattle.tso_scan.specs.Scrolls.{AreSpelled};

    ghost Value = { List T };

    ghost view = { λ s. s.parts };

    ghost invariant = { λ s. AreSpelled T.read_at s.parts s.spellings };
}

impl<T: Readable + Hash> Scroll<T> {
    /// No parts. They are hashed by this seed.
    pub fn new(alloc: Global, seed: u64) -> Self
        ensures { result ≡ [] }
    {
        Scroll {
            parts: Catalog::new(alloc, seed),
            spellings: Seq::new(alloc),
            begun: Places::new(alloc),
            last: [0; 5],
        }
    }

    /// The part with this number.
    pub fn get(&self, number: u32) -> Option<&T>
        ensures { option_copied result ≡ slice_get self.now number }
    {
        self.parts.get(number)
    }

    /// The parts by number. It takes no memory.
    pub fn into_parts(self) -> Catalog<T>
        ensures { result ≡ self }
    {
        let Scroll {
            parts,
            spellings: _spellings,
            begun: _begun,
            last: _last,
        } = self;
        parts
    }

    /// Two parts with different numbers differ. This function does nothing when it runs.
    pub fn is_numbered(&self)
        ensures numbered { IsNumbered self.now }
        ensures small { length self.now < 2 ^ 32 }
    {
        self.parts.is_numbered();
    }

    // The bytes behind the spelling of part `number`, where they begin with it.
    fn behind<'a>(&self, number: u32, bytes: &'a [u8]) -> Option<&'a [u8]>
        ensures { IfSome result (λ rest. IsReadAs T.read_at self.now number bytes.now rest.now) }
    {
        let spelling = self.spellings.get(number as usize)?;
        match bytes.strip_prefix(spelling.as_slice()) {
            Some(rest) => Some(rest),
            None => None,
        }
    }

    // The number of the part that was read last at this place of a record, if the bytes begin with its spelling.
    fn read_last<'a>(&self, place: usize, bytes: &'a [u8]) -> Option<(u32, &'a [u8])>
        ensures { IfSome result (λ x. IsReadAs T.read_at self.now x.0 bytes.now x.1.now) }
    {
        let number = self.last.as_slice().get(place).copied()?;
        let rest = self.behind(number, bytes)?;
        Some((number, rest))
    }

    // The number of a part that was read from bytes which began as these, if these begin with its spelling.
    fn read_begun<'a>(&self, bytes: &'a [u8]) -> Option<(u32, &'a [u8])>
        ensures { IfSome result (λ x. IsReadAs T.read_at self.now x.0 bytes.now x.1.now) }
    {
        let number = *self.begun.at(mark_of_front(bytes))?;
        let rest = self.behind(number, bytes)?;
        Some((number, rest))
    }

    // Notes a part as the one that was read last at this place of a record.
    fn note(&mut self, place: usize, number: u32)
        ensures { self.new ≡ self.old }
    {
        if place < WIDTH {
            self.last[place] = number;
        }
    }

    // The number of a part, which is kept with its spelling if it is new.
    fn keep(&mut self, alloc: Global, part: T) -> Result<u32, Refused>
        requires { T.read_at (T.spell part) ≡ Some (part, []) }
        ensures number { IfOk result (λ n. slice_get self.new n ≡ Some part) }
        ensures extends { IfOk result (λ n. Extends self.old self.new) }
    {
        let mut bytes = Vec::new(alloc);
        part.write(&mut bytes)?;
        let (number, _) = self.parts.add(part)?;
        if number as usize == self.spellings.len() {
            let spelling = Seq::from_slice(alloc, bytes.as_slice())?;
            self.spellings.push(spelling)?;
        }
        Ok(number)
    }

    // The number of the part at the front of the bytes, which is read, and the bytes after it. `None` where there is no part.
    fn read_anew<'a>(
        &mut self,
        alloc: Global,
        bytes: &'a [u8],
    ) -> Result<Option<(u32, &'a [u8])>, Refused>
        ensures { IfOk result (λ o. IfSome o (λ x. IsReadAs T.read_at self.new x.0 bytes.now x.1.now × Extends self.old self.new)) }
    {
        match T::read(alloc, bytes) {
            Ok((part, rest)) => {
                let number = self.keep(alloc, part)?;
                self.begun.put(alloc, mark_of_front(bytes), number)?;
                Ok(Some((number, rest)))
            }
            Err(ReadError::Malformed) => Ok(None),
            Err(ReadError::Memory) => Err(Refused::Memory),
        }
    }

    /// The number of the part at the front of the bytes, which stands at this place of its record, and the bytes after it; it is
    /// kept if it is new. `None` where there is no part.
    ///
    /// Errors: where a growth was refused, or there are as many parts as numbers.
    pub fn read<'a>(
        &mut self,
        alloc: Global,
        place: usize,
        bytes: &'a [u8],
    ) -> Result<Option<(u32, &'a [u8])>, Refused>
        ensures { IfOk result (λ o. IfSome o (λ x. IsReadAs T.read_at self.new x.0 bytes.now x.1.now × Extends self.old self.new)) }
    {
        if let Some(read) = self.read_last(place, bytes) {
            return Ok(Some(read));
        }
        if let Some((number, rest)) = self.read_begun(bytes) {
            self.note(place, number);
            return Ok(Some((number, rest)));
        }
        let Some((number, rest)) = self.read_anew(alloc, bytes)? else {
            return Ok(None);
        };
        self.note(place, number);
        Ok(Some((number, rest)))
    }
}
