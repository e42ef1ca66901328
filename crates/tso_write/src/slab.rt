//! Slabs: parts of a certificate's tree that one thread spells at once.

ghost use Rattle.std.specs.Prelude.{IfSome};
ghost use Rattle.tso_write.specs.Spelling.{AreOf, CanBeSpelled, IsSpelledCut};
ghost use Rattle.tso_write.specs.Unspelled.{numbers_of};

use crate::spelling::Unspelled;
use crate::subject::Subject;
use std::alloc::AllocError;
use std::marker::{Model, PhantomData};

/// States whose tree one thread spells at once.
#[derive(Drop)]
pub struct Slab<'a, U: Subject> {
    whole: Unspelled<'a>,
    subject: PhantomData<U>,
}

impl<'a, U: Subject> Model for Slab<'a, U> {
    ghost use Rattle.tso_write.specs.Spelling.{IsSlab};
    ghost use Rattle.tso_write.specs.Tasks.{Numbered};
    ghost use Rattle.tso_write.specs.Unspelled.{numbers_of};

    ghost Value = { Numbered };

    ghost view = { λ s. numbers_of s.whole };

    ghost invariant = { λ s. IsSlab U.source (numbers_of s.whole) s.whole.store.now.client s.whole.speller.now };
}

/// The bytes of a slab.
#[derive(Drop)]
pub struct Spelled<'a, U: Subject> {
    numbers: &'a [u32],
    bytes: Vec<u8>,
    subject: PhantomData<U>,
}

impl<'a, U: Subject> Model for Spelled<'a, U> {
    ghost use Rattle.std.specs.Prelude.{List, ℕ};
    ghost use Rattle.tso_write.specs.Spelling.{AreBytesFor};

    ghost Value = { List ℕ };

    ghost view = { λ s. s.bytes.items };

    ghost invariant = { λ s. AreBytesFor U.source s.numbers.now s.bytes.items };
}

impl<'a, U: Subject> Slab<'a, U> {
    /// The slab of these states.
    pub fn new(whole: Unspelled<'a>) -> Self
        requires source { AreOf U.source (numbers_of whole) }
        requires ready { CanBeSpelled (numbers_of whole) whole.store.now.client whole.speller.now }
    {
        Slab {
            whole,
            subject: PhantomData,
        }
    }

    /// Its bytes.
    ///
    /// Errors: where a growth was refused.
    pub fn spelled(&self) -> Result<Spelled<'a, U>, AllocError> {
        let bytes = self.whole.spelled()?;
        Ok(Spelled {
            numbers: self.whole.numbers,
            bytes,
            subject: PhantomData,
        })
    }
}

impl<'a, U: Subject> Spelled<'a, U> {
    /// The bytes, if they are those of these states.
    pub fn into_bytes(self, whole: &Unspelled<'_>) -> Option<Vec<u8>>
        requires { AreOf U.source (numbers_of whole.now) }
        ensures { IfSome result (λ bytes. IsSpelledCut (numbers_of whole.now) bytes.items) }
    {
        let Spelled {
            numbers,
            bytes,
            subject: _subject,
        } = self;
        if numbers == whole.numbers {
            return Some(bytes);
        }
        drop(bytes);
        None
    }
}
