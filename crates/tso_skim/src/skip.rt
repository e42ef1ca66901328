//! Values that are passed over: numbers and lists.

ghost use Rattle.std.specs.Prelude.{◌≡◌};
ghost use Rattle.tso_code.specs.Fields.{items_at, list_at};
ghost use Rattle.tso_code.specs.Numbers.{below_at, number_at};
ghost use Rattle.tso_skim.specs.Skips.{after, past};

use std::alloc::Global;
use std::default::MadeWith;
use tso_code::{Code, read_below, read_number};
use tso_list::{Seq, Short};

/// Why a value is not passed over.
#[derive(Clone, Copy, PartialEq, Eq)]
pub enum Stop {
    /// The bytes end inside of it.
    Cut,
    /// They do not begin with one, whatever follows.
    Broken,
}

/// A value that can be passed over.
pub trait Skim: Code {
    /// The bytes behind the value at the front of these. It takes no memory.
    ///
    /// Errors: `Cut` where more bytes might make a value of them, `Broken` where none would; that one or the other is told is proved,
    /// and which of them is tested.
    fn skip(bytes: &[u8]) -> Result<&[u8], Stop>
        ensures { past (λ r. r.now) result ≡ after (Self.read_at bytes.now) };
}

// A number has at most so many bytes.
const NUMBER_BYTES: usize = 10;

/// Why bytes do not begin with a number.
pub fn no_number(bytes: &[u8]) -> Stop {
    if bytes.len() < NUMBER_BYTES && bytes.iter().all(|byte| *byte >= 128) {
        Stop::Cut
    } else {
        Stop::Broken
    }
}

/// The bytes behind a number.
///
/// Errors: those of `Skim::skip`.
pub fn skip_number(bytes: &[u8]) -> Result<&[u8], Stop>
    ensures { past (λ r. r.now) result ≡ after (number_at bytes.now) }
{
    match read_number(bytes) {
        Some((_, rest)) => Ok(rest),
        None => Err(no_number(bytes)),
    }
}

/// The bytes behind a number below this limit.
///
/// Errors: those of `Skim::skip`.
pub fn skip_below(limit: u64, bytes: &[u8]) -> Result<&[u8], Stop>
    ensures { past (λ r. r.now) result ≡ after (below_at limit bytes.now) }
{
    match read_below(limit, bytes) {
        Some((_, rest)) => Ok(rest),
        None => Err(no_number(bytes)),
    }
}

/// The bytes behind so many items.
///
/// Errors: those of `Skim::skip`.
pub fn skip_items<T: Skim>(count: u64, bytes: &[u8]) -> Result<&[u8], Stop>
    ensures { past (λ r. r.now) result ≡ after (items_at T.read_at count bytes.now) }
{
    let mut rest = bytes;
    for _ in 0..count {
        rest = T::skip(rest)?;
    }
    Ok(rest)
}

/// The bytes behind a list: its count and its items.
///
/// Errors: those of `Skim::skip`.
#[tactic(auto, unfolding(tso_code::specs::Fields::list_at))]
pub fn skip_list<T: Skim>(bytes: &[u8]) -> Result<&[u8], Stop>
    ensures { past (λ r. r.now) result ≡ after (list_at T.read_at bytes.now) }
{
    match read_number(bytes) {
        Some((count, rest)) => skip_items::<T>(count, rest),
        None => Err(no_number(bytes)),
    }
}

impl Skim for u64 {
    fn skip(bytes: &[u8]) -> Result<&[u8], Stop> {
        skip_number(bytes)
    }
}

impl Skim for u8 {
    fn skip(bytes: &[u8]) -> Result<&[u8], Stop> {
        skip_below(256, bytes)
    }
}

impl Skim for usize {
    fn skip(bytes: &[u8]) -> Result<&[u8], Stop> {
        skip_below(256, bytes)
    }
}

impl<T: Skim> Skim for Seq<T> {
    fn skip(bytes: &[u8]) -> Result<&[u8], Stop> {
        skip_list::<T>(bytes)
    }
}

impl<T: Skim + MadeWith<Global>, const N: usize> Skim for Short<T, N> {
    fn skip(bytes: &[u8]) -> Result<&[u8], Stop> {
        skip_list::<T>(bytes)
    }
}
