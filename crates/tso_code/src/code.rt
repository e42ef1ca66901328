//! Values with one spelling: numbers and lists.
ghost use Rattle.std.specs.Prelude.{◌≡◌, [], Err, None, ◌++◌, ◌<◌, ◌^◌, ◌+◌, ◌*◌, ℕ, List, Result, length, OnOk, IfSome, option_map};
ghost use Rattle.std.specs.List.{flat_map};
ghost use Rattle.tso_code.specs.Fields.{Gives, items_at, list, list_at, ListFits};
ghost use Rattle.tso_code.specs.Numbers.{Reading, digits, digits_at, number, number_at, below_at};
ghost use Rattle.tso_code.specs.declared.code.ReadError.TheVariants.{Memory};

use std::alloc::{AllocError, AllocFailed, Global};
use tso_list::Seq;

/// Why bytes were not read.
#[derive(Clone, Copy, PartialEq, Eq)]
pub enum ReadError {
    /// They stop being the beginning of a spelling, or end too soon.
    Malformed,
    /// Memory ran out.
    Memory,
}

impl From<AllocError> for ReadError {
    ghost from_gives = { λ _ e. e ≡ Memory };

    fn from(_e: AllocError) -> ReadError {
        ReadError::Memory
    }
}

impl<T: Drop> From<AllocFailed<T>> for ReadError {
    ghost from_gives = { λ _ e. e ≡ Memory };

    fn from(_e: AllocFailed<T>) -> ReadError {
        ReadError::Memory
    }
}

/// A value that has one spelling.
pub trait Code: Drop {
    /// Whether its numbers are in the ranges that the spelling has room for.
    ghost Fits: { Self → Type 0 };

    /// Its spelling.
    ghost spell: { Self → List ℕ };

    /// How it is read, which is the other way round.
    ghost read_at: { Reading Self };

    /// The value at the front of the bytes, and the bytes after it. It grows nothing but by items that were read.
    fn read(alloc: Global, bytes: &[u8]) -> Result<(Self, &[u8]), ReadError>
        ensures read { Gives (λ x. (x.0, x.1.now)) result (read_at bytes.now) }
        // Where there is nothing to read, no memory is asked for.
        ensures empty { bytes.now ≡ [] → result ≡ Err ReadError.Malformed };

    /// Puts the spelling at the end.
    fn write(&self, out: &mut Vec<u8>) -> Result<(), AllocError>
        ensures { OnOk result (out.new.items ≡ out.old.items ++ spell self.now) };
}

// A number of at most `left` bytes before its last.
#[tactic(auto, unfolding(crate::specs::Numbers::digits_at))]
fn digits_of(left: u8, bytes: &[u8]) -> Option<(u64, &[u8])>
    requires { left < 10 }
    ensures read { option_map (λ x. (x.0, x.1.now)) result ≡ digits_at left bytes.now }
    ensures empty { bytes.now ≡ [] → result ≡ None }
    ensures bound { IfSome result (λ x. x.0 < 2 ^ (7 * left + 1)) }
{
    match bytes {
        [] => None,
        [byte, rest @ ..] => {
            if left == 0 {
                if *byte < 2 {
                    Some((*byte as u64, rest))
                } else {
                    None
                }
            } else if *byte < 128 {
                Some((*byte as u64, rest))
            } else {
                let (high, rest) = digits_of(left - 1, rest)?;
                if high == 0 {
                    None
                } else {
                    Some(((*byte - 128) as u64 + 128 * high, rest))
                }
            }
        }
    }
}

/// A number of 64 bits at the front of the bytes, and the bytes after it.
#[tactic(auto, unfolding(crate::specs::Numbers::number_at, crate::specs::Numbers::digits_at))]
pub fn read_number(bytes: &[u8]) -> Option<(u64, &[u8])>
    ensures read { option_map (λ x. (x.0, x.1.now)) result ≡ number_at bytes.now }
    ensures empty { bytes.now ≡ [] → result ≡ None }
{
    match bytes {
        // Most numbers have one byte.
        [byte, rest @ ..] if *byte < 128 => Some((*byte as u64, rest)),
        _ => digits_of(9, bytes),
    }
}

/// A number below the limit, and the bytes after it.
#[tactic(auto, unfolding(crate::specs::Numbers::below_at))]
pub fn read_below(limit: u64, bytes: &[u8]) -> Option<(u64, &[u8])>
    ensures read { option_map (λ x. (x.0, x.1.now)) result ≡ below_at limit bytes.now }
    ensures empty { bytes.now ≡ [] → result ≡ None }
    ensures below { IfSome result (λ x. x.0 < limit) }
{
    let (number, rest) = read_number(bytes)?;
    if number < limit {
        Some((number, rest))
    } else {
        None
    }
}

/// Puts the spelling of a number at the end.
pub fn write_number(n: u64, out: &mut Vec<u8>) -> Result<(), AllocError>
    ensures { OnOk result (out.new.items ≡ out.old.items ++ number n) }
{
    let mut rest = n;
    while rest >= 128 {
        out.push((rest % 128) as u8 + 128)?;
        rest /= 128;
    }
    out.push(rest as u8)?;
    Ok(())
}

impl Code for u64 {
    ghost Fits = { λ n. n < 2 ^ 64 };

    ghost spell = { number };

    ghost read_at = { number_at };

    fn read(_alloc: Global, bytes: &[u8]) -> Result<(u64, &[u8]), ReadError> {
        match read_number(bytes) {
            Some(read) => Ok(read),
            None => Err(ReadError::Malformed),
        }
    }

    fn write(&self, out: &mut Vec<u8>) -> Result<(), AllocError> {
        write_number(*self, out)
    }
}

// A mask of arrays.
impl Code for u16 {
    ghost Fits = { λ n. n < 2 ^ 16 };

    ghost spell = { number };

    ghost read_at = { below_at (2 ^ 16) };

    fn read(_alloc: Global, bytes: &[u8]) -> Result<(u16, &[u8]), ReadError> {
        match read_below(65536, bytes) {
            Some((number, rest)) => Ok((number as u16, rest)),
            None => Err(ReadError::Malformed),
        }
    }

    fn write(&self, out: &mut Vec<u8>) -> Result<(), AllocError> {
        write_number(u64::from(*self), out)
    }
}

// A count of back jumps.
impl Code for u8 {
    ghost Fits = { λ n. n < 2 ^ 8 };

    ghost spell = { number };

    ghost read_at = { below_at (2 ^ 8) };

    fn read(_alloc: Global, bytes: &[u8]) -> Result<(u8, &[u8]), ReadError> {
        match read_below(256, bytes) {
            Some((number, rest)) => Ok((number as u8, rest)),
            None => Err(ReadError::Malformed),
        }
    }

    fn write(&self, out: &mut Vec<u8>) -> Result<(), AllocError> {
        write_number(u64::from(*self), out)
    }
}

// A count of calls.
impl Code for usize {
    ghost Fits = { λ n. n < 2 ^ 8 };

    ghost spell = { number };

    ghost read_at = { below_at (2 ^ 8) };

    fn read(_alloc: Global, bytes: &[u8]) -> Result<(usize, &[u8]), ReadError> {
        match read_below(256, bytes) {
            Some((number, rest)) => Ok((number as usize, rest)),
            None => Err(ReadError::Malformed),
        }
    }

    fn write(&self, out: &mut Vec<u8>) -> Result<(), AllocError> {
        write_number(*self as u64, out)
    }
}

/// A position or a place of memory, below 65,536, and the bytes after it.
pub fn read_place(bytes: &[u8]) -> Result<(usize, &[u8]), ReadError>
    ensures read { Gives (λ x. (x.0, x.1.now)) result (below_at (2 ^ 16) bytes.now) }
    ensures empty { bytes.now ≡ [] → result ≡ Err ReadError.Malformed }
{
    match read_below(65536, bytes) {
        Some((number, rest)) => Ok((number as usize, rest)),
        None => Err(ReadError::Malformed),
    }
}

/// The number of a thread or of a call, any of 64 bits, and the bytes after it.
pub fn read_index(bytes: &[u8]) -> Result<(usize, &[u8]), ReadError>
    ensures read { Gives (λ x. (x.0, x.1.now)) result (number_at bytes.now) }
    ensures empty { bytes.now ≡ [] → result ≡ Err ReadError.Malformed }
{
    match read_number(bytes) {
        Some((number, rest)) => Ok((number as usize, rest)),
        None => Err(ReadError::Malformed),
    }
}

// Below so many items, the first makes room for all of them, and for no more: lists of states are short and many.
const FEW: u64 = 4;

fn make_room<T>(items: &mut Vec<T>, count: u64) -> Result<(), AllocError>
    ensures { items.new.items ≡ items.old.items }
{
    if count < FEW && items.is_empty() {
        items.reserve_exact(count as usize)?;
    }
    Ok(())
}

/// So many items, one after the other, and the bytes after them. However many are asked for, room is made only for items that
/// were read, and for two more at most.
pub fn read_items<T: Code>(
    alloc: Global,
    count: u64,
    bytes: &[u8],
) -> Result<(Vec<T>, &[u8]), ReadError>
    ensures read { Gives (λ x. (x.0.items, x.1.now)) result (items_at T.read_at count bytes.now) }
    // A count is no request for memory.
    ensures empty { 0 < count → bytes.now ≡ [] → result ≡ Err ReadError.Malformed }
{
    let mut items = Vec::new(alloc);
    let mut rest = bytes;
    for _ in 0..count {
        let (item, after) = T::read(alloc, rest)?;
        make_room(&mut items, count)?;
        items.push(item)?;
        rest = after;
    }
    Ok((items, rest))
}

/// Fifteen items, one after the other with no count, and the bytes after them.
pub(crate) fn read_fifteen<T: Code + Copy>(
    alloc: Global,
    blank: T,
    bytes: &[u8],
) -> Result<([T; 15], &[u8]), ReadError>
    ensures read { Gives (λ x. (x.0, x.1.now)) result (items_at T.read_at 15 bytes.now) }
    ensures empty { bytes.now ≡ [] → result ≡ Err ReadError.Malformed }
{
    let mut items = [blank; 15];
    let mut rest = bytes;
    for i in 0..15 {
        let (item, after) = T::read(alloc, rest)?;
        items[i] = item;
        rest = after;
    }
    Ok((items, rest))
}

/// Puts the items at the end, one after the other with no count.
pub(crate) fn write_items<T: Code>(items: &[T], out: &mut Vec<u8>) -> Result<(), AllocError>
    ensures { OnOk result (out.new.items ≡ out.old.items ++ flat_map T.spell items.now) }
{
    for item in items {
        item.write(out)?;
    }
    Ok(())
}

/// Puts the count of the items and then the items at the end.
pub fn write_list<T: Code>(items: &[T], out: &mut Vec<u8>) -> Result<(), AllocError>
    ensures { OnOk result (out.new.items ≡ out.old.items ++ list T.spell items.now) }
{
    write_number(items.len() as u64, out)?;
    write_items(items, out)
}

impl<T: Code> Code for Seq<T> {
    ghost Fits = { ListFits T.Fits };

    ghost spell = { list T.spell };

    ghost read_at = { list_at T.read_at };

    #[tactic(auto, unfolding(crate::specs::Fields::list_at))]
    fn read(alloc: Global, bytes: &[u8]) -> Result<(Seq<T>, &[u8]), ReadError> {
        let Some((count, rest)) = read_number(bytes) else {
            return Err(ReadError::Malformed);
        };
        let (items, rest) = read_items(alloc, count, rest)?;
        Ok((Seq::from_vec(items), rest))
    }

    fn write(&self, out: &mut Vec<u8>) -> Result<(), AllocError> {
        write_list(self.as_slice(), out)
    }
}
