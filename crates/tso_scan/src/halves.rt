//! Trees that are read by themselves, and put together as the halves of a fork.
ghost use Rattle.std.specs.Prelude.{◌≡◌, ◌++◌, IfOk, IfSome, IsTrue, Some, length};
ghost use Rattle.tso_code.specs.States.{state_at};
ghost use Rattle.tso_scan.specs.Halves.{AreApart, AreGrafted, AreHalvesOf, AreTakenIn, AreWithin, IsEnd, IsForkOf, IsForkShape, IsHalfAt, IsHalfOf, IsRoom, IsSeam, IsTreeRead, IsTwig, Meet, is_apart, stretch_at, stretch_of};
ghost use Rattle.tso_scan.specs.Parts.{text_of};
ghost use Rattle.tso_scan.specs.Scanned.{IsScan};
ghost use Rattle.tso_scan.specs.Sources.{parts_of};
ghost use Rattle.tso_keys.specs.Keys.{AreKept};

use crate::neighbours::{is_rising, rise_joined};
use crate::parts::put_together;
use crate::seams::right_half;
use crate::shape::Shape;
use crate::states::Scan;
use crate::trees::branch_of;
use std::alloc::{AllocError, Global};
use std::boxed::Box;
use tso_cert::Task;
use tso_code::{Code, ReadError};
use tso_flow::Checked;
use tso_list::Seq;
use tso_parts::Refused;
use tso_prog::Client;
use tso_rec::{End, Shared};
use tso_state::State;
use tso_store::Gathered;

/// The most records that a certificate has.
pub const RECORDS: u32 = 4_194_304;

/// A tree that was read by itself: its records' states with parts of their own, whether they are known to rise, and what else was read of
/// them in the same order.
#[derive(Drop)]
pub struct Half<'c> {
    pub states: Gathered<'c>,
    pub rises: bool,
    pub records: Records,
}

/// The records of a tree without their states, and where they end.
#[derive(Drop)]
pub struct Records {
    pub ends: Seq<Shared<End>>,
    /// How the records lie in leaves and forks.
    pub shape: Shape,
    /// How many records may still come.
    pub room: u32,
    /// So many bytes are behind them.
    pub behind: usize,
}

/// The shape of a tree that was read, how many records may still come, and how many bytes are behind it.
#[derive(Drop)]
pub struct Twig {
    pub shape: Shape,
    pub room: u32,
    pub behind: usize,
}

/// Bytes, at whose front a tree is to be read: with at most `depth` forks inside one another and at most `room` records. They may lie in
/// several parts; then the right half of each fork that has some of them is guessed to begin one.
#[derive(Drop)]
pub struct Unread<'c, 'b> {
    pub alloc: Global,
    pub checked: &'c Checked,
    pub depth: u8,
    pub room: u32,
    pub bytes: &'b [u8],
    /// The parts behind these bytes.
    pub more: &'b [Seq<u8>],
    /// So many of the bytes the tree is guessed to take, where there are no parts behind them.
    pub taken: usize,
}

// ---- a tree that is read

// The tree at the front of the bytes, whose states and ends go behind those that were read.
fn read_twig(
    scan: &mut Scan,
    client: &Client,
    alloc: Global,
    depth: u8,
    room: u32,
    bytes: &[u8],
) -> Result<Option<Twig>, Refused>
    requires { IsScan client.now scan.old }
    ensures { IfOk result (λ o. IfSome o (IsTwig client.now scan.old scan.new depth room bytes.now)) }
{
    let Some((shape, room, rest)) = branch_of(scan, client, alloc, depth, room, bytes)? else {
        return Ok(None);
    };
    let behind = rest.len();
    Ok(Some(Twig {
        shape,
        room,
        behind,
    }))
}

// All that was read, as one tree.
fn half_of<'c>(checked: &'c Checked, scan: Scan, twig: Twig) -> Half<'c>
    requires { AreKept checked.now.client (parts_of scan.sources) scan.keys }
    ensures { IsHalfOf checked.now.client scan twig result }
{
    let Scan {
        sources,
        keys,
        reader: _reader,
        ends,
    } = scan;
    let Twig {
        shape,
        room,
        behind,
    } = twig;
    let states = Gathered::of_parts(checked, sources.into_parts(), keys.into_vec());
    let rises = is_rising(&states);
    let records = Records {
        ends,
        shape,
        room,
        behind,
    };
    Half {
        states,
        rises,
        records,
    }
}

// The tree at the front of the bytes. `None` where there is none, where a state does not fit the client, or where a fork's state is
// not the first one of its right half.
fn read_half<'c>(
    alloc: Global,
    checked: &'c Checked,
    depth: u8,
    room: u32,
    bytes: &[u8],
) -> Result<Option<Half<'c>>, Refused>
    ensures { IfOk result (λ o. IfSome o (IsTreeRead (stretch_of checked.now.client depth room bytes.now))) }
{
    let client = &checked.client;
    let mut scan = Scan::new(alloc, client);
    match read_twig(&mut scan, client, alloc, depth, room, bytes) {
        Ok(Some(twig)) => Ok(Some(half_of(checked, scan, twig))),
        Ok(None) => {
            drop(scan);
            Ok(None)
        }
        Err(reason) => {
            drop(scan);
            Err(reason)
        }
    }
}

// The same, where as many parts as numbers are no tree either.
fn read_bytes<'c>(unread: &Unread<'c, '_>, bytes: &[u8]) -> Result<Option<Half<'c>>, AllocError>
    ensures { IfOk result (λ o. IfSome o (IsTreeRead (stretch_of unread.now.checked.now.client unread.now.depth unread.now.room bytes.now))) }
{
    match read_half(
        unread.alloc,
        unread.checked,
        unread.depth,
        unread.room,
        bytes,
    ) {
        Ok(found) => Ok(found),
        Err(Refused::Memory) => Err(AllocError),
        Err(Refused::Full) => Ok(None),
    }
}

/// The tree at the front of the bytes, read by the thread that asks alone. `None` where there is none, where a state does not fit
/// the client, where a fork's state is not the first one of its right half, or where there are as many parts as numbers. Bytes in several
/// parts are put together first.
///
/// Errors: where a growth was refused.
pub fn read_alone<'c>(unread: &Unread<'c, '_>) -> Result<Option<Half<'c>>, AllocError>
    ensures { IfOk result (λ o. IfSome o (IsTreeRead (stretch_at unread.now))) }
{
    match unread.more {
        [] => read_bytes(unread, unread.bytes),
        [_, ..] => {
            let all = put_together(unread.alloc, unread.bytes, unread.more)?;
            let found = read_bytes(unread, all.as_slice());
            drop(all);
            found
        }
    }
}

// ---- halves that are put together

// The last bytes, so many.
fn last_bytes(bytes: &[u8], count: usize) -> Option<&[u8]>
    ensures { IfSome result (λ end. IsEnd bytes.now end.now × (length end.now ≡ count)) }
{
    if count > bytes.len() {
        return None;
    }
    let (_, end) = bytes.split_at(bytes.len() - count);
    Some(end)
}

// The state at the front of the bytes, and the bytes after it. `None` where there is none.
fn read_middle(alloc: Global, bytes: &[u8]) -> Result<Option<(State, &[u8])>, AllocError>
    ensures { IfOk result (λ o. IfSome o (λ x. state_at bytes.now ≡ Some (x.0, x.1.now))) }
{
    match State::read(alloc, bytes) {
        Ok(read) => Ok(Some(read)),
        Err(ReadError::Malformed) => Ok(None),
        Err(ReadError::Memory) => Err(AllocError),
    }
}

// How many records may still come behind two halves, of which the second was read as if there were no first one.
fn room_behind(all: u32, first: u32, second: u32) -> Option<u32>
    ensures { IfSome result (IsRoom all first second) }
{
    if second > all {
        return None;
    }
    let used = all - second;
    if used > first {
        return None;
    }
    Some(first - used)
}

// Puts the states of a half behind those that are there. `false` where the fork's state is not the first of them.
fn take_in(
    alloc: Global,
    states: &mut Gathered<'_>,
    second: Gathered<'_>,
    middle: &State,
) -> Result<bool, Refused>
    requires { second.client ≡ states.old.client }
    ensures client { IfOk result (λ _. states.new.client ≡ states.old.client) }
    ensures taken { IfOk result (λ b. IsTrue b → AreTakenIn states.old.states second.entry.states middle.now states.new.states) }
{
    let first = states.len();
    states.append(alloc, second)?;
    Ok(states.is_at(first, middle))
}

// Whether the bytes behind a fork's state are those of its right half.
fn do_meet(apart: bool, rest: &[u8], right: &Unread<'_, '_>) -> bool
    ensures { IsTrue result → Meet apart rest.now (stretch_at right.now).bytes }
{
    if apart {
        return rest.is_empty();
    }
    match right.more {
        [] => rest.len() == right.bytes.len(),
        [_, ..] => false,
    }
}

// The state of a fork of these halves, and how many records may still come. `None` where the halves do not fit together.
fn seam_of(
    apart: bool,
    left: &Unread<'_, '_>,
    right: &Unread<'_, '_>,
    first: &Records,
    second: &Records,
) -> Result<Option<(State, u32)>, AllocError>
    ensures { IfOk result (λ o. IfSome o (λ x. IsSeam apart (stretch_at left.now) (stretch_at right.now) first.now second.now x.0 x.1)) }
{
    let Some(end) = last_bytes(left.last_part(), first.behind) else {
        return Ok(None);
    };
    let Some((middle, rest)) = read_middle(left.alloc, end)? else {
        return Ok(None);
    };
    if !do_meet(apart, rest, right) {
        return Ok(None);
    }
    match room_behind(right.room, first.room, second.room) {
        Some(room) => Ok(Some((middle, room))),
        None => Ok(None),
    }
}

// Puts the states of a fork's second half behind those of its first, and tells how many records may still come, and what else there
// is of the second. `None` where the two do not fit together: then nothing is said of the states.
fn graft(
    apart: bool,
    left: &Unread<'_, '_>,
    right: &Unread<'_, '_>,
    states: &mut Gathered<'_>,
    first: &Records,
    second: Half<'_>,
) -> Result<Option<(u32, Records)>, Refused>
    requires { second.states.client ≡ states.old.client }
    ensures grafted { IfOk result (λ o. IfSome o (λ x. AreGrafted apart (stretch_at left.now) (stretch_at right.now) first.now second.entry states.old states.new x.0)) }
    ensures records { IfOk result (λ o. IfSome o (λ x. x.1 ≡ second.entry.records)) }
{
    let Half {
        states: others,
        rises: _rises,
        records,
    } = second;
    let (middle, room) = match seam_of(apart, left, right, first, &records) {
        Ok(Some(seam)) => seam,
        Ok(None) => {
            drop(others);
            drop(records);
            return Ok(None);
        }
        Err(reason) => {
            drop(others);
            drop(records);
            return Err(reason.into());
        }
    };
    match take_in(left.alloc, states, others, &middle) {
        Ok(true) => Ok(Some((room, records))),
        Ok(false) => {
            drop(records);
            Ok(None)
        }
        Err(reason) => {
            drop(records);
            Err(reason)
        }
    }
}

// The items of one list, and those of another behind them.
fn appended<T: Drop>(first: Seq<T>, second: Seq<T>) -> Result<Seq<T>, AllocError>
    ensures { IfOk result (λ all. all ≡ first ++ second) }
{
    let mut all = first.into_vec();
    let mut others = second.into_vec();
    all.append(&mut others)?;
    Ok(Seq::from_vec(all))
}

// The shape of a fork of trees of these shapes.
fn fork_shape(alloc: Global, left: Shape, right: Shape) -> Result<Shape, AllocError>
    ensures { IfOk result (IsForkShape left right) }
{
    let left = Box::new(alloc, left)?;
    let right = Box::new(alloc, right)?;
    Ok(Shape::Fork(left, right))
}

// The records of a fork, from those of its halves.
fn fork_of(alloc: Global, first: Records, second: Records, room: u32) -> Result<Records, AllocError>
    ensures { IfOk result (IsForkOf first second room) }
{
    let ends = appended(first.ends, second.ends)?;
    let shape = fork_shape(alloc, first.shape, second.shape)?;
    Ok(Records {
        ends,
        shape,
        room,
        behind: second.behind,
    })
}

// A fork, from the states of both halves, of which it is known whether they rise, and from their records.
fn half_with<'c>(
    alloc: Global,
    states: Gathered<'c>,
    rises: bool,
    first: Records,
    second: Records,
    room: u32,
) -> Result<Half<'c>, AllocError>
    ensures fork { IfOk result (λ h. (h.states ≡ states.entry) × IsForkOf first second room h.records) }
    ensures rises { IfOk result (λ h. h.rises ≡ rises) }
{
    match fork_of(alloc, first, second, room) {
        Ok(records) => Ok(Half {
            states,
            rises,
            records,
        }),
        Err(reason) => {
            drop(states);
            Err(reason)
        }
    }
}

// The tree at the front of the bytes, from what was read of its halves; where that does not fit together, it is read by this thread
// alone.
fn read_joined<'c>(
    whole: &Unread<'c, '_>,
    left: &Unread<'c, '_>,
    right: &Unread<'c, '_>,
    first: Half<'c>,
    second: Half<'c>,
) -> Result<Option<Half<'c>>, AllocError>
    requires halves { AreHalvesOf (is_apart whole.now) (stretch_at whole.now) (stretch_at left.now) (stretch_at right.now) }
    requires first { IsTreeRead (stretch_at left.now) first }
    requires second { IsTreeRead (stretch_at right.now) second }
    ensures { IfOk result (λ o. IfSome o (IsTreeRead (stretch_at whole.now))) }
{
    let Half {
        mut states,
        rises,
        records,
    } = first;
    let apart = whole.is_apart();
    let count = states.len();
    let others_rise = second.rises;
    match graft(apart, left, right, &mut states, &records, second) {
        Ok(Some((room, others))) => {
            let all_rise = rise_joined(&states, count, rises, others_rise);
            let half = half_with(whole.alloc, states, all_rise, records, others, room)?;
            Ok(Some(half))
        }
        Ok(None) => {
            drop(states);
            drop(records);
            read_alone(whole)
        }
        Err(reason) => {
            drop(states);
            drop(records);
            match reason {
                Refused::Memory => Err(AllocError),
                Refused::Full => Ok(None),
            }
        }
    }
}

impl<'c, 'b> Unread<'c, 'b> {
    // Whether there are parts behind the bytes.
    fn is_apart(&self) -> bool
        ensures { result ≡ is_apart self.now }
    {
        match self.more {
            [] => false,
            [_, ..] => true,
        }
    }

    // The last of the parts.
    fn last_part(&self) -> &'b [u8]
        ensures { IsEnd (stretch_at self.now).bytes result.now }
    {
        match self.more.split_last() {
            Some((last, _)) => last.as_slice(),
            None => self.bytes,
        }
    }

    // A half of a fork, which lies in these bytes and parts.
    fn half(&self, bytes: &'b [u8], more: &'b [Seq<u8>], taken: usize) -> Self
        requires { self.now.depth ≡ 0 → ⊥ }
        ensures { IsHalfAt self.now (text_of bytes.now more.now) result }
    {
        Unread {
            alloc: self.alloc,
            checked: self.checked,
            depth: self.depth - 1,
            room: self.room,
            bytes,
            more,
            taken,
        }
    }

    // The halves, where the right one is guessed to begin somewhere in these bytes.
    fn halves_within(&self, behind: &'b [u8]) -> Option<(Self, Self)>
        requires { self.now.depth ≡ 0 → ⊥ }
        ensures { IfSome result (AreWithin self.now behind.now) }
    {
        let second = right_half(self.alloc, behind, self.taken)?;
        let taken = behind.len().saturating_sub(second.len());
        let left = self.half(behind, &[], taken);
        let right = self.half(second, &[], self.taken.saturating_sub(taken));
        Some((left, right))
    }

    // The halves, where the right one is guessed to begin one of the parts.
    fn halves_apart(&self, behind: &'b [u8]) -> Option<(Self, Self)>
        requires { self.now.depth ≡ 0 → ⊥ }
        ensures { IfSome result (AreApart self.now behind.now) }
    {
        let (before, from) = self.more.split_at(self.more.len() / 2);
        let (first, more) = from.split_first()?;
        let second = first.as_slice();
        let left = self.half(behind, before, behind.len());
        let right = self.half(second, more, second.len());
        Some((left, right))
    }
}

impl<'c, 'b> Task for Unread<'c, 'b> {
    ghost use Rattle.std.specs.Prelude.{IfSome};
    ghost use Rattle.tso_scan.specs.Halves.{AreHalvesOf, IsTreeRead, is_apart, stretch_at};

    type Output = Option<Half<'c>>;

    ghost is_ready = { λ p. Unit {0} };

    ghost is_output = { λ p o. IfSome o (IsTreeRead (stretch_at p)) };

    ghost are_halves = { λ p left right. AreHalvesOf (is_apart p) (stretch_at p) (stretch_at left) (stretch_at right) };

    fn run(&self) -> Result<Option<Half<'c>>, AllocError> {
        read_alone(self)
    }

    fn halves(&self) -> Option<(Self, Self)> {
        match self.bytes {
            [1, behind @ ..] => {
                if self.depth == 0 {
                    return None;
                }
                match self.more {
                    [] => self.halves_within(behind),
                    [_, ..] => self.halves_apart(behind),
                }
            }
            _ => None,
        }
    }

    fn joined(
        &self,
        left: &Self,
        right: &Self,
        first: Option<Half<'c>>,
        second: Option<Half<'c>>,
    ) -> Result<Option<Half<'c>>, AllocError> {
        let Some(first) = first else {
            drop(second);
            return read_alone(self);
        };
        let Some(second) = second else {
            drop(first);
            return read_alone(self);
        };
        read_joined(self, left, right, first, second)
    }
}
