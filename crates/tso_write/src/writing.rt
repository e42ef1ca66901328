//! Worked states that are written as a certificate, before there is a tree of their records.

ghost use Rattle.std.specs.Io.KnownBytes.{Appends};
ghost use Rattle.std.specs.Prelude.{◌≡◌, OnErr, OnOk};
ghost use Rattle.tso_write.specs.Spelling.{AreOf, CanBeSpelled, IsPut, IsPutInPart};
ghost use Rattle.tso_write.specs.Tasks.{uncut};
ghost use Rattle.tso_write.specs.Unspelled.{numbers_of};
ghost use Rattle.tso_write.specs.Worked.{AreWorkedOut, IsWritten, IsWrittenInPart};
ghost use Rattle.tso_list.specs.Beginnings.{AppendsBeginning};
ghost use Rattle.tso_keys.specs.Orders.{IsRising};

use crate::helping::{Team, bytes_of, end, help};
use crate::line::Line;
use crate::meanwhile::{Putting, put_helped};
use crate::ordering::rising_by;
use crate::slab::Slab;
use crate::speller::Speller;
use crate::spelling::Unspelled;
use crate::subject::Subject;
use crate::worked::Worked;
use std::alloc::{AllocError, Global};
use std::io::Write;
use std::marker::Brand;
use std::sync::{Condvar, Mutex, Wait};
use std::thread::Threads;
use tso_cert::{Workers, WriteError, front_of};
use tso_flow::Checked;
use tso_foot::Table;
use tso_judge::certificates_fit;
use tso_list::write_bytes;

// As many records one thread spells before they are written: some 64 KiB.
const SLAB: usize = 1024;

// As many one of several threads spells while those before them are written.
const SHARED_SLAB: usize = 4096;

// Writes these bytes.
fn put_bytes<W: Write>(bytes: &[u8], out: &mut W) -> Result<(), WriteError>
    ensures ok { OnOk result (Appends (W.contents out.old) (W.contents out.new) bytes.now) }
    ensures err { OnErr result (AppendsBeginning (W.contents out.old) (W.contents out.new) bytes.now) }
{
    match write_bytes(out, bytes) {
        Ok(()) => Ok(()),
        Err(error) => Err(WriteError::Io(error)),
    }
}

// Writes the next slab, which has these states.
fn put_slab<U: Subject, R: Wait, W: Write>(
    team: &Team<'_, '_, U, R>,
    whole: &Unspelled<'_>,
    out: &mut W,
) -> Result<(), WriteError>
    requires source { AreOf U.source (numbers_of whole.now) }
    requires ready { CanBeSpelled (numbers_of whole.now) whole.now.store.now.client whole.now.speller.now }
    ensures ok { OnOk result (IsPut (numbers_of whole.now) (W.contents out.old) (W.contents out.new)) }
    ensures err { OnErr result (IsPutInPart (numbers_of whole.now) (W.contents out.old) (W.contents out.new)) }
{
    let bytes = bytes_of(team, whole)?;
    put_bytes(bytes.as_slice(), out)?;
    Ok(())
}

// Writes the tree of these states: what is halved no more is a slab, and of the others a fork and its halves one after the other.
fn put_slabs<U: Subject, R: Wait, W: Write>(
    team: &Team<'_, '_, U, R>,
    whole: &Unspelled<'_>,
    halvings: u32,
    out: &mut W,
) -> Result<(), WriteError>
    requires source { AreOf U.source (numbers_of whole.now) }
    requires ready { CanBeSpelled (numbers_of whole.now) whole.now.store.now.client whole.now.speller.now }
    ensures ok { OnOk result (IsPut (numbers_of whole.now) (W.contents out.old) (W.contents out.new)) }
    ensures err { OnErr result (IsPutInPart (numbers_of whole.now) (W.contents out.old) (W.contents out.new)) }
{
    if halvings == 0 {
        return put_slab(team, whole, out);
    }
    let Some((left, right)) = whole.in_turn() else {
        return put_slab(team, whole, out);
    };
    put_bytes(&[1], out)?;
    put_slabs(team, &left, halvings - 1, out)?;
    let middle = right.first()?;
    put_bytes(middle.as_slice(), out)?;
    put_slabs(team, &right, halvings - 1, out)?;
    Ok(())
}

// Lists the slabs of the tree of these states, halved so often, in the order in which they are written.
fn list_slabs<'a, U: Subject>(
    whole: &Unspelled<'a>,
    halvings: u32,
    slabs: &mut Vec<Slab<'a, U>>,
) -> Result<(), AllocError>
    requires source { AreOf U.source (numbers_of whole.now) }
    requires ready { CanBeSpelled (numbers_of whole.now) whole.now.store.now.client whole.now.speller.now }
{
    if halvings == 0 {
        slabs.push(Slab::new(*whole))?;
        return Ok(());
    }
    let Some((left, right)) = whole.in_turn() else {
        slabs.push(Slab::new(*whole))?;
        return Ok(());
    };
    list_slabs(&left, halvings - 1, slabs)?;
    list_slabs(&right, halvings - 1, slabs)?;
    Ok(())
}

// The tree of states, halved so often before it is written, with those who write it.
#[derive(Drop)]
struct Sheet<'t, 'a, U: Subject, R: Wait> {
    team: &'t Team<'t, 'a, U, R>,
    whole: &'t Unspelled<'a>,
    halvings: u32,
}

impl<'t, 'a, U: Subject, R: Wait> Putting for Sheet<'t, 'a, U, R> {
    ghost use Rattle.tso_write.specs.Spelling.{AreOf, CanBeSpelled, IsPut, IsPutInPart};
    ghost use Rattle.tso_write.specs.Unspelled.{numbers_of};

    ghost can_put = { λ s. AreOf U.source (numbers_of s.whole.now) × CanBeSpelled (numbers_of s.whole.now) s.whole.now.store.now.client s.whole.now.speller.now };

    ghost is_put = { λ s old new. IsPut (numbers_of s.whole.now) old new };

    ghost is_put_in_part = { λ s old new. IsPutInPart (numbers_of s.whole.now) old new };

    fn put<W: Write>(&self, out: &mut W) -> Result<(), WriteError> {
        let put = put_slabs(self.team, self.whole, self.halvings, out);
        end(self.team);
        put
    }

    fn help(&self) {
        help(self.team);
    }
}

// Writes the tree of these states, halved so often, by so many workers.
fn put_tree<U: Subject + Send + Sync, R: Threads + Wait + Sync, W: Write>(
    rt: &R,
    whole: &Unspelled<'_>,
    halvings: u32,
    workers: u64,
    out: &mut W,
) -> Result<(), WriteError>
    requires source { AreOf U.source (numbers_of whole.now) }
    requires ready { CanBeSpelled (numbers_of whole.now) whole.now.store.now.client whole.now.speller.now }
    ensures ok { OnOk result (IsPut (numbers_of whole.now) (W.contents out.old) (W.contents out.new)) }
    ensures err { OnErr result (IsPutInPart (numbers_of whole.now) (W.contents out.old) (W.contents out.new)) }
{
    let mut slabs = Vec::<Slab<'_, U>>::new(whole.alloc);
    if workers > 1 {
        list_slabs(whole, halvings, &mut slabs)?;
    }
    let line = Mutex::new(Line::new(whole.alloc)?);
    let woken = Condvar::new();
    let team = Team {
        rt,
        slabs: slabs.as_slice(),
        line: &line,
        woken: &woken,
    };
    let sheet = Sheet {
        team: &team,
        whole,
        halvings,
    };
    put_helped(rt, &sheet, workers.saturating_sub(1), out)?;
    Ok(())
}

// How often so many records are halved before they are written.
fn halvings_of(count: usize, workers: Workers) -> u32 {
    let slabs = if workers.count() < 2 {
        count / SLAB
    } else {
        count / SHARED_SLAB
    };
    64u32.saturating_sub(slabs.leading_zeros())
}

// Writes the tree of worked states, whose numbers are these in the order of the states, behind the front of a certificate.
fn put_worked<R: Threads + Wait + Sync, W: Write>(
    rt: &R,
    alloc: Global,
    checked: &Checked,
    worked: &Worked<'_>,
    numbers: &[u32],
    workers: Workers,
    out: &mut W,
) -> Result<(), WriteError>
    requires worked { AreWorkedOut checked.now.client worked.now }
    requires rising { IsRising worked.now.store.states numbers.now }
    ensures ok { OnOk result (IsPut (uncut checked.now.client worked.now.ground worked.now.store.states numbers.now) (W.contents out.old) (W.contents out.new)) }
    ensures err { OnErr result (IsPutInPart (uncut checked.now.client worked.now.ground worked.now.store.states numbers.now) (W.contents out.old) (W.contents out.new)) }
{
    worked.store.states_differ();
    let speller = Speller::new(rt, alloc, &worked.store, workers.count())?;
    let whole = Unspelled {
        alloc,
        checked,
        ground: &worked.ground,
        store: &worked.store,
        speller: &speller,
        numbers,
    };
    let halvings = halvings_of(numbers.len(), workers);
    put_tree::<Brand, R, W>(rt, &whole, halvings, workers.count(), out)?;
    Ok(())
}

/// Writes worked states as a certificate with this table, by so many workers: what goes out is what `tso_cert::encode` spells of
/// the table and of a tree of the states' records. Several workers, each in a thread that lives for the whole call, spell records while this
/// one writes those before them. It takes memory for the order of the states, and for the bytes of some 1,000 records where there is one
/// worker, else of some 65,000.
///
/// Errors: `Io` where a write fails, and `Memory`; a beginning of such bytes has gone out then, perhaps none of them, and nothing
/// else.
pub fn write<R: Threads + Wait + Sync, W: Write>(
    rt: &R,
    alloc: Global,
    checked: &Checked,
    worked: &Worked<'_>,
    table: &Table,
    workers: Workers,
    out: &mut W,
) -> Result<(), WriteError>
    requires worked { AreWorkedOut checked.now.client worked.now }
    ensures ok { OnOk result (IsWritten checked.now.client worked.now table.now (W.contents out.old) (W.contents out.new)) }
    ensures err { OnErr result (IsWrittenInPart checked.now.client worked.now table.now (W.contents out.old) (W.contents out.new)) }
{
    worked.store.states_differ();
    certificates_fit(checked);
    let front = front_of(alloc, worked.ground.grain(), table)?;
    let numbers = rising_by(rt, alloc, &worked.store, workers.count())?;
    put_bytes(front.as_slice(), out)?;
    let rising = numbers.as_slice();
    put_worked(rt, alloc, checked, worked, rising, workers, out)?;
    Ok(())
}
