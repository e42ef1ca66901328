//! Records, judged by several threads.

ghost use Rattle.std.specs.Prelude.{◌≡◌, ◌<◌, ℕ, All, IfOk, IfSome, List, Some, length, map, slice_get};
ghost use Rattle.std.specs.Thread.{IsSync};
ghost use Rattle.tso_check.specs.Pieces.{AreJudgedIn, IsFoundFirst};
ghost use Rattle.tso_check.specs.Spans.{IsSpanJudged, Span};

use crate::judging::{Bad, Notice, Part};
use crate::pieces::cut;
use std::alloc::{AllocError, Global};
use std::sync::Wait;
use std::sync::atomic::{AtomicUsize, Ordering};
use std::thread;
use std::thread::Threads;
use tso_cert::Watch;

/// Tells a watch of each record.
#[derive(Drop)]
pub struct Told<'a, R: Wait, W: Watch> {
    pub rt: &'a R,
    pub watch: &'a W,
}

impl<'a, R: Wait, W: Watch> Notice for Told<'a, R, W> {
    fn before(&self, place: u64) {
        self.watch.at(self.rt, place);
    }
}

/// What a thread found in the piece with this number.
#[derive(Clone, Copy, Drop)]
pub struct Judged {
    pub number: usize,
    pub found: Result<Option<Bad>, AllocError>,
}

// So often a part is halved that each of so many threads has some sixteen pieces of it: not all take as long, and a thread may be
// kept waiting by others on its processor.
fn halvings_of(workers: u64) -> u32 {
    let levels = u64::BITS.saturating_sub(workers.saturating_sub(1).leading_zeros());
    levels.saturating_add(4)
}

// What is found in pieces, of which this thread takes one after another while others take others, until none is left.
fn judge_some<P: Part>(
    alloc: Global,
    pieces: &[P],
    next: &AtomicUsize,
) -> Result<Vec<Judged>, AllocError>
    requires ready { All P.is_ready pieces.now }
    ensures { IfOk result (λ all. AreJudgedIn (map P.span pieces.now) all.items) }
{
    let mut all = Vec::new(alloc);
    for _turn in 0..pieces.len() {
        let number = next.fetch_add(1, Ordering::Relaxed);
        let Some(piece) = pieces.get(number) else {
            return Ok(all);
        };
        let found = piece.judge();
        all.push(Judged { number, found })?;
    }
    Ok(all)
}

// What one thread found, and what others did.
fn both(
    some: Result<Vec<Judged>, AllocError>,
    more: Result<Vec<Judged>, AllocError>,
) -> Result<Vec<Judged>, AllocError>
    ensures { (spans : List Span) → IfOk some (λ all. AreJudgedIn spans all.items) → IfOk more (λ all. AreJudgedIn spans all.items) → IfOk result (λ all. AreJudgedIn spans all.items) }
{
    let mut all = some?;
    let mut others = more?;
    all.append(&mut others)?;
    Ok(all)
}

// What is found in pieces by so many threads. The caller starts all of them: of those that two threads start at one time two may go to
// one processor, and wait for each other there.
fn judge_by<R: Threads + Sync, P: Part + Sync>(
    rt: &R,
    alloc: Global,
    pieces: &[P],
    next: &AtomicUsize,
    workers: u64,
) -> Result<Vec<Judged>, AllocError>
    requires ready { All P.is_ready pieces.now }
    ensures { IfOk result (λ all. AreJudgedIn (map P.span pieces.now) all.items) }
{
    if workers < 2 {
        return judge_some(alloc, pieces, next);
    }
    let fewer = workers - 1;
    let (some, more) = thread::join(
        rt,
        || -> Result<Vec<Judged>, AllocError>
            requires { IsSync P.row × All P.is_ready pieces.now }
            ensures { IfOk result (λ all. AreJudgedIn (map P.span pieces.entry.now) all.items) }
        { judge_some(alloc, pieces, next) },
        || -> Result<Vec<Judged>, AllocError>
            requires { IsSync R.row × IsSync P.row × All P.is_ready pieces.now }
            ensures { IfOk result (λ all. AreJudgedIn (map P.span pieces.entry.now) all.items) }
        { judge_by(rt, alloc, pieces, next, fewer) },
    );
    both(some, more)
}

// What was found in the piece with this number, if a thread has judged it.
fn found_in(all: &[Judged], number: usize) -> Option<Result<Option<Bad>, AllocError>>
    ensures { (spans : List Span) → AreJudgedIn spans all.now → IfSome result (λ found. (s : Span) → slice_get spans number ≡ Some s → IfOk found (IsSpanJudged s)) }
{
    let judged = all.iter().find(|judged| judged.number == number)?;
    Some(judged.found)
}

// What is in the piece with this number, which is judged now where no thread has judged it.
fn found_at<P: Part>(pieces: &[P], all: &[Judged], number: usize) -> Result<Option<Bad>, AllocError>
    requires there { number < length pieces.now }
    requires ready { All P.is_ready pieces.now }
    requires judged { AreJudgedIn (map P.span pieces.now) all.now }
    ensures { IfOk result (λ found. (s : Span) → slice_get (map P.span pieces.now) number ≡ Some s → IsSpanJudged s found) }
{
    match found_in(all, number) {
        Some(found) => found,
        None => pieces[number].judge(),
    }
}

// The first record that is not valid, by what was found in pieces, from left to right.
fn first_found<P: Part>(pieces: &[P], all: &[Judged]) -> Result<Option<Bad>, AllocError>
    requires ready { All P.is_ready pieces.now }
    requires judged { AreJudgedIn (map P.span pieces.now) all.now }
    ensures { IfOk result (IsFoundFirst (map P.span pieces.now)) }
{
    for number in 0..pieces.len() {
        match found_at(pieces, all, number)? {
            Some(bad) => return Ok(Some(bad)),
            None => {}
        }
    }
    Ok(None)
}

/// The first record of a part that is not valid, by so many workers. The part is cut into pieces by its forks, and each worker takes the
/// next one that none has taken, until none is left. What is found furthest to the left stands, want of memory too; one worker judges the
/// part as it is.
///
/// Errors: where a growth was refused, that of a list of what was found too.
pub fn judge_with<R: Threads + Sync, P: Part + Sync + Drop>(
    rt: &R,
    alloc: Global,
    part: P,
    workers: u64,
) -> Result<Option<Bad>, AllocError>
    requires ready { P.is_ready part }
    ensures { IfOk result (IsSpanJudged (P.span part)) }
{
    if workers < 2 {
        return part.judge();
    }
    let mut pieces = Vec::new(alloc);
    cut(part, halvings_of(workers), &mut pieces)?;
    let next = AtomicUsize::new(0);
    let all = judge_by(rt, alloc, pieces.as_slice(), &next, workers)?;
    first_found(pieces.as_slice(), all.as_slice())
}
