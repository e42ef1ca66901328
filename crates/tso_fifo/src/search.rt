//! The search for an order that explains a history. It tries the calls that no other call has to precede, one after
//! another, and remembers from where no order can be completed.
//! After Wing, Gong, "Testing and verifying concurrent objects", JPDC 17, 1993, and Lowe, "Testing for linearizability",
//! Concurrency and Computation 29(4), 2017.
ghost use Rattle.std.specs.Prelude.{◌≡◌, ◌↔◌, ℕ, ◌<◌, false, Some, None, List, ◌∷◌, length, IsTrue, IfOk, IfSome, IfNone, OnOk, All, option_map, slice_get};
ghost use Rattle.tso_fifo.specs.Candidates.{AreCandidates};
ghost use Rattle.tso_fifo.specs.Orders.{HasOrder, IsOrderOf, order_view};
ghost use Rattle.tso_fifo.specs.Search.{Explains, FindsNext, HasAllTaken, IsDead, IsDeadKey, Lets, MayBeNext, StandsNext, StartsWith, items_after, key_of, likely_answer, next_at, pops_left, pops_of, problem_of};
ghost use Rattle.tso_hist.specs.Views.{history_view};
ghost use Rattle.tso_model.specs.Linear.{Placed as ModelPlaced};
ghost use Rattle.tso_prog.specs.Views.{answer_view};

use crate::candidate::{Candidate, candidates};
use crate::memory::{Key, is_known, remember};
use crate::queue::Queue;
use crate::{Order, Placed};
use std::alloc::{AllocError, Global};
use std::collections::HashSet;
use tso_hist::History;
use tso_line::{CallKind, Mode};
use tso_list::Seq;
use tso_prog::Answer;

/// How far a search has come: for each candidate whether the order has it, and what the queue holds then.
#[derive(Drop)]
struct Configuration {
    taken: Seq<bool>,
    items: Seq<u64>,
}

/// What is sought: an order of these candidates, all begun calls of the history, that the queue allows.
#[derive(Clone, Copy)]
struct Search<'a> {
    history: &'a History,
    queue: Queue,
    candidates: &'a [Candidate],
}

// The other candidate, which the order has or has not, does not keep this one from being the next.
fn lets(history: &History, next: Candidate, other: Candidate, taken: bool) -> bool
    ensures { IsTrue result ↔ Lets (history_view history.now) next other taken }
{
    let same = other.thread == next.thread && other.call == next.call;
    if taken {
        return !same && !history.precedes(next.thread, next.call, other.thread, other.call);
    }
    if same || other.answer.is_none() {
        return true;
    }
    !history.precedes(other.thread, other.call, next.thread, next.call)
}

// The answer that the candidate may have next, unless it is a pending call that is refused.
fn likely_answer(next: Candidate, front: Option<u64>) -> Option<Answer>
    ensures { result ≡ likely_answer next.answer next.kind front }
{
    match (next.answer, next.kind, front) {
        (Some(answer), _, _) => Some(answer),
        (None, CallKind::Push(_), _) => Some(Answer::Done),
        (None, CallKind::Pop, Some(value)) => Some(Answer::Value(value)),
        (None, CallKind::Pop, None) => None,
    }
}

// What the queue holds after a call with this answer.
fn items_after(
    alloc: Global,
    items: &[u64],
    kind: CallKind,
    answer: Answer,
) -> Result<Seq<u64>, AllocError>
    ensures { IfOk result (λ after. after ≡ items_after items.now kind answer) }
{
    match (kind, answer) {
        (CallKind::Push(value), Answer::Done) => {
            let mut after = Seq::from_slice(alloc, items)?;
            after.push(value)?;
            Ok(after)
        }
        (CallKind::Pop, Answer::Value(_)) if !items.is_empty() => {
            Seq::from_slice(alloc, &items[1..])
        }
        _ => Seq::from_slice(alloc, items),
    }
}

// The call has returned and is not in the order.
fn is_missing(candidate: Candidate, taken: bool) -> bool
    ensures { IsTrue result ↔ ((taken ≡ false) × ¬ (candidate.answer ≡ None)) }
{
    !taken && candidate.answer.is_some()
}

// How many items the call can take, if the order has it not.
fn pops_of(kind: CallKind, taken: bool) -> usize
    ensures { result ≡ pops_of kind taken }
{
    match (kind, taken) {
        (CallKind::Pop, false) => 1,
        _ => 0,
    }
}

impl Search<'_> {
    // No other candidate keeps this one from being the next.
    fn is_next(&self, taken: &[bool], next: Candidate) -> bool
        requires all { AreCandidates self.now.candidates.now (history_view self.now.history.now) }
        requires len { length taken.now ≡ length self.now.candidates.now }
        ensures { IsTrue result ↔ MayBeNext (problem_of self.now.queue self.now.history.now self.now.candidates.now) taken.now next }
    {
        for i in 0..self.candidates.len() {
            if !lets(self.history, next, self.candidates[i], taken[i]) {
                return false;
            }
        }
        true
    }

    // The answer with which the candidate may be the next, if it may.
    fn next_answer(&self, at: &Configuration, next: Candidate) -> Option<Answer>
        requires all { AreCandidates self.now.candidates.now (history_view self.now.history.now) }
        requires len { length at.now.taken ≡ length self.now.candidates.now }
        ensures sound { IfSome result (λ answer. StandsNext (problem_of self.now.queue self.now.history.now self.now.candidates.now) at.now next answer) }
        ensures found { FindsNext (problem_of self.now.queue self.now.history.now self.now.candidates.now) at.now next (option_map answer_view result) }
    {
        let items = at.items.as_slice();
        let front = items.first().copied();
        let answer = likely_answer(next, front)?;
        if !self.is_next(at.taken.as_slice(), next) {
            return None;
        }
        if !self.queue.may_answer(items.len(), front, next.kind, answer) {
            return None;
        }
        Some(answer)
    }

    // How far the search is with candidate `index` in the order too.
    fn after(
        &self,
        alloc: Global,
        at: &Configuration,
        index: usize,
        answer: Answer,
    ) -> Result<Configuration, AllocError>
        requires within { index < length self.now.candidates.now }
        requires len { length at.now.taken ≡ length self.now.candidates.now }
        ensures { (c : Candidate) → slice_get self.now.candidates.now index ≡ Some c → IfOk result (λ next. next ≡ next_at at.now index c.kind answer) }
    {
        let mut taken = at.taken.copied()?;
        *taken.at_mut(index) = true;
        let kind = self.candidates[index].kind;
        let items = items_after(alloc, at.items.as_slice(), kind, answer)?;
        Ok(Configuration { taken, items })
    }

    // The order has each call that has returned.
    fn has_all_taken(&self, taken: &[bool]) -> bool
        requires all { AreCandidates self.now.candidates.now (history_view self.now.history.now) }
        requires len { length taken.now ≡ length self.now.candidates.now }
        ensures { IsTrue result ↔ HasAllTaken (problem_of self.now.queue self.now.history.now self.now.candidates.now) taken.now }
    {
        for i in 0..self.candidates.len() {
            if is_missing(self.candidates[i], taken[i]) {
                return false;
            }
        }
        true
    }

    // How many items the calls that the order has not can take at most.
    fn pops_left(&self, taken: &[bool]) -> usize
        requires len { length taken.now ≡ length self.now.candidates.now }
        ensures { result ≡ pops_left self.now.candidates.now taken.now }
    {
        let mut count = 0;
        for i in 0..self.candidates.len() {
            count += pops_of(self.candidates[i].kind, taken[i]);
        }
        count
    }

    // What of the configuration decides whether the order can be completed.
    fn key(&self, alloc: Global, at: &Configuration) -> Result<Key, AllocError>
        requires len { length at.now.taken ≡ length self.now.candidates.now }
        ensures { IfOk result (λ key. key ≡ key_of self.now.candidates.now at.now) }
    {
        let items = at.items.as_slice();
        let pops = self.pops_left(at.taken.as_slice()).min(items.len());
        let taken = at.taken.copied()?;
        let front = Seq::from_slice(alloc, &items[..pops])?;
        Ok(Key {
            taken,
            front,
            len: items.len(),
        })
    }

    // Extends the order by further candidates, if some of them complete it. Where none do, the order stays.
    fn extend(
        &self,
        alloc: Global,
        at: &Configuration,
        order: &mut Order,
        dead: &mut HashSet<Key>,
    ) -> Result<bool, AllocError>
        requires all { AreCandidates self.now.candidates.now (history_view self.now.history.now) }
        requires start { StartsWith self.now.queue self.now.history.now self.now.candidates.now at.now order.old }
        requires known { All (IsDeadKey (problem_of self.now.queue self.now.history.now self.now.candidates.now)) dead.old.keys }
        ensures found { IfOk result (λ found. IsTrue found → Explains self.now.queue self.now.history.now order.new) }
        ensures same { IfOk result (λ found. found ≡ false → order.new ≡ order.old) }
        ensures none { IfOk result (λ found. found ≡ false → IsDead (problem_of self.now.queue self.now.history.now self.now.candidates.now) at.now) }
        ensures known { OnOk result (All (IsDeadKey (problem_of self.now.queue self.now.history.now self.now.candidates.now)) dead.new.keys) }
    {
        if self.has_all_taken(at.taken.as_slice()) {
            return Ok(true);
        }
        let key = self.key(alloc, at)?;
        if is_known(dead, &key) {
            return Ok(false);
        }
        for index in 0..self.candidates.len() {
            let candidate = self.candidates[index];
            let Some(answer) = self.next_answer(at, candidate) else {
                continue;
            };
            let next = self.after(alloc, at, index, answer)?;
            order.push(Placed {
                thread: candidate.thread,
                call: candidate.call,
                answer,
            })?;
            if self.extend(alloc, &next, order, dead)? {
                return Ok(true);
            }
            order.pop();
        }
        remember(dead, key)?;
        Ok(false)
    }
}

/// An order that explains the history, where there is one: `None` says that no list of its begun calls, the pending ones
/// among them with whatever answers, is one. Fails only where memory is refused.
pub fn linearize(
    alloc: Global,
    history: &History,
    mode: Mode,
    capacity: usize,
) -> Result<Option<Order>, AllocError>
    ensures found { IfOk result (λ found. IfSome found (λ order. IsOrderOf mode capacity history.now (order_view (history_view history.now) order))) }
    ensures none { IfOk result (λ found. IfNone found (¬ (HasOrder mode capacity history.now))) }
{
    let candidates = candidates(alloc, history)?;
    let mut taken = Seq::new(alloc);
    for _ in 0..candidates.len() {
        taken.push(false)?;
    }
    let search = Search {
        history,
        queue: Queue { mode, capacity },
        candidates: candidates.as_slice(),
    };
    let at = Configuration {
        taken,
        items: Seq::new(alloc),
    };
    let mut order = Seq::new(alloc);
    let mut dead = HashSet::new(alloc);
    if search.extend(alloc, &at, &mut order, &mut dead)? {
        Ok(Some(order))
    } else {
        Ok(None)
    }
}
