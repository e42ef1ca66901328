//! Which states are well-formed: all that a single state shows of having been reached.
ghost use Rattle.std.specs.Prelude.{◌≡◌, ◌↔◌, ◌<◌, ◌≤◌, length, sum_by, All, IsTrue, slice_get, slice_index_or, []};
ghost use Rattle.tso_machine.specs.Places.{first_memory};
ghost use Rattle.tso_machine.specs.Soundness.{are_within, back_bounds, bounds_in};
ghost use Rattle.tso_state.specs.Fitting.{AreEarlierAnswered, AreInside, AreNumbered, AreTheThreads, FitsAt, HasLengths, HaveAllSeenAtMost, HaveSeenAtMost, HistoryFits, IsNumbered, IsOtherStarted, ListsFit, NoneHasStarted, PartsFit, PrologueFits, SeenFits, SeesAtMost, ThreadFits, ThreadsFit, back_bound};
ghost use Rattle.tso_state.specs.Initial.{idle_thread};
ghost use Rattle.tso_state.specs.Stages.{CoreAtStage, ThreadAtStage, stage_by, stage_of};
ghost use Rattle.tso_state.specs.WellFormed.{HasStarted, IsAnswered, IsFrameOf, IsPrologueOver, IsWellFormed, answered_count, client_calls, thread_total, word_count};

use crate::stage::Stage;
use crate::state::{Core, Thread};
use crate::viewed::{Viewed, begun_calls};
use tso_flow::{Checked, ProcedureKind};
use tso_hist::{Call, History};
use tso_line::{CallKind, Instruction};
use tso_machine::{Entry, Frame, calls_of, procedure_of, thread_count};
use tso_prog::{Answer, Array, Client, Step};

// How many words the client's memory has.
fn count_words(arrays: &[Array]) -> usize
    requires { sum_by (λ a. length a.words) arrays.now ≤ 256 }
    ensures { result ≡ length (first_memory arrays.now) }
{
    let mut count = 0;
    for array in arrays {
        count += array.words.len();
    }
    count
}

// Whether each of these places is inside a memory of so many words.
fn are_inside(words: usize, buffer: &[Entry]) -> bool
    ensures { IsTrue result ↔ AreInside words buffer.now }
{
    buffer.iter().all(|entry| entry.place < words)
}

// Whether this is call `number` of the thread, whose calls are of these kinds, where there are so many threads.
fn is_numbered(kinds: &[CallKind], width: usize, thread: usize, number: usize, call: &Call) -> bool
    ensures { IsTrue result ↔ IsNumbered kinds.now width thread number call.now }
{
    call.seen.len() == width
        && kinds.get(number) == Some(&call.kind)
        && call.seen.get(thread) == Some(&number)
}

// Whether these are the first calls of the thread.
fn are_numbered(kinds: &[CallKind], width: usize, thread: usize, calls: &[Call]) -> bool
    ensures { IsTrue result ↔ AreNumbered kinds.now width thread calls.now }
{
    for (number, call) in calls.iter().enumerate() {
        if !is_numbered(kinds, width, thread, number, call) {
            return false;
        }
    }
    true
}

fn is_answered(call: &Call) -> bool
    ensures { IsTrue result ↔ IsAnswered call.now }
{
    match call.answer {
        None => false,
        Some(Answer::Refused) => true,
        Some(Answer::Done) => matches!(call.kind, CallKind::Push(_)),
        Some(Answer::Value(_)) => matches!(call.kind, CallKind::Pop),
    }
}

fn are_answered(calls: &[Call]) -> bool
    ensures { IsTrue result ↔ All IsAnswered calls.now }
{
    calls.iter().all(|call| is_answered(call))
}

// How many of these calls are answered.
fn count_answered(calls: &[Call]) -> usize
    ensures { result ≡ answered_count calls.now }
{
    calls.iter().filter(|c| c.answer.is_some()).count()
}

// The bound of a back jump.
fn back_bound(at: usize, step: Step) -> Option<u8>
    ensures { result ≡ back_bound at step }
{
    match step {
        Instruction::Jump { target, bound, .. } if target <= at => Some(bound.unwrap_or(0)),
        _ => None,
    }
}

// Whether these are counts of the back jumps of these instructions, each at most its bound.
fn are_within(taken: &[u8], steps: &[Step]) -> bool
    ensures { result ≡ are_within taken.now (back_bounds 0 steps.now) }
{
    let mut number = 0;
    for (at, step) in steps.iter().enumerate() {
        if let Some(bound) = back_bound(at, *step) {
            if number >= taken.len() || taken[number] > bound {
                return false;
            }
            number += 1;
        }
    }
    number == taken.len()
}

// Whether a call of this procedure can be in this frame.
fn is_frame_of(client: &Client, procedure: ProcedureKind, frame: &Frame) -> bool
    ensures { IsTrue result ↔ IsFrameOf client.now procedure frame.now }
{
    let steps = procedure_of(client, procedure).instructions.as_slice();
    frame.pc < steps.len() && are_within(frame.taken.as_slice(), steps)
}

// How far a call has come.
fn stage_of_call(call: &Call) -> Stage
    ensures { result ≡ stage_by call.now.kind call.now.answer }
{
    match call.answer {
        None => Stage::Pending(ProcedureKind::from(call.kind)),
        Some(Answer::Refused) => Stage::Over,
        Some(Answer::Done) => match call.kind {
            CallKind::Push(_) => Stage::Over,
            CallKind::Pop => Stage::Misanswered,
        },
        Some(Answer::Value(_)) => match call.kind {
            CallKind::Push(_) => Stage::Misanswered,
            CallKind::Pop => Stage::Over,
        },
    }
}

/// How far the last of these calls has come.
pub fn stage_of(calls: &[Call]) -> Stage
    ensures { result ≡ stage_of calls.now }
{
    match calls.split_last() {
        Some((last, _)) => stage_of_call(last),
        None => Stage::Over,
    }
}

// Whether a core is as the client lets it be, where the last call of its thread has come so far.
fn core_at_stage(client: &Client, core: &Core, stage: Stage) -> bool
    ensures { IsTrue result ↔ CoreAtStage client.now stage core.now }
{
    match stage {
        Stage::Over => matches!(core, Core::Idle),
        Stage::Pending(procedure) => match core {
            Core::Idle => false,
            Core::Running(frame) => is_frame_of(client, procedure, frame),
            Core::Stopped => true,
        },
        Stage::Misanswered => false,
    }
}

// Whether all of these calls but the last are answered.
fn are_earlier_answered(calls: &[Call]) -> bool
    ensures { IsTrue result ↔ AreEarlierAnswered calls.now }
{
    match calls.split_last() {
        Some((_, earlier)) => are_answered(earlier),
        None => true,
    }
}

// Whether the call has seen at most so many answers of the thread.
fn sees_at_most(thread: usize, count: usize, seen: &[usize]) -> bool
    ensures { IsTrue result ↔ SeesAtMost thread count seen.now }
{
    match seen.get(thread) {
        Some(number) => *number <= count,
        None => true,
    }
}

fn have_seen_at_most(thread: usize, count: usize, calls: &[Call]) -> bool
    ensures { IsTrue result ↔ HaveSeenAtMost thread count calls.now }
{
    calls
        .iter()
        .all(|call| sees_at_most(thread, count, call.seen.as_slice()))
}

fn all_have_seen_at_most(history: &History, width: usize, thread: usize, count: usize) -> bool
    ensures { IsTrue result ↔ HaveAllSeenAtMost history.now width thread count }
{
    for number in 0..width {
        if !have_seen_at_most(thread, count, begun_calls(history, number)) {
            return false;
        }
    }
    true
}

// Whether no call has seen more answers of a thread than there are.
fn seen_fits(history: &History, width: usize) -> bool
    ensures { IsTrue result ↔ SeenFits history.now width }
{
    for thread in 0..width {
        let count = count_answered(begun_calls(history, thread));
        if !all_have_seen_at_most(history, width, thread, count) {
            return false;
        }
    }
    true
}

// How many threads there are, the prologue's counted.
fn width_of(client: &Client) -> usize
    ensures { result ≡ thread_total client.now }
{
    thread_count(client)
}

// The client's calls of a thread.
fn kinds_of(client: &Client, number: usize) -> &[CallKind]
    ensures { result.now ≡ client_calls client.now number }
{
    calls_of(client, number)
}

// Whether these are the first calls of a thread, of which all but the last are answered.
fn are_the_threads(client: &Client, width: usize, number: usize, calls: &[Call]) -> bool
    requires { width ≡ thread_total client.now }
    ensures { IsTrue result ↔ AreTheThreads client.now number calls.now }
{
    are_numbered(kinds_of(client, number), width, number, calls) && are_earlier_answered(calls)
}

// Whether the calls of each thread are such.
fn lists_fit(client: &Client, width: usize, history: &History) -> bool
    requires { width ≡ thread_total client.now }
    ensures { IsTrue result ↔ ListsFit client.now history.now }
{
    for number in 0..width {
        if !are_the_threads(client, width, number, begun_calls(history, number)) {
            return false;
        }
    }
    true
}

/// Whether the calls of all threads are as those of a well-formed state of the client, as far as they alone tell it: they are the
/// client's, all but the last of each thread are answered, and none has seen more answers than there are. It takes no memory.
pub fn history_fits(checked: &Checked, history: &History) -> bool
    ensures { IsTrue result ↔ HistoryFits checked.now.client history.now }
{
    let client = &checked.client;
    let width = width_of(client);
    lists_fit(client, width, history) && seen_fits(history, width)
}

// Whether a thread is as the client, whose memory has so many words, lets it be, where its last call has come so far.
fn at_stage_among(client: &Client, words: usize, thread: &Thread, stage: Stage) -> bool
    requires { words ≡ word_count client.now }
    ensures { IsTrue result ↔ ThreadAtStage client.now thread.now stage }
{
    are_inside(words, thread.buffer.as_slice()) && core_at_stage(client, &thread.core, stage)
}

/// Whether a thread is as in a well-formed state of the client, where its last call has come so far, as both alone tell it: what is
/// buffered is inside the memory, and its core and the call fit each other.
pub fn thread_at_stage(checked: &Checked, thread: &Thread, stage: Stage) -> bool
    ensures { IsTrue result ↔ ThreadAtStage checked.now.client thread.now stage }
{
    let client = &checked.client;
    let words = count_words(client.arrays.as_slice());
    at_stage_among(client, words, thread, stage)
}

/// Whether a memory has as many words as the client's.
pub fn has_words(checked: &Checked, memory: &[u64]) -> bool
    ensures { IsTrue result ↔ (length memory.now ≡ word_count checked.now.client) }
{
    memory.len() == count_words(checked.client.arrays.as_slice())
}

// Whether a thread and its last call are as the client, whose memory has so many words, lets them be.
fn thread_fits(client: &Client, words: usize, thread: &Thread, calls: &[Call]) -> bool
    requires { words ≡ word_count client.now }
    ensures { IsTrue result ↔ ThreadFits client.now thread.now calls.now }
{
    at_stage_among(client, words, thread, stage_of(calls))
}

fn fits_at<S: Viewed>(client: &Client, words: usize, state: &S, number: usize) -> bool
    requires { words ≡ word_count client.now }
    ensures { IsTrue result ↔ FitsAt client.now (slice_get (S.state state.now).threads number) (slice_get (S.state state.now).history number) }
{
    let Some(thread) = state.thread(number) else {
        return false;
    };
    let Some(calls) = state.calls(number) else {
        return false;
    };
    thread_fits(client, words, thread, calls)
}

fn threads_fit<S: Viewed>(client: &Client, words: usize, state: &S) -> bool
    requires { words ≡ word_count client.now }
    ensures { IsTrue result ↔ ThreadsFit client.now (S.state state.now) }
{
    for number in 0..width_of(client) {
        if !fits_at(client, words, state, number) {
            return false;
        }
    }
    true
}

fn has_started<S: Viewed>(state: &S, number: usize) -> bool
    ensures { IsTrue result ↔ HasStarted (S.state state.now) number }
{
    if state.begun(number) > 0 {
        return true;
    }
    match state.thread(number) {
        Some(thread) => !thread.buffer.is_empty(),
        None => false,
    }
}

fn is_other_started<S: Viewed>(state: &S, prologue: usize, number: usize) -> bool
    ensures { IsTrue result ↔ IsOtherStarted (S.state state.now) prologue number }
{
    number != prologue && has_started(state, number)
}

// Whether no thread but the prologue's has started.
fn none_has_started<S: Viewed>(state: &S, width: usize, prologue: usize) -> bool
    ensures { IsTrue result ↔ NoneHasStarted (S.state state.now) width prologue }
{
    for number in 0..width {
        if is_other_started(state, prologue, number) {
            return false;
        }
    }
    true
}

fn is_idle_thread(thread: &Thread) -> bool
    ensures { IsTrue result ↔ (thread.now ≡ idle_thread) }
{
    matches!(thread.core, Core::Idle) && thread.buffer.is_empty()
}

fn is_prologue_over<S: Viewed>(client: &Client, state: &S) -> bool
    ensures { IsTrue result ↔ IsPrologueOver client.now (S.state state.now) }
{
    let number = client.threads.len();
    let Some(thread) = state.thread(number) else {
        return false;
    };
    let calls = begun_calls(state.history(), number);
    is_idle_thread(thread)
        && calls.len() == client.prologue.len()
        && count_answered(calls) == client.prologue.len()
}

// Whether no other thread has started before the prologue is over, where there is one.
fn prologue_fits<S: Viewed>(client: &Client, state: &S) -> bool
    ensures { IsTrue result ↔ PrologueFits client.now (S.state state.now) }
{
    if client.prologue.is_empty() {
        return true;
    }
    if is_prologue_over(client, state) {
        return true;
    }
    none_has_started(state, width_of(client), client.threads.len())
}

fn has_lengths<S: Viewed>(client: &Client, words: usize, state: &S) -> bool
    requires { words ≡ word_count client.now }
    ensures { IsTrue result ↔ HasLengths client.now (S.state state.now) }
{
    let width = width_of(client);
    state.memory().len() == words && state.thread_count() == width && state.history_count() == width
}

/// Whether the memory, the history and each thread with its last call are as in a well-formed state of the client, as far as each
/// alone tells it. It takes no memory.
pub fn parts_fit<S: Viewed>(checked: &Checked, state: &S) -> bool
    ensures { IsTrue result ↔ PartsFit checked.now.client (S.state state.now) }
{
    let client = &checked.client;
    let words = count_words(client.arrays.as_slice());
    if !has_lengths(client, words, state) {
        return false;
    }
    if !history_fits(checked, state.history()) {
        return false;
    }
    threads_fit(client, words, state)
}

/// Whether a state is well-formed for the client, where it is known whether its parts are as those of one (`parts_fit`). It is asked of
/// any state, whatever its parts are, and takes no memory.
pub fn is_well_formed_given<S: Viewed>(checked: &Checked, state: &S, fits: bool) -> bool
    requires { IsTrue fits ↔ PartsFit checked.now.client (S.state state.now) }
    ensures { IsTrue result ↔ IsWellFormed checked.now.client (S.state state.now) }
{
    if !fits {
        return false;
    }
    prologue_fits(&checked.client, state)
}

/// Whether the state is well-formed for the client. It is asked of any state, whatever its parts are, and takes no memory.
pub fn is_well_formed<S: Viewed>(checked: &Checked, state: &S) -> bool
    ensures { IsTrue result ↔ IsWellFormed checked.now.client (S.state state.now) }
{
    let fits = parts_fit(checked, state);
    is_well_formed_given(checked, state, fits)
}
