//! Which kept states have parts as the client lets them be.

ghost use Rattle.std.specs.Prelude.{◌≡◌, IfOk, false, slice_get, slice_index_or};
ghost use Rattle.tso_keys.specs.Forms.{AreAnswers, AreForms, IsHistoryForm, IsMemoryForm, IsThreadForm, allows, allows_if, form_of, history_at_stages, row_at_stages, stage_at};
ghost use Rattle.tso_keys.specs.Keys.{AreKept, states_at};

use crate::key::{Key, NONE};
use crate::parts::Parts;
use crate::ranking::key_at;
use std::alloc::{AllocError, Global};
use std::marker::Model;
use tso_flow::{Checked, ProcedureKind};
use tso_hist::History;
use tso_list::Seq;
use tso_parts::{Catalog, Pool};
use tso_state::{Stage, Thread, begun_calls, has_words, history_fits, stage_of, thread_at_stage};

/// Whether a history fits the client (`history_fits`), and how far the last call of each thread has come.
#[derive(Clone, Copy)]
pub struct HistoryForm {
    pub fits: bool,
    pub stages: [Stage; 5],
}

/// Whether a thread is as the client lets it be (`thread_at_stage`), for each stage of its last call.
#[derive(Clone, Copy)]
pub struct ThreadForm {
    pub over: bool,
    pub push: bool,
    pub pop: bool,
}

/// For each state of a store whether its parts are as those of a well-formed state of the client (`parts_fit`). That is told by what was
/// asked once of each part. Contracts see these answers.
#[derive(Drop)]
pub struct Forms<'a> {
    keys: &'a Pool<Key>,
    memories: Seq<bool>,
    histories: Seq<HistoryForm>,
    threads: Seq<ThreadForm>,
}

impl<'a> Model for Forms<'a> {
    ghost use Rattle.std.specs.Prelude.{Bool, List};
    ghost use Rattle.tso_keys.specs.Forms.{forms_by};

    ghost Value = { List Bool };

    ghost view = { λ f. forms_by f.memories f.histories f.threads f.keys.now };
}

// Whether a thread may be at this stage of its last call.
fn allows(form: ThreadForm, stage: Stage) -> bool
    ensures { result ≡ allows form stage }
{
    match stage {
        Stage::Over => form.over,
        Stage::Pending(procedure) => match procedure {
            ProcedureKind::Push => form.push,
            ProcedureKind::Pop => form.pop,
        },
        Stage::Misanswered => false,
    }
}

// The same of the thread with this number, if there is one.
fn allowed_at(threads: &[ThreadForm], number: u32, stage: Stage) -> bool
    ensures { result ≡ allows_if (slice_get threads.now number) stage }
{
    match threads.get(number as usize) {
        Some(form) => allows(*form, stage),
        None => false,
    }
}

// Whether each thread of a row may be at the stage of its last call.
fn row_at_stages(threads: &[ThreadForm], row: &[u32], stages: &[Stage]) -> bool
    ensures { result ≡ row_at_stages threads.now row.now stages.now }
{
    let [number, rest @ ..] = row else {
        return true;
    };
    let [stage, others @ ..] = stages else {
        return false;
    };
    (*number == NONE || allowed_at(threads, *number, *stage))
        && row_at_stages(threads, rest, others)
}

// Whether the history with this number fits, if there is one, and each thread of a row with it.
fn history_at_stages(
    histories: &[HistoryForm],
    number: u32,
    threads: &[ThreadForm],
    row: &[u32],
) -> bool
    ensures { result ≡ history_at_stages threads.now row.now (slice_get histories.now number) }
{
    match histories.get(number as usize) {
        Some(form) => form.fits && row_at_stages(threads, row, form.stages.as_slice()),
        None => false,
    }
}

// What is known of the part with this number; that it does not fit where there is none.
fn form_at(forms: &[bool], number: u32) -> bool
    ensures { result ≡ slice_index_or forms.now number false }
{
    forms.get(number as usize).copied().unwrap_or(false)
}

// Whether the parts of the state of a key fit.
fn form_of(memories: &[bool], histories: &[HistoryForm], threads: &[ThreadForm], key: &Key) -> bool
    ensures { result ≡ form_of memories.now histories.now threads.now key.now }
{
    form_at(memories, key.memory)
        && history_at_stages(histories, key.history, threads, key.threads.as_slice())
}

impl<'a> Forms<'a> {
    /// Whether the parts of the state with this number fit; false where there is no such state.
    pub fn get(&self, number: u32) -> bool
        ensures { result ≡ slice_index_or self.now number false }
    {
        match key_at(self.keys, number) {
            Some(key) => form_of(
                self.memories.as_slice(),
                self.histories.as_slice(),
                self.threads.as_slice(),
                &key,
            ),
            None => false,
        }
    }
}

// How far the last call of a thread has come.
fn stage_at(history: &History, thread: usize) -> Stage
    ensures { result ≡ stage_at history.now thread }
{
    stage_of(begun_calls(history, thread))
}

// What is asked of a history.
fn history_form(checked: &Checked, history: &History) -> HistoryForm
    ensures { IsHistoryForm checked.now.client history.now result }
{
    HistoryForm {
        fits: history_fits(checked, history),
        stages: [
            stage_at(history, 0),
            stage_at(history, 1),
            stage_at(history, 2),
            stage_at(history, 3),
            stage_at(history, 4),
        ],
    }
}

// What is asked of a thread.
fn thread_form(checked: &Checked, thread: &Thread) -> ThreadForm
    ensures { IsThreadForm checked.now.client thread.now result }
{
    let push = Stage::Pending(ProcedureKind::Push);
    let pop = Stage::Pending(ProcedureKind::Pop);
    ThreadForm {
        over: thread_at_stage(checked, thread, Stage::Over),
        push: thread_at_stage(checked, thread, push),
        pop: thread_at_stage(checked, thread, pop),
    }
}

// For each memory whether it has as many words as the client's.
fn memory_forms(
    alloc: Global,
    checked: &Checked,
    memories: &Catalog<Seq<u64>>,
) -> Result<Seq<bool>, AllocError>
    ensures { IfOk result (AreAnswers (IsMemoryForm checked.now.client) memories.now) }
{
    let mut forms = Seq::new(alloc);
    for memory in memories.values() {
        forms.push(has_words(checked, memory.as_slice()))?;
    }
    Ok(forms)
}

// The form of each history.
fn history_forms(
    alloc: Global,
    checked: &Checked,
    histories: &Catalog<History>,
) -> Result<Seq<HistoryForm>, AllocError>
    ensures { IfOk result (AreAnswers (IsHistoryForm checked.now.client) histories.now) }
{
    let mut forms = Seq::new(alloc);
    for history in histories.values() {
        forms.push(history_form(checked, history))?;
    }
    Ok(forms)
}

// The form of each thread.
fn thread_forms(
    alloc: Global,
    checked: &Checked,
    threads: &Catalog<Thread>,
) -> Result<Seq<ThreadForm>, AllocError>
    ensures { IfOk result (AreAnswers (IsThreadForm checked.now.client) threads.now) }
{
    let mut forms = Seq::new(alloc);
    for thread in threads.values() {
        forms.push(thread_form(checked, thread))?;
    }
    Ok(forms)
}

/// For each state of these keys whether its parts fit the client, which is told by what is asked once of each part.
///
/// Errors: where a growth was refused.
pub fn forms_of<'a>(
    alloc: Global,
    checked: &Checked,
    parts: &Parts,
    keys: &'a Pool<Key>,
) -> Result<Forms<'a>, AllocError>
    requires { AreKept checked.now.client parts.now keys.now }
    ensures { IfOk result (AreForms checked.now.client (states_at parts.now keys.now)) }
{
    parts.threads.is_numbered();
    let memories = memory_forms(alloc, checked, &parts.memories)?;
    let histories = history_forms(alloc, checked, &parts.histories)?;
    let threads = thread_forms(alloc, checked, &parts.threads)?;
    Ok(Forms {
        keys,
        memories,
        histories,
        threads,
    })
}
