//! Labels with what is shown beside them, and the calls of a run, printed.

ghost use Rattle.std.specs.Prelude.{◌≡◌, IfSome};
ghost use Rattle.tso_show.specs.Drains.{IsDrainAfter, is_drain_of};

use crate::line::line_text;
use crate::moment::{Moment, next_moment};
use crate::site::Site;
use crate::state::Show;
use crate::stop::{before_stop, stop_of};
use crate::unordered::{Served, ordered_part};
use crate::walk::{Walk, WalkError};
use std::alloc::{AllocError, Global};
use std::fmt;
use std::io::Write;
use thiserror::Error;
use tso_fifo::Order;
use tso_flow::ProcedureKind;
use tso_machine::{Entry, Label, LabelKind};
use tso_prog::{Array, Client};
use tso_trace::{cell_name, line_of};
use tso_why::{Answered, Asked, Cause, TimedCall, calls_in, cause_of, end_of};

/// Why something is not printed to its end.
#[derive(Debug, PartialEq, Eq, Drop, Error)]
pub enum ShowError {
    /// The label of this number, from 1, is no step after those before it.
    #[error("label {label} is no step")]
    NotAStep { label: usize },
    /// It cannot be written.
    #[error("a write failed")]
    Write,
    /// A growth was refused.
    #[error("out of memory")]
    Memory,
}

impl From<AllocError> for ShowError {
    fn from(_e: AllocError) -> ShowError {
        ShowError::Memory
    }
}

impl From<WalkError> for ShowError {
    fn from(e: WalkError) -> ShowError {
        match e {
            WalkError::NotAStep { label } => ShowError::NotAStep { label },
            WalkError::Memory => ShowError::Memory,
        }
    }
}

/// A procedure by its name.
#[derive(Clone, Copy)]
pub struct Name(pub ProcedureKind);

impl fmt::Display for Name {
    fn fmt<W: fmt::Write>(&self, f: &mut fmt::Formatter<W>) -> fmt::Result {
        match self.0 {
            ProcedureKind::Push => f.write_str("push"),
            ProcedureKind::Pop => f.write_str("pop"),
        }
    }
}

impl fmt::Display for Site {
    fn fmt<W: fmt::Write>(&self, f: &mut fmt::Formatter<W>) -> fmt::Result {
        let name = Name(self.procedure);
        let line = self.line;
        write!(f, "{name}, line {line}")
    }
}

fn put<W: Write>(out: &mut W, bytes: &[u8]) -> Result<(), ShowError> {
    out.write_all(bytes).map_err(|_| ShowError::Write)
}

// Prints a text that was made for it.
fn put_made<W: Write>(out: &mut W, text: Result<String, AllocError>) -> Result<(), ShowError> {
    put(out, text?.as_bytes())
}

// Prints the instruction that takes a label, and its line of the text without the spaces around it.
fn put_site<W: Write>(
    alloc: Global,
    out: &mut W,
    source: &[u8],
    site: Option<Site>,
) -> Result<(), ShowError> {
    match site {
        Some(site) => {
            put_made(out, format!(in alloc; "{site}: "))?;
            put(out, line_text(source, site.line as usize).trim_ascii())
        }
        None => Ok(()),
    }
}

/// Prints a label behind its number, and the instruction that takes it where that is asked for.
pub fn put_label<W: Write>(
    alloc: Global,
    out: &mut W,
    source: &[u8],
    number: usize,
    line: &str,
    site: Option<Site>,
) -> Result<(), ShowError> {
    if site.is_some() {
        put_made(out, format!(in alloc; "{number:>6} {line:<28}  "))?;
        put_site(alloc, out, source, site)
    } else {
        put_made(out, format!(in alloc; "{number:>6} {line}"))
    }
}

/// Prints a label behind its number, and what is shown beside and after it.
pub fn put_moment<W: Write>(
    alloc: Global,
    out: &mut W,
    client: &Client,
    source: &[u8],
    show: Show,
    number: usize,
    moment: &Moment,
) -> Result<(), ShowError> {
    let line = line_of(alloc, client.arrays.as_slice(), moment.label)?;
    let site = if show.source { moment.site } else { None };
    put_label(alloc, out, source, number, line.as_str(), site)?;
    put(out, b"\n")?;
    put(out, moment.shown.as_bytes())
}

/// Prints the next labels of a walk, at most so many, each on a line behind its number, with what is shown of it.
pub fn print_labels<W: Write>(
    alloc: Global,
    out: &mut W,
    walk: &mut Walk<'_>,
    source: &[u8],
    show: Show,
    count: usize,
) -> Result<(), ShowError> {
    for _ in 0..count {
        let Some(moment) = next_moment(alloc, walk, show)? else {
            return Ok(());
        };
        let number = walk.position();
        let client = &walk.checked().client;
        put_moment(alloc, out, client, source, show, number, &moment)?;
    }
    Ok(())
}

/// Prints the calls of a run, one a line, with their answers and the labels from which and to which they last.
pub fn print_calls<W: Write>(
    alloc: Global,
    out: &mut W,
    labels: &[Label],
) -> Result<(), ShowError> {
    put(out, b"calls\n")?;
    for call in calls_in(alloc, labels)? {
        put_made(out, format!(in alloc; "  {call}\n"))?;
    }
    Ok(())
}

// The call of this number among a thread's.
fn call_of(calls: &[TimedCall], thread: usize, number: usize) -> Option<TimedCall> {
    let mut before = number;
    for call in calls {
        if call.thread == thread {
            if before == 0 {
                return Some(*call);
            }
            before -= 1;
        }
    }
    None
}

// Prints the calls of an order, each with its answer.
fn put_order<W: Write>(
    alloc: Global,
    out: &mut W,
    calls: &[TimedCall],
    order: &Order,
) -> Result<(), ShowError> {
    for placed in order.as_slice() {
        let thread = placed.thread;
        let answer = Answered(placed.answer);
        if let Some(call) = call_of(calls, thread, placed.call) {
            let asked = Asked(call.kind);
            put_made(
                out,
                format!(in alloc; "  thread {thread} {asked}: {answer}\n"),
            )?;
        }
    }
    Ok(())
}

// Prints the call that returns at a label.
fn put_returning<W: Write>(
    alloc: Global,
    out: &mut W,
    calls: &[TimedCall],
    number: usize,
) -> Result<(), ShowError> {
    for call in calls {
        if matches!(call.returns, Some(returned) if returned.label == number) {
            put_made(out, format!(in alloc; "  {call}\n"))?;
        }
    }
    Ok(())
}

// Prints an order of the calls up to a label.
fn put_served<W: Write>(
    alloc: Global,
    out: &mut W,
    calls: &[TimedCall],
    label: usize,
    order: &Order,
) -> Result<(), ShowError> {
    put_made(out, format!(in alloc; "an order up to label {label}\n"))?;
    put_order(alloc, out, calls, order)
}

fn is_drain_of(label: &Label, thread: usize) -> bool
    ensures { result ≡ is_drain_of thread label.now }
{
    label.thread == thread && matches!(label.kind, LabelKind::Drain { .. })
}

// The number of the label, behind the first `from`, with which a thread's buffer drains once more after `earlier` times.
fn drained_at(labels: &[Label], from: usize, thread: usize, earlier: usize) -> Option<usize>
    ensures { IfSome result (IsDrainAfter labels.now from thread) }
{
    let mut left = earlier;
    for at in from..labels.len() {
        if is_drain_of(&labels[at], thread) {
            if left == 0 {
                return Some(at + 1);
            }
            left -= 1;
        }
    }
    None
}

// A store that is in a buffer, and the label with which it drains, if it does.
fn held(
    alloc: Global,
    arrays: &[Array],
    entry: Entry,
    drained: Option<usize>,
) -> Result<String, AllocError> {
    let cell = cell_name(alloc, arrays, entry.place)?;
    let word = entry.word;
    match drained {
        Some(label) => format!(in alloc; "  {cell} = {word} (drained at {label})"),
        None => format!(in alloc; "  {cell} = {word}"),
    }
}

// Whether with this label a thread reads a word of memory.
fn is_read_of(label: &Label, thread: usize, cell: usize) -> bool {
    match label.kind {
        LabelKind::Read { place, .. } => label.thread == thread && place == cell,
        _ => false,
    }
}

// Whether a call of another thread has read a cell for which there is a store in this one's buffer.
fn has_missed(labels: &[Label], call: TimedCall, thread: usize, entries: &[Entry]) -> bool {
    let Some(during) = labels.get(call.begins..end_of(call.returns)) else {
        return false;
    };
    thread != call.thread
        && entries.iter().any(|entry| during
            .iter()
            .any(|label| is_read_of(label, call.thread, entry.place)))
}

// Prints what was in the store buffer of a thread behind a run, if a call of another thread has missed it, and where that drains in
// the labels that the run begins.
fn put_held<W: Write>(
    alloc: Global,
    out: &mut W,
    walk: &Walk<'_>,
    labels: &[Label],
    call: TimedCall,
    thread: usize,
) -> Result<(), ShowError> {
    let Some(holder) = walk.machine().threads.get(thread) else {
        return Ok(());
    };
    let entries = holder.buffer.live();
    if !has_missed(walk.taken(), call, thread, entries) {
        return Ok(());
    }
    let arrays = walk.checked().client.arrays.as_slice();
    let from = walk.taken().len();
    let mut text = String::new(alloc);
    for (earlier, entry) in entries.iter().enumerate() {
        let drained = drained_at(labels, from, thread, earlier);
        text.push_str(held(alloc, arrays, *entry, drained)?.as_str())?;
    }
    put_made(
        out,
        format!(in alloc; "  stores of thread {thread} were still in its buffer:{text}\n"),
    )
}

// Prints calls of which no sentence says why they have no order.
fn put_unordered<W: Write>(
    alloc: Global,
    out: &mut W,
    calls: &[TimedCall],
) -> Result<(), ShowError> {
    put(out, b"  no order of these calls explains their answers\n")?;
    for call in calls {
        put_made(out, format!(in alloc; "    {call}\n"))?;
    }
    Ok(())
}

// Prints why the calls of a run have no order, which begins these labels: a sentence where one holds, and else the calls.
fn put_cause<W: Write>(
    alloc: Global,
    out: &mut W,
    walk: &Walk<'_>,
    labels: &[Label],
) -> Result<(), ShowError> {
    let client = &walk.checked().client;
    let calls = calls_in(alloc, walk.taken())?;
    let Some(cause) = cause_of(&calls, client.mode, usize::from(client.capacity)) else {
        return put_unordered(alloc, out, &calls);
    };
    put_made(out, format!(in alloc; "  {cause}\n"))?;
    match cause {
        Cause::NotEmpty { pop, push } => put_held(alloc, out, walk, labels, pop, push.thread),
        _ => Ok(()),
    }
}

// Prints from which label on the calls of a run have no order, the call that returns there, and why.
fn put_end_of_order<W: Write>(
    alloc: Global,
    out: &mut W,
    walk: &Walk<'_>,
    calls: &[TimedCall],
    label: usize,
) -> Result<(), ShowError> {
    put_made(out, format!(in alloc; "no order from label {label} on\n"))?;
    put_returning(alloc, out, calls, label)?;
    let labels = walk.taken();
    let end = label.min(labels.len());
    let part = Walk::to_end(alloc, walk.checked(), &labels[..end])?;
    put_cause(alloc, out, &part, labels)
}

/// Prints how far the calls of the labels that a walk has taken have an order, and one. Where they have none to the end, it
/// prints the first label with which they have none, the call that returns there, and why.
pub fn print_order<W: Write>(alloc: Global, out: &mut W, walk: &Walk<'_>) -> Result<(), ShowError> {
    let labels = walk.taken();
    let calls = calls_in(alloc, labels)?;
    match ordered_part(alloc, &walk.checked().client, labels)? {
        Served::Whole(order) => put_served(alloc, out, &calls, labels.len(), &order),
        Served::Until { label, order } => {
            put_end_of_order(alloc, out, walk, &calls, label)?;
            put_served(alloc, out, &calls, label.saturating_sub(1), &order)
        }
    }
}

// Prints why a thread stops with this label behind those that a walk has taken.
fn put_stop<W: Write>(
    alloc: Global,
    out: &mut W,
    walk: &Walk<'_>,
    label: Label,
) -> Result<(), ShowError> {
    match stop_of(&walk.checked().client, walk, label) {
        Some(stop) => put_made(out, format!(in alloc; "{stop}\n")),
        None => Ok(()),
    }
}

// Prints why a thread stops in a run, if one does: of the first that does.
fn put_first_stop<W: Write>(alloc: Global, out: &mut W, walk: &Walk<'_>) -> Result<(), ShowError> {
    let labels = walk.taken();
    match before_stop(labels) {
        Some(before) => {
            let part = Walk::to_end(alloc, walk.checked(), &labels[..before])?;
            put_stop(alloc, out, &part, labels[before])
        }
        None => Ok(()),
    }
}

/// Prints what is wrong with a run, if something is: where a thread stops, the call in which it does, its label and line, and
/// why; and where its calls have no order, from which label on they have none, the call that returns there, and why: in a
/// sentence, or by all its calls where none of the sentences holds.
pub fn print_cause<W: Write>(alloc: Global, out: &mut W, walk: &Walk<'_>) -> Result<(), ShowError> {
    put_first_stop(alloc, out, walk)?;
    let labels = walk.taken();
    let calls = calls_in(alloc, labels)?;
    match ordered_part(alloc, &walk.checked().client, labels)? {
        Served::Whole(_) => Ok(()),
        Served::Until { label, .. } => put_end_of_order(alloc, out, walk, &calls, label),
    }
}
