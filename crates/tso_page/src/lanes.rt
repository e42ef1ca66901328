//! The lanes of a page: for each thread its calls, its labels and its stores in time.

use crate::html::{put, put_made};
use std::alloc::{AllocError, Global};
use std::fmt;
use tso_machine::{Label, LabelKind, thread_count};
use tso_prog::Client;
use tso_why::{Answered, Asked, TimedCall, calls_in};

/// A store, from the label that writes it to the one that drains it.
#[derive(Clone, Copy)]
struct Store {
    from: usize,
    to: usize,
}

fn is_write(kind: LabelKind) -> bool {
    matches!(kind, LabelKind::Write { .. })
}

fn is_drain(kind: LabelKind) -> bool {
    matches!(kind, LabelKind::Drain { .. })
}

// The stores of a thread. A buffer is a queue, so each drain is of the first write that is not yet drained.
fn stores_of(alloc: Global, labels: &[Label], thread: usize) -> Result<Vec<Store>, AllocError> {
    let mut stores = Vec::new(alloc);
    let mut drained: usize = 0;
    for (at, label) in labels.iter().enumerate() {
        if label.thread != thread {
            continue;
        }
        if is_write(label.kind) {
            stores.push(Store {
                from: at + 1,
                to: labels.len(),
            })?;
        }
        if is_drain(label.kind) && drained < stores.len() {
            stores[drained].to = at + 1;
            drained += 1;
        }
    }
    Ok(stores)
}

fn class_of(kind: LabelKind) -> &'static str {
    match kind {
        LabelKind::Call(_) => "call",
        LabelKind::Reg => "reg",
        LabelKind::Read { .. } => "read",
        LabelKind::Write { .. } => "write",
        LabelKind::Drain { .. } => "drain",
        LabelKind::Fence => "fence",
        LabelKind::Lock => "lock",
        LabelKind::Unlock => "unlock",
        LabelKind::Return(_) => "return",
        LabelKind::Fault(_) => "fault",
    }
}

/// Whose lane it is.
#[derive(Clone, Copy)]
pub enum Lane {
    Thread(usize),
    /// The thread of the prologue.
    Before,
}

impl Lane {
    /// The lane of a thread of the client.
    pub fn of(client: &Client, thread: usize) -> Lane {
        if thread < client.threads.len() {
            Lane::Thread(thread)
        } else {
            Lane::Before
        }
    }
}

impl fmt::Display for Lane {
    fn fmt<W: fmt::Write>(&self, f: &mut fmt::Formatter<W>) -> fmt::Result {
        match self {
            Lane::Thread(thread) => write!(f, "thread {thread}"),
            Lane::Before => f.write_str("before"),
        }
    }
}

// Adds the beginning of a call's bar.
fn put_bar(
    alloc: Global,
    page: &mut Vec<u8>,
    call: TimedCall,
    count: usize,
) -> Result<(), AllocError> {
    let from = call.begins;
    let (class, to) = match call.returns {
        Some(returned) => ("bar", returned.label),
        None => ("bar open", count),
    };
    put_made(
        page,
        format!(in alloc;
            "<div class=\"{class}\" style=\"--from:{from};--to:{to}\" title=\"{call}\"><span>"
        ),
    )
}

// Adds what stands in a call's bar.
fn put_asked(alloc: Global, page: &mut Vec<u8>, call: TimedCall) -> Result<(), AllocError> {
    let asked = Asked(call.kind);
    match call.returns {
        Some(returned) => {
            let answer = Answered(returned.answer);
            put_made(page, format!(in alloc; "{asked}: {answer}"))
        }
        None => put_made(page, format!(in alloc; "{asked}: pending")),
    }
}

// Adds a bar for a call.
fn put_call(
    alloc: Global,
    page: &mut Vec<u8>,
    call: TimedCall,
    count: usize,
) -> Result<(), AllocError> {
    put_bar(alloc, page, call, count)?;
    put_asked(alloc, page, call)?;
    put(page, "</span></div>\n")
}

fn put_calls(
    alloc: Global,
    page: &mut Vec<u8>,
    labels: &[Label],
    thread: usize,
) -> Result<(), AllocError> {
    for call in calls_in(alloc, labels)? {
        if call.thread == thread {
            put_call(alloc, page, call, labels.len())?;
        }
    }
    Ok(())
}

// Adds a mark for each label of a thread.
fn put_ticks(
    alloc: Global,
    page: &mut Vec<u8>,
    labels: &[Label],
    thread: usize,
) -> Result<(), AllocError> {
    for (at, label) in labels.iter().enumerate() {
        if label.thread == thread {
            let class = class_of(label.kind);
            let number = at + 1;
            put_made(
                page,
                format!(in alloc; "<i class=\"tick {class}\" style=\"--from:{number}\"></i>"),
            )?;
        }
    }
    put(page, "\n")
}

// Adds a thin bar for each store of a thread, on three rows in turn.
fn put_stores(alloc: Global, page: &mut Vec<u8>, stores: &[Store]) -> Result<(), AllocError> {
    for (number, store) in stores.iter().enumerate() {
        let row = number % 3;
        let from = store.from;
        let to = store.to;
        put_made(
            page,
            format!(in alloc;
                "<div class=\"store\" style=\"--from:{from};--to:{to};--row:{row}\"></div>\n"
            ),
        )?;
    }
    Ok(())
}

fn put_lane(
    alloc: Global,
    page: &mut Vec<u8>,
    client: &Client,
    labels: &[Label],
    thread: usize,
) -> Result<(), AllocError> {
    let lane = Lane::of(client, thread);
    put_made(
        page,
        format!(in alloc;
            "<div class=\"lane\"><div class=\"who\">{lane}</div><div class=\"track\">\n"
        ),
    )?;
    put_calls(alloc, page, labels, thread)?;
    put_ticks(alloc, page, labels, thread)?;
    put_stores(alloc, page, &stores_of(alloc, labels, thread)?)?;
    put(page, "</div></div>\n")
}

/// Adds a lane for each thread of a client.
pub fn put_lanes(
    alloc: Global,
    page: &mut Vec<u8>,
    client: &Client,
    labels: &[Label],
) -> Result<(), AllocError> {
    let count = labels.len();
    put_made(
        page,
        format!(in alloc;
            "<div id=\"lanes\" class=\"lanes\" style=\"--count:{count};--rows:3\"><div id=\"time\">\n"
        ),
    )?;
    for thread in 0..thread_count(client) {
        put_lane(alloc, page, client, labels, thread)?;
    }
    put(
        page,
        "<div id=\"fails\"></div><div id=\"here\"></div>\n</div></div>\n",
    )
}
