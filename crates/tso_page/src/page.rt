//! A run as a page.

use crate::data::{push_state_data, site_line};
use crate::escape::{push_data, push_escaped};
use crate::html::{put, put_labels, put_made, put_memory, put_source, put_threads};
use crate::lanes::put_lanes;
use crate::parts::{
    CALLS, CONTROLS, DATA, FAILS, HEAD, HISTORY, LABELS, LANES, SCRIPT, STATE, STYLE, WHY,
};
use std::alloc::{AllocError, Global};
use tso_flow::Checked;
use tso_machine::Label;
use tso_show::{
    Served, ShowError, Walk, ordered_part, print_calls, print_cause, print_order, taker,
};

/// What a page shows.
#[derive(Clone, Copy)]
pub struct Run<'a> {
    pub checked: &'a Checked,
    pub labels: &'a [Label],
    /// The text that the client was read from.
    pub source: &'a [u8],
    /// What the text is called.
    pub name: &'a str,
    /// What is wrong with the run, if something is.
    pub wrong: Option<&'a str>,
}

// Takes the next label, and adds its thread, the line of the instruction that takes it, and the state after it. It answers
// false where no label is left.
fn push_step(alloc: Global, data: &mut String, walk: &mut Walk<'_>) -> Result<bool, ShowError> {
    let Some(label) = walk.next_label() else {
        return Ok(false);
    };
    let line = site_line(taker(&walk.checked().client, walk.machine(), label));
    let moved = walk.forward(alloc)?;
    let thread = label.thread;
    write!(data, ",\n[{thread},{line},")?;
    push_state_data(data, &walk.checked().client, walk.machine())?;
    data.push_str("]")?;
    Ok(moved)
}

// The data of all states of a run, before the first label and after each.
fn data_of(alloc: Global, walk: &mut Walk<'_>, count: usize) -> Result<String, ShowError> {
    let mut data = String::from_str(alloc, ",\n[0,0,")?;
    push_state_data(&mut data, &walk.checked().client, walk.machine())?;
    data.push_str("]")?;
    for _ in 0..count {
        let _moved = push_step(alloc, &mut data, walk)?;
    }
    Ok(data)
}

// Adds the calls of the labels that a walk has taken, and how far they have an order.
fn put_history(alloc: Global, page: &mut Vec<u8>, walk: &Walk<'_>) -> Result<(), ShowError> {
    let mut text = Vec::new(alloc);
    print_calls(alloc, &mut text, walk.taken())?;
    print_order(alloc, &mut text, walk)?;
    push_escaped(page, &text)?;
    Ok(())
}

// Adds the head of the page and its heading.
fn put_title(page: &mut Vec<u8>, name: &str) -> Result<(), AllocError> {
    put(page, HEAD)?;
    push_escaped(page, name.as_bytes())?;
    put(page, STYLE)?;
    push_escaped(page, name.as_bytes())?;
    put(page, "</code></h1>\n")
}

// Adds what is wrong with a run.
fn put_wrong(page: &mut Vec<u8>, wrong: Option<&str>) -> Result<(), AllocError> {
    match wrong {
        Some(wrong) => {
            put(page, "<p class=\"wrong\">")?;
            push_escaped(page, wrong.as_bytes())
        }
        None => put(page, "<p class=\"good\">no violation"),
    }
}

// The label with which something is wrong with the run that a walk has taken: with which its calls have no order, or its last one.
fn failing(alloc: Global, run: &Run<'_>, walk: &Walk<'_>) -> Result<usize, AllocError> {
    if run.wrong.is_none() {
        return Ok(0);
    }
    let labels = walk.taken();
    match ordered_part(alloc, &walk.checked().client, labels)? {
        Served::Whole(_) => Ok(labels.len()),
        Served::Until { label, .. } => Ok(label),
    }
}

// Adds what is wrong with the run, why, and with which label.
fn put_cause(
    alloc: Global,
    page: &mut Vec<u8>,
    run: &Run<'_>,
    walk: &Walk<'_>,
) -> Result<(), ShowError> {
    put_wrong(page, run.wrong)?;
    put(page, WHY)?;
    let mut text = Vec::new(alloc);
    print_cause(alloc, &mut text, walk)?;
    push_escaped(page, &text)?;
    put(page, FAILS)?;
    let label = failing(alloc, run, walk)?;
    put_made(page, format!(in alloc; "{label}"))?;
    Ok(())
}

// Adds all that stands before the lanes.
fn put_heading(
    alloc: Global,
    page: &mut Vec<u8>,
    run: &Run<'_>,
    walk: &Walk<'_>,
) -> Result<(), ShowError> {
    let count = run.labels.len();
    put_title(page, run.name)?;
    put_cause(alloc, page, run, walk)?;
    put(page, CONTROLS)?;
    put_made(page, format!(in alloc; "{count}\" value=\"{count}"))?;
    Ok(())
}

// Adds the program and the labels.
fn put_lists(alloc: Global, page: &mut Vec<u8>, run: &Run<'_>) -> Result<(), AllocError> {
    put(page, LABELS)?;
    put_source(alloc, page, run.source)?;
    put(page, CALLS)?;
    put_labels(alloc, page, &run.checked.client, run.labels)?;
    put(page, HISTORY)
}

// Adds the lanes, the state, the program and the labels.
fn put_body(alloc: Global, page: &mut Vec<u8>, run: &Run<'_>) -> Result<(), AllocError> {
    let client = &run.checked.client;
    put(page, LANES)?;
    put_lanes(alloc, page, client, run.labels)?;
    put(page, STATE)?;
    put_memory(alloc, page, client)?;
    put_threads(alloc, page, client)?;
    put_lists(alloc, page, run)
}

// Adds the data and what follows it.
fn put_data(page: &mut Vec<u8>, data: &str) -> Result<(), AllocError> {
    put(page, DATA)?;
    push_data(page, data.as_bytes())?;
    put(page, SCRIPT)
}

// Adds all of a page. The walk is at its end.
fn put_page(
    alloc: Global,
    page: &mut Vec<u8>,
    run: &Run<'_>,
    walk: &Walk<'_>,
    data: &str,
) -> Result<(), ShowError> {
    put_heading(alloc, page, run, walk)?;
    put_body(alloc, page, run)?;
    put_history(alloc, page, walk)?;
    put_data(page, data)?;
    Ok(())
}

// The page of a run, along whose labels the walk goes to its end.
fn page_along(alloc: Global, run: &Run<'_>, walk: &mut Walk<'_>) -> Result<Vec<u8>, ShowError> {
    let data = data_of(alloc, walk, run.labels.len())?;
    let mut page = Vec::new(alloc);
    put_page(alloc, &mut page, run, walk, data.as_str())?;
    Ok(page)
}

/// A run as one HTML file, which loads nothing from elsewhere: a lane for each thread with its calls as bars, memory and
/// store buffers after each label, forwards and back by keys and a slider, and the program with its current line.
///
/// Errors: `NotAStep` where a label is no step; `Memory`.
pub fn page_of(alloc: Global, run: &Run<'_>) -> Result<Vec<u8>, ShowError> {
    let mut walk = Walk::new(alloc, run.checked, run.labels)?;
    page_along(alloc, run, &mut walk)
}
