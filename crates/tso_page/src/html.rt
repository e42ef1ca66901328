//! Memory, threads, labels, lines and calls of a page.

use crate::escape::push_escaped;
use crate::lanes::Lane;
use std::alloc::{AllocError, Global};
use tso_machine::{Label, thread_count};
use tso_prog::{Array, Client};
use tso_trace::{cell_name, line_of};

/// Adds text that is a page's own.
pub fn put(page: &mut Vec<u8>, text: &str) -> Result<(), AllocError> {
    page.extend_from_slice(text.as_bytes())?;
    Ok(())
}

/// Adds a text that was made for a page.
///
/// Errors: the text's, and where a growth was refused.
pub fn put_made(page: &mut Vec<u8>, text: Result<String, AllocError>) -> Result<(), AllocError> {
    page.extend_from_slice(text?.as_bytes())?;
    Ok(())
}

// Adds so many cells of memory from a place on.
fn put_cells(
    alloc: Global,
    page: &mut Vec<u8>,
    client: &Client,
    first: usize,
    count: usize,
) -> Result<(), AllocError> {
    for index in 0..count {
        let name = cell_name(alloc, client.arrays.as_slice(), first.saturating_add(index))?;
        put(page, "<span class=\"cell\" title=\"")?;
        push_escaped(page, name.as_bytes())?;
        put(page, "\"></span>")?;
    }
    Ok(())
}

// Adds an array whose first cell has this place.
fn put_array(
    alloc: Global,
    page: &mut Vec<u8>,
    client: &Client,
    array: &Array,
    place: usize,
) -> Result<(), AllocError> {
    put(page, "<p><span class=\"name\">")?;
    push_escaped(page, array.name.as_slice())?;
    put(page, "</span> <span class=\"cells\">")?;
    put_cells(alloc, page, client, place, array.words.len())?;
    put(page, "</span></p>\n")
}

/// Adds memory, each array on a line of its own.
pub fn put_memory(alloc: Global, page: &mut Vec<u8>, client: &Client) -> Result<(), AllocError> {
    put(page, "<div id=\"memory\">\n")?;
    let mut place: usize = 0;
    for array in client.arrays.as_slice() {
        put_array(alloc, page, client, array, place)?;
        place = place.saturating_add(array.words.len());
    }
    put(page, "</div>\n")
}

/// Adds a place for each thread's store buffer and registers.
pub fn put_threads(alloc: Global, page: &mut Vec<u8>, client: &Client) -> Result<(), AllocError> {
    put(page, "<div class=\"threads\">\n")?;
    for number in 0..thread_count(client) {
        let lane = Lane::of(client, number);
        put_made(
            page,
            format!(in alloc; "<div class=\"thread\"><h3>{lane}</h3>"),
        )?;
        put(
            page,
            "<ul class=\"buffer\" aria-label=\"store buffer\"></ul><p class=\"registers\"></p></div>\n",
        )?;
    }
    Ok(())
}

// Adds an item behind its number.
fn put_item(
    alloc: Global,
    page: &mut Vec<u8>,
    number: usize,
    item: &[u8],
) -> Result<(), AllocError> {
    put_made(page, format!(in alloc; "<li><span>{number}</span> <span>"))?;
    push_escaped(page, item)?;
    put(page, "</span></li>\n")
}

/// Adds the lines of a text, each an item behind its number.
pub fn put_source(alloc: Global, page: &mut Vec<u8>, source: &[u8]) -> Result<(), AllocError> {
    let mut number: usize = 0;
    for line in source.split(|byte| *byte == b'\n') {
        number = number.saturating_add(1);
        put_item(alloc, page, number, line)?;
    }
    Ok(())
}

/// Adds the labels of a run, each an item behind its number.
pub fn put_labels(
    alloc: Global,
    page: &mut Vec<u8>,
    client: &Client,
    labels: &[Label],
) -> Result<(), AllocError> {
    for (at, label) in labels.iter().enumerate() {
        let line = line_of(alloc, client.arrays.as_slice(), *label)?;
        put_item(alloc, page, at + 1, line.as_bytes())?;
    }
    Ok(())
}
