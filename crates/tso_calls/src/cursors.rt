//! Lists of labels as traces, walks along traces forwards and back, and names of places.

use crate::failure::{Failure, ensure};
use crate::input::{behind, index_at, word};
use crate::labels::labels_of;
use std::alloc::Global;
use tso_flow::Checked;
use tso_trace::{Cursor, Trace, TraceFault, cell_name, cell_of};

// Goes to the end, and notes what the machine shows at each place.
fn go_forward(alloc: Global, cursor: &mut Cursor<'_>) -> Result<Vec<String>, Failure> {
    let mut seen = Vec::new(alloc);
    for position in 0..usize::MAX {
        ensure(cursor.position() == position)?;
        let machine = cursor.machine();
        let text = format!(in alloc; "{machine:?}")?;
        if !cursor.forward()? {
            break;
        }
        seen.push(text)?;
    }
    Ok(seen)
}

// Goes back one place, where the machine shows this again.
fn go_back(alloc: Global, cursor: &mut Cursor<'_>, wanted: &str) -> Result<(), Failure> {
    ensure(cursor.back())?;
    let machine = cursor.machine();
    let text = format!(in alloc; "{machine:?}")?;
    ensure(text.as_str() == wanted)
}

// Goes back to the start, where the machine shows the same at each place again.
fn go_to_start(alloc: Global, cursor: &mut Cursor<'_>, seen: &[String]) -> Result<(), Failure> {
    for wanted in seen.iter().rev() {
        go_back(alloc, cursor, wanted.as_str())?;
    }
    ensure(!cursor.back())
}

// Goes to the end and back from the start. How many labels there are.
fn walk_along(alloc: Global, cursor: &mut Cursor<'_>) -> Result<usize, Failure> {
    let seen = go_forward(alloc, cursor)?;
    go_to_start(alloc, cursor, &seen)?;
    Ok(seen.len())
}

// Goes to the end and back. How many labels there are.
fn walk(alloc: Global, trace: &Trace) -> Result<usize, Failure> {
    let mut cursor = Cursor::new(alloc, trace)?;
    let count = walk_along(alloc, &mut cursor);
    drop(cursor);
    count
}

// Writes the violation of a trace, and how many labels it has.
fn put_walk(alloc: Global, trace: &Trace, out: &mut String) -> Result<(), Failure> {
    let (violation, labels) = (trace.violation(), walk(alloc, trace)?);
    write!(out, "{violation:?}, {labels} labels forwards and back")?;
    Ok(())
}

// Judges labels as a trace, and walks along it.
fn put_trace(
    alloc: Global,
    checked: &Checked,
    call: &str,
    out: &mut String,
) -> Result<(), Failure> {
    let labels = labels_of(alloc, behind(call, ":"))?;
    match Trace::from_labels(alloc, checked, labels) {
        Ok(trace) => {
            let put = put_walk(alloc, &trace, out);
            drop(trace);
            put
        }
        Err(TraceFault::Memory) => Err(Failure::Memory),
        Err(fault) => Ok(write!(out, "{fault}")?),
    }
}

// The name of a place.
fn put_cell(alloc: Global, checked: &Checked, call: &str, out: &mut String) -> Result<(), Failure> {
    let arrays = checked.client.arrays.as_slice();
    let place = index_at(call, 2)?;
    let name = cell_name(alloc, arrays, place)?;
    match cell_of(arrays, place) {
        Some(cell) => write!(out, "{name} {} {}", cell.array, cell.index)?,
        None => write!(out, "{name}")?,
    }
    Ok(())
}

/// Makes a call on a trace of a client. Whether the case is one.
pub fn answer(
    alloc: Global,
    checked: &Checked,
    call: &str,
    out: &mut String,
) -> Result<bool, Failure> {
    match word(call, 0) {
        "trace" => put_trace(alloc, checked, call, out)?,
        "cell" => put_cell(alloc, checked, call, out)?,
        _ => return Ok(false),
    }
    Ok(true)
}
