//! Labels in brief: without steps between registers, and each locked instruction on one line.

use crate::moment::{Moment, next_moment};
use crate::print::{ShowError, put_label, put_moment};
use crate::site::Site;
use crate::state::Show;
use crate::walk::Walk;
use std::alloc::{AllocError, Global};
use std::io::Write;
use tso_machine::LabelKind;
use tso_prog::{Array, Client};
use tso_trace::cell_name;

/// A locked instruction of which some labels are taken.
#[derive(Clone, Copy)]
struct Section {
    thread: usize,
    /// The number of its first label.
    from: usize,
    site: Option<Site>,
    /// The cell, by its place, once it is read.
    place: Option<usize>,
    read: u64,
    written: Option<u64>,
}

impl Section {
    // One of which the first label is taken.
    fn begun(number: usize, moment: &Moment) -> Section {
        Section {
            thread: moment.label.thread,
            from: number,
            site: moment.site,
            place: None,
            read: 0,
            written: None,
        }
    }

    // The same with one label more.
    fn with(self, kind: LabelKind) -> Section {
        match kind {
            LabelKind::Read { place, word } => Section {
                place: Some(place),
                read: word,
                ..self
            },
            LabelKind::Write { word, .. } => Section {
                written: Some(word),
                ..self
            },
            _ => self,
        }
    }

    // Its line, as `0 locked tail[0]: 3 -> 4`.
    fn line(&self, alloc: Global, arrays: &[Array]) -> Result<String, AllocError> {
        let (thread, read) = (self.thread, self.read);
        let Some(place) = self.place else {
            return format!(in alloc; "{thread} locked");
        };
        let cell = cell_name(alloc, arrays, place)?;
        match self.written {
            Some(word) => format!(in alloc; "{thread} locked {cell}: {read} -> {word}"),
            None => format!(in alloc; "{thread} locked {cell}: {read}"),
        }
    }
}

// Prints a locked instruction behind the number of its first label.
fn put_section<W: Write>(
    alloc: Global,
    out: &mut W,
    client: &Client,
    source: &[u8],
    show: Show,
    section: Section,
) -> Result<(), ShowError> {
    let line = section.line(alloc, client.arrays.as_slice())?;
    let site = if show.source { section.site } else { None };
    put_label(alloc, out, source, section.from, line.as_str(), site)?;
    out.write_all(b"\n").map_err(|_| ShowError::Write)
}

// Prints a label, or remembers it for the line of its locked instruction.
fn put_in_brief<W: Write>(
    alloc: Global,
    out: &mut W,
    client: &Client,
    source: &[u8],
    show: Show,
    number: usize,
    moment: &Moment,
    open: Option<Section>,
) -> Result<Option<Section>, ShowError> {
    match (moment.label.kind, open) {
        (LabelKind::Reg, open) => Ok(open),
        (LabelKind::Lock, _) => Ok(Some(Section::begun(number, moment))),
        (LabelKind::Unlock, Some(section)) => {
            put_section(alloc, out, client, source, show, section)?;
            out.write_all(moment.shown.as_bytes())
                .map_err(|_| ShowError::Write)?;
            Ok(None)
        }
        (kind, Some(section)) if section.thread == moment.label.thread => Ok(Some(section.with(
            kind,
        ))),
        (_, open) => {
            put_moment(alloc, out, client, source, show, number, moment)?;
            Ok(open)
        }
    }
}

/// Prints the next labels of a walk, at most so many, in brief: no steps between registers, and a locked instruction as one line
/// behind the number of its first label.
pub fn print_brief<W: Write>(
    alloc: Global,
    out: &mut W,
    walk: &mut Walk<'_>,
    source: &[u8],
    show: Show,
    count: usize,
) -> Result<(), ShowError> {
    let mut open = None;
    for _ in 0..count {
        let Some(moment) = next_moment(alloc, walk, show)? else {
            break;
        };
        let number = walk.position();
        let client = &walk.checked().client;
        open = put_in_brief(alloc, out, client, source, show, number, &moment, open)?;
    }
    match open {
        Some(section) => { put_section(alloc, out, &walk.checked().client, source, show, section) }
        None => Ok(()),
    }
}
