//! Lines of a text behind their numbers, with marks under them.

ghost use Rattle.std.specs.Prelude.{◌≡◌, ◌+◌, ◌-◌, ◌<◌, ◌≤◌, length, min, IfSome, None};
ghost use Rattle.tso_source.specs.Places.{IsPlaceIn};

use crate::page::Page;
use crate::said::meaning;
use crate::topic::find;
use std::alloc::{AllocError, Global};
use tso_flow::Location;
use tso_prog::Fault;
use tso_source::{Place, line, place_of_fault, place_of_location, shown, under};

// Of a line no more bytes are shown than these.
const WIDTH: usize = 200;

// Where what is shown of a line begins: so that the beginning of the place is shown.
fn first_shown(place: Option<Place>) -> usize
    ensures place { IfSome place (λ p. (result ≤ p.start) × (p.start < result + 200)) }
    ensures front { place ≡ None → result ≡ 0 }
{
    match place {
        Some(place) => place.start - place.start % WIDTH,
        None => 0,
    }
}

// What is shown of a line from this byte on.
fn part(line: &[u8], from: usize) -> &[u8]
    requires { from ≤ length line.now }
    ensures { length result.now ≡ min (length line.now - from) 200 }
{
    let count = (line.len() - from).min(WIDTH);
    &line[from..from + count]
}

// A mark under a place of the line above, of which so many bytes are shown from this one on.
fn put_mark(
    alloc: Global,
    page: &mut Page,
    shown: &[u8],
    from: usize,
    place: Option<Place>,
) -> Result<(), AllocError>
    requires { IfSome place (λ p. (from ≤ p.start) × (p.start < from + length shown.now) × (p.start < p.end)) }
{
    let Some(place) = place else {
        return Ok(());
    };
    let place = Place {
        start: place.start - from,
        end: (place.end - from).min(shown.len()),
    };
    page.say("       ")?;
    page.put(&under(alloc, shown, place)?)?;
    page.say("\n")
}

// A line of a text behind its number, and a mark under a place of it. Of a long line the part is shown that has the place.
fn put_line(
    alloc: Global,
    page: &mut Page,
    number: usize,
    line: &[u8],
    place: Option<Place>,
) -> Result<(), AllocError>
    requires { IfSome place (IsPlaceIn line.now) }
{
    let from = first_shown(place);
    let part = part(line, from);
    page.say_made(format!(in alloc; "{number:>4} | "))?;
    page.put(&shown(alloc, part)?)?;
    if part.len() < line.len() {
        let (first, last, all) = (from + 1, from + part.len(), line.len());
        page.say_made(format!(in alloc; " (bytes {first} to {last} of {all})"))?;
    }
    page.say("\n")?;
    put_mark(alloc, page, part, from, place)
}

/// Shows a line behind a number.
pub fn put_shown(
    alloc: Global,
    page: &mut Page,
    number: usize,
    line: &[u8],
) -> Result<(), AllocError> {
    put_line(alloc, page, number, line, None)
}

/// Shows the line of a text with this number, if it has so many.
pub fn put_number(
    alloc: Global,
    page: &mut Page,
    text: &[u8],
    number: usize,
) -> Result<(), AllocError> {
    match line(text, number) {
        Some(line) => put_line(alloc, page, number, line, None),
        None => Ok(()),
    }
}

/// Shows the line of a fault, with a mark under its place.
pub fn put_fault(
    alloc: Global,
    page: &mut Page,
    text: &[u8],
    fault: Fault,
) -> Result<(), AllocError> {
    let number = fault.line as usize;
    let Some(line) = line(text, number) else {
        return Ok(());
    };
    let place = place_of_fault(alloc, line, fault.code)?;
    put_line(alloc, page, number, line, place)
}

/// Shows the line of a read, with a mark under what is read.
pub fn put_read(
    alloc: Global,
    page: &mut Page,
    text: &[u8],
    number: usize,
    location: Location,
) -> Result<(), AllocError> {
    let Some(line) = line(text, number) else {
        return Ok(());
    };
    let place = place_of_location(alloc, line, location)?;
    put_line(alloc, page, number, line, place)
}

/// Says what a code means, and how to see more of it.
pub fn put_meaning(alloc: Global, page: &mut Page, code: &str) -> Result<(), AllocError> {
    let Some(topic) = find(code) else {
        return Ok(());
    };
    page.say(meaning(topic))?;
    page.say_made(format!(in alloc; "\n`tsoq explain {code}` shows it in small.\n"))
}
