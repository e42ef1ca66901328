//! The facts in words.

use crate::call::Reach;
use crate::fact::{Facts, LineMark, ReachedCall};
use crate::mark::Mark;
use std::alloc::{AllocError, Global};
use tso_rec::Grain;

// Adds a word behind those before it, the first of them behind `head`.
fn put_item(text: &mut String, head: &str, is_first: bool, item: String) -> Result<(), AllocError> {
    text.push_str(if is_first { head } else { ", " })?;
    text.push_str(item.as_str())
}

// Adds the lines with a mark, behind what is said of them.
fn put_lines(
    alloc: Global,
    text: &mut String,
    lines: &[LineMark],
    mark: Mark,
    head: &str,
) -> Result<(), AllocError> {
    let mut is_first = true;
    for marked in lines.iter().filter(|marked| marked.mark == mark) {
        let line = marked.line;
        put_item(text, head, is_first, format!(in alloc; "{line}")?)?;
        is_first = false;
    }
    if !is_first {
        text.push('\n')?;
    }
    Ok(())
}

// Adds the calls that come so far, behind what is said of them.
fn put_calls(
    alloc: Global,
    text: &mut String,
    calls: &[ReachedCall],
    reach: Reach,
    head: &str,
) -> Result<(), AllocError> {
    let mut is_first = true;
    for call in calls.iter().filter(|call| call.reach == reach) {
        put_item(text, head, is_first, format!(in alloc; "{call}")?)?;
        is_first = false;
    }
    if !is_first {
        text.push('\n')?;
    }
    Ok(())
}

fn pushes(is_refused: bool) -> &'static str {
    if is_refused {
        "a push was refused"
    } else {
        "no push was refused"
    }
}

fn pops(is_refused: bool) -> &'static str {
    if is_refused {
        "a pop was refused"
    } else {
        "no pop was refused"
    }
}

fn rounds(names: &[String]) -> &'static str {
    if names.is_empty() {
        "no index went round"
    } else {
        "an index went round"
    }
}

// Over what was counted.
fn counted_over(alloc: Global, facts: &Facts) -> Result<String, AllocError> {
    let records = facts.records;
    match facts.grain {
        Grain::Steps => {
            format!(in alloc; "Counted over the {records} records, and not proved:\n")
        }
        Grain::Crossings => {
            format!(in alloc;
                "Counted over the {records} records and the states between them, and not proved:\n"
            )
        }
    }
}

/// The facts in words.
///
/// Errors: where a growth was refused.
pub fn told(alloc: Global, facts: &Facts) -> Result<String, AllocError> {
    let most = facts.most_items;
    let mut text = counted_over(alloc, facts)?;
    put_lines(
        alloc,
        &mut text,
        &facts.lines,
        Mark::NeverMet,
        "no call comes to line ",
    )?;
    put_lines(
        alloc,
        &mut text,
        &facts.lines,
        Mark::Cut,
        "calls are cut at line ",
    )?;
    put_calls(
        alloc,
        &mut text,
        &facts.calls,
        Reach::NeverBegun,
        "never begun: ",
    )?;
    put_calls(
        alloc,
        &mut text,
        &facts.calls,
        Reach::NeverReturned,
        "never returned: ",
    )?;
    let (push, pop) = (pushes(facts.refused.push), pops(facts.refused.pop));
    let round = rounds(&facts.rounds);
    text.push_str(format!(in alloc;
        "{push}, {pop}, {round}; most items in the queue: {most}\n"
    )?.as_str())?;
    Ok(text)
}
