//! The list that a script can read.

use crate::fact::{Facts, LineMark, ReachedCall};
use crate::mark::Mark;
use std::alloc::{AllocError, Global};

/// A yes or a no.
fn answer(is: bool) -> &'static str {
    if is { "yes" } else { "no" }
}

// A line for each instruction that is never met, or where a call is cut.
fn put_lines(alloc: Global, text: &mut String, lines: &[LineMark]) -> Result<(), AllocError> {
    for marked in lines {
        let LineMark { line, mark } = *marked;
        if mark != Mark::Met {
            text.push_str(format!(in alloc; "line {line}: {mark}\n")?.as_str())?;
        }
    }
    Ok(())
}

// A line for each call that has not returned.
fn put_calls(alloc: Global, text: &mut String, calls: &[ReachedCall]) -> Result<(), AllocError> {
    for call in calls {
        let reach = call.reach;
        text.push_str(format!(in alloc; "{call}: {reach}\n")?.as_str())?;
    }
    Ok(())
}

// A line for each array in which an index went round.
fn put_rounds(alloc: Global, text: &mut String, names: &[String]) -> Result<(), AllocError> {
    for name in names {
        text.push_str(format!(in alloc; "array {name}: index went round\n")?.as_str())?;
    }
    Ok(())
}

/// The facts, one a line, each as `WHAT: VALUE`.
///
/// Errors: where a growth was refused.
pub fn listed(alloc: Global, facts: &Facts) -> Result<String, AllocError> {
    let (records, ends, most) = (facts.records, facts.ends, facts.most_items);
    let mut text = format!(in alloc; "records: {records}\nends: {ends}\n")?;
    put_lines(alloc, &mut text, &facts.lines)?;
    put_calls(alloc, &mut text, &facts.calls)?;
    put_rounds(alloc, &mut text, &facts.rounds)?;
    let (push, pop) = (answer(facts.refused.push), answer(facts.refused.pop));
    let round = answer(!facts.rounds.is_empty());
    text.push_str(format!(in alloc;
        "push refused: {push}\npop refused: {pop}\nindex went round: {round}\nmost items: {most}\n"
    )?.as_str())?;
    Ok(text)
}
