//! The facts as an object of JSON.

use crate::fact::{Facts, LineMark, ReachedCall};
use crate::mark::Mark;
use serde_json::{Map, Value, json};
use std::alloc::{AllocError, Global};

// The lines with a mark.
fn lines_with(alloc: Global, lines: &[LineMark], mark: Mark) -> Result<Value, AllocError> {
    let mut list = Vec::new(alloc);
    for marked in lines.iter().filter(|marked| marked.mark == mark) {
        list.push(Value::from(u64::from(marked.line)))?;
    }
    Ok(Value::Array(list))
}

// A call that has not returned.
fn call_object(alloc: Global, reached: &ReachedCall) -> Result<Value, AllocError> {
    let what = reached.to_string(alloc)?;
    let how_far = reached.reach.to_string(alloc)?;
    let (thread, call) = (reached.thread as u64, reached.call as u64);
    json!(in alloc; {"thread": thread, "call": call, "what": what, "reach": how_far})
}

// The calls that have not returned.
fn call_list(alloc: Global, calls: &[ReachedCall]) -> Result<Value, AllocError> {
    let mut list = Vec::new(alloc);
    for reached in calls {
        list.push(call_object(alloc, reached)?)?;
    }
    Ok(Value::Array(list))
}

// Names of arrays.
fn name_list(alloc: Global, names: &[String]) -> Result<Value, AllocError> {
    let mut list = Vec::new(alloc);
    for name in names {
        list.push(Value::String(String::from_str(alloc, name.as_str())?))?;
    }
    Ok(Value::Array(list))
}

// One member more.
fn put(
    alloc: Global,
    members: &mut Map<String, Value>,
    name: &str,
    value: Result<Value, AllocError>,
) -> Result<(), AllocError> {
    let value = value?;
    let _earlier = members.insert(String::from_str(alloc, name)?, value)?;
    Ok(())
}

// What was met: lines by their marks, and calls that have not returned.
fn put_met(
    alloc: Global,
    members: &mut Map<String, Value>,
    facts: &Facts,
) -> Result<(), AllocError> {
    let lines = facts.lines.as_slice();
    put(alloc, members, "met", lines_with(alloc, lines, Mark::Met))?;
    put(
        alloc,
        members,
        "never_met",
        lines_with(alloc, lines, Mark::NeverMet),
    )?;
    put(alloc, members, "cut", lines_with(alloc, lines, Mark::Cut))?;
    put(alloc, members, "unreturned", call_list(alloc, &facts.calls))
}

// All of them.
fn put_facts(
    alloc: Global,
    members: &mut Map<String, Value>,
    facts: &Facts,
) -> Result<(), AllocError> {
    put(alloc, members, "records", Ok(Value::from(facts.records)))?;
    put(alloc, members, "ends", Ok(Value::from(facts.ends)))?;
    put_met(alloc, members, facts)?;
    put(
        alloc,
        members,
        "push_refused",
        Ok(Value::from(facts.refused.push)),
    )?;
    put(
        alloc,
        members,
        "pop_refused",
        Ok(Value::from(facts.refused.pop)),
    )?;
    put(
        alloc,
        members,
        "went_round",
        name_list(alloc, &facts.rounds),
    )?;
    put(
        alloc,
        members,
        "most_items",
        Ok(Value::from(facts.most_items as u64)),
    )
}

/// The facts as an object of JSON.
///
/// Errors: where a growth was refused.
pub fn facts_object(alloc: Global, facts: &Facts) -> Result<Value, AllocError> {
    let mut members = Map::new(alloc);
    match put_facts(alloc, &mut members, facts) {
        Ok(()) => Ok(Value::Object(members)),
        Err(reason) => {
            drop(members);
            Err(reason)
        }
    }
}
