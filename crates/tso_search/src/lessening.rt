//! Traces with few calls.

ghost use Rattle.std.specs.Prelude.{◌≡◌, ◌≤◌, IfOk, IfSome, length};
ghost use Rattle.tso_search.specs.Grounds.{HasClosed};
ghost use Rattle.tso_search.specs.Shortening.{IsShorter, IsTraceOf};

use crate::ground::Ground;
use crate::leaving::call_count;
use crate::narrowing::found_within;
use crate::shortest::Shortest;
use crate::track::Way;
use std::alloc::{AllocError, Global};
use tso_flow::Checked;
use tso_foot::build;
use tso_machine::{Label, calls_of};
use tso_prog::Client;
use tso_trace::Trace;

/// So many states a search with fewer calls meets at the most.
const SOME: usize = 4_096;

/// So many a search of all runs with some few calls.
const FEW: usize = 16_384;

/// So many the search with as few calls as were found.
const MANY: usize = 32_768;

/// How many choices there are: a number of calls, 0 to 4, for each of four threads.
const CHOICES: u32 = 625;

// How many calls each of the threads begins.
fn begun(alloc: Global, labels: &[Label], threads: usize) -> Result<Vec<usize>, AllocError> {
    let mut counts = Vec::new(alloc);
    for thread in 0..threads {
        counts.push(call_count(labels, thread))?;
    }
    Ok(counts)
}

// The counts but with one call less of this thread, if it has one.
fn one_less(
    alloc: Global,
    most: &[usize],
    thread: usize,
) -> Result<Option<Vec<usize>>, AllocError> {
    let count = most.get(thread).copied().unwrap_or(0);
    if count == 0 {
        return Ok(None);
    }
    let mut fewer = Vec::new(alloc);
    for (number, count) in most.iter().enumerate() {
        fewer.push(if number == thread {
            count.saturating_sub(1)
        } else {
            *count
        })?;
    }
    Ok(Some(fewer))
}

// Keeps another trace in place of the shortest, if it is shorter.
fn keep(checked: &Checked, shortest: &mut Shortest, trace: Trace)
    requires old { IsTraceOf checked.now.client shortest.old.trace }
    requires other { IsTraceOf checked.now.client trace }
    ensures is { IsShorter checked.now.client shortest.old.trace shortest.new.trace }
    ensures other { length shortest.new.trace.labels ≤ length trace.labels }
{
    if trace.labels.len() < shortest.trace.labels.len() {
        shortest.trace = trace;
    } else {
        drop(trace);
    }
}

// How many calls each thread begins in a run that is not good and has one call less of this thread, if one is found. Its trace is kept
// if it is shorter.
fn fewer(
    alloc: Global,
    checked: &Checked,
    ground: &Ground,
    shortest: &mut Shortest,
    most: &[usize],
    thread: usize,
) -> Result<Option<Vec<usize>>, AllocError>
    requires closed { HasClosed checked.now.client ground.now }
    requires trace { IsTraceOf checked.now.client shortest.old.trace }
    ensures { IsShorter checked.now.client shortest.old.trace shortest.new.trace }
{
    let Some(fewer) = one_less(alloc, most, thread)? else {
        return Ok(None);
    };
    let found = found_within(alloc, checked, ground, Way::Depth, fewer.as_slice(), SOME)?;
    drop(fewer);
    match found {
        Some(trace) => {
            let counts = begun(alloc, trace.labels.as_slice(), most.len());
            keep(checked, shortest, trace);
            Ok(Some(counts?))
        }
        None => Ok(None),
    }
}

// Takes calls away from a thread, one after the other, as long as runs that are not good are found.
fn take_away(
    alloc: Global,
    checked: &Checked,
    ground: &Ground,
    shortest: &mut Shortest,
    most: &mut Vec<usize>,
    thread: usize,
) -> Result<(), AllocError>
    requires closed { HasClosed checked.now.client ground.now }
    requires trace { IsTraceOf checked.now.client shortest.old.trace }
    ensures { IsShorter checked.now.client shortest.old.trace shortest.new.trace }
{
    for _ in 0..16 {
        match fewer(alloc, checked, ground, shortest, most.as_slice(), thread)? {
            Some(counts) => *most = counts,
            None => break,
        }
    }
    Ok(())
}

// So few calls of each thread that with one less no run is found that is not good.
fn fewest(
    alloc: Global,
    checked: &Checked,
    ground: &Ground,
    shortest: &mut Shortest,
    threads: usize,
) -> Result<Vec<usize>, AllocError>
    requires closed { HasClosed checked.now.client ground.now }
    requires trace { IsTraceOf checked.now.client shortest.old.trace }
    ensures { IsShorter checked.now.client shortest.old.trace shortest.new.trace }
{
    let mut most = begun(alloc, shortest.trace.labels.as_slice(), threads)?;
    for thread in 0..threads {
        take_away(alloc, checked, ground, shortest, &mut most, thread)?;
    }
    Ok(most)
}

// A choice of calls: the digits of its number in base 5, and all calls of a prologue.
fn chosen_counts(
    alloc: Global,
    client: &Client,
    choice: u32,
    threads: usize,
) -> Result<Vec<usize>, AllocError> {
    let mut counts = Vec::new(alloc);
    let mut digits = choice;
    for thread in 0..threads {
        if thread < client.threads.len() {
            counts.push((digits % 5) as usize)?;
        } else {
            counts.push(calls_of(client, thread).len())?;
        }
        digits /= 5;
    }
    Ok(counts)
}

// How many calls these are, without those of a prologue.
fn total_of(client: &Client, counts: &[usize]) -> usize {
    let mut total: usize = 0;
    for (thread, count) in counts.iter().enumerate() {
        if thread < client.threads.len() {
            total = total.saturating_add(*count);
        }
    }
    total
}

// Whether each thread has so many calls.
fn has_calls(client: &Client, counts: &[usize]) -> bool {
    let mut has_all = true;
    for (thread, count) in counts.iter().enumerate() {
        has_all &= *count <= calls_of(client, thread).len();
    }
    has_all
}

// Searches a choice of calls: whether a run is found that is not good. Its trace is kept if it is shorter.
fn search_choice(
    alloc: Global,
    checked: &Checked,
    ground: &Ground,
    shortest: &mut Shortest,
    counts: &[usize],
    states: usize,
) -> Result<bool, AllocError>
    requires closed { HasClosed checked.now.client ground.now }
    requires trace { IsTraceOf checked.now.client shortest.old.trace }
    ensures { IsShorter checked.now.client shortest.old.trace shortest.new.trace }
{
    match found_within(alloc, checked, ground, Way::Breadth, counts, states)? {
        Some(trace) => {
            keep(checked, shortest, trace);
            Ok(true)
        }
        None => Ok(false),
    }
}

// The same of the choice with this number, if it has so many calls in all.
fn search_number(
    alloc: Global,
    checked: &Checked,
    ground: &Ground,
    shortest: &mut Shortest,
    threads: usize,
    total: usize,
    choice: u32,
) -> Result<bool, AllocError>
    requires closed { HasClosed checked.now.client ground.now }
    requires trace { IsTraceOf checked.now.client shortest.old.trace }
    ensures { IsShorter checked.now.client shortest.old.trace shortest.new.trace }
{
    let counts = chosen_counts(alloc, &checked.client, choice, threads)?;
    if total_of(&checked.client, counts.as_slice()) != total
        || !has_calls(&checked.client, counts.as_slice())
    {
        return Ok(false);
    }
    search_choice(alloc, checked, ground, shortest, counts.as_slice(), FEW)
}

// The same of all choices of so many calls.
fn search_choices(
    alloc: Global,
    checked: &Checked,
    ground: &Ground,
    shortest: &mut Shortest,
    threads: usize,
    total: usize,
) -> Result<bool, AllocError>
    requires closed { HasClosed checked.now.client ground.now }
    requires trace { IsTraceOf checked.now.client shortest.old.trace }
    ensures { IsShorter checked.now.client shortest.old.trace shortest.new.trace }
{
    let mut is_found = false;
    for choice in 0..CHOICES {
        is_found |= search_number(alloc, checked, ground, shortest, threads, total, choice)?;
    }
    Ok(is_found)
}

// The same of all choices of one call, of two and so on, up to so many, until a run is found that is not good.
fn search_few(
    alloc: Global,
    checked: &Checked,
    ground: &Ground,
    shortest: &mut Shortest,
    threads: usize,
    most: usize,
) -> Result<bool, AllocError>
    requires closed { HasClosed checked.now.client ground.now }
    requires trace { IsTraceOf checked.now.client shortest.old.trace }
    ensures { IsShorter checked.now.client shortest.old.trace shortest.new.trace }
{
    for total in 0..most {
        if search_choices(alloc, checked, ground, shortest, threads, total + 1)? {
            return Ok(true);
        }
    }
    Ok(false)
}

// Of how many calls each choice is searched, where so many are enough: of three, and of four where five are wanted.
fn few_of(total: usize) -> usize {
    match total {
        0..=4 => total.min(3),
        _ => 4,
    }
}

// Looks for a shorter trace with few calls by such a search.
fn lessen_with(
    alloc: Global,
    checked: &Checked,
    ground: &Ground,
    shortest: &mut Shortest,
    threads: usize,
) -> Result<(), AllocError>
    requires closed { HasClosed checked.now.client ground.now }
    requires trace { IsTraceOf checked.now.client shortest.old.trace }
    ensures { IsShorter checked.now.client shortest.old.trace shortest.new.trace }
{
    let counts = fewest(alloc, checked, ground, shortest, threads)?;
    let few = few_of(total_of(&checked.client, counts.as_slice()));
    if !search_few(alloc, checked, ground, shortest, threads, few)? {
        search_choice(alloc, checked, ground, shortest, counts.as_slice(), MANY)?;
    }
    Ok(())
}

/// Looks for a shorter trace of the same client with few calls. Calls are taken away one after the other, as long as a search of
/// some thousands of states finds a run that is not good with those that are left. Of the runs with at most three calls all are
/// searched, those with the fewest first, and of four if it took five.
///
/// Errors: out of memory.
pub fn lessen(
    alloc: Global,
    checked: &Checked,
    shortest: &mut Shortest,
    threads: usize,
) -> Result<(), AllocError>
    requires { IsTraceOf checked.now.client shortest.old.trace }
    ensures { IsShorter checked.now.client shortest.old.trace shortest.new.trace }
{
    let ground = Ground::Steps(build(alloc, checked)?);
    let done = lessen_with(alloc, checked, &ground, shortest, threads);
    drop(ground);
    done
}
