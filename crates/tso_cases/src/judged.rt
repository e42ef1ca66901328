//! Records that are judged: their states and ends are told by texts.

ghost use Rattle.std.specs.Prelude.{◌≡◌, ◌∷◌, [], IfOk};
ghost use Rattle.tso_cert.specs.Lookup.{IsOrdered};
ghost use Rattle.tso_state.specs.Rising.{IsBelow, IsRising};
ghost use Rattle.tso_cert.specs.Trees.{tree_of};
ghost use Rattle.tso_rec.specs.Records.{states_of};

use std::alloc::{AllocError, Global};
use std::cmp::Ordering;
use tso_calls::{Failure, actor_of, before, behind, order_of, state_after, state_of, word};
use tso_cert::Cert;
use tso_choose::{Choice, Choices};
use tso_flow::Checked;
use tso_foot::build;
use tso_indep::Reason;
use tso_judge::{Code, Whole, least_table};
use tso_list::Short;
use tso_rec::{Basis, End, Grain, Packed, Record};
use tso_state::{State, compare};

// The state after the steps of actors, as `after e0 e0`, or the one that a text tells.
fn state_in(alloc: Global, checked: &Checked, text: &str) -> Result<State, Failure> {
    match word(text, 0) {
        "after" => state_after(alloc, checked, behind(text, "after")),
        _ => state_of(alloc, text),
    }
}

// The reason of this name.
fn reason_of(name: &str) -> Result<Reason, Failure> {
    match name {
        "own" => Ok(Reason::Own),
        "far" => Ok(Reason::Far),
        "inside" => Ok(Reason::Inside),
        "buffer" => Ok(Reason::Buffer),
        "return" => Ok(Reason::Return),
        "no_return" => Ok(Reason::NoReturn),
        _ => Err(Failure::Unreadable),
    }
}

// A chosen actor, with its reasons behind it.
fn choice_of(alloc: Global, item: &str) -> Result<Choice, Failure> {
    let actor = actor_of(word(item, 0))?;
    let mut reasons = Short::new(alloc);
    for name in item.split_whitespace().skip(1) {
        reasons.push(reason_of(name)?)?;
    }
    Ok(Choice { actor, reasons })
}

// Chosen actors.
fn choices_of(alloc: Global, text: &str) -> Result<Choices, Failure> {
    let mut choices = Choices::new(alloc);
    for item in text.split(';') {
        if word(item, 0) != "" {
            choices.push(choice_of(alloc, item)?)?;
        }
    }
    Ok(choices)
}

// The end that a text tells: `choices e0 own; e1 own` or `order 0 0 done; 1 0 value 7`.
fn end_of(alloc: Global, text: &str) -> Result<End, Failure> {
    match word(text, 0) {
        "choices" => Ok(End::Choices(choices_of(alloc, behind(text, "choices"))?)),
        _ => Ok(End::Order(order_of(alloc, behind(text, "order"))?)),
    }
}

// The record of a state and an end.
fn record_in(alloc: Global, checked: &Checked, state: &str, end: &str) -> Result<Record, Failure> {
    let state = state_in(alloc, checked, state)?;
    match end_of(alloc, end) {
        Ok(end) => Ok(Record { state, end }),
        Err(failure) => {
            drop(state);
            Err(failure)
        }
    }
}

// These two records, of which the first has the lesser state.
fn both(alloc: Global, first: &Record, second: &Record) -> Result<Packed, AllocError>
    requires { IsBelow first.now.state second.now.state }
    ensures { IfOk result (λ p. IsRising (states_of p)) }
{
    let mut pair = Packed::new(alloc);
    pair.push(first)?;
    pair.push(second)?;
    Ok(pair)
}

// This record alone.
fn one_of(alloc: Global, only: &Record) -> Result<Packed, AllocError>
    ensures { IfOk result (λ p. p ≡ only.now ∷ []) }
{
    let mut one = Packed::new(alloc);
    one.push(only)?;
    Ok(one)
}

// Records of two states, the lesser one first; of one where they are the same.
fn rising_pair(alloc: Global, found: &Record, other: &Record) -> Result<Packed, AllocError>
    ensures { IfOk result (λ p. IsRising (states_of p)) }
{
    match compare(&found.state, &other.state) {
        Ordering::Less => both(alloc, found, other),
        _ => match compare(&other.state, &found.state) {
            Ordering::Less => both(alloc, other, found),
            _ => one_of(alloc, found),
        },
    }
}

// A fork of these two, on a state that lies strictly between theirs.
fn forked(alloc: Global, first: &Record, between: State, second: &Record) -> Result<Cert, Failure>
    requires { IsBelow first.now.state second.now.state }
    ensures { IfOk result (λ c. IsOrdered (tree_of c)) }
{
    let Ordering::Less = compare(&first.state, &between) else {
        return Err(Failure::Difference);
    };
    let Ordering::Greater = compare(&second.state, &between) else {
        return Err(Failure::Difference);
    };
    let left = Box::new(alloc, Cert::Leaf(one_of(alloc, first)?))?;
    let right = Box::new(alloc, Cert::Leaf(one_of(alloc, second)?))?;
    Ok(Cert::Fork(left, between, right))
}

// A fork of records of two states, the lesser one left.
fn fork_of(alloc: Global, found: &Record, between: State, other: &Record) -> Result<Cert, Failure>
    ensures { IfOk result (λ c. IsOrdered (tree_of c)) }
{
    match compare(&found.state, &other.state) {
        Ordering::Less => forked(alloc, found, between, other),
        _ => match compare(&other.state, &found.state) {
            Ordering::Less => forked(alloc, other, between, found),
            _ => Err(Failure::Difference),
        },
    }
}

// A certificate of records of two states: a leaf, or a fork where a text tells a state between theirs.
fn cert_of(
    alloc: Global,
    checked: &Checked,
    found: &Record,
    between: &str,
    other: &Record,
) -> Result<Cert, Failure>
    ensures { IfOk result (λ c. IsOrdered (tree_of c)) }
{
    if word(between, 0) == "" {
        return Ok(Cert::Leaf(rising_pair(alloc, found, other)?));
    }
    fork_of(alloc, found, state_in(alloc, checked, between)?, other)
}

// Writes what is found of a record of a certificate, with the least closed table.
fn put_code(
    alloc: Global,
    checked: &Checked,
    cert: &Cert,
    found: &Record,
    out: &mut String,
) -> Result<(), Failure>
    requires { IsOrdered (tree_of cert.now) }
{
    let own = least_table(alloc, checked)?;
    let basis = Basis {
        grain: Grain::Steps,
        table: build(alloc, checked)?,
    };
    let whole = Whole {
        alloc,
        checked,
        basis: &basis,
        own: &own,
        tree: cert,
    };
    let judged = whole.judge(&found.state, &found.end);
    drop(basis);
    drop(own);
    match judged? {
        Some(code) => Ok(write!(out, "{code}")?),
        None => Ok(out.push_str("none")?),
    }
}

// The same of a record beside another one.
fn put_among(
    alloc: Global,
    checked: &Checked,
    found: &Record,
    between: &str,
    other: &Record,
    out: &mut String,
) -> Result<(), Failure> {
    let cert = cert_of(alloc, checked, found, between, other)?;
    let put = put_code(alloc, checked, &cert, found, out);
    drop(cert);
    put
}

// The same of a record beside that of another state.
fn put_beside(
    alloc: Global,
    checked: &Checked,
    found: &Record,
    between: &str,
    state: &str,
    out: &mut String,
) -> Result<(), Failure> {
    let other = record_in(alloc, checked, state, "order")?;
    let put = put_among(alloc, checked, found, between, &other, out);
    drop(other);
    put
}

// The same of the record that a text tells: its state, the other state, its end.
fn put_found(
    alloc: Global,
    checked: &Checked,
    between: &str,
    text: &str,
    out: &mut String,
) -> Result<(), Failure> {
    let rest = behind(text, "/");
    let found = record_in(alloc, checked, before(text, "/"), behind(rest, "/"))?;
    let put = put_beside(alloc, checked, &found, between, before(rest, "/"), out);
    drop(found);
    put
}

/// Judges a record of a client, in a certificate of it and of another state: a leaf, or a fork on a state between them. Whether the
/// case is one.
pub fn answer(
    alloc: Global,
    checked: &Checked,
    call: &str,
    out: &mut String,
) -> Result<bool, Failure> {
    let text = behind(call, ":");
    match word(call, 0) {
        "judge" => put_found(alloc, checked, "", text, out)?,
        "judge_by_halves" => {
            put_found(alloc, checked, before(text, "/"), behind(text, "/"), out)?;
        }
        _ => return Ok(false),
    }
    Ok(true)
}
