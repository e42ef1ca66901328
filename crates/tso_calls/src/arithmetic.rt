//! Sums, differences and logic of words, flags, and conditions.

use crate::failure::Failure;
use crate::input::{has_word, number_at, word};
use std::alloc::AllocError;
use tso_line::condition_word;
use tso_word::{BitOperation, Condition, Flags, add, dec, holds, inc, logic, sub};

const CONDITIONS: [Condition; 10] = [
    Condition::E,
    Condition::Ne,
    Condition::B,
    Condition::Ae,
    Condition::Be,
    Condition::A,
    Condition::L,
    Condition::Ge,
    Condition::Le,
    Condition::G,
];

/// The flags that a text says are 1.
pub fn flags_in(text: &str) -> Flags {
    Flags {
        zf: has_word(text, "zf=1"),
        cf: has_word(text, "cf=1"),
        sf: has_word(text, "sf=1"),
        of: has_word(text, "of=1"),
    }
}

/// Writes the four flags.
pub fn put_flags(out: &mut String, flags: Flags) -> Result<(), AllocError> {
    let Flags { zf, cf, sf, of } = flags;
    let (zf, cf, sf, of) = (zf as u8, cf as u8, sf as u8, of as u8);
    write!(out, "zf={zf} cf={cf} sf={sf} of={of}")
}

// Writes a word and the flags that came with it.
fn put_result(out: &mut String, outcome: (u64, Flags)) -> Result<(), AllocError> {
    let (value, flags) = outcome;
    write!(out, "{value} ")?;
    put_flags(out, flags)
}

// A call with two words.
fn put_of_two(call: &str, out: &mut String) -> Result<(), Failure> {
    let (a, b) = (number_at(call, 1)?, number_at(call, 2)?);
    let result = match word(call, 0) {
        "add" => add(a, b),
        "sub" => sub(a, b),
        "and" => logic(BitOperation::And, a, b),
        "or" => logic(BitOperation::Or, a, b),
        _ => logic(BitOperation::Xor, a, b),
    };
    put_result(out, result)?;
    Ok(())
}

// The conditions that hold after a comparison of two words.
fn put_conditions(call: &str, out: &mut String) -> Result<(), Failure> {
    let (_, flags) = sub(number_at(call, 1)?, number_at(call, 2)?);
    for condition in CONDITIONS {
        if holds(condition, flags) {
            let name = condition_word(condition);
            write!(out, "{name} ")?;
        }
    }
    Ok(())
}

// Whether a condition holds.
fn put_holds(call: &str, out: &mut String) -> Result<(), Failure> {
    let name = word(call, 1);
    let flags = flags_in(call);
    for condition in CONDITIONS {
        if name == condition_word(condition) {
            let is_so = holds(condition, flags);
            write!(out, "{is_so}")?;
        }
    }
    Ok(())
}

/// Makes a call on words. Whether the case is one.
pub fn answer(call: &str, out: &mut String) -> Result<bool, Failure> {
    match word(call, 0) {
        "add" | "sub" | "and" | "or" | "xor" => put_of_two(call, out)?,
        "inc" => put_result(out, inc(number_at(call, 1)?, flags_in(call)))?,
        "dec" => put_result(out, dec(number_at(call, 1)?, flags_in(call)))?,
        "compare" => put_conditions(call, out)?,
        "holds" => put_holds(call, out)?,
        _ => return Ok(false),
    }
    Ok(true)
}
