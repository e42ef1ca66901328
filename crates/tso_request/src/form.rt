//! Which kind of certificate is written.

use clap::{Arg, ArgMatches};
use std::alloc::Global;
use tso_front::number_argument;

/// The kind of a certificate.
#[derive(Clone, Copy, PartialEq, Eq)]
pub enum Form {
    /// Of steps, with a table that says by arrays what may still be read and written.
    Arrays,
    /// Of steps, with a table that says by cells what may still be read and written, and in which intervals registers lie.
    Intervals,
    /// Of crossings, with such a table.
    Crossings,
}

/// The option that says which.
pub fn form_argument<'a>(alloc: Global) -> Arg<'a> {
    number_argument(alloc, "form", "FORM", 1, 3).help(
        "which kind of certificates is searched for, 1, 2 or 3",
    )
}

/// What the words say of it, if they say something.
pub fn form_of(matches: &ArgMatches<'_>) -> Option<Form> {
    match matches.get_one::<u64>("form") {
        Some(1) => Some(Form::Arrays),
        Some(2) => Some(Form::Intervals),
        Some(3) => Some(Form::Crossings),
        _ => None,
    }
}
