//! What is asked of `parse`.

use crate::help;
use clap::{ArgMatches, Command};
use std::alloc::{AllocError, Global};
use tso_front::{FILE, VARIANT, Variant, Word, variant_of, with_words};

/// A program text that is to be parsed, and whether its canonical text is printed.
#[derive(Clone, Copy)]
pub struct Parsing<'a> {
    pub program: &'a str,
    pub variant: Variant<'a>,
    pub print: bool,
}

// The word that asks for the canonical text.
const PRINT: Word = Word::Flag {
    name: "print",
    help: "prints the canonical text of the program",
};

/// The words of `parse`.
///
/// Errors: where a growth was refused.
pub fn parse_command<'a>(alloc: Global) -> Result<Command<'a>, AllocError> {
    let command = Command::new(alloc, "parse")
        .about(
            "reads a program, and says whether it is accepted and how many labels its runs have at most",
        )
        .after_help(help::PARSE);
    let command = with_words(alloc, command, &[FILE, PRINT])?;
    with_words(alloc, command, &VARIANT)
}

/// What the words of `parse` ask for.
pub fn parsing_of<'a>(parse: &ArgMatches<'a>) -> Parsing<'a> {
    Parsing {
        program: parse.get_str("FILE").unwrap_or(""),
        variant: variant_of(parse),
        print: parse.get_flag("print"),
    }
}
