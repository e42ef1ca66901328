//! The words of the command.

use clap::{ArgMatches, Command};
use std::alloc::{AllocError, Global};
use tso_front::{Failure, Word, with_word};
use tso_verdict::{Check, check_arguments, check_of};

const HELP: &str =
    "Reads FILE, a program text, and CERT, a certificate, and trusts neither: it is checked first, as `tsoq check`
does. Of an accepted one it prints what its records show, one fact a line. That is counted and not proved, and says
what the certificate's states have, and not what a larger client's would. Writes no file.

Example:
  tsoq coverage queues/vyukov_weak.tso vyukov_weak.cert --source

Status:
  0   CERT is accepted             line 14: never met, most items: 2 and the like
  2   FILE is refused              E04 line 7
  3   CERT is refused              rejected K01, or rejected K08 at record 2
  5   out of memory
  6   a file failed                cannot read PATH
  64  the words are none of these";

/// Which certificate's records are counted, and what is shown.
#[derive(Clone, Copy)]
pub struct Covering<'a> {
    pub check: Check<'a>,
    /// Whether the program's text is printed as well, with a mark at each line.
    pub source: bool,
}

// The word that asks for the text.
const SOURCE: Word = Word::Flag {
    name: "source",
    help: "prints the program's text as well, with a mark at each line",
};

/// The words of the command.
///
/// Errors: where a growth was refused.
pub fn coverage_command<'a>(alloc: Global) -> Result<Command<'a>, AllocError> {
    let command = Command::new(alloc, "coverage")
        .about("says what the records of an accepted certificate show, and what they leave out")
        .after_help(HELP);
    let command = check_arguments(alloc, command)?;
    with_word(alloc, command, SOURCE)
}

/// What the words of the command ask for.
///
/// Errors: `Usage`; `Memory`.
pub fn covering_of<'a>(alloc: Global, matches: &ArgMatches<'a>) -> Result<Covering<'a>, Failure> {
    Ok(Covering {
        check: check_of(alloc, matches)?,
        source: matches.get_flag("source"),
    })
}
