//! The words of the command line.

ghost use Rattle.std.specs.Prelude.{◌≡◌, ◌≢◌};

use crate::failure::{Failure, misused};
use clap::error::ErrorKind as ClapKind;
use clap::parser::ValueSource;
use clap::{Arg, ArgAction, ArgMatches, Command, Error, value_parser};
use std::alloc::{Alloc, AllocError, Global};
use std::env::Env;
use std::io::{BufWriter, ErrorKind, Write};

/// What `--version` prints behind the program's name.
pub const VERSION: &str = "0.1.0";

// Why there are no words: memory is wanting, or else one of them is not UTF-8.
fn words_failure(kind: ErrorKind) -> Failure
    ensures memory { kind ≡ ErrorKind.OutOfMemory → result ≡ Failure.Memory }
    ensures other { kind ≢ ErrorKind.OutOfMemory → result ≡ Failure.NotText }
{
    match kind {
        ErrorKind::OutOfMemory => Failure::Memory,
        _ => Failure::NotText,
    }
}

// The words, the program's own name first.
fn words_of<R: Env + Alloc<A = Global>>(rt: &R) -> Result<Vec<String>, Failure> {
    match std::env::args(rt) {
        Ok(words) => Ok(words.collect(rt.alloc())?),
        Err(error) => Err(words_failure(error.kind())),
    }
}

/// The words of the command line, the program's own name first, and a buffer before standard output.
///
/// Errors: `NotText` where a word is not UTF-8; `Memory`.
pub fn started<R: Env + Alloc<A = Global>, O: Write + Drop>(
    rt: &R,
    out: O,
) -> Result<(Vec<String>, BufWriter<O>), Failure> {
    let words = words_of(rt)?;
    match BufWriter::new(rt.alloc(), out) {
        Ok(out) => Ok((words, out)),
        Err(_) => Err(Failure::Memory),
    }
}

/// What is said where the words were read to their end: help, or the version.
#[derive(Drop)]
pub struct Ended(pub String);

/// What the words came to, where they ask for no command: a text that is asked for, or why they are none of the program's.
///
/// Errors: `Usage`; `Memory`.
pub fn ended_words(alloc: Global, error: &Error) -> Result<Ended, Failure> {
    let text = error.to_string(alloc)?;
    match error.kind() {
        ClapKind::DisplayHelp | ClapKind::DisplayVersion => Ok(Ended(text)),
        ClapKind::OutOfMemory => Err(Failure::Memory),
        _ => Err(Failure::Usage(text)),
    }
}

/// A word of a command, and what its help says of it.
#[derive(Clone, Copy)]
pub enum Word {
    /// One that has to be there, by itself.
    Plain {
        name: &'static str,
        help: &'static str,
    },
    /// An option that is a flag.
    Flag {
        name: &'static str,
        help: &'static str,
    },
    /// An option with a text, which its help calls `value`.
    Text {
        name: &'static str,
        value: &'static str,
        help: &'static str,
    },
    /// An option with a number within these bounds.
    Number {
        name: &'static str,
        least: i64,
        most: i64,
        help: &'static str,
    },
}

/// The word that names the program text.
pub const FILE: Word = Word::Plain {
    name: "FILE",
    help: "the program text",
};

/// The option that asks for objects in place of lines.
pub const JSON: Word = Word::Flag {
    name: "json",
    help: "prints objects of JSON, one a line, in place of the lines",
};

/// An option with a number within these bounds, which its help calls `value`.
pub fn number_argument<'a>(
    alloc: Global,
    name: &'static str,
    value: &'static str,
    least: i64,
    most: i64,
) -> Arg<'a> {
    Arg::new(alloc, name)
        .long(name)
        .value_name(value)
        .action(ArgAction::Set)
        .value_parser(value_parser!(u64).range(least..=most))
}

// What clap is told of a word.
fn argument_of<'a>(alloc: Global, word: Word) -> Arg<'a> {
    match word {
        Word::Plain { name, help } => Arg::new(alloc, name).required(true).help(help),
        Word::Flag { name, help } => Arg::new(alloc, name)
            .long(name)
            .action(ArgAction::SetTrue)
            .help(help),
        Word::Text { name, value, help } => Arg::new(alloc, name)
            .long(name)
            .value_name(value)
            .action(ArgAction::Set)
            .help(help),
        Word::Number {
            name,
            least,
            most,
            help,
        } => number_argument(alloc, name, "N", least, most).help(help),
    }
}

/// Whether the words have this option, or this word. One that has its default is not given.
pub fn is_given(matches: &ArgMatches<'_>, name: &str) -> bool {
    matches.value_source(name) == Some(ValueSource::CommandLine)
}

/// That none of these options is given, of which a command makes no use beside another word.
///
/// Errors: `Usage`, which names the first that is given; `Memory`.
pub fn refuse_given(
    alloc: Global,
    matches: &ArgMatches<'_>,
    names: &[&str],
    beside: &str,
) -> Result<(), Failure> {
    for name in names {
        if is_given(matches, name) {
            let text = format!(in alloc; "--{name} is not used beside {beside}\n")?;
            return Err(misused(alloc, text.as_str()));
        }
    }
    Ok(())
}

/// The command with a word.
///
/// Errors: where a growth was refused.
pub fn with_word<'a>(
    alloc: Global,
    command: Command<'a>,
    word: Word,
) -> Result<Command<'a>, AllocError> {
    command.arg(argument_of(alloc, word))
}

/// The command with these words.
///
/// Errors: where a growth was refused.
pub fn with_words<'a>(
    alloc: Global,
    command: Command<'a>,
    words: &[Word],
) -> Result<Command<'a>, AllocError> {
    let mut command = command;
    for word in words {
        command = with_word(alloc, command, *word)?;
    }
    Ok(command)
}
