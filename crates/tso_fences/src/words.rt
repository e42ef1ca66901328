//! The words of the command.

use clap::{Arg, ArgAction, ArgMatches, Command};
use std::alloc::{AllocError, Global};
use tso_front::{
    FILE, Failure, JSON, VARIANT, Variant, number_argument, variant_of, with_word, with_words,
};
use tso_survey::{Asking, asking_of};

/// What is asked: of which text, of which clients, and how many fences may be added.
#[derive(Clone, Copy)]
pub struct Fences<'a> {
    pub program: &'a str,
    /// What stands in place of the text's calls, where its own client is asked about.
    pub variant: Variant<'a>,
    /// The survey whose clients are asked about in place of the text's own.
    pub survey: Option<Asking<'a>>,
    /// How many fences are added at most.
    pub add: usize,
    /// Whether objects of JSON are printed in place of the lines.
    pub json: bool,
}

// A number that goes with a survey alone.
#[derive(Clone, Copy)]
struct Bound {
    name: &'static str,
    least: i64,
    most: i64,
    help: &'static str,
}

const BOUNDS: [Bound; 4] = [
    Bound {
        name: "threads",
        least: 1,
        most: 4,
        help: "with --survey: how many threads a client has at most; 3 if not said",
    },
    Bound {
        name: "calls",
        least: 1,
        most: 12,
        help: "with --survey: how many calls its threads have at most; 4 if not said",
    },
    Bound {
        name: "producers",
        least: 0,
        most: 4,
        help: "with --survey: how many threads push at most; all if not said",
    },
    Bound {
        name: "consumers",
        least: 0,
        most: 4,
        help: "with --survey: how many threads pop at most; all if not said",
    },
];

// The command with a number that goes with a survey alone.
fn with_bound<'a>(
    alloc: Global,
    command: Command<'a>,
    bound: Bound,
) -> Result<Command<'a>, AllocError> {
    let Bound {
        name,
        least,
        most,
        help,
    } = bound;
    let number = number_argument(alloc, name, "N", least, most).help(help);
    match number.requires_arg("survey") {
        Ok(number) => command.arg(number),
        Err(reason) => {
            drop(command);
            Err(reason)
        }
    }
}

// The command with the flag of a survey.
fn with_survey<'a>(alloc: Global, command: Command<'a>) -> Result<Command<'a>, AllocError> {
    let survey = Arg::new(alloc, "survey")
        .long("survey")
        .action(ArgAction::SetTrue)
        .help(
            "asks about the clients that a survey searches; --before is then how many pushes a prologue has at most",
        );
    match survey.conflicts_with("client") {
        Ok(survey) => command.arg(survey),
        Err(reason) => {
            drop(command);
            Err(reason)
        }
    }
}

// The words for the clients of a survey.
fn survey_arguments<'a>(alloc: Global, command: Command<'a>) -> Result<Command<'a>, AllocError> {
    let mut command = with_survey(alloc, command)?;
    for bound in BOUNDS {
        command = with_bound(alloc, command, bound)?;
    }
    Ok(command)
}

// The command with the number of fences that are added.
fn with_add<'a>(alloc: Global, command: Command<'a>) -> Result<Command<'a>, AllocError> {
    let add = number_argument(alloc, "add", "N", 1, 8)
        .default_value("2")
        .help("how many fences are added at most to a client that is not accepted, 1 to 8");
    command.arg(add)
}

// The words for what is asked, and how it is printed.
fn own_arguments<'a>(alloc: Global, command: Command<'a>) -> Result<Command<'a>, AllocError> {
    let command = with_word(alloc, command, FILE)?;
    let command = with_add(alloc, command)?;
    with_word(alloc, command, JSON)
}

/// The command with its words.
///
/// Errors: where a growth was refused.
pub fn fences_arguments<'a>(
    alloc: Global,
    command: Command<'a>,
) -> Result<Command<'a>, AllocError> {
    let command = own_arguments(alloc, command)?;
    let command = with_words(alloc, command, &VARIANT)?;
    survey_arguments(alloc, command)
}

// The survey whose clients are asked about, if it is one.
fn survey_of<'a>(alloc: Global, matches: &ArgMatches<'a>) -> Result<Option<Asking<'a>>, Failure> {
    if !matches.get_flag("survey") {
        return Ok(None);
    }
    Ok(Some(asking_of(alloc, matches)?))
}

/// What the words ask for.
///
/// Errors: `Usage`; `Memory`.
pub fn fences_of<'a>(alloc: Global, matches: &ArgMatches<'a>) -> Result<Fences<'a>, Failure> {
    let survey = survey_of(alloc, matches)?;
    let variant = match survey {
        Some(_) => Variant::PLAIN,
        None => variant_of(matches),
    };
    let add = matches.get_one::<u64>("add").unwrap_or(2);
    Ok(Fences {
        program: matches.get_str("FILE").unwrap_or(""),
        variant,
        survey,
        add: usize::try_from(add).unwrap_or(2),
        json: matches.get_flag("json"),
    })
}
