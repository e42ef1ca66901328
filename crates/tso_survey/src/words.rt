//! The words of a survey.

use crate::bounds::Bounds;
use clap::{ArgMatches, Command};
use std::alloc::{AllocError, Global};
use std::fmt;
use tso_front::{
    FILE, Failure, JSON, Word, is_given, misused, read_apart, refuse_given, with_word, with_words,
};

/// Which of the clients that are searched are taken: those whose numbers, from 0, leave `part` when divided by `parts`.
#[derive(Clone, Copy, PartialEq, Eq)]
pub struct Part {
    pub part: usize,
    pub parts: usize,
}

/// What a survey asks about, of which text, and where its files lie.
#[derive(Clone, Copy)]
pub struct Asking<'a> {
    pub program: &'a str,
    pub bounds: Bounds,
    /// In place of the mode that the text says.
    pub mode: Option<&'a str>,
    /// A file of clients, a line each, in place of those within the bounds.
    pub clients: Option<&'a str>,
    /// Which of the clients are searched, if not all.
    pub part: Option<Part>,
    /// The folder where texts, certificates and traces are written, if they are.
    pub out: Option<&'a str>,
    /// A folder with those of an earlier survey, which are decided in place of a search.
    pub collect: Option<&'a str>,
    /// Whether it is counted what all certificates show together.
    pub counts: bool,
    /// Whether the clients are told and not searched.
    pub lists: bool,
    /// Whether it goes on behind a violation.
    pub all: bool,
    /// Whether it is to be said how far the survey has come.
    pub progress: bool,
    /// Whether objects of JSON are printed in place of the lines.
    pub json: bool,
}

/// The words that say which clients' files are decided, but for `--before` and `--mode`.
pub const COLLECTED: [Word; 6] = [
    Word::Text {
        name: "collect",
        value: "DIR",
        help: "checks the certificates and replays the traces of a folder, and searches nothing",
    },
    Word::Text {
        name: "clients",
        value: "LIST",
        help: "a file of clients, a line each, in place of those within the bounds",
    },
    Word::Number {
        name: "threads",
        least: 1,
        most: 4,
        help: "how many threads a client has at most; 3 if not said",
    },
    Word::Number {
        name: "calls",
        least: 1,
        most: 12,
        help: "how many calls its threads have at most; 4 if not said",
    },
    Word::Number {
        name: "producers",
        least: 0,
        most: 4,
        help: "how many threads push at most; all if not said",
    },
    Word::Number {
        name: "consumers",
        least: 0,
        most: 4,
        help: "how many threads pop at most; all if not said",
    },
];

// The words for prologues, for the mode, for files, and for what is printed.
const OTHERS: [Word; 9] = [
    Word::Text {
        name: "before",
        value: "N",
        help: "how many pushes its prologue has at most, 0 to 4; none if not said",
    },
    Word::Text {
        name: "mode",
        value: "MODE",
        help: "strict or weak, in place of what the text says",
    },
    Word::Text {
        name: "out",
        value: "DIR",
        help: "the folder where each client's text and certificate or trace are written",
    },
    Word::Text {
        name: "part",
        value: "I/N",
        help: "takes each Nth client alone, from the Ith on",
    },
    Word::Flag {
        name: "list",
        help: "prints the clients that would be searched, a line each",
    },
    Word::Flag {
        name: "all",
        help: "goes on behind a violation",
    },
    Word::Flag {
        name: "coverage",
        help: "prints what the records of all certificates show together, before the last line",
    },
    Word::Flag {
        name: "progress",
        help: "says on standard error how far the survey has come",
    },
    JSON,
];

/// The command with the words that say what a survey asks about.
///
/// Errors: where a growth was refused.
pub fn asking_arguments<'a>(
    alloc: Global,
    command: Command<'a>,
) -> Result<Command<'a>, AllocError> {
    let command = with_word(alloc, command, FILE)?;
    let command = with_words(alloc, command, &COLLECTED)?;
    with_words(alloc, command, &OTHERS)
}

fn asked_number(matches: &ArgMatches<'_>, name: &str, otherwise: usize) -> usize {
    match matches.get_one::<u64>(name) {
        Some(number) => usize::try_from(number).unwrap_or(otherwise),
        None => otherwise,
    }
}

// How many pushes a prologue has at most.
fn before_of(alloc: Global, matches: &ArgMatches<'_>) -> Result<usize, Failure> {
    let Some(word) = matches.get_str("before") else {
        return Ok(0);
    };
    match word.parse::<usize>() {
        Ok(before) if before <= MOST_BEFORE => Ok(before),
        _ => {
            let text = format!(in alloc;
                "--before is 0 to {MOST_BEFORE} here, how many pushes a prologue has at most, and not `{word}`\n"
            )?;
            Err(misused(alloc, text.as_str()))
        }
    }
}

// The bounds that the words say.
fn bounds_of(alloc: Global, matches: &ArgMatches<'_>) -> Result<Bounds, Failure> {
    let threads = asked_number(matches, "threads", 3);
    Ok(Bounds {
        threads,
        calls: asked_number(matches, "calls", 4),
        before: before_of(alloc, matches)?,
        producers: asked_number(matches, "producers", threads),
        consumers: asked_number(matches, "consumers", threads),
    })
}

// The words that say how large clients are.
const SIZES: [&str; 6] = [
    "threads",
    "calls",
    "producers",
    "consumers",
    "before",
    "part",
];

// The words of which nothing is used where clients are told alone.
const SEARCHED: [&str; 9] = [
    "clients", "collect", "out", "json", "all", "progress", "coverage", "workers", "states",
];

// Refuses words of which no use is made beside others.
fn refuse_unused(alloc: Global, matches: &ArgMatches<'_>) -> Result<(), Failure> {
    if matches.get_flag("list") {
        refuse_given(alloc, matches, &SEARCHED, "--list")?;
    }
    if is_given(matches, "clients") {
        refuse_given(alloc, matches, &SIZES, "--clients")?;
    }
    if is_given(matches, "collect") {
        refuse_given(alloc, matches, &["states"], "--collect")?;
    }
    Ok(())
}

/// What the words ask about.
///
/// Errors: `Usage`; `Memory`.
pub fn asking_of<'a>(alloc: Global, matches: &ArgMatches<'a>) -> Result<Asking<'a>, Failure> {
    refuse_unused(alloc, matches)?;
    let program = matches.get_str("FILE").unwrap_or("");
    let clients = matches.get_str("clients");
    read_apart(alloc, program, clients.unwrap_or(""))?;
    let part = match matches.get_str("part") {
        Some(word) => Some(part_of(alloc, word)?),
        None => None,
    };
    Ok(Asking {
        program,
        bounds: bounds_of(alloc, matches)?,
        mode: matches.get_str("mode"),
        clients,
        part,
        out: matches.get_str("out"),
        collect: matches.get_str("collect"),
        counts: matches.get_flag("coverage"),
        lists: matches.get_flag("list"),
        all: matches.get_flag("all"),
        progress: matches.get_flag("progress"),
        json: matches.get_flag("json"),
    })
}

// The part that a word says: `2/8` is the second of eight.
fn part_of(alloc: Global, word: &str) -> Result<Part, Failure> {
    let numbers = match word.split_once('/') {
        Some((part, parts)) => (part.parse::<usize>(), parts.parse::<usize>()),
        None => return Err(misused(alloc, PART)),
    };
    match numbers {
        (Ok(part), Ok(parts)) if part >= 1 && part <= parts => Ok(Part {
            part: part - 1,
            parts,
        }),
        _ => Err(misused(alloc, PART)),
    }
}

const PART: &str = "--part is I/N, with I from 1 to N\n";

// How many pushes a prologue of a survey has at most.
const MOST_BEFORE: usize = 4;

impl Part {
    /// Whether the client with this number belongs to it.
    pub fn has(&self, number: usize) -> bool {
        self.parts != 0 && number % self.parts == self.part
    }
}

/// As it is written, but with `-` for the stroke: `2-8`.
impl fmt::Display for Part {
    fn fmt<W: fmt::Write>(&self, f: &mut fmt::Formatter<W>) -> fmt::Result {
        let (part, parts) = (self.part.saturating_add(1), self.parts);
        write!(f, "{part}-{parts}")
    }
}
