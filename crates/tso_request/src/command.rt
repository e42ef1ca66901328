//! The words of the command line.

ghost use Rattle.std.specs.Prelude.{◌≡◌, ◌↔◌, ◌⊎◌, IsTrue, Some, option_map};
ghost use Rattle.tso_front.specs.declared.files.TheConstants.{STREAM as stream};

use crate::coverage::{Covering, coverage_command, covering_of};
use crate::fences::{FenceSearch, fence_search_of, fences_command};
use crate::form::{Form, form_argument, form_of};
use crate::help;
use crate::limit::StateLimit;
use crate::parse::{Parsing, parse_command, parsing_of};
use crate::survey::{Survey, survey_command, survey_of};
use crate::upgrade::{Upgrading, upgrade_command, upgrading_of};
use clap::{Arg, ArgAction, ArgMatches, Command, value_parser};
use std::alloc::{AllocError, Global};
use tso_cert::Workers;
use tso_front::{
    Ended, FILE, Failure, JSON, STREAM, VARIANT, VERSION, Variant, Word, ended_words, misused,
    number_argument, variant_of, with_word, with_words,
};
use tso_replay::{Replay, SHOWN, replay_of};
use tso_say::{Topic, find};
use tso_verdict::{ABOUT, Check, check_arguments, check_of, workers_argument, workers_of};

/// What is searched, how far, and where what is found is written.
#[derive(Clone, Copy)]
pub struct Search<'a> {
    pub program: &'a str,
    pub variant: Variant<'a>,
    /// Where the certificate is written, if it is.
    pub cert: Option<&'a str>,
    /// Where the trace is written, if it is.
    pub trace: Option<&'a str>,
    /// Which table the certificate is written with.
    pub form: Form,
    pub workers: Workers,
    pub limit: StateLimit,
    /// Whether it is to be said how much was met and written.
    pub stats: bool,
    /// Whether it is to be said how far the search has come.
    pub progress: bool,
    /// Whether what was found is printed as an object of JSON.
    pub json: bool,
}

impl Search<'_> {
    /// Whether a file that it may write is standard output.
    pub fn is_piped(&self) -> bool
        ensures { IsTrue result ↔ ((option_map (λ p. p.now) self.now.cert ≡ Some stream.now) ⊎ (option_map (λ p. p.now) self.now.trace ≡ Some stream.now)) }
    {
        self.cert == Some(STREAM) || self.trace == Some(STREAM)
    }
}

/// What the words ask for.
#[derive(Drop)]
pub enum Asked<'a> {
    /// Help, or the version.
    Help(Ended),
    /// The search of a program's runs.
    Verify(Search<'a>),
    /// The verdict on a certificate.
    Check(Check<'a>),
    /// An accepted certificate in version 2.
    Upgrade(Upgrading<'a>),
    /// What the records of a certificate show.
    Coverage(Covering<'a>),
    /// The replay of a trace.
    Replay(Replay<'a>),
    /// The search of all clients up to a size.
    Survey(Survey<'a>),
    /// Which fences are needed, or would help.
    Fences(FenceSearch<'a>),
    /// What is read of a program text.
    Parse(Parsing<'a>),
    /// What a code means.
    Explain(Topic),
}

/// What the words ask for, and whether it is to be said in words, behind the promised lines, why.
#[derive(Drop)]
pub struct Request<'a> {
    pub asked: Asked<'a>,
    pub verbose: bool,
}

fn states<'a>(alloc: Global) -> Arg<'a> {
    number_argument(alloc, "states", "N", 1, 4_194_304)
        .default_value("4194304")
        .help("how many states the search may meet, 1 to 4194304")
}

// The words for what a search reads and writes.
const FILES: [Word; 3] = [
    FILE,
    Word::Text {
        name: "out",
        value: "CERT",
        help: "where the certificate is written, if it is to be",
    },
    Word::Text {
        name: "trace",
        value: "TRACE",
        help: "where the trace is written, if it is to be",
    },
];

// The words for what a search says.
const SAID: [Word; 3] = [
    Word::Flag {
        name: "stats",
        help: "says on standard error how much was met and written, and in what time",
    },
    Word::Flag {
        name: "progress",
        help: "says on standard error how far the search has come",
    },
    JSON,
];

// The command with the words for how a search goes.
fn with_search<'a>(alloc: Global, command: Command<'a>) -> Result<Command<'a>, AllocError> {
    let command = command.arg(form_argument(alloc).default_value("1"))?;
    let command = command.arg(workers_argument(alloc, "how many workers search, 1 to 64"))?;
    command.arg(states(alloc))
}

fn verify_command<'a>(alloc: Global) -> Result<Command<'a>, AllocError> {
    let command = Command::new(alloc, "verify")
        .about(
            "searches all runs of a program, for a certificate that they are good or a trace of one that is not",
        )
        .after_help(help::VERIFY);
    let command = with_words(alloc, command, &FILES)?;
    let command = with_search(alloc, command)?;
    let command = with_words(alloc, command, &SAID)?;
    with_words(alloc, command, &VARIANT)
}

fn check_command<'a>(alloc: Global) -> Result<Command<'a>, AllocError> {
    let command = Command::new(alloc, "check")
        .about(ABOUT)
        .after_help(help::CHECK);
    check_arguments(alloc, command)
}

// The word for the code that is explained.
const CODE: Word = Word::Plain {
    name: "CODE",
    help: "E01 to E14, K01 to K12 or T01 to T03",
};

fn explain_command<'a>(alloc: Global) -> Result<Command<'a>, AllocError> {
    let command = Command::new(alloc, "explain")
        .about(
            "says what a code means, with a small text that is refused with it and the mended text",
        )
        .after_help(help::EXPLAIN);
    with_word(alloc, command, CODE)
}

// The command with the label to which a replay goes back.
fn with_label<'a>(alloc: Global, command: Command<'a>) -> Result<Command<'a>, AllocError> {
    let to = Arg::new(alloc, "to")
        .long("to")
        .value_name("K")
        .action(ArgAction::Set)
        .value_parser(value_parser!(u64))
        .help("goes back to the state after label K");
    command.arg(to)
}

// The word for the trace that is replayed.
const TRACE: Word = Word::Plain {
    name: "TRACE",
    help: "the trace of an error",
};

fn replay_command<'a>(alloc: Global) -> Result<Command<'a>, AllocError> {
    let command = Command::new(alloc, "replay")
        .about(
            "walks the machine along a trace, and prints its labels, the state and what is wrong",
        )
        .after_help(help::REPLAY);
    let command = with_words(alloc, command, &[FILE, TRACE])?;
    let command = with_label(alloc, command)?;
    let command = with_words(alloc, command, &SHOWN)?;
    with_words(alloc, command, &VARIANT)
}

// The word that asks why.
const VERBOSE: Word = Word::Flag {
    name: "verbose",
    help: "says on standard error, behind the promised lines, why",
};

// A command of which words can be asked for that say why.
fn told<'a>(
    alloc: Global,
    command: Result<Command<'a>, AllocError>,
) -> Result<Command<'a>, AllocError> {
    with_word(alloc, command?, VERBOSE)
}

// The program's words with one such command more.
fn with_command<'a>(
    alloc: Global,
    program: Command<'a>,
    command: Result<Command<'a>, AllocError>,
) -> Result<Command<'a>, AllocError> {
    match told(alloc, command) {
        Ok(command) => program.subcommand(command),
        Err(reason) => {
            drop(program);
            Err(reason)
        }
    }
}

// The commands on a certificate.
fn with_certificate_commands<'a>(
    alloc: Global,
    program: Command<'a>,
) -> Result<Command<'a>, AllocError> {
    let program = with_command(alloc, program, check_command(alloc))?;
    let program = with_command(alloc, program, upgrade_command(alloc))?;
    with_command(alloc, program, coverage_command(alloc))
}

// The commands on one client.
fn with_client_commands<'a>(
    alloc: Global,
    program: Command<'a>,
) -> Result<Command<'a>, AllocError> {
    let program = with_command(alloc, program, verify_command(alloc))?;
    let program = with_certificate_commands(alloc, program)?;
    with_command(alloc, program, replay_command(alloc))
}

// The commands on several clients.
fn with_queue_commands<'a>(alloc: Global, program: Command<'a>) -> Result<Command<'a>, AllocError> {
    let program = with_command(alloc, program, survey_command(alloc, states(alloc)))?;
    with_command(alloc, program, fences_command(alloc, states(alloc)))
}

// All the words.
fn command<'a>(alloc: Global) -> Result<Command<'a>, AllocError> {
    let program = Command::new(alloc, "tsoq")
        .about("checks lock-free ring queues under x86-TSO")
        .version(VERSION)
        .after_help(help::PROGRAM)
        .subcommand_required(true);
    let program = with_client_commands(alloc, program)?;
    let program = with_queue_commands(alloc, program)?;
    let program = with_command(alloc, program, parse_command(alloc))?;
    match explain_command(alloc) {
        Ok(explain) => program.subcommand(explain),
        Err(reason) => {
            drop(program);
            Err(reason)
        }
    }
}

// How many states a search may meet.
fn limit_of(alloc: Global, matches: &ArgMatches<'_>) -> Result<StateLimit, Failure> {
    match StateLimit::new(matches.get_one::<u64>("states").unwrap_or(0)) {
        Some(limit) => Ok(limit),
        None => Err(misused(alloc, "the limit is 1 to 4194304 states\n")),
    }
}

fn search_of<'a>(alloc: Global, verify: &ArgMatches<'a>) -> Result<Search<'a>, Failure> {
    let workers = workers_of(alloc, verify)?;
    let limit = limit_of(alloc, verify)?;
    Ok(Search {
        program: verify.get_str("FILE").unwrap_or(""),
        variant: variant_of(verify),
        cert: verify.get_str("out"),
        trace: verify.get_str("trace"),
        form: form_of(verify).unwrap_or(Form::Arrays),
        workers,
        limit,
        stats: verify.get_flag("stats"),
        progress: verify.get_flag("progress"),
        json: verify.get_flag("json"),
    })
}

// The code that is asked for.
fn topic_of(alloc: Global, code: &str) -> Result<Topic, Failure> {
    match find(code) {
        Some(topic) => Ok(topic),
        None => Err(misused(
            alloc,
            "the codes are E01 to E14, K01 to K12 and T01 to T03\n",
        )),
    }
}

// What a command on a certificate with this name asks for.
fn asked_of_certificate<'a>(
    alloc: Global,
    name: &str,
    found: &ArgMatches<'a>,
) -> Result<Asked<'a>, Failure> {
    match name {
        "check" => Ok(Asked::Check(check_of(alloc, found)?)),
        "upgrade" => Ok(Asked::Upgrade(upgrading_of(alloc, found)?)),
        _ => Ok(Asked::Coverage(covering_of(alloc, found)?)),
    }
}

// What a command on several clients with this name asks for.
fn asked_of_queue<'a>(
    alloc: Global,
    name: &str,
    found: &ArgMatches<'a>,
) -> Result<Asked<'a>, Failure> {
    let limit = limit_of(alloc, found)?;
    match name {
        "survey" => Ok(Asked::Survey(survey_of(alloc, limit, found)?)),
        _ => Ok(Asked::Fences(fence_search_of(alloc, limit, found)?)),
    }
}

// What a command with this name asks for.
fn asked_of<'a>(alloc: Global, name: &str, found: &ArgMatches<'a>) -> Result<Asked<'a>, Failure> {
    match name {
        "verify" => Ok(Asked::Verify(search_of(alloc, found)?)),
        "check" | "upgrade" | "coverage" => asked_of_certificate(alloc, name, found),
        "replay" => Ok(Asked::Replay(replay_of(alloc, found)?)),
        "survey" | "fences" => asked_of_queue(alloc, name, found),
        "parse" => Ok(Asked::Parse(parsing_of(found))),
        _ => {
            let code = found.get_str("CODE").unwrap_or("");
            Ok(Asked::Explain(topic_of(alloc, code)?))
        }
    }
}

// What the words of a command ask for.
fn request_in<'a>(alloc: Global, matches: &ArgMatches<'a>) -> Result<Request<'a>, Failure> {
    let Some((name, found)) = matches.subcommand() else {
        return Err(misused(alloc, "no command\n"));
    };
    Ok(Request {
        asked: asked_of(alloc, name, found)?,
        verbose: found.get_flag("verbose"),
    })
}

/// What the words ask for, the program's name first.
///
/// Errors: `Usage`; `Memory`.
pub fn request_of<'a>(alloc: Global, words: &'a [String]) -> Result<Request<'a>, Failure> {
    let command = command(alloc)?;
    match command.try_get_matches_from(words) {
        Ok(matches) => {
            let request = request_in(alloc, &matches);
            drop(matches);
            request
        }
        Err(error) => {
            let ended = ended_words(alloc, &error);
            drop(error);
            Ok(Request {
                asked: Asked::Help(ended?),
                verbose: false,
            })
        }
    }
}
