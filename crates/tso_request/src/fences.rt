//! What is asked about fences.

use crate::help;
use crate::limit::StateLimit;
use clap::{Arg, ArgMatches, Command};
use std::alloc::{AllocError, Global};
use tso_cert::Workers;
use tso_fences::{Fences, fences_arguments, fences_of};
use tso_front::Failure;
use tso_verdict::{workers_argument, workers_of};

/// What is asked about fences, by how many workers, and how many states a search may meet.
#[derive(Clone, Copy)]
pub struct FenceSearch<'a> {
    pub fences: Fences<'a>,
    pub workers: Workers,
    pub limit: StateLimit,
}

/// The words of `fences`, with the option for how many states a search may meet.
///
/// Errors: where a growth was refused.
pub fn fences_command<'a>(alloc: Global, states: Arg<'a>) -> Result<Command<'a>, AllocError> {
    let command = Command::new(alloc, "fences")
        .about("says which fences a client needs, or which would make it right")
        .after_help(help::FENCES);
    let command = fences_arguments(alloc, command)?;
    let help = "how many workers search, a text each, 1 to 64";
    let command = command.arg(workers_argument(alloc, help))?;
    command.arg(states)
}

/// What the words of `fences` ask for.
///
/// Errors: `Usage`; `Memory`.
pub fn fence_search_of<'a>(
    alloc: Global,
    limit: StateLimit,
    matches: &ArgMatches<'a>,
) -> Result<FenceSearch<'a>, Failure> {
    Ok(FenceSearch {
        fences: fences_of(alloc, matches)?,
        workers: workers_of(alloc, matches)?,
        limit,
    })
}
