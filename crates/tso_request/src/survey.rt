//! What is asked about the clients of a queue.

use crate::form::{Form, form_argument, form_of};
use crate::help;
use crate::limit::StateLimit;
use clap::{Arg, ArgMatches, Command};
use std::alloc::{AllocError, Global};
use tso_cert::Workers;
use tso_front::{Failure, refuse_given};
use tso_survey::{Asking, asking_arguments, asking_of};
use tso_verdict::{workers_argument, workers_of};

/// What a survey asks about, by how many workers, and how many states a search may meet.
#[derive(Clone, Copy)]
pub struct Survey<'a> {
    pub asking: Asking<'a>,
    pub workers: Workers,
    pub limit: StateLimit,
    pub form: Form,
}

// What the words say of the form: crossings, where they say nothing and no certificate is kept.
fn survey_form(
    alloc: Global,
    asking: &Asking<'_>,
    matches: &ArgMatches<'_>,
) -> Result<Form, Failure> {
    if asking.lists {
        refuse_given(alloc, matches, &["form"], "--list")?;
    }
    if asking.collect.is_some() {
        refuse_given(alloc, matches, &["form"], "--collect")?;
    }
    match form_of(matches) {
        Some(form) => Ok(form),
        None if asking.out.is_some() => Ok(Form::Arrays),
        None => Ok(Form::Crossings),
    }
}

/// The words of a survey, with the option for how many states a search may meet.
///
/// Errors: where a growth was refused.
pub fn survey_command<'a>(alloc: Global, states: Arg<'a>) -> Result<Command<'a>, AllocError> {
    let command = Command::new(alloc, "survey")
        .about("searches all clients of a queue up to a size")
        .after_help(help::SURVEY);
    let command = asking_arguments(alloc, command)?;
    let help = "how many workers search, a client each, 1 to 64";
    let command = command.arg(workers_argument(alloc, help))?;
    let command = command.arg(form_argument(alloc))?;
    command.arg(states)
}

/// What the words of a survey ask for.
///
/// Errors: `Usage`; `Memory`.
pub fn survey_of<'a>(
    alloc: Global,
    limit: StateLimit,
    matches: &ArgMatches<'a>,
) -> Result<Survey<'a>, Failure> {
    let asking = asking_of(alloc, matches)?;
    Ok(Survey {
        asking,
        workers: workers_of(alloc, matches)?,
        limit,
        form: survey_form(alloc, &asking, matches)?,
    })
}
