//! What is asked of an upgrade.

use crate::help;
use clap::{Arg, ArgAction, ArgMatches, Command};
use std::alloc::{AllocError, Global};
use tso_front::{FILE, Failure, VARIANT, Variant, read_apart, variant_of, with_words};
use tso_verdict::CERT;

/// Which certificate is upgraded, for which program, and where the new one is written.
#[derive(Clone, Copy)]
pub struct Upgrading<'a> {
    pub program: &'a str,
    pub variant: Variant<'a>,
    pub cert: &'a str,
    pub out: &'a str,
}

// The option that says where the new certificate is written.
fn new_argument<'a>(alloc: Global) -> Arg<'a> {
    Arg::new(alloc, "out")
        .long("out")
        .value_name("NEW")
        .action(ArgAction::Set)
        .required(true)
        .help("where the new certificate is written")
}

/// The words of `upgrade`.
///
/// Errors: where a growth was refused.
pub fn upgrade_command<'a>(alloc: Global) -> Result<Command<'a>, AllocError> {
    let command = Command::new(alloc, "upgrade")
        .about("writes an accepted certificate anew, in version 2, without a search")
        .after_help(help::UPGRADE);
    let command = with_words(alloc, command, &[FILE, CERT])?;
    let command = command.arg(new_argument(alloc))?;
    with_words(alloc, command, &VARIANT)
}

/// What the words of `upgrade` ask for.
///
/// Errors: `Usage` where standard input would be read for both files; `Memory`.
pub fn upgrading_of<'a>(alloc: Global, matches: &ArgMatches<'a>) -> Result<Upgrading<'a>, Failure> {
    let program = matches.get_str("FILE").unwrap_or("");
    let cert = matches.get_str("CERT").unwrap_or("");
    let out = matches.get_str("out").unwrap_or("");
    read_apart(alloc, program, cert)?;
    Ok(Upgrading {
        program,
        variant: variant_of(matches),
        cert,
        out,
    })
}
