//! The command line, as clap reads it.
#![tactic(auto)]

mod arguments;
mod options;
mod subcommands;

use crate::arguments::arg_of;
use crate::subcommands::{Subcommand, subcommand_named, subcommands};
use clap::{ArgMatches, Command, Error};
use std::alloc::{AllocError, Global};

/// The arguments in the words, whose second word is this name. Only one description is built: that of the subcommand that
/// has the name, or else that of the whole program. The latter answers no arguments. Errors: clap shows help or the
/// version; clap refuses the words; memory ran out.
pub fn arguments_of<'a>(
    alloc: Global,
    name: &str,
    words: &'a [String],
) -> Result<Option<ArgMatches<'a>>, Error> {
    let Some(asked) = command_named(alloc, name)? else {
        program(alloc)?.try_get_matches_from(words)?;
        return Ok(None);
    };
    let rest = words.get(1..).unwrap_or(words);
    let matches = asked.try_get_matches_from(rest)?;
    Ok(Some(matches))
}

fn program<'a>(alloc: Global) -> Result<Command<'a>, AllocError> {
    let mut program = bare_program(alloc);
    for subcommand in subcommands() {
        let command = command_of(alloc, subcommand)?;
        program = program.subcommand(command)?;
    }
    program.bin_name("tt_render")
}

fn bare_program<'a>(alloc: Global) -> Command<'a> {
    Command::new(alloc, "tt_render")
        .about("Draws lines of text from a TrueType font")
        .version("0.3.0")
        .subcommand_required(true)
}

fn command_named<'a>(alloc: Global, name: &str) -> Result<Option<Command<'a>>, AllocError> {
    let Some(subcommand) = subcommand_named(name) else {
        return Ok(None);
    };
    let command = command_of(alloc, subcommand)?.bin_name(subcommand.call)?;
    Ok(Some(command))
}

fn command_of<'a>(alloc: Global, subcommand: &Subcommand) -> Result<Command<'a>, AllocError> {
    let mut command = bare_command(alloc, subcommand);
    for argument in subcommand.arguments {
        let arg = arg_of(alloc, argument)?;
        command = command.arg(arg)?;
    }
    Ok(command)
}

fn bare_command<'a>(alloc: Global, subcommand: &Subcommand) -> Command<'a> {
    let command = Command::new(alloc, subcommand.name).about(subcommand.about);
    match subcommand.ending {
        Some(text) => command.after_help(text),
        None => command,
    }
}
