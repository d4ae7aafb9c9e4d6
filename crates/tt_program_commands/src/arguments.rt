//! An argument of a subcommand as data, and as clap's.

use clap::{Arg, ArgAction, value_parser};
use std::alloc::{AllocError, Global};

/// A word or an option of a subcommand.
#[derive(Clone, Copy)]
pub(crate) struct Argument {
    /// Its name for clap. An option has the same name behind `--`.
    pub(crate) name: &'static str,
    pub(crate) takes: Takes,
    /// The letter of an option behind `-`, if it has one.
    pub(crate) short: Option<char>,
    /// The name of an option's value in the help, if it has a value.
    pub(crate) values: &'static [&'static str],
    /// The option's value where it is not given, if there is one.
    pub(crate) defaults: &'static [&'static str],
    pub(crate) required: bool,
    /// It is required unless one of these is given, if there are any.
    pub(crate) unless: &'static [&'static str],
    /// It goes with none of these.
    pub(crate) conflicts: &'static [&'static str],
    pub(crate) help: &'static str,
}

/// A place, a flag, or the kind of an option's value.
#[derive(Clone, Copy)]
pub(crate) enum Takes {
    /// The word at its place.
    Place,
    /// Its name alone.
    Flag,
    /// A number.
    Number,
    /// A text.
    Text,
    /// One of these words.
    OneOf(&'static [&'static str]),
}

/// The argument as clap reads it. Error: memory ran out.
pub(crate) fn arg_of<'a>(alloc: Global, argument: &Argument) -> Result<Arg<'a>, AllocError> {
    taking(Arg::new(alloc, argument.name), argument)
        .value_names(argument.values)
        .default_values(argument.defaults)
        .required(argument.required)
        .help(argument.help)
        .conflicts_with_all(argument.conflicts)?
        .required_unless_present_any(argument.unless)
}

fn shortened<'a>(arg: Arg<'a>, short: Option<char>) -> Arg<'a> {
    match short {
        Some(letter) => arg.short(letter),
        None => arg,
    }
}

fn taking<'a>(arg: Arg<'a>, argument: &Argument) -> Arg<'a> {
    match argument.takes {
        Takes::Place => arg.action(ArgAction::Set),
        Takes::Flag => arg.long(argument.name).action(ArgAction::SetTrue),
        Takes::Number => arg.long(argument.name).value_parser(value_parser!(u32)),
        Takes::Text => shortened(arg.long(argument.name), argument.short),
        Takes::OneOf(words) => arg
            .long(argument.name)
            .value_parser(words)
            .hide_possible_values(true),
    }
}
