//! The request of the command line, as clap reads it.

ghost use Rattle.std.specs.Prelude.{◌≡◌, ℕ, Bool, true, false, List, Some, None, codes};
ghost use Rattle.std.specs.Str.Parse.{ParsesUnsigned, ExplainsUnsignedError, HasUnsignedDigitsIfOk};
ghost use Rattle.clap.specs.Words.{ReadsOne, first_value, found_of, one_text};

use clap::{ArgMatches, Error};
use std::alloc::Global;
use tt_program_commands::arguments_of;
use tt_program_decisions::{Arguments, InstanceWords, Request, instance_words, request_of};

/// A command line: its request, and the words of the instance.
#[derive(Drop)]
pub(crate) struct CommandLine<'a> {
    pub(crate) request: Request<'a>,
    pub(crate) instance: InstanceWords<'a>,
}

/// The request that the words make. None where a required argument is absent.
pub(crate) fn command_line<'a>(
    alloc: Global,
    words: &'a [String],
) -> Result<Option<CommandLine<'a>>, Error> {
    let name = subcommand(words);
    let Some(matches) = arguments_of(alloc, name, words)? else {
        return Ok(None);
    };
    let found = FoundArguments { matches: &matches };
    let Some(request) = request_of(name, &found) else {
        return Ok(None);
    };
    let instance = instance_words(&found);
    Ok(Some(CommandLine { request, instance }))
}

/// The word at the place of the subcommand. Empty where no word is.
pub(crate) fn subcommand(words: &[String]) -> &str {
    match words.get(1) {
        Some(word) => word.as_str(),
        None => "",
    }
}

/// The arguments of a subcommand, as clap found them.
#[derive(Drop)]
struct FoundArguments<'m, 'a> {
    matches: &'m ArgMatches<'a>,
}

impl<'m, 'a> Arguments<'a> for FoundArguments<'m, 'a> {
    ghost text = { λ f name. first_value (found_of f.matches.now) name };

    ghost IsNumber = { λ f name n. (one_text (found_of f.matches.now) name ≡ None → n ≡ None)
        × ((t : List ℕ) → one_text (found_of f.matches.now) name ≡ Some t → ReadsOne (λ bs r. ParsesUnsigned 32 10 bs r × ExplainsUnsignedError 10 bs r × HasUnsignedDigitsIfOk bs r) t n) };

    ghost IsFlag = { λ f name b. (one_text (found_of f.matches.now) name ≡ None → b ≡ false)
        × (one_text (found_of f.matches.now) name ≡ Some (codes "true") → b ≡ true)
        × (one_text (found_of f.matches.now) name ≡ Some (codes "false") → b ≡ false) };

    fn text_for(&self, name: &str) -> Option<&'a str> {
        self.matches.get_str(name)
    }

    fn number_for(&self, name: &str) -> Option<u32> {
        self.matches.get_one::<u32>(name)
    }

    fn is_set(&self, name: &str) -> bool {
        self.matches.get_flag(name)
    }
}
