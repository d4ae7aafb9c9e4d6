//! The tips for a person whose command line is refused. A tip stands behind the first line of the parser's text.

ghost use Rattle.std.specs.Prelude.{◌≡◌, ◌≤◌, ◌++◌, false, string_bytes, IfOk, OnOk};
ghost use Rattle.tt_program_decisions.specs.Telling.{TellsText};
ghost use Rattle.tt_program_decisions.specs.Tips.{is_command, is_output, is_plain_word, refused_text, tip_of, tip_of_word, tip_words};
ghost use Rattle.tt_render_texts.specs.Printing.{errors_of};

use crate::refusal::{first_line, is_no_number, unexpected_word};
use crate::telling::tell_text;
use std::alloc::{AllocError, Global};
use tt_core::Sink;

/// A tip for a person whose command line is refused.
#[derive(Clone, Copy)]
pub(crate) enum Tip {
    /// The command has no option for a file of its output.
    Output,
    /// FONT has no option.
    Font,
    /// A size has digits alone.
    Size,
    /// A text of several words is one argument.
    Quotes,
}

#[tactic(auto, unfolding(crate::specs::Tips::is_command))]
fn is_command(name: &str) -> bool
    ensures { result ≡ is_command name.now }
{
    name == "label"
        || name == "draw"
        || name == "measure"
        || name == "map"
        || name == "faces"
        || name == "bdf"
}

/// Whether no parser takes a word for an option. A dash alone is such a word.
fn is_plain_word(word: &[u8]) -> bool
    ensures { result ≡ is_plain_word word.now }
{
    word.len() < 2 || word[0] != b'-'
}

fn is_output(word: &[u8]) -> bool
    ensures { result ≡ is_output word.now }
{
    word[..] == b"-o"[..] || word[..] == b"--output"[..]
}

/// The tip about an unexpected word. Each command but `faces` has a text, which the word may belong to.
#[tactic(auto, unfolding(crate::specs::Tips::tip_of_word))]
fn tip_of_word(command: &str, word: &[u8]) -> Option<Tip>
    ensures { result ≡ tip_of_word command.now word.now }
{
    if is_output(word) {
        Some(Tip::Output)
    } else if word[..] == b"--font"[..] {
        Some(Tip::Font)
    } else if command != "faces" && is_plain_word(word) {
        Some(Tip::Quotes)
    } else {
        None
    }
}

/// The tip about a refusal of a command's words by its first line, if there is one.
#[tactic(auto, unfolding(crate::specs::Tips::tip_of))]
fn tip_of(command: &str, line: &[u8]) -> Option<Tip>
    ensures { result ≡ tip_of command.now line.now }
{
    if !is_command(command) {
        return None;
    }
    match unexpected_word(line) {
        Some(word) => tip_of_word(command, word),
        None => {
            if is_no_number(line) {
                Some(Tip::Size)
            } else {
                None
            }
        }
    }
}

/// Appends the words of a tip. Error: memory ran out.
fn push_tip(text: &mut String, command: &str, tip: Tip) -> Result<(), AllocError>
    ensures { OnOk result (string_bytes text.new ≡ string_bytes text.old ++ tip_words command.now tip) }
{
    match tip {
        Tip::Output => {
            text.push_str(command)?;
            text.push_str(" writes to standard output: > FILE")
        }
        Tip::Font => text.push_str("FONT is an argument: leave out --font"),
        Tip::Size => text.push_str("--size is a whole number of pixels"),
        Tip::Quotes => text.push_str("quote the text"),
    }
}

/// The text about a command line that the parser refuses by some text: the first line of that, and then a tip. Without a
/// tip it is the parser's text. Error: memory ran out.
#[tactic(auto, unfolding(crate::specs::Tips::refused_text))]
fn refused_text(alloc: Global, command: &str, refusal: &str) -> Result<String, AllocError>
    ensures { IfOk result (λ text. string_bytes text ≡ refused_text command.now refusal.now) }
{
    let line = first_line(refusal);
    let Some(tip) = tip_of(command, line.as_bytes()) else {
        return String::from_str(alloc, refusal);
    };
    let mut text = String::from_str(alloc, line)?;
    text.push_str("\ntt_render: ")?;
    push_tip(&mut text, command, tip)?;
    text.push_str("\n")?;
    Ok(text)
}

/// Reports on standard error that the parser refuses the words of a command by some text. Returns the exit status.
pub fn tell_refused<E: Sink>(alloc: Global, command: &str, refusal: &str, error: &mut E) -> u8
    requires { E.has_failed error.old ≡ false }
    ensures bound { result ≤ 5 }
    ensures told { TellsText (refused_text command.now refusal.now) 2 result (errors_of E.written E.has_failed error.old error.new) }
{
    tell_text(refused_text(alloc, command, refusal), 2, error)
}
