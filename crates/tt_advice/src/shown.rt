//! Foreign words as they are reported: those of the command line, among them the path of a font.

ghost use Rattle.std.specs.Prelude.{◌≡◌, ◌++◌, map, string_bytes, IfOk, OnOk};
ghost use Rattle.tt_advice.specs.Shown.{shown, shown_character, steers};

use crate::signs::{Sign, in_ranges};
use std::alloc::{AllocError, Global};

/// Characters besides the controls, from the first to the last of each range, that turn what follows them or end a line.
const TURNING: [(char, char); 4] = [
    ('\u{61C}', '\u{61C}'),
    ('\u{200E}', '\u{200F}'),
    ('\u{2028}', '\u{202E}'),
    ('\u{2066}', '\u{2069}'),
];

/// Whether a character may move the cursor of a terminal, or turn or end a line there.
fn steers(c: char) -> bool
    ensures { result ≡ steers c }
{
    Sign::Control.is_of(c) || in_ranges(&TURNING, c)
}

/// A character as it is reported: a question mark in place of one that steers a terminal.
fn shown_character(c: char) -> char
    ensures { result ≡ shown_character c }
{
    if steers(c) { '?' } else { c }
}

/// Appends a word to a text, with a question mark for each character that steers a terminal. So no word moves a cursor or
/// feigns a line. Error: memory ran out.
pub(crate) fn push_shown(text: &mut String, word: &str) -> Result<(), AllocError>
    ensures { OnOk result (string_bytes text.new ≡ string_bytes text.old ++ shown word.now) }
{
    let mut rest = word.chars();
    while let Some(c) = rest.next() {
        text.push(shown_character(c))?;
    }
    Ok(())
}

/// A word as it is reported. Error: memory ran out.
fn shown_word(alloc: Global, word: &str) -> Result<String, AllocError>
    ensures { IfOk result (λ text. string_bytes text ≡ shown word.now) }
{
    let mut text = String::new(alloc);
    push_shown(&mut text, word)?;
    Ok(text)
}

/// Words as they are reported, each with a question mark for each character that steers a terminal. Error: memory ran
/// out.
pub fn shown_words(alloc: Global, words: &[String]) -> Result<Vec<String>, AllocError>
    ensures { IfOk result (λ all. map string_bytes all.items ≡ map (λ word. shown (string_bytes word)) words.now) }
{
    let mut all = Vec::new(alloc);
    for word in words {
        all.push(shown_word(alloc, word)?)?;
    }
    Ok(all)
}
