//! The hints for a person where no file has the path: FONT is no stream, FONT stands before TEXT, or FONT is a family's
//! name.

ghost use Rattle.std.specs.Prelude.{◌≡◌, ◌++◌, option_map, string_bytes, IfOk, OnOk};
ghost use Rattle.tt_advice.specs.Shown.{shown};
ghost use Rattle.tt_program_decisions.specs.Unfound.{family_line, is_swapped, line_of_family, lowered, names_family, names_font, quoted, stream_line, unfound_hint};

use std::alloc::{AllocError, Global};
use tt_advice::{FixedHint, shown_words};

/// What is reported to people of a path that cannot be opened.
#[derive(Clone, Copy)]
pub(crate) enum PathHint {
    /// Words that do not depend on the path.
    Fixed(FixedHint),
    /// The path is `-`, which other programs take for standard input.
    Stream,
    /// The path looks like the name of a family of fonts.
    Family,
}

/// A byte in lower case, if it is a letter of ASCII.
pub(crate) fn lowered(byte: u8) -> u8
    ensures { result ≡ lowered byte }
{
    if (b'A'..=b'Z').contains(&byte) {
        byte + 32
    } else {
        byte
    }
}

/// Whether a text ends like the name of a font file: `.ttf`, `.ttc`, `.otf` or `.otc`, in letters of any case.
fn names_font(text: &str) -> bool
    ensures { result ≡ names_font text.now }
{
    let bytes = text.as_bytes();
    let len = bytes.len();
    if len < 4 {
        return false;
    }
    let end = [
        lowered(bytes[len - 4]),
        lowered(bytes[len - 3]),
        lowered(bytes[len - 2]),
        lowered(bytes[len - 1]),
    ];
    end == *b".ttf" || end == *b".ttc" || end == *b".otf" || end == *b".otc"
}

/// Whether a text, if there is one, may be the path.
fn is_swapped(text: Option<&str>) -> bool
    ensures { result ≡ is_swapped (option_map (λ s. s.now) text.entry) }
{
    match text {
        Some(text) => names_font(text),
        None => false,
    }
}

/// Whether a path looks like the name of a family: it has no folder, does not end like the name of a font file, and no
/// program takes it for an option.
fn names_family(path: &str) -> bool
    ensures { result ≡ names_family path.now }
{
    let bytes = path.as_bytes();
    !bytes.is_empty() && bytes[0] != b'-' && !bytes.contains(&b'/') && !names_font(path)
}

/// The hint about a path that was not found. The text may be the path.
#[tactic(auto, unfolding(crate::specs::Unfound::unfound_hint))]
pub(crate) fn unfound_hint(path: &str, text: Option<&str>) -> PathHint
    ensures { result ≡ unfound_hint path.now (option_map (λ s. s.now) text.entry) }
{
    if path == "-" {
        PathHint::Stream
    } else if is_swapped(text) {
        PathHint::Fixed(FixedHint::Swapped)
    } else if names_family(path) {
        PathHint::Family
    } else {
        PathHint::Fixed(FixedHint::NoFile)
    }
}

/// Appends a word in quotes of the shell. A quote of its own stands outside of them, behind a backslash. Error: memory
/// ran out.
fn push_quoted(text: &mut String, word: &str) -> Result<(), AllocError>
    ensures { OnOk result (string_bytes text.new ≡ string_bytes text.old ++ quoted word.now) }
{
    text.push_str("'")?;
    let mut rest = word;
    while let Some((front, behind)) = rest.split_once('\'') {
        text.push_str(front)?;
        text.push_str("'\\''")?;
        rest = behind;
    }
    text.push_str(rest)?;
    text.push_str("'")
}

/// A word as it is reported. Error: memory ran out.
fn shown_word(alloc: Global, word: &str) -> Result<String, AllocError>
    ensures { IfOk result (λ text. string_bytes text ≡ shown word.now) }
{
    let given = String::from_str(alloc, word)?;
    let mut words = shown_words(alloc, &[given])?;
    match words.pop() {
        Some(text) => Ok(text),
        None => Ok(String::new(alloc)),
    }
}

/// The line about `-`, with its line feed. Error: memory ran out.
pub(crate) fn stream_line(alloc: Global) -> Result<String, AllocError>
    ensures { IfOk result (λ text. string_bytes text ≡ stream_line) }
{
    String::from_str(
        alloc,
        "tt_render: -: a font is read from a file: /dev/stdin\n",
    )
}

/// The line about a family, with its line feed, by the name as it is shown. Error: memory ran out.
fn line_of_family(alloc: Global, name: &str) -> Result<String, AllocError>
    ensures { IfOk result (λ text. string_bytes text ≡ line_of_family name.now) }
{
    let mut line = String::from_str(alloc, "tt_render: ")?;
    line.push_str(name)?;
    line.push_str(": no such file; fc-match -f '%{file}' ")?;
    push_quoted(&mut line, name)?;
    line.push_str(" finds a family's file\n")?;
    Ok(line)
}

/// The line about a family, with its line feed. Error: memory ran out.
pub(crate) fn family_line(alloc: Global, path: &str) -> Result<String, AllocError>
    ensures { IfOk result (λ text. string_bytes text ≡ family_line path.now) }
{
    let name = shown_word(alloc, path)?;
    line_of_family(alloc, &name)
}
