//! Composed letters of a line.

ghost use Rattle.std.specs.Prelude.{◌≡◌, ◌≤◌, chars, encode_utf8_all, length, string_bytes, IfOk};
ghost use Rattle.tt_rows.specs.Composed.{composed, composed_after, composite_in};
ghost use Rattle.tt_rows.specs.ComposedLaws.{has_pair, has_pair_after};

use std::alloc::{AllocError, Global};
use tt_cmap::CharacterMap;
use unicode_normalization::char::compose;

/// The character that takes the place of two, if they compose and the font has it.
#[tactic(auto, unfolding(crate::specs::Composed::composite_in))]
fn composite_in(cmap: &CharacterMap, a: char, b: char) -> Option<char>
    ensures { result ≡ composite_in cmap.now a b }
{
    // No character below is the second of a pair that composes.
    if b < '\u{300}' {
        return None;
    }
    let Some(c) = compose(a, b) else {
        return None;
    };
    if cmap.glyph(c) == 0 {
        return None;
    }
    Some(c)
}

/// Whether the characters of a text have a pair that composes, the first of them with the one before the text.
fn has_pair_after(cmap: &CharacterMap, before: char, text: &str) -> bool
    ensures { result ≡ has_pair_after cmap.now before (chars text.now) }
{
    let mut last = before;
    let mut rest = text.chars();
    while let Some(c) = rest.next() {
        if composite_in(cmap, last, c).is_some() {
            return true;
        }
        last = c;
    }
    false
}

/// Whether a line has two characters beside each other that compose. Without such a pair the line is its own
/// composition.
pub fn has_pair(cmap: &CharacterMap, line: &str) -> bool
    ensures { result ≡ has_pair cmap.now (chars line.now) }
{
    let mut rest = line.chars();
    match rest.next() {
        Some(first) => has_pair_after(cmap, first, rest.as_str()),
        None => false,
    }
}

/// The character before a text and those of the text, composed. Error: Memory.
fn composed_after(
    alloc: Global,
    cmap: &CharacterMap,
    before: char,
    text: &str,
) -> Result<String, AllocError>
    ensures { IfOk result (λ s. string_bytes s ≡ encode_utf8_all (composed_after cmap.now before (chars text.now))) }
{
    let mut made = String::new(alloc);
    let mut last = before;
    let mut rest = text.chars();
    while let Some(c) = rest.next() {
        match composite_in(cmap, last, c) {
            Some(one) => last = one,
            None => {
                made.push(last)?;
                last = c;
            }
        }
    }
    made.push(last)?;
    Ok(made)
}

/// A line whose pairs that compose are replaced by characters that the font has. Nothing is reordered. Error:
/// Memory.
pub fn composed(alloc: Global, cmap: &CharacterMap, line: &str) -> Result<String, AllocError>
    ensures exact { IfOk result (λ s. string_bytes s ≡ encode_utf8_all (composed cmap.now (chars line.now))) }
    ensures characters { IfOk result (λ s. chars (string_bytes s) ≡ composed cmap.now (chars line.now)) }
    ensures few { length (composed cmap.now (chars line.now)) ≤ length (chars line.now) }
{
    let mut rest = line.chars();
    match rest.next() {
        Some(first) => composed_after(alloc, cmap, first, rest.as_str()),
        None => Ok(String::new(alloc)),
    }
}
