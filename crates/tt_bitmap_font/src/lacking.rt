//! The characters of a text that a font lacks.

ghost use Rattle.std.specs.Prelude.{◌≡◌, ◌<◌, ◌≤◌, length, nat_le, slice_index, IfOk, OnOk};
ghost use Rattle.tt_bitmap_font.specs.Characters.{below, lacks, text_lacking, with_in_order, with_lacking};
ghost use Rattle.tt_cmap.specs.Units.{is_selector};

use crate::characters::glyph_for;
use std::alloc::{AllocError, Global};
use tt_cmap::CharacterMap;

/// Whether the character at a place of a list is not below another one.
fn is_reached(listed: &[char], i: usize, c: char) -> bool
    requires { i < length listed.now }
    ensures { result ≡ nat_le c (slice_index listed.now i) }
{
    c <= listed[i]
}

/// How many characters of a rising list are below another one.
fn below(c: char, listed: &[char]) -> usize
    ensures exact { result ≡ below c listed.now }
    ensures within { result ≤ length listed.now }
{
    for i in 0..listed.len() {
        if is_reached(listed, i, c) {
            return i;
        }
    }
    listed.len()
}

/// Lists a character in a rising list, unless the character is listed already. Error: memory ran out.
fn list(listed: &mut Vec<char>, c: char) -> Result<(), AllocError>
    ensures { OnOk result (listed.new.items ≡ with_in_order listed.old.items c) }
{
    if !listed.contains(&c) {
        let place = below(c, listed);
        listed.insert(place, c)?;
    }
    Ok(())
}

/// Whether a character is a variation selector.
fn is_selector(c: char) -> bool
    ensures { result ≡ is_selector c }
{
    ('\u{FE00}'..='\u{FE0F}').contains(&c) || ('\u{E0100}'..='\u{E01EF}').contains(&c)
}

/// Whether a font lacks a character that is no selector.
fn lacks(cmap: &CharacterMap, c: char) -> bool
    ensures { result ≡ lacks cmap.now c }
{
    !is_selector(c) && glyph_for(cmap, c) == 0
}

/// Lists a character that a font lacks. Error: memory ran out.
fn list_lacking(listed: &mut Vec<char>, cmap: &CharacterMap, c: char) -> Result<(), AllocError>
    ensures { OnOk result (listed.new.items ≡ with_lacking cmap.now listed.old.items c) }
{
    if lacks(cmap, c) {
        list(listed, c)?;
    }
    Ok(())
}

/// The distinct characters of a text that a font lacks, in order of code point. Error: memory ran out.
#[tactic(auto, unfolding(crate::specs::Characters::text_lacking))]
pub(crate) fn text_lacking(
    alloc: Global,
    cmap: &CharacterMap,
    text: &str,
) -> Result<Vec<char>, AllocError>
    ensures { IfOk result (λ v. v.items ≡ text_lacking cmap.now text.now) }
{
    let mut listed = Vec::new(alloc);
    for c in text.chars() {
        list_lacking(&mut listed, cmap, c)?;
    }
    Ok(listed)
}
