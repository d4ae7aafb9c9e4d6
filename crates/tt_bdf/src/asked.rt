//! The characters of a file: those asked for that a font has a glyph for.

ghost use Rattle.std.specs.Prelude.{◌≡◌, ℕ, ◌+◌, ◌<◌, ◌≤◌, ◌++◌, length, map, slice_index, take, chars, All, IfOk, OnOk};
ghost use Rattle.tt_bdf.specs.Asked.{end_of, file_characters, found_at, has_glyph, is_shown, is_surrogate, listed_below, range_of_one, reach_at};
ghost use Rattle.tt_bdf.specs.Ranges.{IsCodeRange, last_code};
ghost use Rattle.tt_cmap.specs.Units.{is_selector};
ghost use Rattle.tt_core.specs.Limits.{text_limit};
ghost use Rattle.tt_core.specs.Outcomes.{JobGives};

use crate::range::CodeRange;
use std::alloc::{AllocError, Global};
use tt_cmap::{CharacterMap, TextUnit};
use tt_core::{DrawFault, JobFault, TEXT_LIMIT};

/// Whether a character is a variation selector.
fn is_selector(c: char) -> bool
    ensures { result ≡ is_selector c }
{
    ('\u{FE00}'..='\u{FE0F}').contains(&c) || ('\u{E0100}'..='\u{E01EF}').contains(&c)
}

/// Whether a code point is that of a surrogate, which is no character.
fn is_surrogate(code: u32) -> bool
    ensures { result ≡ is_surrogate code }
{
    (0xD800..=0xDFFF).contains(&code)
}

/// Whether a font has a glyph for a character.
fn has_glyph(cmap: &CharacterMap, c: char) -> bool
    ensures { result ≡ has_glyph cmap.now c }
{
    let unit = TextUnit {
        character: c,
        selector: None,
    };
    cmap.glyph_of_unit(unit) != 0
}

/// The character with this code point, if the code point is below `far`, the character may stand in a file, and a font
/// has a glyph for it.
fn found_at(cmap: &CharacterMap, far: u32, code: u32) -> Option<char>
    requires { code ≤ last_code }
    ensures { result ≡ found_at (is_shown cmap.now) far code }
{
    if code >= far || is_surrogate(code) {
        return None;
    }
    let c = char::from_u32(code).unwrap();
    if is_selector(c) || !has_glyph(cmap, c) {
        return None;
    }
    Some(c)
}

/// The range of a character alone.
fn range_of_one(c: char) -> CodeRange
    ensures exact { result ≡ range_of_one c }
    ensures codes { IsCodeRange result }
{
    let code = c as u32;
    CodeRange {
        first: code,
        last: code,
    }
}

/// Appends the characters of a text as ranges of one each. Error: memory ran out.
pub fn push_text(ranges: &mut Vec<CodeRange>, text: &str) -> Result<(), AllocError>
    ensures exact { OnOk result (ranges.new.items ≡ ranges.old.items ++ map range_of_one (chars text.now)) }
    ensures codes { All IsCodeRange ranges.old.items → OnOk result (All IsCodeRange ranges.new.items) }
{
    for c in text.chars() {
        ranges.push(range_of_one(c))?;
    }
    Ok(())
}

/// One more than the last code point of some ranges, at least 0.
#[tactic(auto, using(crate::proofs::Reaching::end_more))]
fn end_of(ranges: &[CodeRange]) -> u32
    requires { All IsCodeRange ranges.now }
    ensures exact { result ≡ end_of ranges.now }
    ensures bound { result ≤ last_code + 1 }
{
    let mut end = 0;
    for r in ranges {
        end = end.max(r.last + 1);
    }
    end
}

/// For each code point below a count, one more than the last code point of the ranges that begin there, and 0 where none
/// begins. Error: memory ran out.
#[tactic(auto, using(crate::proofs::Reaching::reach_more))]
fn reaches(alloc: Global, ranges: &[CodeRange], count: usize) -> Result<Vec<u32>, AllocError>
    requires codes { All IsCodeRange ranges.now }
    requires within { end_of ranges.now ≤ count }
    ensures count { IfOk result (λ reaches. length reaches.items ≡ count) }
    ensures exact { IfOk result (λ reaches. (n : ℕ) → n < count → slice_index reaches.items n ≡ reach_at ranges.now n) }
{
    let mut reaches = vec![in alloc; 0u32; count]?;
    for r in ranges {
        let first = r.first as usize;
        reaches[first] = reaches[first].max(r.last + 1);
    }
    Ok(reaches)
}

/// The code points of some ranges that may stand in a file and that a font has a glyph for, below the length of
/// `reaches`: at most 4,097 of them. Error: memory ran out.
#[tactic(auto, using(crate::proofs::Reaching::far_next, crate::proofs::Reaching::found_more, crate::proofs::Reaching::found_none, crate::proofs::Reaching::listed_first))]
fn listed(
    alloc: Global,
    cmap: &CharacterMap,
    ranges: &[CodeRange],
    reaches: &[u32],
) -> Result<Vec<char>, AllocError>
    requires codes { length reaches.now ≤ last_code + 1 }
    requires reaches { (n : ℕ) → n < length reaches.now → slice_index reaches.now n ≡ reach_at ranges.now n }
    ensures { IfOk result (λ cs. cs.items ≡ take (text_limit + 1) (listed_below (is_shown cmap.now) ranges.now (length reaches.now))) }
{
    let mut found = Vec::new(alloc);
    let mut far = 0;
    for code in 0..reaches.len() {
        far = far.max(reaches[code]);
        if let Some(c) = found_at(cmap, far, code as u32) {
            found.push(c)?;
            if found.len() > TEXT_LIMIT {
                return Ok(found);
            }
        }
    }
    Ok(found)
}

/// The characters of a file: those of some ranges that a font has a glyph for, in rising order. Surrogates and
/// variation selectors are passed over. Errors: TextLong, EmptyPicture; memory ran out.
#[tactic(auto, using(crate::proofs::Reaching::few_taken, crate::proofs::Reaching::many_taken, crate::proofs::Reaching::listed_to_end, crate::proofs::Reaching::end_is_code), unfolding(crate::specs::Asked::file_characters))]
pub fn file_characters(
    alloc: Global,
    cmap: &CharacterMap,
    ranges: &[CodeRange],
) -> Result<Vec<char>, DrawFault>
    requires { All IsCodeRange ranges.now }
    ensures exact { JobGives (λ cs. cs.items) result (file_characters cmap.now ranges.now) }
    ensures some { IfOk result (λ cs. 1 ≤ length cs.items) }
    ensures few { IfOk result (λ cs. length cs.items ≤ text_limit) }
{
    let reaches = reaches(alloc, ranges, end_of(ranges) as usize)?;
    let found = listed(alloc, cmap, ranges, &reaches)?;
    if found.len() > TEXT_LIMIT {
        return Err(DrawFault::Job(JobFault::TextLong));
    }
    if found.is_empty() {
        return Err(DrawFault::Job(JobFault::EmptyPicture));
    }
    Ok(found)
}
