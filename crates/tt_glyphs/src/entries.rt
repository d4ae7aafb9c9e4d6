//! The entries of a list, by its distinct glyphs.

ghost use Rattle.std.specs.Prelude.{◌≡◌, ◌⊎◌, ℕ, ◌+◌, ◌<◌, ◌≤◌, ◌^◌, ◌==◌, find, List, length, map, slice_index, take, All, IfOk, IfNone, IfSome};
ghost use Rattle.std.specs.List.{sum_by};
ghost use Rattle.tt_core.specs.Limits.{text_limit};
ghost use Rattle.tt_glyphs.specs.Drawn.{DrawnFits};
ghost use Rattle.tt_glyphs.specs.Listed.{IsNextOf, drawn_numbers, entry_by, known_of, unknown_entry};
ghost use Rattle.tt_glyphs.specs.Entries.{ToldFits, told_bytes};
ghost use Rattle.tt_picture.specs.Distinct.{distinct};
ghost use Rattle.tt_picture.specs.Glyphs.{ArePlaces};

use crate::drawing::DrawnGlyph;
use crate::placing::place_bytes;
use crate::told::{GlyphEntry, Told};
use std::alloc::{AllocError, Global};

/// The bytes of the rows of a glyph by its entry.
fn told_bytes(told: Told) -> u64
    requires { ToldFits told }
    ensures exact { result ≡ told_bytes told }
    ensures small { result ≤ 2 ^ 23 }
{
    match told {
        Told::Made(made) => place_bytes(made.place) as u64,
        Told::Unknown | Told::Broken(_) | Told::Large => 0,
    }
}

/// The place after the rows of a glyph by its entry.
fn end_of(entry: &GlyphEntry) -> u64
    requires told { ToldFits entry.now.told }
    requires at { entry.now.at < 2 ^ 36 }
    ensures { result ≡ entry.now.at + told_bytes entry.now.told }
{
    entry.at + told_bytes(entry.told)
}

/// Where the rows of each of some distinct glyphs begin. Error: memory ran out.
fn starts_of(alloc: Global, drawn: &[DrawnGlyph]) -> Result<Vec<u64>, AllocError>
    requires few { length drawn.now ≤ text_limit }
    requires fits { All DrawnFits drawn.now }
    ensures count { IfOk result (λ v. length v.items ≡ length drawn.now) }
    ensures starts { IfOk result (λ v. (i : ℕ) → i < length drawn.now → slice_index v.items i ≡ sum_by (λ d. told_bytes d.told) (take i drawn.now)) }
{
    let mut starts = Vec::with_capacity(alloc, drawn.len())?;
    let mut at = 0;
    for glyph in drawn {
        starts.push(at)?;
        at += glyph.bytes() as u64;
    }
    Ok(starts)
}

/// The place of a number among distinct glyphs; None for a number that is none of them.
fn place_in(places: &[u16], glyph: u32) -> Option<usize>
    ensures known { IfSome result (λ i. (glyph < length places.now) × (i + 1 ≡ slice_index places.now glyph)) }
    ensures unknown { IfNone result ((length places.now ≤ glyph) ⊎ (slice_index places.now glyph ≡ 0)) }
{
    if glyph as usize >= places.len() {
        return None;
    }
    usize::from(places[glyph as usize]).checked_sub(1)
}

/// The first entry of a number among some entries.
fn first_of(entries: &[GlyphEntry], glyph: u32) -> Option<GlyphEntry>
    ensures { result ≡ find (λ e. e.glyph == glyph) entries.now }
{
    for entry in entries {
        if entry.glyph == glyph {
            return Some(*entry);
        }
    }
    None
}

/// The entry of a number that is no glyph of the font: that of its first place, or a new one at the end of all rows so
/// far.
fn unknown_entry(entries: &[GlyphEntry], glyph: u32, end: u64) -> GlyphEntry
    ensures { result ≡ unknown_entry entries.now glyph end }
{
    match first_of(entries, glyph) {
        Some(entry) => entry,
        None => GlyphEntry {
            glyph,
            told: Told::Unknown,
            at: end,
        },
    }
}

/// The entry of a number: that of the glyph of the font, or of a number that is none. The entries so far end at `end`.
fn next_entry(
    places: &[u16],
    drawn: &[DrawnGlyph],
    starts: &[u64],
    entries: &[GlyphEntry],
    glyph: u32,
    end: u64,
) -> GlyphEntry
    requires places { ArePlaces places.now (drawn_numbers drawn.now) }
    requires count { length starts.now ≡ length drawn.now }
    requires starts { (i : ℕ) → i < length drawn.now → slice_index starts.now i ≡ sum_by (λ d. told_bytes d.told) (take i drawn.now) }
    ensures { (gs : List ℕ) (i : ℕ) → IsNextOf places.now drawn.now gs i entries.now glyph end → result ≡ entry_by drawn.now (distinct gs) glyph }
{
    match place_in(places, glyph) {
        Some(i) => GlyphEntry {
            glyph,
            told: drawn[i].told,
            at: starts[i],
        },
        None => unknown_entry(entries, glyph, end),
    }
}

/// The entries of a list, and the bytes of all rows. Error: memory ran out.
pub(crate) fn entries_of(
    alloc: Global,
    glyphs: &[u32],
    places: &[u16],
    drawn: &[DrawnGlyph],
) -> Result<(Vec<GlyphEntry>, u64), AllocError>
    requires few { length glyphs.now ≤ text_limit }
    requires distinct { drawn_numbers drawn.now ≡ distinct (known_of (length places.now) glyphs.now) }
    requires places { ArePlaces places.now (drawn_numbers drawn.now) }
    requires fits { All DrawnFits drawn.now }
    ensures entries { IfOk result (λ e. e.0.items ≡ map (entry_by drawn.now (distinct glyphs.now)) glyphs.now) }
    ensures wanted { IfOk result (λ e. e.1 ≡ sum_by (λ d. told_bytes d.told) drawn.now) }
    ensures small { IfOk result (λ e. e.1 < 2 ^ 36) }
{
    let starts = starts_of(alloc, drawn)?;
    let mut entries = Vec::with_capacity(alloc, glyphs.len())?;
    let mut end: u64 = 0;
    for glyph in glyphs {
        let entry = next_entry(places, drawn, &starts, &entries, *glyph, end);
        let next = end_of(&entry);
        entries.push(entry)?;
        end = end.max(next);
    }
    Ok((entries, end))
}
