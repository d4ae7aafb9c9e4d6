//! The text of a file, by its characters and their bitmaps.

ghost use Rattle.std.specs.Prelude.{◌≡◌, ◌≤◌, All, ◌==◌, length, IfOk, OnOk};
ghost use Rattle.tt_bdf.specs.File.{bdf_text};
ghost use Rattle.tt_bitmap_font.specs.Bitmaps.{character_by, character_told, characters_by, is_listed, rows_limit, unfitted_fault, unfitted_of, with_fault};
ghost use Rattle.tt_bitmap_font.specs.Facts.{face_facts};
ghost use Rattle.tt_core.specs.Limits.{size_limit, text_limit};
ghost use Rattle.tt_glyphs.specs.Defects.{EntryFits};

use crate::characters::glyph_for;
use crate::facts::face_facts;
use std::alloc::{AllocError, Global};
use tt_advances::units_of;
use tt_bdf::{BdfCharacter, bdf_file};
use tt_core::Fault;
use tt_face::Face;
use tt_glyphs::{BitmapList, GlyphEntry, Told};
use tt_strike::Unfitted;

/// The text of a file, and its unfitted glyphs.
#[derive(Drop)]
pub(crate) struct MadeFile {
    pub(crate) text: Vec<u8>,
    /// In order of first appearance.
    pub(crate) unfitted: Vec<Unfitted>,
}

/// A character by the report of its glyph, with the advance in font units.
fn character_told(code: char, units: u16, at: usize, told: Told) -> BdfCharacter
    ensures { result ≡ character_told code units at told }
{
    match told {
        Told::Made(made) => BdfCharacter {
            code,
            units,
            advance: made.advance,
            left: made.place.left,
            top: made.place.top,
            width: made.place.width,
            height: made.place.height,
            at,
        },
        Told::Unknown | Told::Broken(_) | Told::Large => BdfCharacter {
            code,
            units,
            advance: 0,
            left: 0,
            top: 0,
            width: 0,
            height: 0,
            at: 0,
        },
    }
}

/// A character with the entry of its glyph, and the advance of the face at its instance. Error: memory ran out.
fn character_by(
    alloc: Global,
    face: &Face,
    code: char,
    entry: &GlyphEntry,
) -> Result<BdfCharacter, AllocError>
    ensures { IfOk result (λ c. c ≡ character_by face.now code entry.now) }
{
    let glyph = glyph_for(face.cmap(), code);
    let units = units_of(alloc, face, glyph)?;
    Ok(character_told(code, units, entry.at as usize, entry.told))
}

/// The characters of a file, each with the entry of its glyph. Error: memory ran out.
fn characters_by(
    alloc: Global,
    face: &Face,
    characters: &[char],
    entries: &[GlyphEntry],
) -> Result<Vec<BdfCharacter>, AllocError>
    ensures { IfOk result (λ v. v.items ≡ characters_by face.now characters.now entries.now) }
{
    let mut made = Vec::new(alloc);
    for (code, entry) in characters.iter().zip(entries) {
        made.push(character_by(alloc, face, *code, entry)?)?;
    }
    Ok(made)
}

/// The fault that makes a glyph unfitted.
fn unfitted_fault(told: Told) -> Option<Fault>
    ensures { result ≡ unfitted_fault told }
{
    match told {
        Told::Made(made) => made.unfitted,
        Told::Unknown | Told::Broken(_) | Told::Large => None,
    }
}

/// Whether an unfitted glyph has this number.
fn has_number(one: &Unfitted, glyph: u16) -> bool
    ensures { result ≡ (one.now.glyph == glyph) }
{
    one.glyph == glyph
}

/// Whether a glyph is listed.
fn is_listed(glyph: u16, listed: &[Unfitted]) -> bool
    ensures { result ≡ is_listed glyph listed.now }
{
    for one in listed {
        if has_number(one, glyph) {
            return true;
        }
    }
    false
}

/// Lists a glyph with its fault, if the glyph has one and is not listed yet. Error: memory ran out.
fn list_unfitted(
    listed: &mut Vec<Unfitted>,
    glyph: u16,
    fault: Option<Fault>,
) -> Result<(), AllocError>
    ensures { OnOk result (listed.new.items ≡ with_fault listed.old.items glyph fault) }
{
    match fault {
        None => {}
        Some(fault) => {
            if !is_listed(glyph, listed) {
                listed.push(Unfitted { glyph, fault })?;
            }
        }
    }
    Ok(())
}

/// The distinct unfitted glyphs of a file, in order of first appearance. Error: memory ran out.
fn unfitted_of(
    alloc: Global,
    face: &Face,
    characters: &[char],
    entries: &[GlyphEntry],
) -> Result<Vec<Unfitted>, AllocError>
    ensures { IfOk result (λ v. v.items ≡ unfitted_of face.now characters.now entries.now) }
{
    let mut listed = Vec::new(alloc);
    for (code, entry) in characters.iter().zip(entries) {
        let glyph = glyph_for(face.cmap(), *code);
        list_unfitted(&mut listed, glyph, unfitted_fault(entry.told))?;
    }
    Ok(listed)
}

/// Rows of this length in bytes. Error: memory ran out.
fn blank_rows(alloc: Global, count: usize) -> Result<Vec<u8>, AllocError>
    ensures { IfOk result (λ v. length v.items ≡ count) }
{
    vec![in alloc; 0u8; count]
}

/// The rows of all bitmaps. Error: memory ran out.
fn all_rows(alloc: Global, list: BitmapList) -> Result<Vec<u8>, AllocError>
    requires { list.wanted ≤ rows_limit }
    ensures exact { IfOk result (λ v. v.items ≡ list.rows) }
    ensures count { IfOk result (λ v. length v.items ≡ list.wanted) }
{
    let mut rows = blank_rows(alloc, list.wanted() as usize)?;
    list.write_rows(&mut rows);
    Ok(rows)
}

/// The text of a file by a face at a size, and its unfitted glyphs. Error: memory ran out.
pub(crate) fn make_file(
    alloc: Global,
    face: &Face,
    size: u32,
    characters: &[char],
    list: BitmapList,
) -> Result<MadeFile, AllocError>
    requires size { size ≤ size_limit }
    requires some { 1 ≤ length characters.now }
    requires few { length characters.now ≤ text_limit }
    requires count { length list.entries ≡ length characters.now }
    requires fits { All (EntryFits list.wanted) list.entries }
    requires small { list.wanted ≤ rows_limit }
    ensures text { IfOk result (λ m. m.text.items ≡ bdf_text (face_facts face.now size) (characters_by face.now characters.now list.entries) list.rows) }
    ensures unfitted { IfOk result (λ m. m.unfitted.items ≡ unfitted_of face.now characters.now list.entries) }
{
    let facts = face_facts(alloc, face, size)?;
    let entries = list.entries();
    let unfitted = unfitted_of(alloc, face, characters, entries)?;
    let made = characters_by(alloc, face, characters, entries)?;
    let rows = all_rows(alloc, list)?;
    let text = bdf_file(alloc, &facts, &made, &rows)?;
    Ok(MadeFile { text, unfitted })
}
