//! The bitmaps of glyphs by their numbers, in a caller's rooms.

ghost use Rattle.std.specs.Prelude.{◌≡◌, ◌≤◌, ◌++◌, length, map, drop, All, IfOk};
ghost use Rattle.tt_core.specs.Outcomes.{GivesUnless, IfTold};
ghost use Rattle.tt_c_calls.specs.Bitmaps.{DrawsGlyphs, EntryStands, IsListDefect, IsListGlyphDefect, bitmap_made, bitmap_told, bitmap_with, bitmaps_wanted, empty_bitmap};
ghost use Rattle.tt_c_calls.specs.Refusals.{call_font_fault, call_refusal};

use crate::answer::{CAnswer, DONE, ROOM, answer_of, sized};
use crate::asked::CJob;
use crate::fault::CallFault;
use crate::opening::plain_face;
use std::alloc::Global;
use tt_core::{Fault, JobFault};
use tt_glyphs::{BitmapList, GlyphEntry, MadeBitmap, Told, test_count};
use tt_render_settings::Setting;
use tt_strike::{Opening, test_job};

/// The place of a glyph's bitmap from the pen, and in the caller's room. Unused fields are 0.
#[repr(C)]
#[derive(Clone, Copy)]
pub struct CBitmap {
    /// The glyph's number, as requested.
    pub glyph: u32,
    /// 0: the bitmap is made. 1: the glyph is refused for a defect of the font. 2: the font has no such glyph, or the
    /// ink is too large.
    pub status: u32,
    /// The number of the refusal. With status 0, the fault of the program that makes the glyph unfitted.
    pub number: u32,
    /// The tag of the table that has the defect.
    pub table: [u8; 4],
    /// The defect's offset in the table, in bytes.
    pub offset: u32,
    /// Columns to the next pen.
    pub advance: u32,
    /// Columns from the pen to the first column of ink, rightwards.
    pub left: i32,
    /// Rows from the base line up to the upper edge of the highest row of ink.
    pub top: i32,
    /// Columns of ink.
    pub width: u32,
    /// Rows of ink.
    pub height: u32,
    /// The distance of the advance's two ends as the font's programs leave them, in 64ths of a pixel.
    pub advance_64ths: i64,
    /// Where its rows begin, in bytes from the start of the caller's room.
    pub at: u64,
}

/// The number that refuses an entry whose glyph the font does not have.
const GLYPH_NUMBER: u32 = 68;

/// An entry with nothing but a status and the number of a refusal.
fn empty(entry: &GlyphEntry, status: u32, number: u32) -> CBitmap
    ensures { result ≡ empty_bitmap entry.now status number }
{
    CBitmap {
        glyph: entry.glyph,
        status,
        number,
        table: [0; 4],
        offset: 0,
        advance: 0,
        left: 0,
        top: 0,
        width: 0,
        height: 0,
        advance_64ths: 0,
        at: entry.at,
    }
}

/// An entry that names a defect of the font.
fn with_defect(bitmap: CBitmap, fault: Fault) -> CBitmap
    ensures { result ≡ bitmap_with bitmap fault }
{
    let table = fault.table;
    CBitmap {
        number: u32::from(fault.why.number()),
        table,
        offset: fault.offset,
        ..bitmap
    }
}

/// The entry of a glyph whose rows are made.
fn made_of(entry: &GlyphEntry, made: MadeBitmap) -> CBitmap
    ensures { result ≡ bitmap_made entry.now made }
{
    let bitmap = CBitmap {
        advance: made.advance,
        left: made.place.left,
        top: made.place.top,
        width: made.place.width,
        height: made.place.height,
        advance_64ths: i64::from(made.advance_left),
        ..empty(entry, 0, 0)
    };
    match made.unfitted {
        Some(fault) => with_defect(bitmap, fault),
        None => bitmap,
    }
}

/// An entry for C.
fn bitmap_of(entry: &GlyphEntry) -> CBitmap
    ensures { result ≡ bitmap_told entry.now }
{
    match entry.told {
        Told::Unknown => empty(entry, 2, GLYPH_NUMBER),
        Told::Broken(fault) => with_defect(empty(entry, 1, 0), fault),
        Told::Large => empty(entry, 2, u32::from(JobFault::PictureLarge.number())),
        Told::Made(made) => made_of(entry, made),
    }
}

/// The bitmaps of a list by a font file. Errors, the first of: UnknownFit, AxesMany; SizeRange, TextLong; FontLarge; those of the
/// tables that every text needs; those of `BitmapList::make`.
#[tactic(auto, unfolding(crate::specs::Bitmaps::bitmaps_wanted))]
fn list_of(alloc: Global, font: &[u8], glyphs: &[u32], job: &CJob) -> Result<BitmapList, CallFault>
    ensures exact { GivesUnless call_refusal (λ b. b) result (bitmaps_wanted job.now glyphs.now font.now) }
    ensures entries { IfOk result (λ b. length b.entries ≡ length glyphs.now) }
    ensures defects { IfTold call_font_fault result (IsListDefect job.now font.now) }
    ensures stands { IfOk result (λ b. All (λ e. EntryStands (IsListGlyphDefect job.now glyphs.now font.now) (bitmap_told e)) b.entries) }
{
    let fit = job.tested_fit()?;
    let opening = Opening::plain(job.reading(fit));
    // The job of a list has no margin, and a text of no characters is never too long.
    test_job(&Setting::plain(job.size, 0, fit, opening).job(""))?;
    test_count(glyphs)?;
    let face = plain_face(font, job, fit)?;
    Ok(BitmapList::make(alloc, &face, glyphs, job.size, fit)?)
}

/// Writes entries at the front of a caller's room.
fn write_entries(entries: &[GlyphEntry], told: &mut [CBitmap])
    requires { length entries.now ≤ length told.old }
    ensures { told.new ≡ map bitmap_told entries.now ++ drop (length entries.now) told.old }
{
    for i in 0..entries.len() {
        told[i] = bitmap_of(&entries[i]);
    }
}

/// Makes the bitmap of each glyph of a list. Each place of the list gets an entry. `rows` gets the rows of
/// each number where the number stands first, one glyph after the other. An entry whose number stood before is equal to
/// the first one. Of the job the size, the way to fit, the face and the instance count.
///
/// Answers, the first of these:
/// - the room for `told` is too small; `count` is that of the list;
/// - the way to fit, the number of values of axes, the size or the count is refused, the font is too large or refused, or the list is too much work;
/// - memory was refused;
/// - the room for `rows` is too small; with the bytes needed and the count of the list;
/// - done, with the bytes of all rows and the count of the list.
///
/// Unless the answer is done, `rows` and `told` are unchanged. A glyph that is refused has its refusal in its entry.
pub fn draw_glyphs(
    alloc: Global,
    font: &[u8],
    glyphs: &[u32],
    job: &CJob,
    rows: &mut [u8],
    told: &mut [CBitmap],
) -> CAnswer
    ensures { DrawsGlyphs job.now glyphs.now font.now rows.old rows.new told.old told.new result }
{
    let count = glyphs.len() as u64;
    if told.len() < glyphs.len() {
        return sized(ROOM, 0, count);
    }
    let list = match list_of(alloc, font, glyphs, job) {
        Ok(list) => list,
        Err(fault) => return answer_of(fault),
    };
    let wanted = list.wanted();
    if wanted > rows.len() as u64 {
        return sized(ROOM, wanted, count);
    }
    write_entries(list.entries(), told);
    list.write_rows(rows);
    sized(DONE, wanted, count)
}
