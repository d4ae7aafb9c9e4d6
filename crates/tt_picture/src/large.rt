//! Paints glyphs that have no bitmap: each row of a picture is cut from their edges, and their dropouts are added.

ghost use Rattle.std.specs.Prelude.{◌≡◌, ℕ, ℤ, ◌+◌, ◌*◌, ◌<◌, ◌≤◌, ◌&&◌, ◌||◌, false, nat_lt, pos, length, option_map, All, IfOk, IfSome, OnOk};
ghost use Rattle.std.specs.Vec.{vec_items};
ghost use Rattle.tt_bitmap.specs.Bands.{IsBandBlackened};
ghost use Rattle.tt_core.specs.Bits.{bit, stride};
ghost use Rattle.tt_core.specs.Limits.{width_limit};
ghost use Rattle.tt_picture.specs.Large.{IsRowOf, TapeFits, is_black_from, is_filled_from, large_shows_from, pens_in};
ghost use Rattle.tt_picture.specs.Lines.{HasSizeOf};
ghost use Rattle.tt_picture.specs.Pictures.{IsPictureFrame};
ghost use Rattle.tt_picture.specs.Placed.{glyph_has, in_edges, lines_have, number_has, place_has};
ghost use Rattle.tt_picture.specs.Stamps.{AreRowsOf, rows_show};
ghost use Rattle.tt_scan.specs.Contours.{contours_at};
ghost use Rattle.tt_scan_dropouts.specs.Pictures.{AreDropouts, AreInColumns, is_among};
ghost use Rattle.tt_scan_edges.specs.Winding.{is_black, column_x, row_y};

use crate::band::row_bytes;
use crate::glyph::{Glyph, GlyphBody, LargeGlyph};
use crate::glyphs::Glyphs;
use crate::lines::PlacedLine;
use std::alloc::{AllocError, Global};
use tt_scan::{Frame, Sweep, Tape};
use tt_scan_dropouts::{Dropout, blacken_dropouts, push_dropouts, sort_by_rows};

/// Whether an edge of a tape may meet a row of the picture. Without one the tape blackens nothing there.
fn meets(tape: &Tape, r: u32) -> bool
    requires { r < tape.now.frame.height }
    ensures { result ≡ false → (c : ℤ) → is_black tape.now.edges (column_x tape.now.frame.margin c) (row_y tape.now.frame (pos r)) ≡ false }
{
    let (first, past) = tape.rows();
    let row = i64::from(r);
    first <= row && row < past
}

/// Blackens the pixels of a row that the edges of a tape cover at some pens; all others are unchanged.
fn add_tape(tape: &mut Tape, sweep: &mut Sweep, pens: &[u32], frame: Frame, r: u32, row: &mut [u8])
    requires tape { TapeFits frame r tape.old }
    requires room { length tape.old.edges ≤ sweep.old.room }
    requires row { IsRowOf frame r row.old }
    ensures bits { (k : ℕ) → bit row.new k ≡ (bit row.old k || (nat_lt k frame.width && is_black_from frame tape.old.edges pens.now k r)) }
    ensures len { length row.new ≡ length row.old }
    ensures tape { TapeFits frame (r + 1) tape.new }
    ensures edges { tape.new.edges ≡ tape.old.edges }
    ensures room { sweep.new.room ≡ sweep.old.room }
{
    if !meets(tape, r) {
        return;
    }
    sweep.cut(tape, i64::from(r));
    sweep.paint_all(pens, frame.width, row);
}

/// Blackens the pixels of a picture's rows that the edges of a tape cover at some pens; all others are unchanged.
fn add_tape_rows(tape: &mut Tape, sweep: &mut Sweep, pens: &[u32], frame: Frame, rows: &mut [u8])
    requires frame { IsPictureFrame frame }
    requires tape { TapeFits frame 0 tape.old }
    requires room { length tape.old.edges ≤ sweep.old.room }
    requires rows { length rows.old ≡ stride frame.width * frame.height }
    ensures { IsBandBlackened (stride frame.width) frame.height (λ r c. nat_lt c frame.width && is_black_from frame tape.old.edges pens.now c r) rows.old rows.new }
{
    let bytes = row_bytes(frame);
    for r in 0..frame.height {
        let at = bytes * r as usize;
        add_tape(tape, sweep, pens, frame, r, &mut rows[at..at + bytes]);
    }
}

/// Blackens the dropouts of a picture's rows; all other pixels are unchanged.
fn add_dropouts(dropouts: &[Dropout], frame: Frame, rows: &mut [u8])
    requires frame { IsPictureFrame frame }
    requires dropouts { AreDropouts frame.width dropouts.now }
    requires rows { length rows.old ≡ stride frame.width * frame.height }
    ensures { IsBandBlackened (stride frame.width) frame.height (λ r c. nat_lt c frame.width && is_among dropouts.now c r) rows.old rows.new }
{
    // Most glyphs have no dropouts.
    if dropouts.is_empty() {
        return;
    }
    let bytes = row_bytes(frame);
    for r in 0..frame.height {
        let at = bytes * r as usize;
        blacken_dropouts(dropouts, frame.width, r, &mut rows[at..at + bytes]);
    }
}

impl LargeGlyph {
    /// Adds the dropouts of the glyph at some pens to those of a picture, as far as the picture has them. Error: Memory.
    fn push_dropouts(
        &self,
        alloc: Global,
        found: &mut Vec<Dropout>,
        frame: Frame,
        pens: &[u32],
    ) -> Result<(), AllocError>
        requires frame { IsPictureFrame frame }
        requires pens { All (λ pen. pen ≤ width_limit) pens.now }
        requires found { AreInColumns frame.width found.old.items }
        ensures added { OnOk result ((c r : ℕ) → c < frame.width → r < frame.height → is_among found.new.items c r
            ≡ (is_among found.old.items c r
            || is_filled_from frame self.now.filled (contours_at self.now.edges self.now.ends) pens.now c r)) }
        ensures within { OnOk result (AreInColumns frame.width found.new.items) }
    {
        match self.filled {
            Some(rules) => {
                push_dropouts(alloc, found, frame, rules, &self.tape, &self.ends, pens)
            }
            None => Ok(()),
        }
    }

    /// The dropouts of the glyph at some pens, as far as a picture has them, in order of their rows. Error: Memory.
    fn dropouts_at(
        &self,
        alloc: Global,
        frame: Frame,
        pens: &[u32],
    ) -> Result<Vec<Dropout>, AllocError>
        requires frame { IsPictureFrame frame }
        requires pens { All (λ pen. pen ≤ width_limit) pens.now }
        ensures exact { IfOk result (λ v. (c r : ℕ) → c < frame.width → r < frame.height
            → is_among v.items c r ≡ is_filled_from frame self.now.filled (contours_at self.now.edges self.now.ends) pens.now c r) }
        ensures valid { IfOk result (λ v. AreDropouts frame.width v.items) }
    {
        let mut found = Vec::new(alloc);
        self.push_dropouts(alloc, &mut found, frame, pens)?;
        sort_by_rows(&mut found);
        Ok(found)
    }

    /// Blackens the pixels of a picture's rows that the edges of the glyph cover at some pens; all others are unchanged.
    /// Each row is cut once. Error: Memory.
    fn paint_edges(
        &self,
        alloc: Global,
        frame: Frame,
        pens: &[u32],
        rows: &mut [u8],
    ) -> Result<(), AllocError>
        requires frame { IsPictureFrame frame }
        requires rows { length rows.old ≡ stride frame.width * frame.height }
        ensures { OnOk result (IsBandBlackened (stride frame.width) frame.height (λ r c. nat_lt c frame.width && is_black_from frame self.now.edges pens.now c r) rows.old rows.new) }
    {
        let list = self.tape.copied()?.into_list();
        let mut tape = Tape::of(alloc, frame, list)?;
        let mut sweep = Sweep::new(alloc, tape.edges())?;
        add_tape_rows(&mut tape, &mut sweep, pens, frame, rows);
        Ok(())
    }

    /// Blackens the pixels of a picture's rows that the glyph has at some pens; all others are unchanged. Error: Memory.
    fn paint(
        &self,
        alloc: Global,
        frame: Frame,
        pens: &[u32],
        rows: &mut [u8],
    ) -> Result<(), AllocError>
        requires frame { IsPictureFrame frame }
        requires pens { All (λ pen. pen ≤ width_limit) pens.now }
        requires rows { length rows.old ≡ stride frame.width * frame.height }
        ensures { OnOk result (IsBandBlackened (stride frame.width) frame.height (λ r c. nat_lt c frame.width && large_shows_from frame self.now pens.now c r) rows.old rows.new) }
    {
        self.paint_edges(alloc, frame, pens, rows)?;
        let dropouts = self.dropouts_at(alloc, frame, pens)?;
        add_dropouts(&dropouts, frame, rows);
        Ok(())
    }
}

/// The pens of a glyph in a line. Error: Memory.
fn pens_of(alloc: Global, number: u16, line: &[(u16, u32)]) -> Result<Vec<u32>, AllocError>
    ensures { IfOk result (λ v. v.items ≡ pens_in number line.now) }
{
    let mut pens = Vec::new(alloc);
    for placed in line {
        if placed.0 == number {
            pens.push(placed.1)?;
        }
    }
    Ok(pens)
}

/// Blackens the pixels of a picture's rows that a glyph without a bitmap has in a line; all others are unchanged. Error:
/// Memory.
fn paint_glyph(
    alloc: Global,
    glyph: &Glyph,
    frame: Frame,
    line: &[(u16, u32)],
    rows: &mut [u8],
) -> Result<(), AllocError>
    requires frame { IsPictureFrame frame }
    requires pens { All (λ g. g.1 ≤ width_limit) line.now }
    requires rows { length rows.old ≡ stride frame.width * frame.height }
    ensures { OnOk result (IsBandBlackened (stride frame.width) frame.height (λ r c. nat_lt c frame.width && place_has (glyph_has in_edges glyph.now) frame line.now c r) rows.old rows.new) }
{
    match &glyph.body {
        GlyphBody::Small(_) => Ok(()),
        GlyphBody::Large(uncut) => {
            let pens = pens_of(alloc, glyph.number, line)?;
            // The line may be without the glyph.
            if pens.is_empty() {
                return Ok(());
            }
            uncut.large.paint(alloc, frame, &pens, rows)
        }
    }
}

/// Blackens the pixels of a picture's rows that glyphs without a bitmap have in a line, glyph by glyph; all others are
/// unchanged. Error: Memory.
fn paint_line(
    alloc: Global,
    glyphs: &[Glyph],
    frame: Frame,
    line: &[(u16, u32)],
    rows: &mut [u8],
) -> Result<(), AllocError>
    requires frame { IsPictureFrame frame }
    requires pens { All (λ g. g.1 ≤ width_limit) line.now }
    requires rows { length rows.old ≡ stride frame.width * frame.height }
    ensures { OnOk result (IsBandBlackened (stride frame.width) frame.height (λ r c. nat_lt c frame.width && place_has (number_has in_edges glyphs.now) frame line.now c r) rows.old rows.new) }
{
    for glyph in glyphs {
        paint_glyph(alloc, glyph, frame, line, rows)?;
    }
    Ok(())
}

/// Blackens the pixels of a picture's rows that glyphs without a bitmap have in some lines; all others are unchanged.
/// Error: Memory.
fn paint_lines(
    alloc: Global,
    glyphs: &[Glyph],
    frame: Frame,
    lines: &[PlacedLine],
    rows: &mut [u8],
) -> Result<(), AllocError>
    requires alike { All (HasSizeOf frame) lines.now }
    requires rows { length rows.old ≡ stride frame.width * frame.height }
    ensures { OnOk result (IsBandBlackened (stride frame.width) frame.height (λ r c. nat_lt c frame.width && lines_have (number_has in_edges glyphs.now) lines.now c r) rows.old rows.new) }
{
    for line in lines {
        paint_line(alloc, glyphs, line.frame, line.glyphs, rows)?;
    }
    Ok(())
}

/// Whether some glyph has no bitmap.
fn some_large(glyphs: &[Glyph]) -> bool
    ensures { result ≡ false → (n : ℕ) (c j : ℤ) → number_has in_edges glyphs.now n c j ≡ false }
{
    for glyph in glyphs {
        if let GlyphBody::Large(_) = &glyph.body {
            return true;
        }
    }
    false
}

/// The bytes of all rows with the pixels that glyphs without a bitmap have in some lines; None where all glyphs have
/// bitmaps. Error: Memory.
pub(crate) fn large_rows(
    alloc: Global,
    frame: Frame,
    glyphs: &Glyphs,
    lines: &[PlacedLine],
) -> Result<Option<Vec<u8>>, AllocError>
    requires frame { IsPictureFrame frame }
    requires alike { All (HasSizeOf frame) lines.now }
    ensures rows { IfOk result (λ all. IfSome all (λ v. AreRowsOf frame v.items)) }
    ensures exact { IfOk result (λ all. (c r : ℕ) → c < frame.width → r < frame.height
        → rows_show frame (option_map vec_items all) c r ≡ lines_have (number_has in_edges glyphs.now.made.items) lines.now c r) }
{
    if !some_large(&glyphs.made) {
        return Ok(None);
    }
    let mut rows = vec![in alloc; 0u8; row_bytes(frame) * frame.height as usize]?;
    paint_lines(alloc, &glyphs.made, frame, lines, &mut rows)?;
    Ok(Some(rows))
}
