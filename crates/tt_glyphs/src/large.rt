//! The rows of a glyph whose bitmap would take too many bytes: by its edges, and then its dropouts.

ghost use Rattle.std.specs.Prelude.{◌≡◌, ℕ, ℤ, ◌+◌, ◌^◌, ◌≤◌, ◌<◌, ◌≤ℤ◌, ◌-ℤ◌, ◌&&◌, true, pos, length, unsigned_abs, All, IfOk};
ghost use Rattle.tt_core.specs.Bits.{stride};
ghost use Rattle.tt_glyphs.specs.Bitmaps.{place_bytes};
ghost use Rattle.tt_glyphs.specs.Drawn.{IsInked, IsPixelIn, LargeFits, column_of, edged_pixel, frame_of, is_pixel_of, large_row, large_rows, line_of, window_by};
ghost use Rattle.tt_glyphs.specs.Edged.{EdgedFits};
ghost use Rattle.tt_glyph_pixels.specs.Shown.{is_filled};
ghost use Rattle.tt_picture.specs.Rows.{rows};
ghost use Rattle.tt_scan.specs.Contours.{contours_at};
ghost use Rattle.tt_scan_dropouts.specs.Passes.{has_pixel};
ghost use Rattle.tt_scan_dropouts.specs.Pictures.{AreDropouts, is_among, is_at};
ghost use Rattle.tt_scan_dropouts.specs.Windows.{WindowFits, has, widened};
ghost use Rattle.tt_scan_edges.specs.Winding.{FrameFits};

use crate::edged::EdgedOutline;
use crate::place::InkPlace;
use crate::placing::row_bytes;
use std::alloc::{AllocError, Global};
use std::marker::Model;
use tt_scan::{Frame, Sweep, Tape};
use tt_scan_dropouts::{
    Dropout, Outlined, Pixel, Window, blacken_dropouts, dropouts, may_have_dropouts, sort_by_rows,
};

/// The rows of a glyph's ink by its edges, before they are made.
#[derive(Drop)]
pub(crate) struct LargeRows {
    pub(crate) place: InkPlace,
    /// Its edges at pen 0, in the frame of its rows.
    tape: Tape,
    /// In order of their rows. Rows count from the highest on, columns from the first column of ink.
    dropouts: Vec<Dropout>,
}

impl Model for LargeRows {
    ghost use Rattle.tt_glyphs.specs.Large as large;

    ghost Value = { large.LargeRows };

    ghost view = { λ b. record { place = b.place; frame = b.tape.frame; edges = b.tape.edges; crosses = b.tape.crosses; dropouts = b.dropouts.items } };
}

/// The frame of a place's rows. Columns count from the pen.
fn frame_of(place: InkPlace) -> Frame
    requires { IsInked place }
    ensures exact { result ≡ frame_of place }
    ensures fits { FrameFits result }
{
    Frame {
        width: place.width,
        height: place.height,
        margin: 0,
        rise: place.top,
    }
}

/// The pixels of a place, counted from the pen and the base line.
fn window_of(place: InkPlace) -> Window
    requires { IsInked place }
    ensures exact { result ≡ window_by place }
    ensures fits { WindowFits (widened 2 result) }
    ensures has { (c r : ℕ) → c < place.width → r < place.height → has result (column_of place c) (line_of place r) ≡ true }
{
    Window {
        left: place.left,
        bottom: place.top - place.height as i32,
        width: place.width,
        height: place.height,
    }
}

/// How many columns or rows there are from one to another.
fn distance(from: i64, to: i64) -> u32
    requires order { from ≤ℤ to }
    requires near { unsigned_abs (to -ℤ from) < 2 ^ 20 }
    ensures { pos result ≡ to -ℤ from }
{
    (to - from) as u32
}

/// A pixel of a place, by its column and row among the rows of the place.
fn dropout_of(place: InkPlace, pixel: Pixel) -> Dropout
    requires place { IsInked place }
    requires pixel { IsPixelIn place pixel }
    ensures column { result.column < place.width }
    ensures exact { (c r : ℕ) → is_at c r result ≡ is_pixel_of place pixel c r }
{
    let column = distance(i64::from(place.left), pixel.column);
    let row = distance(pixel.row, i64::from(place.top) - 1);
    Dropout { row, column }
}

/// Some pixels of a place as dropouts of its rows, in order of their rows. Error: memory ran out.
fn dropouts_among(
    alloc: Global,
    place: InkPlace,
    pixels: &[Pixel],
) -> Result<Vec<Dropout>, AllocError>
    requires place { IsInked place }
    requires pixels { All (IsPixelIn place) pixels.now }
    ensures exact { IfOk result (λ v. (c r : ℕ) → is_among v.items c r ≡ has_pixel pixels.now (column_of place c) (line_of place r)) }
    ensures valid { IfOk result (λ v. AreDropouts place.width v.items) }
{
    let mut found = Vec::with_capacity(alloc, pixels.len())?;
    for pixel in pixels {
        found.push(dropout_of(place, *pixel))?;
    }
    sort_by_rows(&mut found);
    Ok(found)
}

/// The dropouts of a glyph in a window; none where it fills none. Error: memory ran out.
fn filled_in(alloc: Global, window: Window, edged: &EdgedOutline) -> Result<Vec<Pixel>, AllocError>
    requires window { WindowFits (widened 2 window) }
    requires edged { EdgedFits edged.now }
    ensures { IfOk result (λ v. (c j : ℤ) → has_pixel v.items c j
        ≡ (has window c j && is_filled edged.now.filled (contours_at edged.now.tape.edges edged.now.ends.items) c j)) }
{
    let EdgedOutline {
        tape,
        ends,
        filled,
        ..
    } = edged;
    let Some(rules) = *filled else {
        return Ok(Vec::new(alloc));
    };
    if !may_have_dropouts(rules.rules, tape.lend(), ends) {
        return Ok(Vec::new(alloc));
    }
    dropouts(alloc, Outlined { rules, tape, ends }, window)
}

/// The dropouts of a glyph in its place; none where it fills none. Error: memory ran out.
fn dropouts_of(
    alloc: Global,
    place: InkPlace,
    edged: &EdgedOutline,
) -> Result<Vec<Dropout>, AllocError>
    requires place { IsInked place }
    requires edged { EdgedFits edged.now }
    ensures exact { IfOk result (λ v. (c r : ℕ) → c < place.width → r < place.height → is_among v.items c r ≡ is_filled edged.now.filled (contours_at edged.now.tape.edges edged.now.ends.items) (column_of place c) (line_of place r)) }
    ensures valid { IfOk result (λ v. AreDropouts place.width v.items) }
{
    let pixels = filled_in(alloc, window_of(place), edged)?;
    dropouts_among(alloc, place, &pixels)
}

impl LargeRows {
    /// The rows of a glyph's ink, which stands in this place. Error: memory ran out.
    pub(crate) fn of(
        alloc: Global,
        place: InkPlace,
        edged: EdgedOutline,
    ) -> Result<LargeRows, AllocError>
        requires place { IsInked place }
        requires edged { EdgedFits edged }
        ensures place { IfOk result (λ b. b.place ≡ place) }
        ensures fresh { IfOk result (λ b. b.crosses ≡ 0) }
        ensures rows { IfOk result (λ b. large_rows b ≡ rows place.width (edged_pixel edged place) 0 (place_bytes place)) }
        ensures fits { IfOk result LargeFits }
    {
        let dropouts = dropouts_of(alloc, place, &edged)?;
        let EdgedOutline { tape: edges, .. } = edged;
        let tape = Tape::of(alloc, frame_of(place), edges.into_list())?;
        Ok(LargeRows {
            place,
            tape,
            dropouts,
        })
    }

    /// The number of its edges.
    pub(crate) fn edges(&self) -> usize
        ensures { result ≡ length self.now.edges }
    {
        self.tape.edges()
    }

    /// Makes row `r`, and overwrites `row`. No memory is taken.
    fn write_row(&mut self, sweep: &mut Sweep, r: u32, row: &mut [u8])
        requires fits { LargeFits self.old }
        requires crosses { self.old.crosses + length self.old.edges ≤ 2 ^ 63 }
        requires room { length self.old.edges ≤ sweep.old.room }
        requires within { r < self.old.place.height }
        requires len { length row.old ≡ stride self.old.place.width }
        ensures row { row.new ≡ large_row self.old r }
        ensures fits { LargeFits self.new }
        ensures same { self.new ≡ record self.old { crosses = self.new.crosses } }
        ensures crosses { self.new.crosses ≤ self.old.crosses + length self.old.edges }
        ensures room { sweep.new.room ≡ sweep.old.room }
    {
        let place = self.place;
        row.fill(0);
        sweep.cut(&mut self.tape, i64::from(r));
        sweep.paint(-i64::from(place.left), place.width, row);
        blacken_dropouts(&self.dropouts, place.width, r, row);
    }

    /// Makes all rows, the highest first, and overwrites `rows`. No memory is taken.
    pub(crate) fn write(&mut self, sweep: &mut Sweep, rows: &mut [u8])
        requires fits { LargeFits self.old }
        requires fresh { self.old.crosses ≡ 0 }
        requires room { length self.old.edges ≤ sweep.old.room }
        requires len { length rows.old ≡ place_bytes self.old.place }
        ensures rows { rows.new ≡ large_rows self.old }
        ensures same { self.new ≡ record self.old { crosses = self.new.crosses } }
        ensures room { sweep.new.room ≡ sweep.old.room }
    {
        let place = self.place;
        let bytes = row_bytes(place.width);
        for r in 0..place.height {
            let at = bytes * r as usize;
            self.write_row(sweep, r, &mut rows[at..at + bytes]);
        }
    }
}
