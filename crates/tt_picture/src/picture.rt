//! The picture of some lines, whose rows are made in order.

ghost use Rattle.std.specs.Prelude.{◌≡◌, ℕ, ◌+ℤ◌, ◌+◌, ◌-◌, ◌*◌, ◌≤◌, min, pos, length, IfOk, Some};
ghost use Rattle.tt_core.specs.Bits.{stride};
ghost use Rattle.tt_core.specs.Limits.{width_limit, height_limit};
ghost use Rattle.tt_fit.specs.Fitting.{Fitter};
ghost use Rattle.tt_picture.specs.Glyphs.{AreDrawn, numbers_of};
ghost use Rattle.tt_picture.specs.Lines.{AreLinesOf, some_line_shows};
ghost use Rattle.tt_picture.specs.Pictures.{IsPictureFrame, IsReady, band_rows, image, image_of, rows_at};
ghost use Rattle.tt_picture.specs.Stamps.{AreRowsOf, rows_show};
ghost use Rattle.tt_picture.specs.Unfitted.{unfitted_standing};

use crate::band::{row_bytes, write_rows};
use crate::glyphs::Glyphs;
use crate::large::large_rows;
use crate::lines::PlacedLine;
use crate::report::{Report, Unfitted, report_on};
use crate::stamp::PlacedBitmap;
use crate::stamps::{add_stamps, stamps_of};
use std::alloc::{AllocError, Global};
use std::marker::Model;
use tt_scan::Frame;

/// The most bytes of a band, in which some rows are made at once.
const BAND_BYTES: u32 = 65536;

/// The picture of some lines: its size, its base line, its rows, which are made in order, and its report. It already has
/// all the memory that its rows need.
#[derive(Drop)]
pub struct Picture {
    frame: Frame,
    /// The bitmaps of the lines' glyphs at their places.
    stamps: Vec<PlacedBitmap>,
    /// The bytes of all rows with the glyphs that have no bitmap, if there are such glyphs.
    large: Option<Vec<u8>>,
    /// How many rows were made.
    made: u32,
    report: Report,
}

impl Model for Picture {
    ghost use Rattle.std.specs.Prelude.{◌*◌, ◌≤◌, option_map, IfSome};
    ghost use Rattle.std.specs.Vec.{vec_items};
    ghost use Rattle.tt_core.specs.Bits.{stride};
    ghost use Rattle.tt_core.specs.Limits.{height_limit};
    ghost use Rattle.tt_scan_edges.specs.Winding.{FrameFits};
    ghost use Rattle.tt_picture.specs.Pictures as pictures;
    ghost use Rattle.tt_picture.specs.Rows.{rows};
    ghost use Rattle.tt_picture.specs.Stamps.{AreRowsOf, picture_shows};

    ghost Value = { pictures.Picture };

    ghost view = { λ p. record { frame = p.frame; rows = rows p.frame.width (picture_shows p.frame (option_map vec_items p.large) p.stamps.items) 0 (stride p.frame.width * p.frame.height); made = p.made; unfitted = p.report.unfitted.items; cost = p.report.cost } };

    ghost invariant = { λ p. FrameFits p.frame × (p.frame.height ≤ height_limit) × (p.made ≤ p.frame.height)
        × IfSome p.large (λ v. AreRowsOf p.frame v.items) };
}

impl Picture {
    /// The picture of some lines in this frame, with no row made yet. The glyphs of the lines are these. Error: Memory.
    pub fn new(
        alloc: Global,
        frame: Frame,
        glyphs: &Glyphs,
        lines: &[PlacedLine],
    ) -> Result<Picture, AllocError>
        requires frame { IsPictureFrame frame }
        requires lines { AreLinesOf frame (numbers_of glyphs.now.made.items) lines.now }
        ensures exact { IfOk result (λ p. (maker : ℕ → Fitter) → AreDrawn maker glyphs.now.made.items → image_of p ≡ image frame (some_line_shows maker lines.now)) }
        ensures valid { IfOk result IsReady }
        ensures frame { IfOk result (λ p. p.frame ≡ frame) }
        ensures unfitted { IfOk result (λ p. p.unfitted ≡ unfitted_standing glyphs.now.made.items) }
        ensures cost { IfOk result (λ p. p.cost ≡ glyphs.now.cost) }
    {
        let stamps = stamps_of(alloc, glyphs, lines)?;
        let large = large_rows(alloc, frame, glyphs, lines)?;
        let report = report_on(alloc, &glyphs.made, glyphs.cost)?;
        Ok(Picture {
            frame,
            stamps,
            large,
            made: 0,
            report,
        })
    }

    /// The picture whose rows have these bytes, with no row made yet. The bits after the last pixel of a row are 0.
    pub fn of_rows(alloc: Global, frame: Frame, rows: Vec<u8>, report: Report) -> Picture
        requires frame { IsPictureFrame frame }
        requires rows { AreRowsOf frame rows.items }
        ensures exact { image_of result ≡ image frame (rows_show frame (Some rows.items)) }
        ensures valid { IsReady result }
        ensures frame { result.frame ≡ frame }
        ensures unfitted { result.unfitted ≡ report.unfitted.items }
        ensures cost { result.cost ≡ report.cost }
    {
        Picture {
            frame,
            stamps: Vec::new(alloc),
            large: Some(rows),
            made: 0,
            report,
        }
    }

    /// The size of the picture, its margin, and its base line.
    pub(crate) fn frame(&self) -> Frame
        ensures { result ≡ self.now.frame }
    {
        self.frame
    }

    /// Pixels in a row: 1 to 16,384.
    pub fn width(&self) -> u32
        ensures exact { result ≡ self.now.frame.width }
        ensures some { 1 ≤ result }
        ensures limit { result ≤ width_limit }
    {
        self.frame.width
    }

    /// Rows: 1 to 4,096.
    pub fn height(&self) -> u32
        ensures exact { result ≡ self.now.frame.height }
        ensures some { 1 ≤ result }
        ensures limit { result ≤ height_limit }
    {
        self.frame.height
    }

    /// The number of rows above the base line. Below 0, or more than the picture has, where the base line is outside.
    pub fn baseline(&self) -> i64
        ensures { result ≡ self.now.frame.rise +ℤ pos self.now.frame.margin }
    {
        i64::from(self.frame.rise) + i64::from(self.frame.margin)
    }

    /// The rows that were not made yet.
    pub fn rows_left(&self) -> u32
        ensures { result ≡ self.now.frame.height - self.now.made }
    {
        self.frame.height - self.made
    }

    /// The bytes of a row: a bit for each pixel, and up to seven bits more.
    pub fn row_bytes(&self) -> usize
        ensures { result ≡ stride self.now.frame.width }
    {
        row_bytes(self.frame)
    }

    /// The glyphs of the line that are not fitted.
    pub fn unfitted(&self) -> &[Unfitted]
        ensures { result.now ≡ self.now.unfitted }
    {
        &self.report.unfitted
    }

    /// What the text takes of the budget of a call of many lines.
    pub fn cost(&self) -> u64
        ensures { result ≡ self.now.cost }
    {
        self.report.cost
    }

    /// The picture's report.
    pub fn into_report(self) -> Report
        ensures unfitted { result.unfitted.items ≡ self.unfitted }
        ensures cost { result.cost ≡ self.cost }
    {
        let Picture { report, .. } = self;
        report
    }

    /// The most rows that a band of at most 65,536 bytes has: all rows of a small picture.
    pub fn band_rows(&self) -> u32
        ensures exact { result ≡ band_rows self.now.frame }
        ensures some { 1 ≤ result }
        ensures within { result ≤ self.now.frame.height }
    {
        self.frame
            .height
            .min(BAND_BYTES / row_bytes(self.frame) as u32)
    }

    /// The bytes of so many rows.
    pub fn band_bytes(&self) -> usize
        ensures exact { result ≡ stride self.now.frame.width * band_rows self.now.frame }
        ensures limit { result ≤ 65536 }
    {
        self.row_bytes() * self.band_rows() as usize
    }

    /// Makes the next `count` rows, the highest first, and overwrites `band`. The leftmost pixel of a row is the highest
    /// bit of its first byte; 1 is black; the bits after the last pixel are 0. It takes no memory.
    pub fn next_rows(&mut self, count: u32, band: &mut [u8])
        requires within { self.old.made + count ≤ self.old.frame.height }
        requires len { length band.old ≡ stride self.old.frame.width * count }
        ensures rows { band.new ≡ rows_at self.old self.old.made count }
        ensures same { self.new ≡ record self.old { made = self.old.made + count } }
    {
        let frame = self.frame;
        let from = self.made;
        write_rows(&self.large, frame, from, count, band);
        add_stamps(&self.stamps, frame, from, count, band);
        self.made += count;
    }

    /// Passes over the next `count` rows, which are not made.
    pub fn skip_rows(&mut self, count: u32)
        requires { self.old.made + count ≤ self.old.frame.height }
        ensures { self.new ≡ record self.old { made = self.old.made + count } }
    {
        self.made += count;
    }
}
