//! Some columns of a picture, as a picture of their own.

ghost use Rattle.std.specs.Prelude.{◌≡◌, ℕ, ◌+◌, ◌*◌, ◌<◌, ◌≤◌, ◌&&◌, ◌||◌, ◌==◌, nat_lt, length, Bool, IfOk, Some};
ghost use Rattle.tt_bitmap.specs.Bands.{IsBandBlackened, column};
ghost use Rattle.tt_core.specs.Bits.{bit, stride};
ghost use Rattle.tt_picture.specs.Pictures.{IsPictureFrame, IsReady, image, image_of, narrowed};
ghost use Rattle.tt_picture.specs.Stamps.{AreRowsOf};

use crate::band::row_bytes;
use crate::picture::Picture;
use std::alloc::{AllocError, Global};
use tt_scan::{Frame, blacken};

/// Whether a column of a row of bytes is black.
fn has(row: &[u8], column: usize) -> bool
    requires { column < 8 * length row.now }
    ensures { result ≡ bit row.now column }
{
    (row[column / 8] >> (7 - column % 8)) % 2 == 1
}

/// Blackens column `column` of a row where column `at` of another row is black.
fn copy_column(wide: &[u8], at: usize, row: &mut [u8], column: usize)
    requires wide { at < 8 * length wide.now }
    requires row { column < 8 * length row.old }
    ensures bits { (k : ℕ) → bit row.new k ≡ (bit row.old k || ((k == column) && bit wide.now at)) }
    ensures len { length row.new ≡ length row.old }
{
    if has(wide, at) {
        blacken(row, column);
    }
}

/// Blackens the first columns of a row where those of a wide row from column `from` on are black.
fn copy_row(wide: &[u8], from: usize, width: u32, row: &mut [u8])
    requires wide { from + width ≤ 8 * length wide.now }
    requires row { width ≤ 8 * length row.old }
    requires few { from ≤ 65536 }
    ensures bits { (k : ℕ) → bit row.new k ≡ (bit row.old k || (nat_lt k width && bit wide.now (from + k))) }
    ensures len { length row.new ≡ length row.old }
{
    for c in 0..width as usize {
        copy_column(wide, from + c, row, c);
    }
}

/// Blackens pixels of some rows where a wide picture of these bytes is black from column `from` on.
fn copy_rows(wide: &[u8], wide_frame: Frame, from: u32, frame: Frame, rows: &mut [u8])
    requires frame { IsPictureFrame frame }
    requires wide_frame { IsPictureFrame wide_frame }
    requires same { wide_frame.height ≡ frame.height }
    requires within { from + frame.width ≤ wide_frame.width }
    requires wide { length wide.now ≡ stride wide_frame.width * frame.height }
    requires rows { length rows.old ≡ stride frame.width * frame.height }
    ensures { IsBandBlackened (stride frame.width) frame.height (λ r c. nat_lt c frame.width && column (stride wide_frame.width) wide.now r (from + c)) rows.old rows.new }
{
    let bytes = row_bytes(frame);
    let wide_bytes = row_bytes(wide_frame);
    for r in 0..frame.height {
        let at = bytes * r as usize;
        let wide_at = wide_bytes * r as usize;
        copy_row(
            &wide[wide_at..wide_at + wide_bytes],
            from as usize,
            frame.width,
            &mut rows[at..at + bytes],
        );
    }
}

/// The bytes of all rows of a picture in this frame, of those of a wide picture from column `from` on. Error: Memory.
fn cut_rows(
    alloc: Global,
    wide: &[u8],
    wide_frame: Frame,
    from: u32,
    frame: Frame,
) -> Result<Vec<u8>, AllocError>
    requires frame { IsPictureFrame frame }
    requires wide_frame { IsPictureFrame wide_frame }
    requires same { wide_frame.height ≡ frame.height }
    requires within { from + frame.width ≤ wide_frame.width }
    requires wide { length wide.now ≡ stride wide_frame.width * frame.height }
    ensures rows { IfOk result (λ v. AreRowsOf frame v.items) }
    ensures exact { IfOk result (λ v. (c r : ℕ) → c < frame.width → r < frame.height
        → column (stride frame.width) v.items r c ≡ column (stride wide_frame.width) wide.now r (from + c)) }
{
    let mut rows = vec![in alloc; 0u8; row_bytes(frame) * frame.height as usize]?;
    copy_rows(wide, wide_frame, from, frame, &mut rows);
    Ok(rows)
}

impl Picture {
    /// So many columns of a picture from column `from` on, as a picture of its own. No row of the picture was made yet.
    /// Error: Memory.
    pub fn columns(self, alloc: Global, from: u32, width: u32) -> Result<Picture, AllocError>
        requires ready { IsReady self }
        requires frame { IsPictureFrame self.frame }
        requires some { 1 ≤ width }
        requires within { from + width ≤ self.frame.width }
        ensures exact { IfOk result (λ p. (black : ℕ → ℕ → Bool) → image_of self ≡ image self.frame black
            → image_of p ≡ image (narrowed self.frame width) (λ c r. black (from + c) r)) }
        ensures valid { IfOk result IsReady }
        ensures frame { IfOk result (λ p. p.frame ≡ narrowed self.frame width) }
        ensures unfitted { IfOk result (λ p. p.unfitted ≡ self.unfitted) }
        ensures cost { IfOk result (λ p. p.cost ≡ self.cost) }
    {
        let mut picture = self;
        let wide = picture.frame();
        let frame = Frame {
            width,
            height: wide.height,
            margin: wide.margin,
            rise: wide.rise,
        };
        let mut bytes = vec![in alloc; 0u8; row_bytes(wide) * wide.height as usize]?;
        picture.next_rows(wide.height, &mut bytes);
        let rows = cut_rows(alloc, &bytes, wide, from, frame)?;
        Ok(Picture::of_rows(alloc, frame, rows, picture.into_report()))
    }
}
