//! The picture of rows: its size, and where rows stand in it.

ghost use Rattle.std.specs.Prelude.{◌≡◌, ℕ, ◌+◌, ◌-◌, ◌*◌, ◌<◌, ◌≤◌, ◌^◌, ◌+ℤ◌, ◌≤ℤ◌, pos, true, unsigned_abs, IfOk};
ghost use Rattle.tt_core.specs.Limits.{height_limit, margin_limit, text_limit, width_limit};
ghost use Rattle.tt_core.specs.Outcomes.{Gives};
ghost use Rattle.tt_line.specs.Labels.{greater};
ghost use Rattle.tt_label_rows.specs.Pictures.{AreHeights, IsWithin, box_picture, first_rise, is_low, skipped_by, start_of, width_picture};

use crate::heights::{RowHeights, at_least, rows_of};
use tt_core::{HEIGHT_LIMIT, JobFault, WIDTH_LIMIT};
use tt_line::Align;
use tt_rows::{first_base_line, left_of, rows_height};

/// A picture of rows: its size, and where rows stand in it.
#[derive(Clone, Copy)]
pub struct RowsPicture {
    /// Pixels in a row of the picture, those that are skipped too.
    pub width: u32,
    /// Rows of pixels.
    pub height: u32,
    pub align: Align,
    /// The columns between the margins.
    pub room: u32,
    /// The first columns, which are not shown: rows that are wider than the room begin there.
    pub skipped: u32,
}

/// How many columns before the left margin rows of at most this width begin.
fn skipped_by(align: Align, room: u32, widest: u64) -> u64
    requires room { room ≤ width_limit }
    requires widest { widest < 2 ^ 45 }
    ensures exact { result ≡ skipped_by align room widest }
    ensures bound { result ≤ 2 ^ 51 }
{
    let shift = left_of(align, 0, room, widest);
    if shift < 0 { shift.unsigned_abs() } else { 0 }
}

/// The greater of two numbers.
fn greater(a: u64, b: u64) -> u64
    ensures exact { result ≡ greater a b }
    ensures first { a ≤ result }
    ensures second { b ≤ result }
    ensures bound { result ≤ a + b }
{
    if a < b { b } else { a }
}

/// The picture of a row and `more` rows, `width` columns wide without those that are skipped. It has room for the widest
/// row too. Error: PictureLarge, where it has more than 16,384 columns or 4,096 rows.
#[tactic(auto, unfolding(crate::specs::Pictures::width_picture, tt_line::specs::Labels::label_limited))]
pub fn width_picture(
    heights: RowHeights,
    more: usize,
    widest: u64,
    width: u32,
    margin: u32,
    align: Align,
) -> Result<RowsPicture, JobFault>
    requires heights { AreHeights heights }
    requires more { more ≤ text_limit }
    requires widest { widest < 2 ^ 45 }
    requires width { (2 * margin + 1 ≤ width) × (width ≤ width_limit) }
    requires margin { margin ≤ margin_limit }
    ensures exact { Gives (λ p. p) result (width_picture heights more widest width margin align) }
    ensures within { IfOk result IsWithin }
    ensures rows { IfOk result (λ p. (w : ℕ) → w ≤ widest → start_of p w + w ≤ p.width) }
    ensures last { IfOk result (λ p. (pos (more * heights.step) +ℤ heights.rise) ≤ℤ pos (614400 + p.height)) }
{
    let room = width - 2 * margin;
    let skipped = skipped_by(align, room, widest);
    let columns = skipped + greater(u64::from(width), widest);
    let below = more as u64 * u64::from(heights.step);
    let rows = rows_of(below + u64::from(2 * margin), heights.rise, heights.depth);
    let height = at_least(1, rows);
    if columns > u64::from(WIDTH_LIMIT) || height > u64::from(HEIGHT_LIMIT) {
        return Err(JobFault::PictureLarge);
    }
    Ok(RowsPicture {
        width: columns as u32,
        height: height as u32,
        align,
        room,
        skipped: skipped as u32,
    })
}

/// The picture of rows in a box, whose room no row exceeds.
pub fn box_picture(width: u32, height: u32, margin: u32, align: Align) -> RowsPicture
    requires width { (2 * margin + 1 ≤ width) × (width ≤ width_limit) }
    requires height { (2 * margin + 1 ≤ height) × (height ≤ height_limit) }
    requires margin { margin ≤ margin_limit }
    ensures exact { result ≡ box_picture width height margin align }
    ensures within { IsWithin result }
    ensures rows { (w : ℕ) → w ≤ width - 2 * margin → start_of result w + w ≤ width }
{
    RowsPicture {
        width,
        height,
        align,
        room: width - 2 * margin,
        skipped: 0,
    }
}

/// Whether a row and `more` rows fit into the height of a box.
pub fn is_low(heights: RowHeights, more: usize, height: u32, margin: u32) -> bool
    requires heights { AreHeights heights }
    requires more { more ≤ text_limit }
    requires height { (2 * margin ≤ height) × (height ≤ height_limit) }
    requires margin { margin ≤ margin_limit }
    ensures { result ≡ is_low heights more height margin }
{
    let rows = rows_height(more, heights.step, heights.rise, heights.depth);
    rows <= i64::from(height - 2 * margin)
}

/// The distance of the first base line below the upper margin, where a row and `more` rows stand in the middle of a box.
pub fn first_rise(heights: RowHeights, more: usize, height: u32, margin: u32) -> i32
    requires heights { AreHeights heights }
    requires more { more ≤ text_limit }
    requires height { (2 * margin ≤ height) × (height ≤ height_limit) }
    requires margin { margin ≤ margin_limit }
    requires low { is_low heights more height margin ≡ true }
    ensures exact { result ≡ first_rise heights more height margin }
    ensures bound { unsigned_abs result ≤ 614400 + height }
    ensures last { (pos (more * heights.step) +ℤ result) ≤ℤ pos (614400 + height) }
{
    let rows = rows_height(more, heights.step, heights.rise, heights.depth);
    let first = first_base_line(height, margin, rows, heights.rise);
    (first - i64::from(margin)) as i32
}
