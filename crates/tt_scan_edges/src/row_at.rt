//! A row of a frame.

ghost use Rattle.std.specs.Prelude.{◌≡◌, ◌^◌, ◌<◌, ◌<ℤ◌, ◌≤ℤ◌, pos, unsigned_abs};
ghost use Rattle.tt_scan_edges.specs.Winding.{FrameFits, row_y};

use crate::edge::Frame;
use crate::quotient::{HALF, PIXEL};

/// A row of a frame, and the height of its centres in 1/8192 pixel.
#[derive(Clone, Copy)]
pub struct RowAt {
    pub frame: Frame,
    pub r: i32,
    pub y: i64,
    pub ghost fits: { FrameFits frame },
    pub ghost low: { pos 0 ≤ℤ r },
    pub ghost high: { r <ℤ pos frame.height },
    pub ghost height: { y ≡ row_y frame r },
}

/// The height of the centres of a row, in 1/8192 pixel.
fn row_height(frame: Frame, row: i64) -> i64
    requires frame { FrameFits frame }
    requires low { pos 0 ≤ℤ row }
    requires high { row <ℤ pos frame.height }
    ensures exact { result ≡ row_y frame row }
    ensures small { unsigned_abs result < 2 ^ 35 }
{
    PIXEL * (i64::from(frame.rise) + i64::from(frame.margin) - row) - HALF
}

impl RowAt {
    /// Row `r` of a frame.
    #[inline(always)]
    pub fn of(frame: Frame, r: i64) -> RowAt
        requires frame { FrameFits frame }
        requires low { pos 0 ≤ℤ r }
        requires high { r <ℤ pos frame.height }
        ensures frame { result.frame ≡ frame }
        ensures row { result.r ≡ r }
    {
        RowAt {
            frame,
            r: r as i32,
            y: row_height(frame, r),
        }
    }
}
