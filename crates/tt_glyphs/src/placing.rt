//! The place of a glyph by the box of its ink, and the bytes of its rows.

ghost use Rattle.std.specs.Prelude.{◌≡◌, ◌<◌, ◌≤◌, ◌^◌, ◌+◌, ◌-ℤ◌, unsigned_abs, IfSome};
ghost use Rattle.tt_core.specs.Bits.{stride};
ghost use Rattle.tt_core.specs.Limits.{height_limit, width_limit};
ghost use Rattle.tt_glyphs.specs.Bitmaps.{IsPlace, is_large, place_bytes, place_of};
ghost use Rattle.tt_scan_ink.specs.Least.{IsNear};

use crate::place::InkPlace;
use tt_bitmap::LeastBox;
use tt_core::{HEIGHT_LIMIT, WIDTH_LIMIT};

/// How many columns or rows there are from one to another, both included.
fn count(first: i64, last: i64) -> u32
    requires first { unsigned_abs first < 2 ^ 18 }
    requires last { unsigned_abs last < 2 ^ 18 }
    ensures exact { result ≡ unsigned_abs (last -ℤ first) + 1 }
    ensures small { result < 2 ^ 20 }
{
    (last - first).unsigned_abs() as u32 + 1
}

/// The place of the ink in a box; four zeros without a box.
pub(crate) fn place_of(ink: Option<LeastBox>) -> InkPlace
    requires { IfSome ink IsNear }
    ensures exact { result ≡ place_of ink }
    ensures placed { IsPlace result }
    ensures width { result.width < 2 ^ 20 }
    ensures height { result.height < 2 ^ 20 }
{
    match ink {
        None => InkPlace {
            left: 0,
            top: 0,
            width: 0,
            height: 0,
        },
        Some(ink) => InkPlace {
            left: ink.left as i32,
            top: (ink.top + 1) as i32,
            width: count(ink.left, ink.right),
            height: count(ink.bottom, ink.top),
        },
    }
}

/// Whether a bitmap is wider or higher than a picture may be.
pub(crate) fn is_large(place: InkPlace) -> bool
    ensures { result ≡ is_large place }
{
    place.width > WIDTH_LIMIT || place.height > HEIGHT_LIMIT
}

/// The bytes of a row of pixels.
pub(crate) fn row_bytes(width: u32) -> usize
    requires { width ≤ width_limit }
    ensures exact { result ≡ stride width }
    ensures small { result ≤ 2048 }
{
    (width as usize).div_ceil(8)
}

/// The bytes of all rows of a bitmap.
pub(crate) fn place_bytes(place: InkPlace) -> usize
    requires width { place.width ≤ width_limit }
    requires height { place.height ≤ height_limit }
    ensures exact { result ≡ place_bytes place }
    ensures small { result ≤ 2 ^ 23 }
{
    row_bytes(place.width) * place.height as usize
}
