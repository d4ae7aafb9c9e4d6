//! Distances of a font in whole pixels. Apple TrueType Reference Manual, "The 'hhea' table" and "The 'hmtx' table".

ghost use Rattle.std.specs.Prelude.{◌≡◌, ℕ, ◌+◌, ◌*◌, ◌<◌, ◌≤◌, ◌^◌, ◌+ℤ◌, ◌*ℤ◌, ◌≤ℤ◌, pos, unsigned_abs};
ghost use Rattle.tt_core.specs.Limits.{size_limit};
ghost use Rattle.tt_core.specs.Numbers.{rounded_quotient};
ghost use Rattle.tt_line.specs.Layout.{ceiling_quotient, advance_in_pixels, depth_of, in_rows, rise_of, units_in_pixels};
ghost use Rattle.tt_line.specs.Steps.{at_least, step_in_pixels, step_of_units};
ghost use Rattle.tt_metrics.specs.Head.{smallest_em};
ghost use Rattle.tt_metrics.specs.Metrics.{advance_of, glyphs_of};

use tt_core::rq;
use tt_metrics::{Heights, Metrics};

/// The advance of a glyph at `ppem` pixels per em, rounded to the nearest pixel.
pub fn advance(metrics: &Metrics, ppem: u32, glyph: u16) -> u32
    requires size { ppem ≤ size_limit }
    requires known { glyph < glyphs_of metrics.now }
    ensures exact { result ≡ advance_in_pixels metrics.now ppem glyph }
    ensures bound { result < 2 ^ 25 }
{
    units_in_pixels(metrics, ppem, metrics.advance(glyph))
}

/// An advance in font units at `ppem` pixels per em, rounded to the nearest pixel.
pub fn units_in_pixels(metrics: &Metrics, ppem: u32, units: u16) -> u32
    requires size { ppem ≤ size_limit }
    ensures exact { result ≡ units_in_pixels metrics.now ppem units }
    ensures bound { result < 2 ^ 25 }
{
    let units = u32::from(units);
    rq(i64::from(units * ppem), i64::from(metrics.units_per_em())) as u32
}

/// The pixels from the pen of a glyph to the next, with so many font units of kerning. The sum of advance and kerning is
/// rounded once. A step is never negative, so no pen is left of a pen before it.
pub fn step(metrics: &Metrics, ppem: u32, glyph: u16, kerning: i32) -> u32
    requires size { ppem ≤ size_limit }
    requires known { glyph < glyphs_of metrics.now }
    requires kerning { unsigned_abs kerning ≤ 2 ^ 20 }
    ensures exact { result ≡ step_in_pixels metrics.now ppem glyph kerning }
    ensures bound { result < 2 ^ 25 }
{
    step_of_units(metrics, ppem, metrics.advance(glyph), kerning)
}

/// The pixels from a pen to the next, by an advance and a kerning in font units. Their sum is rounded once. A step is
/// never negative.
pub fn step_of_units(metrics: &Metrics, ppem: u32, units: u16, kerning: i32) -> u32
    requires size { ppem ≤ size_limit }
    requires kerning { unsigned_abs kerning ≤ 2 ^ 20 }
    ensures exact { result ≡ step_of_units metrics.now ppem units kerning }
    ensures bound { result < 2 ^ 25 }
{
    let units = i32::from(units) + kerning;
    rounded(i64::from(scaled(units, ppem)), metrics.units_per_em())
}

/// Font units at a size, before they are divided by the units of an em.
fn scaled(units: i32, ppem: u32) -> i32
    requires units { unsigned_abs units ≤ 2 ^ 20 + 2 ^ 16 }
    requires size { ppem ≤ size_limit }
    ensures exact { result ≡ units *ℤ pos ppem }
    ensures bound { unsigned_abs result + 16 ≤ 2 ^ 29 }
    ensures small { unsigned_abs units ≤ 2 ^ 15 → unsigned_abs result ≤ size_limit * 2 ^ 15 }
{
    units * ppem as i32
}

/// A number, or `low` where that is more.
pub(crate) fn at_least(low: u32, n: i64) -> u64
    ensures exact { result ≡ at_least low n }
    ensures low { low ≤ result }
    ensures least { n ≤ℤ pos result }
    ensures high { result ≤ low + unsigned_abs n }
{
    if n < i64::from(low) {
        return u64::from(low);
    }
    n.unsigned_abs()
}

/// Pixels rounded to the nearest; 0 where they are negative.
pub(crate) fn rounded(units: i64, em: u16) -> u32
    requires units { unsigned_abs units + 16 ≤ 2 ^ 29 }
    requires em { smallest_em ≤ em }
    ensures exact { result ≡ at_least 0 (rounded_quotient units (pos em)) }
    ensures within { (most : ℕ) → unsigned_abs units ≤ em * most → result ≤ most }
{
    at_least(0, rq(units, i64::from(em))) as u32
}

/// Pixels from the base line up to the ascent.
pub fn rise(metrics: &Metrics, ppem: u32) -> i32
    requires size { ppem ≤ size_limit }
    ensures exact { result ≡ rise_of metrics.now ppem }
    ensures bound { unsigned_abs result ≤ 614400 }
{
    let ascent = i32::from(metrics.ascent());
    rows(metrics.heights(), ascent, ppem, metrics.units_per_em())
}

/// Pixels from the base line down to the descent.
pub fn depth(metrics: &Metrics, ppem: u32) -> i32
    requires size { ppem ≤ size_limit }
    ensures exact { result ≡ depth_of metrics.now ppem }
    ensures bound { unsigned_abs result ≤ 614400 }
{
    let descent = -i32::from(metrics.descent());
    rows(metrics.heights(), descent, ppem, metrics.units_per_em())
}

/// Font units as rows.
fn rows(heights: Heights, units: i32, ppem: u32, em: u16) -> i32
    requires units { unsigned_abs units ≤ 2 ^ 15 }
    requires size { ppem ≤ size_limit }
    requires em { smallest_em ≤ em }
    ensures exact { result ≡ in_rows heights (units *ℤ pos ppem) (pos em) }
    ensures bound { unsigned_abs result ≤ 614400 }
{
    let n = scaled(units, ppem);
    let d = i32::from(em);
    match heights {
        Heights::Exact => ceiling(n, d),
        Heights::Rounded => nearest(n, d),
    }
}

/// `n / d` rounded to the nearest whole number, a half upwards.
fn nearest(n: i32, d: i32) -> i32
    requires numerator { unsigned_abs n ≤ size_limit * 2 ^ 15 }
    requires denominator { pos smallest_em ≤ℤ d }
    ensures exact { result ≡ rounded_quotient n d }
    ensures bound { unsigned_abs result ≤ 614400 }
{
    rq(i64::from(n), i64::from(d)) as i32
}

/// `n / d` rounded up.
fn ceiling(n: i32, d: i32) -> i32
    requires numerator { unsigned_abs n ≤ size_limit * 2 ^ 15 }
    requires denominator { pos smallest_em ≤ℤ d }
    ensures exact { result ≡ ceiling_quotient n d }
    ensures bound { unsigned_abs result ≤ 614400 }
{
    -(-n).div_euclid(d)
}
