//! Floor division. Its numbers may be negative.

ghost use Rattle.std.specs.Prelude.{◌≡◌, ℤ, ◌+◌, ◌^◌, ◌<◌, ◌≤◌, ◌&&◌, pos, int_le, ◌+ℤ◌, ◌*ℤ◌, ◌<ℤ◌, ◌≤ℤ◌, unsigned_abs, IfSome};
ghost use Rattle.tt_scan_edges.specs.Crossing.{spans};

/// A pixel, in 1/8192 pixel.
pub(crate) const PIXEL: i64 = 8192;

/// From a border of a pixel to its centre, in 1/8192 pixel.
pub(crate) const HALF: i64 = PIXEL / 2;

/// The floor of a quotient, and the rest: not negative, and less than the divisor.
#[derive(Clone, Copy)]
pub(crate) struct Quotient {
    pub(crate) whole: i64,
    pub(crate) rest: i64,
}

/// `n / d` rounded toward 0, and the rest, with the sign of `n`.
#[inline(always)]
fn truncated(n: i64, d: i64) -> Quotient
    requires divisor { pos 2 ≤ℤ d }
    ensures exact { d *ℤ result.whole +ℤ result.rest ≡ n }
    ensures near { unsigned_abs result.rest < unsigned_abs d }
    ensures small { unsigned_abs result.whole ≤ 2 ^ 62 }
{
    Quotient {
        whole: n / d,
        rest: n % d,
    }
}

/// The floor of `n / d`, and the rest.
#[inline(always)]
pub(crate) fn divided(n: i64, d: i64) -> Quotient
    requires divisor { pos 2 ≤ℤ d }
    ensures exact { d *ℤ result.whole +ℤ result.rest ≡ n }
    ensures low { pos 0 ≤ℤ result.rest }
    ensures high { result.rest <ℤ d }
    ensures small { unsigned_abs result.whole ≤ 2 ^ 62 + 1 }
{
    let cut = truncated(n, d);
    if cut.rest < 0 {
        Quotient {
            whole: cut.whole - 1,
            rest: cut.rest + d,
        }
    } else {
        cut
    }
}

/// The whole pixels in `n`, which is in 1/8192 pixel: the floor.
#[inline(always)]
pub(crate) fn whole_pixels(n: i64) -> i64
    ensures low { (pos 8192 *ℤ result) ≤ℤ n }
    ensures high { n <ℤ (pos 8192 *ℤ (result +ℤ pos 1)) }
{
    n >> 13
}

/// `a * b`, with a contract that names the product of integers.
#[inline(always)]
pub(crate) fn product(a: i64, b: i64) -> i64
    requires left { unsigned_abs a < 2 ^ 31 }
    requires right { unsigned_abs b < 2 ^ 31 }
    ensures exact { result ≡ a *ℤ b }
    ensures bound { unsigned_abs result < 2 ^ 62 }
{
    a * b
}

/// The first and the last whole number of pixels from `low` to `high`, which are in 1/8192 pixel; None where there is
/// none.
#[inline(always)]
pub(crate) fn pixels_between(low: i64, high: i64) -> Option<(i64, i64)>
    requires low { unsigned_abs low < 2 ^ 36 }
    requires high { unsigned_abs high < 2 ^ 36 }
    ensures exact { (k : ℤ) → spans result k ≡ (int_le low (pos 8192 *ℤ k) && int_le (pos 8192 *ℤ k) high) }
    ensures order { IfSome result (λ t. t.0 ≤ℤ t.1) }
    ensures first { IfSome result (λ t. unsigned_abs t.0 < 2 ^ 24) }
    ensures last { IfSome result (λ t. unsigned_abs t.1 < 2 ^ 24) }
{
    let first = whole_pixels(low + (PIXEL - 1));
    let last = whole_pixels(high);
    if first <= last {
        Some((first, last))
    } else {
        None
    }
}
