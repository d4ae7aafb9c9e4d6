//! Quotients rounded by either rule for halves.

ghost use Rattle.std.specs.Prelude.{◌≡◌, ◌≢◌, ℕ, ◌*◌, ◌^◌, ◌<◌, ◌≤◌, pos, unsigned_abs};
ghost use Rattle.tt_core.specs.Scales.{quotient};

use crate::number::rq;

/// How halves are rounded.
#[derive(Clone, Copy, Debug, PartialEq, Eq)]
pub enum Halves {
    Up,
    AwayFromZero,
}

/// `n / d` rounded to the nearest whole number.
#[inline(always)]
pub fn quotient(halves: Halves, n: i64, d: i64) -> i64
    requires numerator { unsigned_abs n < 2 ^ 61 }
    requires denominator { unsigned_abs d < 2 ^ 61 }
    requires nonzero { d ≢ pos 0 }
    ensures exact { result ≡ quotient halves n d }
    ensures bound { unsigned_abs result ≤ unsigned_abs n }
    ensures within { (most : ℕ) → unsigned_abs n ≤ unsigned_abs d * most → unsigned_abs result ≤ most }
{
    match halves {
        Halves::Up => rq(n, d),
        Halves::AwayFromZero => {
            let magnitude = rq(n.abs(), d.abs());
            if (n < 0) == (d < 0) {
                magnitude
            } else {
                -magnitude
            }
        }
    }
}
