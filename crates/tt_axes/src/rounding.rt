//! The rounding of quotients and deltas.

ghost use Rattle.std.specs.Prelude.{◌≡◌, ◌≢◌, ℕ, ◌*◌, ◌^◌, ◌<◌, ◌≤◌, pos, unsigned_abs};
ghost use Rattle.tt_axes.specs.Rounding.{product_quotient, sixty_fourths, whole_units};

use tt_core::{Halves, quotient, rq};

/// `a * b / c`, rounded to the nearest whole number, a half away from zero.
pub fn product_quotient(a: i64, b: i64, c: i64) -> i64
    requires product { unsigned_abs a * unsigned_abs b < 2 ^ 61 }
    requires divisor { unsigned_abs c < 2 ^ 61 }
    requires nonzero { c ≢ pos 0 }
    ensures exact { result ≡ product_quotient a b c }
    ensures within { (most : ℕ) → unsigned_abs a * unsigned_abs b ≤ unsigned_abs c * most → unsigned_abs result ≤ most }
{
    quotient(Halves::AwayFromZero, a * b, c)
}

/// A delta in 1/65536 font unit, in whole font units. A half goes up.
pub fn whole_units(delta: i64) -> i64
    requires { unsigned_abs delta < 2 ^ 61 }
    ensures exact { result ≡ whole_units delta }
    ensures within { (most : ℕ) → unsigned_abs delta ≤ 65536 * most → unsigned_abs result ≤ most }
{
    rq(delta, 65536)
}

/// A delta in 1/65536 font unit, in 1/64 font unit. A half goes up.
pub fn sixty_fourths(delta: i64) -> i64
    requires { unsigned_abs delta < 2 ^ 61 }
    ensures exact { result ≡ sixty_fourths delta }
    ensures within { (most : ℕ) → unsigned_abs delta ≤ 1024 * most → unsigned_abs result ≤ most }
{
    rq(delta, 1024)
}
