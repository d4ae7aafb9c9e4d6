//! From 64ths of a font unit to 26.6 pixels. Apple TrueType Reference Manual, "Digitizing Letterform Designs".

ghost use Rattle.std.specs.Prelude.{◌≡◌, ◌*◌, ◌*ℤ◌, ◌^◌, ◌<◌, ◌≤◌, pos, unsigned_abs};
ghost use Rattle.tt_core.specs.Scales.{IsScale};
ghost use Rattle.tt_fit_variation.specs.Fine.{fine_scaled, scaled_twice, varied_control_value};

use tt_core::{Halves, Scale, quotient, rq};
use tt_deltas::{Varied, moved_control_value};

/// `u` times `pixels`.
fn product(u: i64, pixels: u32) -> i64
    requires u { unsigned_abs u ≤ 2 ^ 24 }
    requires pixels { pixels < 2 ^ 27 }
    ensures exact { result ≡ u *ℤ pos pixels }
    ensures bound { unsigned_abs result ≤ 2 ^ 51 }
{
    u * i64::from(pixels)
}

/// A number divided, and then rounded to a 64th of it: halves go away from zero, and then up.
fn scaled_twice(n: i64, units: u32) -> i64
    requires number { unsigned_abs n ≤ 2 ^ 51 }
    requires units { 0 < units }
    ensures exact { result ≡ scaled_twice n units }
    ensures bound { unsigned_abs result ≤ 2 ^ 52 }
{
    (quotient(Halves::AwayFromZero, n, i64::from(units)) + 32).div_euclid(64)
}

/// A distance in 1/64 of a font unit as 26.6.
pub(crate) fn fine_scaled(scale: Scale, u: i64) -> i64
    requires valid { IsScale scale }
    requires near { unsigned_abs u ≤ 2 ^ 24 }
    ensures exact { result ≡ fine_scaled scale u }
    ensures bound { unsigned_abs result ≤ 2 ^ 52 }
{
    let n = product(u, scale.pixels);
    match scale.halves {
        Halves::Up => rq(n, 64 * i64::from(scale.units)),
        Halves::AwayFromZero => scaled_twice(n, scale.units),
    }
}

/// A control value at an instance as 26.6, by the scale of control values.
pub fn varied_control_value(scale: Scale, value: Varied) -> i64
    requires valid { IsScale scale }
    requires near { unsigned_abs value.delta ≤ 2 ^ 46 }
    ensures exact { result ≡ varied_control_value scale value }
    ensures bound { unsigned_abs result ≤ 1200 * 32768 }
{
    let n = product(i64::from(moved_control_value(value)), scale.pixels);
    quotient(scale.halves, n, 64 * i64::from(scale.units))
}
