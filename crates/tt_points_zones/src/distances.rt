//! Distances along an axis, in 26.6 pixels. Apple TrueType Reference Manual, "Instructing TrueType Glyphs".

ghost use Rattle.std.specs.Prelude.{◌≡◌, ◌<◌, ◌≤◌, ◌^◌, ◌-ℤ◌, ◌*ℤ◌, unsigned_abs};
ghost use Rattle.tt_core.specs.Limits.{coordinate_limit};

/// A distance in 26.6 pixels.
#[derive(Clone, Copy)]
pub struct Distance(pub i64);

/// The distance from a coordinate to another.
pub fn distance_between(from: i32, to: i32) -> Distance
    requires from { unsigned_abs from ≤ coordinate_limit }
    requires to { unsigned_abs to ≤ coordinate_limit }
    ensures exact { result.0 ≡ to -ℤ from }
    ensures few { unsigned_abs result.0 < 2 ^ 22 }
{
    Distance(i64::from(to) - i64::from(from))
}

/// `a * b`.
pub fn product(a: Distance, b: Distance) -> i64
    requires a { unsigned_abs a.0 < 2 ^ 23 }
    requires b { unsigned_abs b.0 < 2 ^ 23 }
    ensures exact { result ≡ a.0 *ℤ b.0 }
    ensures few { unsigned_abs result < 2 ^ 46 }
{
    a.0 * b.0
}
