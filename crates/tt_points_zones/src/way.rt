//! The way from a place to another, in 26.6 pixels.

ghost use Rattle.std.specs.Prelude.{◌≢◌, ◌<◌, ◌^◌, pos, unsigned_abs};

use crate::distances::Distance;

/// The way from a place to another.
#[derive(Clone, Copy)]
pub(crate) struct Way {
    pub(crate) x: Distance,
    pub(crate) y: Distance,
    ghost few_x: { unsigned_abs x.0 < 2 ^ 22 },
    ghost few_y: { unsigned_abs y.0 < 2 ^ 22 },
}

/// The fraction `n / d` of a way.
#[derive(Clone, Copy)]
pub(crate) struct Fraction {
    pub(crate) n: i64,
    pub(crate) d: i64,
    ghost few_n: { unsigned_abs n < 2 ^ 47 },
    ghost few_d: { unsigned_abs d < 2 ^ 47 },
    ghost nonzero: { d ≢ pos 0 },
}
