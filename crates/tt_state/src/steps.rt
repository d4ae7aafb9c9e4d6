//! A move along both axes, in 26.6 pixels.

ghost use Rattle.std.specs.Prelude.{◌<◌, ◌^◌, unsigned_abs};

/// A move along x and along y.
#[derive(Clone, Copy)]
pub struct Steps {
    pub x: i64,
    pub y: i64,
    pub ghost few_x: { unsigned_abs x < 2 ^ 62 },
    pub ghost few_y: { unsigned_abs y < 2 ^ 62 },
}
