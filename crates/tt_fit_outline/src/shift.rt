//! A component's shift, and a point of the component before it is moved. Their sum is not yet tested against the limit of
//! a coordinate.

ghost use Rattle.std.specs.Prelude.{◌<◌, ◌≤◌, ◌^◌, unsigned_abs};

/// A component's point under the transform, in 26.6 pixels.
#[derive(Clone, Copy)]
pub(crate) struct ComponentPoint {
    pub(crate) x: i64,
    pub(crate) y: i64,
    ghost x_fits: { unsigned_abs x ≤ 2 ^ 47 },
    ghost y_fits: { unsigned_abs y ≤ 2 ^ 47 },
}

/// A component's shift, in 26.6 pixels.
#[derive(Clone, Copy)]
pub(crate) struct Shift {
    pub(crate) x: i64,
    pub(crate) y: i64,
    ghost x_fits: { unsigned_abs x < 2 ^ 48 },
    ghost y_fits: { unsigned_abs y < 2 ^ 48 },
}
