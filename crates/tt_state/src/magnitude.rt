//! Magnitudes of distances to be rounded, in 26.6 pixels.

ghost use Rattle.std.specs.Prelude.{◌<◌, ◌^◌, pos, ◌≤ℤ◌, unsigned_abs};

/// The magnitude of a distance, 0 or more.
#[derive(Clone, Copy)]
pub(crate) struct Magnitude {
    pub(crate) size: i64,
    ghost small: { unsigned_abs size < 2 ^ 41 },
    ghost sign: { pos 0 ≤ℤ size },
}
