//! Distances before they are rounded, in 26.6 pixels.

ghost use Rattle.std.specs.Prelude.{◌≡◌, ◌<◌, ◌^◌, unsigned_abs};

/// A distance before it is rounded: measured between points, from the stack, or from the control value table.
#[derive(Clone, Copy)]
pub(crate) struct Unrounded {
    pub(crate) distance: i64,
    ghost few: { unsigned_abs distance < 2 ^ 32 },
}

impl Unrounded {
    /// A distance from the stack or from the control value table.
    pub(crate) fn given(d: i32) -> Unrounded
        ensures { result.distance ≡ d }
    {
        Unrounded {
            distance: i64::from(d),
        }
    }
}
