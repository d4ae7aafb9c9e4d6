//! The distance from a pen to the next. Apple TrueType Reference Manual, "Instructing TrueType Glyphs" (phantom points).

ghost use Rattle.std.specs.Prelude.{◌≡◌, ◌<◌, ◌≤◌, ◌^◌, unsigned_abs};
ghost use Rattle.tt_fit_outline.specs.Steps.{advance_left, pixels_of, step_of};
ghost use Rattle.tt_fit_outline.specs.Views.{outline_of};

use crate::outline::Outline;

/// A distance in whole pixels, a half up, and at least 0.
pub fn pixels_of(v: i64) -> u32
    requires { unsigned_abs v < 2 ^ 37 }
    ensures exact { result ≡ pixels_of v }
    ensures bound { unsigned_abs v ≤ 4194302 → result ≤ 65536 }
{
    ((v + 32).max(0) as u64 / 64) as u32
}

impl Outline {
    /// The distance of the advance's two ends, in 26.6 pixels.
    pub fn advance_left(&self) -> i32
        ensures exact { result ≡ advance_left (outline_of self.now) }
        ensures bound { unsigned_abs result ≤ 4194302 }
    {
        self.phantom[1].0 - self.phantom[0].0
    }

    /// The distance from the pen to the next, in whole pixels: that of the advance's two ends, a half up. No step is
    /// negative.
    pub fn step(&self) -> u32
        ensures exact { result ≡ step_of (outline_of self.now) }
        ensures bound { result ≤ 65536 }
    {
        pixels_of(i64::from(self.advance_left()))
    }
}
