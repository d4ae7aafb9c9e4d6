//! Distances to whole pixels. OpenType, "The 'glyf' table", "Composite Glyph Description" (ROUND_XY_TO_GRID), and Apple
//! TrueType Reference Manual, "Instructing TrueType Glyphs" (phantom points).

ghost use Rattle.std.specs.Prelude.{◌≡◌, ◌+◌, ◌<◌, ◌≤◌, ◌^◌, unsigned_abs};
ghost use Rattle.tt_fit_outline.specs.Grid.{rounded_to, up};

use tt_state::Round;

/// How a glyph's component offsets and phantom points are rounded to whole pixels.
#[derive(Clone, Copy)]
pub enum Grid {
    /// Offsets that request it, and phantom points before a program. Halves go away from zero.
    Away,
    /// The same, and the phantom points of a simple glyph without a program. Halves go up.
    Up,
    /// Nothing is rounded.
    Unrounded,
}

/// When distances are rounded to whole pixels.
#[derive(Clone, Copy)]
pub enum GridRule {
    /// Always, with halves away from zero.
    Always,
    /// Where hinting is on, with halves up.
    WhereHinted,
}

/// A distance to whole pixels, a half up.
fn up(v: i64) -> i64
    requires { unsigned_abs v < 2 ^ 40 }
    ensures exact { result ≡ up v }
    ensures bound { unsigned_abs result ≤ unsigned_abs v + 256 }
{
    (v + 32).div_euclid(64) * 64
}

impl Grid {
    /// A distance by this grid.
    pub fn rounded(self, v: i64) -> i64
        requires { unsigned_abs v < 2 ^ 40 }
        ensures exact { result ≡ rounded_to self v }
        ensures bound { unsigned_abs result ≤ unsigned_abs v + 256 }
    {
        match self {
            Grid::Away => Round::Grid.round(v),
            Grid::Up => up(v),
            Grid::Unrounded => v,
        }
    }
}
