//! A point's coordinates along an axis. Apple TrueType Reference Manual, "Instructing TrueType Glyphs" (touched points)
//! and "Graphics State" (vectors). Coordinates are in 26.6 pixels.

ghost use Rattle.std.specs.Prelude.{◌≡◌, ◌≤◌, unsigned_abs};
ghost use Rattle.tt_core.specs.Limits.{coordinate_limit};
ghost use Rattle.tt_points_zones.specs.Points as is;
ghost use Rattle.tt_points_zones.specs.Zones.{IsPoint};

use tt_core::COORDINATE_LIMIT;
use tt_state::{Axis, Point};

/// A point's current coordinate on an axis.
pub fn cur(p: Point, axis: Axis) -> i32
    requires { IsPoint p }
    ensures exact { result ≡ is.cur axis p }
    ensures bound { unsigned_abs result ≤ coordinate_limit }
{
    match axis {
        Axis::X => p.x,
        Axis::Y => p.y,
    }
}

/// A point's coordinate on an axis before the program.
pub fn org(p: Point, axis: Axis) -> i32
    requires { IsPoint p }
    ensures exact { result ≡ is.org axis p }
    ensures bound { unsigned_abs result ≤ coordinate_limit }
{
    match axis {
        Axis::X => p.org_x,
        Axis::Y => p.org_y,
    }
}

pub fn is_touched(p: Point, axis: Axis) -> bool
    ensures { result ≡ is.is_touched axis p }
{
    match axis {
        Axis::X => p.touched_x,
        Axis::Y => p.touched_y,
    }
}

/// Whether a coordinate is within the limit.
pub fn is_coordinate(v: i64) -> bool
    ensures { result ≡ is.is_coordinate v }
{
    let limit = i64::from(COORDINATE_LIMIT);
    -limit <= v && v <= limit
}
