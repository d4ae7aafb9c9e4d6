//! The points of an outline, moved to the glyph's position.

ghost use Rattle.std.specs.Prelude.{◌≡◌};
ghost use Rattle.tt_arc.specs.Chords.{moved, IsNear, PointFits};

/// A point of a glyph at its position, in 26.6.
#[derive(Clone, Copy)]
pub(crate) struct PlacedPoint {
    pub(crate) x: i64,
    pub(crate) y: i64,
    /// Whether the point is on the curve.
    pub(crate) on: bool,
}

/// A point of a contour, between its neighbours.
#[derive(Clone, Copy)]
pub(crate) struct Corner {
    pub(crate) before: PlacedPoint,
    pub(crate) point: PlacedPoint,
    pub(crate) after: PlacedPoint,
    pub(crate) ghost before_fits: { PointFits before },
    pub(crate) ghost point_fits: { PointFits point },
    pub(crate) ghost after_fits: { PointFits after },
}

/// The offset of a glyph from its outline's own position, in 26.6.
#[derive(Clone, Copy)]
pub(crate) struct Offset {
    /// Rightwards.
    pub(crate) dx: i64,
    /// Upwards.
    pub(crate) dy: i64,
}

/// A point of an outline (x, y, and whether it is on the curve), moved to the glyph's position.
#[inline(always)]
pub(crate) fn moved(point: (i32, i32, bool), by: Offset) -> PlacedPoint
    requires { IsNear by.dx by.dy point }
    ensures { result ≡ moved by.dx by.dy point }
{
    let (x, y, on) = point;
    PlacedPoint {
        x: i64::from(x) + by.dx,
        y: i64::from(y) + by.dy,
        on,
    }
}
